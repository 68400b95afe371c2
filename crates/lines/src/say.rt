// Display of bytes, and of a buffer that was lent.
ghost use Rattle.std.specs.Prelude.{◌≡◌, Some};
ghost use Rattle.std.specs.Fmt.{WritesOnOk};
ghost use Rattle.lines.specs.Said.{digit_pair, full_of, hex_text, left_text};

use std::fmt;

// What a buffer is full of before it is lent. The definitions in specs/ have the number itself.
pub const BEFORE: u8 = 0xa5;

// A byte's two digits in lower hexadecimal.
#[tactic(auto, using(crate::proofs::Digits::written))]
fn digit_pair<W: fmt::Write>(b: u8, f: &mut fmt::Formatter<W>) -> fmt::Result
    ensures { WritesOnOk W.Write.write_str_gives f.old result (digit_pair b) f.new }
{
    write!(f, "{b:02x}")
}

// Bytes in lower hexadecimal, and a dash for none.
#[derive(Clone, Copy)]
pub struct Hex<'a>(pub &'a [u8]);

impl fmt::Display for Hex<'_> {
    ghost output = { λ h. Some (hex_text h.0.now) };

    fn fmt<W: fmt::Write>(&self, f: &mut fmt::Formatter<W>) -> fmt::Result {
        if self.0.is_empty() {
            return f.write_str("-");
        }
        for b in self.0 {
            digit_pair(*b, f)?;
        }
        Ok(())
    }
}

// Whether every byte is b.
fn full_of(b: u8, bytes: &[u8]) -> bool
    ensures { result ≡ full_of b bytes.now }
{
    bytes.iter().all(|x| *x == b)
}

// What became of a buffer that was full of BEFORE: every byte is zero, each is kept, or else the bytes it has now.
#[derive(Clone, Copy)]
pub struct Left<'a>(pub &'a [u8]);

impl fmt::Display for Left<'_> {
    ghost output = { λ h. Some (left_text h.0.now) };

    fn fmt<W: fmt::Write>(&self, f: &mut fmt::Formatter<W>) -> fmt::Result {
        if full_of(0, self.0) {
            f.write_str("zero")
        } else if full_of(BEFORE, self.0) {
            f.write_str("kept")
        } else {
            Hex(self.0).fmt(f)
        }
    }
}
