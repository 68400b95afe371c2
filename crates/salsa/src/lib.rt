// The Salsa20 core on sixteen words, and words in lent bytes, each at its place, as in `lent`.
#![tactic(auto)]

ghost use Rattle.std.specs.Prelude.{◌≡◌, ◌+◌, ◌≤◌, ◌<◌, length};
ghost use Rattle.std.proofs.lemmas.List.Edits.{sets};
ghost use Rattle.lent.specs.Bytes.{part};
ghost use Rattle.salsa.specs.Salsa as spec;
ghost use Rattle.salsa.specs.Salsa.{salsa, words, bytes};

use lent::LittleEndian;

// x[d] ^= R(x[a] + x[b], k)
#[tactic(auto, using(lent::proofs::Words::rotl_is), unfolding(crate::specs::Salsa::step))]
fn step(x: [u32; 16], d: usize, a: usize, b: usize, k: u32) -> [u32; 16]
    requires { (d < 16) × (a < 16) × (b < 16) × (0 < k) × (k < 32) }
    ensures { result ≡ spec.step x d a b k }
{
    let mut y = x;
    y[d] ^= y[a].wrapping_add(y[b]).rotate_left(k);
    y
}

#[tactic(auto, unfolding(crate::specs::Salsa::quarter))]
fn quarter(x: [u32; 16], a: usize, b: usize, c: usize, d: usize) -> [u32; 16]
    requires { (a < 16) × (b < 16) × (c < 16) × (d < 16) }
    ensures { result ≡ spec.quarter x a b c d }
{
    let y = step(x, b, a, d, 7);
    let y = step(y, c, b, a, 9);
    let y = step(y, d, c, b, 13);
    step(y, a, d, c, 18)
}

// The two rounds differ in the places that the RFC lists, and have its lists.
#[tactic(auto, unfolding(crate::specs::Salsa::columns))]
fn columns(x: [u32; 16]) -> [u32; 16]
    ensures { result ≡ spec.columns x }
{
    let y = quarter(x, 0, 4, 8, 12);
    let y = quarter(y, 5, 9, 13, 1);
    let y = quarter(y, 10, 14, 2, 6);
    quarter(y, 15, 3, 7, 11)
}

#[tactic(auto, unfolding(crate::specs::Salsa::rows))]
fn rows(x: [u32; 16]) -> [u32; 16]
    ensures { result ≡ spec.rows x }
{
    let y = quarter(x, 0, 1, 2, 3);
    let y = quarter(y, 5, 6, 7, 4);
    let y = quarter(y, 10, 11, 8, 9);
    quarter(y, 15, 12, 13, 14)
}

// The Salsa20/8 core: four double rounds, one to the next, the form that docs/DECISIONS.md names.
#[tactic(auto, unfolding(crate::specs::Salsa::salsa, crate::specs::Salsa::doubles, crate::specs::Salsa::added))]
pub fn core(x: [u32; 16]) -> [u32; 16]
    ensures { result ≡ salsa 8 x }
{
    let a = rows(columns(x));
    let b = rows(columns(a));
    let c = rows(columns(b));
    let d = rows(columns(c));
    lent::sums(&d, &x)
}

// The sixteen words of the 64 bytes at place at.
pub fn load(s: &[u8], at: usize) -> [u32; 16]
    requires { at + 64 ≤ length s.now }
    ensures { result ≡ words 16 (part at 64 s.now) }
{
    lent::load::<LittleEndian, 16>(s, at)
}

// Writes the sixteen words as 64 bytes at place at.
pub fn store(s: &mut [u8], at: usize, x: [u32; 16])
    requires { at + 64 ≤ length s.old }
    ensures { s.new ≡ sets s.old at (bytes x) }
{
    lent::store::<LittleEndian, 16>(s, at, &x);
}
