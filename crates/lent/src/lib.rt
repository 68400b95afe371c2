// Lent bytes: reading a part, writing into a place, and words in bytes. Every function says what the
// whole lent slice is when it returns, as one definition of what it was, so that callers compose
// them by rewriting and nothing else can have changed. So a place stands beside the slice, in what
// writes and in what reads (docs/DECISIONS.md, "The ground").
#![tactic(auto)]

ghost use Rattle.std.specs.Prelude.{◌≡◌, ◌+◌, ◌-◌, ◌*◌, ◌++◌, ◌≤◌, ℕ, List, length, get_or};
ghost use Rattle.std.proofs.lemmas.List.Edits.{sets};
ghost use Rattle.lent.specs.Bytes.{part, Apart, zeros, tab, joined, xors, eqs};
ghost use Rattle.lent.specs.Word.{plus, le, be, of_le, of_be};

// Writes src into s from place at on. No `copy_from_slice`: by it the library for C wants `memmove` of whoever links it.
pub fn copy(s: &mut [u8], at: usize, src: &[u8])
    requires { at + length src.now ≤ length s.old }
    ensures { s.new ≡ sets s.old at src.now }
{
    for i in 0..src.len() {
        s[at + i] = src[i];
    }
}

// Writes the n bytes at place from over those at place to, which lie apart.
pub fn copy_within(s: &mut [u8], from: usize, to: usize, n: usize)
    requires { (from + n ≤ length s.old) × (to + n ≤ length s.old) × Apart n from to }
    ensures { s.new ≡ sets s.old to (part from n s.old) }
{
    s.copy_within(from..from + n, to);
}

// The n bytes at place to become the exclusive or of those at places a and b, which lie apart from it.
pub fn xor_to(s: &mut [u8], a: usize, b: usize, to: usize, n: usize)
    requires { (a + n ≤ length s.old) × (b + n ≤ length s.old) × (to + n ≤ length s.old) × Apart n a to × Apart n b to }
    ensures { s.new ≡ sets s.old to (xors (part a n s.old) (part b n s.old)) }
{
    for i in 0..n {
        s[to + i] = s[a + i] ^ s[b + i];
    }
}

// Wipes the n bytes at place at to zero.
pub fn wipe(s: &mut [u8], at: usize, n: usize)
    requires { at + n ≤ length s.old }
    ensures { s.new ≡ sets s.old at (zeros n) }
{
    s[at..at + n].fill(0);
}

// Wipes all of it.
pub fn wipe_all(s: &mut [u8])
    ensures { s.new ≡ zeros (length s.old) }
{
    s.fill(0);
}

// Whether a and b hold the same bytes. No `==`, which may stop at the first difference: every pair is
// looked at (docs/DECISIONS.md, "The ground").
pub fn same(a: &[u8], b: &[u8]) -> bool
    ensures { result ≡ eqs a.now b.now }
{
    if a.len() != b.len() {
        return false;
    }
    let mut d = 0u8;
    for (x, y) in a.iter().zip(b) {
        d |= x ^ y;
    }
    d == 0
}

// s at the front of N bytes, zeros behind it.
pub fn padded<const N: usize>(s: &[u8]) -> [u8; N]
    requires { length s.now ≤ N }
    ensures { result ≡ s.now ++ zeros (N - length s.now) }
{
    let mut b = [0u8; N];
    copy(&mut b, 0, s);
    b
}

// An order of the bytes in a word: the number that bytes say, and the bytes of a number.
pub trait Order {
    ghost said: { List ℕ → ℕ };

    ghost written: { ℕ → ℕ → List ℕ };

    fn word(b: [u8; 4]) -> u32
        ensures { result ≡ said b };

    fn four(x: u32) -> [u8; 4]
        ensures { result ≡ written 4 x };
}

// The lowest byte first.
pub struct LittleEndian;

// The highest byte first.
pub struct BigEndian;

impl Order for LittleEndian {
    ghost said = { of_le };

    ghost written = { le };

    fn word(b: [u8; 4]) -> u32 {
        u32::from_le_bytes(b)
    }

    fn four(x: u32) -> [u8; 4] {
        x.to_le_bytes()
    }
}

impl Order for BigEndian {
    ghost said = { of_be };

    ghost written = { be };

    fn word(b: [u8; 4]) -> u32 {
        u32::from_be_bytes(b)
    }

    fn four(x: u32) -> [u8; 4] {
        x.to_be_bytes()
    }
}

// The word that the four bytes at place at say.
pub fn get<O: Order>(s: &[u8], at: usize) -> u32
    requires { at + 4 ≤ length s.now }
    ensures { result ≡ O.said (part at 4 s.now) }
{
    O::word([s[at], s[at + 1], s[at + 2], s[at + 3]])
}

// Writes x as four bytes at place at.
pub fn put<O: Order>(s: &mut [u8], at: usize, x: u32)
    requires { at + 4 ≤ length s.old }
    ensures { s.new ≡ sets s.old at (O.written 4 x) }
{
    copy(s, at, &O::four(x));
}

// The N words from place at on.
pub fn load<O: Order, const N: usize>(s: &[u8], at: usize) -> [u32; N]
    requires { at + 4 * N ≤ length s.now }
    ensures { result ≡ tab N (λ i. O.said (part (at + 4 * i) 4 s.now)) }
{
    let mut x = [0u32; N];
    for i in 0..N {
        x[i] = get::<O>(s, at + 4 * i);
    }
    x
}

// Writes N words from place at on. By `four` and no `put`: how long its answer is, is in the type.
pub fn store<O: Order, const N: usize>(s: &mut [u8], at: usize, x: &[u32; N])
    requires { at + 4 * N ≤ length s.old }
    ensures { s.new ≡ sets s.old at (joined N (λ i. O.written 4 (get_or x.now i 0))) }
{
    for i in 0..N {
        copy(s, at + 4 * i, &O::four(x[i]));
    }
}

// The sums of two arrays' words, modulo 2^32.
pub fn sums<const N: usize>(x: &[u32; N], y: &[u32; N]) -> [u32; N]
    ensures { result ≡ tab N (λ i. plus (get_or x.now i 0) (get_or y.now i 0)) }
{
    let mut z = [0u32; N];
    for i in 0..N {
        z[i] = x[i].wrapping_add(y[i]);
    }
    z
}
