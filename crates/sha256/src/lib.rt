// SHA-256 (FIPS 180-4) over lent bytes. The hash value is eight words by value: there is no streaming state,
// a caller keeps the value after the whole blocks that it has absorbed and closes the hash with the rest.
#![tactic(auto)]

ghost use Rattle.std.specs.Prelude.{◌≡◌, ◌++◌, ◌+◌, ◌-◌, ◌*◌, ◌/◌, ◌%◌, ◌^◌, ◌<◌, length};
ghost use Rattle.lent.specs.Word.{plus};
ghost use Rattle.sha256.specs.Sha256.{Ch, Maj, Σ₀, Σ₁, σ₀, σ₁, H₀, padding, schedule, round, rounds, compress, absorb, bytes, closed, sha256};

use lent::BigEndian;

// Section 4.2.2: a constant for each round.
const K: [u32; 64] = [
    0x428a2f98, 0x71374491, 0xb5c0fbcf, 0xe9b5dba5, 0x3956c25b, 0x59f111f1, 0x923f82a4, 0xab1c5ed5,
    0xd807aa98, 0x12835b01, 0x243185be, 0x550c7dc3, 0x72be5d74, 0x80deb1fe, 0x9bdc06a7, 0xc19bf174,
    0xe49b69c1, 0xefbe4786, 0x0fc19dc6, 0x240ca1cc, 0x2de92c6f, 0x4a7484aa, 0x5cb0a9dc, 0x76f988da,
    0x983e5152, 0xa831c66d, 0xb00327c8, 0xbf597fc7, 0xc6e00bf3, 0xd5a79147, 0x06ca6351, 0x14292967,
    0x27b70a85, 0x2e1b2138, 0x4d2c6dfc, 0x53380d13, 0x650a7354, 0x766a0abb, 0x81c2c92e, 0x92722c85,
    0xa2bfe8a1, 0xa81a664b, 0xc24b8b70, 0xc76c51a3, 0xd192e819, 0xd6990624, 0xf40e3585, 0x106aa070,
    0x19a4c116, 0x1e376c08, 0x2748774c, 0x34b0bcb5, 0x391c0cb3, 0x4ed8aa4a, 0x5b9cca4f, 0x682e6ff3,
    0x748f82ee, 0x78a5636f, 0x84c87814, 0x8cc70208, 0x90befffa, 0xa4506ceb, 0xbef9a3f7, 0xc67178f2,
];

// Section 4.1.2.
fn ch(x: u32, y: u32, z: u32) -> u32
    ensures { result ≡ Ch x y z }
{
    (x & y) ^ (!x & z)
}

fn maj(x: u32, y: u32, z: u32) -> u32
    ensures { result ≡ Maj x y z }
{
    (x & y) ^ (x & z) ^ (y & z)
}

// The four functions Σ and σ, each with the standard's own numbers: over three numbers one would be no shorter.
fn big0(x: u32) -> u32
    ensures { result ≡ Σ₀ x }
{
    x.rotate_right(2) ^ x.rotate_right(13) ^ x.rotate_right(22)
}

fn big1(x: u32) -> u32
    ensures { result ≡ Σ₁ x }
{
    x.rotate_right(6) ^ x.rotate_right(11) ^ x.rotate_right(25)
}

fn small0(x: u32) -> u32
    ensures { result ≡ σ₀ x }
{
    x.rotate_right(7) ^ x.rotate_right(18) ^ (x >> 3)
}

fn small1(x: u32) -> u32
    ensures { result ≡ σ₁ x }
{
    x.rotate_right(17) ^ x.rotate_right(19) ^ (x >> 10)
}

// Section 6.2.2, step 1: a word of the schedule from those 2, 7, 15 and 16 before it.
fn next(w2: u32, w7: u32, w15: u32, w16: u32) -> u32
    ensures { result ≡ plus (plus (plus (σ₁ w2) w7) (σ₀ w15)) w16 }
{
    small1(w2)
        .wrapping_add(w7)
        .wrapping_add(small0(w15))
        .wrapping_add(w16)
}

// The whole schedule: one loop, as the standard defines a word by its place.
fn schedule(block: &[u8; 64]) -> [u32; 64]
    ensures { result ≡ schedule block.now 64 }
{
    let mut w = [0u32; 64];
    for t in 0..64 {
        w[t] = if t < 16 {
            lent::get::<BigEndian>(block, 4 * t)
        } else {
            next(w[t - 2], w[t - 7], w[t - 15], w[t - 16])
        };
    }
    w
}

// Step 3: one round.
#[tactic(auto, unfolding(crate::specs::Sha256::round))]
fn round(v: &mut [u32; 8], k: u32, w: u32)
    ensures { v.new ≡ round k w v.old }
{
    let [a, b, c, d, e, f, g, h] = *v;
    let t1 = h
        .wrapping_add(big1(e))
        .wrapping_add(ch(e, f, g))
        .wrapping_add(k)
        .wrapping_add(w);
    let t2 = big0(a).wrapping_add(maj(a, b, c));
    *v = [t1.wrapping_add(t2), a, b, c, d.wrapping_add(t1), e, f, g];
}

// The 64 rounds. The table is indexed by the round, the form that docs/DECISIONS.md names, and is a local: read from the
// constant inside the loop it would be laid out anew at each turn.
fn rounds(v: [u32; 8], w: &[u32; 64]) -> [u32; 8]
    ensures { result ≡ rounds 64 w.now v }
{
    let k = K;
    let mut y = v;
    for t in 0..64 {
        round(&mut y, k[t], w[t]);
    }
    y
}

// Step 4: the hash value after h and the block.
#[tactic(auto, unfolding(crate::specs::Sha256::compress))]
fn compress(h: [u32; 8], block: &[u8; 64]) -> [u32; 8]
    ensures { result ≡ compress h block.now }
{
    lent::sums(&rounds(h, &schedule(block)), &h)
}

// The hash value after h and the whole blocks of s.
pub fn absorb(h: [u32; 8], s: &[u8]) -> [u32; 8]
    ensures { result ≡ absorb h s.now }
{
    let (blocks, _) = s.as_chunks::<64>();
    blocks.iter().fold(h, compress)
}

// The initial hash value (section 5.3.3).
pub fn initial() -> [u32; 8]
    ensures { result ≡ H₀ }
{
    [
        0x6a09e667, 0xbb67ae85, 0x3c6ef372, 0xa54ff53a, 0x510e527f, 0x9b05688c, 0x1f83d9ab,
        0x5be0cd19,
    ]
}

// Section 5.1.1: the hash value after the last bytes of a message of total bytes and its padding, which together are one block or two.
fn last(h: [u32; 8], rest: &[u8], total: usize) -> [u32; 8]
    requires { (length rest.now < 64) × (total % 64 ≡ length rest.now) × (total < 2 ^ 61) }
    ensures { result ≡ absorb h (rest.now ++ padding total) }
{
    let n = rest.len();
    let end = 64 * ((n + 72) / 64);
    let mut b = lent::padded::<128>(rest);
    b[n] = 128;
    lent::copy(&mut b, end - 8, &(8 * total as u64).to_be_bytes());
    absorb(h, &b[..end])
}

// The words of a hash value, one after the other.
fn bytes(h: &[u32; 8]) -> [u8; 32]
    ensures { result ≡ bytes h.now }
{
    let mut d = [0u8; 32];
    lent::store::<BigEndian, 8>(&mut d, 0, h);
    d
}

// Closes a hash: h is its value after `before` bytes, whole blocks, and s all the bytes after those.
#[tactic(auto, using(crate::proofs::Laws::absorb_rest), unfolding(crate::specs::Sha256::closed))]
pub fn close(h: [u32; 8], before: usize, s: &[u8]) -> [u8; 32]
    requires { (before % 64 ≡ 0) × (before + length s.now < 2 ^ 61) }
    ensures { result ≡ closed h s.now (before + length s.now) }
{
    let (_, rest) = s.as_chunks::<64>();
    bytes(&last(absorb(h, s), rest, before + s.len()))
}

// The hash of s.
#[tactic(auto, unfolding(crate::specs::Sha256::sha256))]
pub fn hash(s: &[u8]) -> [u8; 32]
    requires { length s.now < 2 ^ 61 }
    ensures { result ≡ sha256 s.now }
{
    close(initial(), 0, s)
}
