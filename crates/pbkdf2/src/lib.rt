// HMAC with SHA-256 (RFC 2104) and PBKDF2 with one iteration over it (RFC 8018), over lent bytes.
// The key's block and the whole blocks of a salt are hashed once: every piece of the output starts from the two saved hash values.
// That a passphrase and a salt are shorter than 2^60 is asked of the caller's own slices: a type for it would be asked of the
// caller too.
#![tactic(auto)]

ghost use Rattle.std.specs.Prelude.{◌≡◌, ◌+◌, ◌-◌, ◌*◌, ◌/◌, ◌%◌, ◌^◌, ◌≤◌, ◌<◌, length, take};
ghost use Rattle.std.proofs.lemmas.List.Edits.{sets};
ghost use Rattle.sha256.specs.Sha256.{H₀, absorb};
ghost use Rattle.pbkdf2.specs.Hmac.{ipad, opad, block, masked, hmac};
ghost use Rattle.pbkdf2.specs.Pbkdf2.{derived, pbkdf2};
ghost use Rattle.pbkdf2.specs.Saved.{twice, piece};

use lent::BigEndian;

// The key as one block of the hash.
#[tactic(auto, unfolding(crate::specs::Hmac::block, crate::specs::Hmac::shortened))]
fn block(key: &[u8]) -> [u8; 64]
    requires { length key.now < 2 ^ 60 }
    ensures { result ≡ block key.now }
{
    if key.len() <= 64 {
        return lent::padded(key);
    }
    lent::padded(&sha256::hash(key))
}

// The block with every byte masked by the same one. No `map`, which is slower (docs/LOOK-BACK.md).
fn masked(k: [u8; 64], pad: u8) -> [u8; 64]
    ensures { result ≡ masked k pad }
{
    let mut b = [0u8; 64];
    for i in 0..64 {
        b[i] = k[i] ^ pad;
    }
    b
}

// The hash value after the masked block.
fn keyed(k: [u8; 64], pad: u8) -> [u32; 8]
    ensures { result ≡ absorb H₀ (masked k pad) }
{
    sha256::absorb(sha256::initial(), &masked(k, pad))
}

// Two hash values that are kept: `outer` after the key's block, and `inner` after the first `before` bytes of what is hashed
// inside, the key's block and whole blocks of the text.
#[derive(Clone, Copy)]
struct Saved {
    outer: [u32; 8],
    inner: [u32; 8],
    before: usize,
    ghost whole: { before % 64 ≡ 0 },
    ghost few: { before < 2 ^ 60 + 64 },
}

impl Saved {
    // After the key's block alone.
    fn new(key: &[u8]) -> Saved
        requires { length key.now < 2 ^ 60 }
        ensures outer { result.outer ≡ absorb H₀ (masked (block key.now) opad) }
        ensures inner { result.inner ≡ absorb H₀ (masked (block key.now) ipad) }
        ensures before { result.before ≡ 64 }
    {
        let k = block(key);
        Saved {
            outer: keyed(k, 0x5c),
            inner: keyed(k, 0x36),
            before: 64,
        }
    }

    // And after the whole blocks of a salt.
    fn salted(self, salt: &[u8]) -> Saved
        requires { self.before + length salt.now < 2 ^ 60 + 64 }
        ensures outer { result.outer ≡ self.outer }
        ensures inner { result.inner ≡ absorb self.inner salt.now }
        ensures before { result.before ≡ self.before + length salt.now / 64 * 64 }
    {
        let Saved {
            outer,
            inner,
            before,
        } = self;
        let inner = sha256::absorb(inner, salt);
        Saved {
            outer,
            inner,
            before: before + salt.len() / 64 * 64,
        }
    }

    // Closes the inner hash with s, and the outer one with what that gives.
    #[tactic(auto, unfolding(crate::specs::Saved::twice))]
    fn twice(&self, s: &[u8]) -> [u8; 32]
        requires { self.now.before + length s.now < 2 ^ 61 }
        ensures { result ≡ twice self.now.outer self.now.inner self.now.before s.now }
    {
        sha256::close(self.outer, 64, &sha256::close(self.inner, self.before, s))
    }

    // Piece i of the output, from what is left of the salt.
    #[tactic(auto, using(crate::proofs::Laws::numbered), unfolding(crate::specs::Saved::piece))]
    fn piece(&self, rest: &[u8], i: u32) -> [u8; 32]
        requires { length rest.now < 64 }
        ensures { result ≡ piece self.now.outer self.now.inner self.now.before rest.now i }
    {
        let n = rest.len();
        let mut b = lent::padded::<68>(rest);
        lent::put::<BigEndian>(&mut b, n, i);
        self.twice(&b[..n + 4])
    }

    // Fills out with the pieces, the first of which has number 1. Over the library's `chunks_mut` the proof didn't close: it
    // says nothing of what out holds afterwards.
    fn fill(&self, rest: &[u8], out: &mut [u8])
        requires { (length rest.now < 64) × (length out.old ≤ 32 * (2 ^ 32 - 1)) }
        ensures { out.new ≡ derived (piece self.now.outer self.now.inner self.now.before rest.now) (length out.old) }
    {
        for i in 0..out.len().div_ceil(32) {
            lay(out, 32 * i, &self.piece(rest, i as u32 + 1));
        }
    }
}

// Writes the authentication code of text.
pub fn hmac(key: &[u8], text: &[u8]) -> [u8; 32]
    requires { (length key.now < 2 ^ 60) × (length text.now < 2 ^ 60) }
    ensures { result ≡ hmac key.now text.now }
{
    Saved::new(key).twice(text)
}

// Writes d at place at, as much of it as there is room for; at a place, as in `lent`.
fn lay(out: &mut [u8], at: usize, d: &[u8; 32])
    requires { at ≤ length out.old }
    ensures { out.new ≡ sets out.old at (take (length out.old - at) d.now) }
{
    let n = d.len().min(out.len() - at);
    lent::copy(out, at, &d[..n]);
}

// Fills out with the key of the passphrase and the salt. The bound on its length is the RFC's own.
pub fn pbkdf2(pass: &[u8], salt: &[u8], out: &mut [u8])
    requires { (length pass.now < 2 ^ 60) × (length salt.now < 2 ^ 60) × (length out.old ≤ 32 * (2 ^ 32 - 1)) }
    ensures { out.new ≡ pbkdf2 pass.now salt.now (length out.old) }
{
    let (_, rest) = salt.as_chunks::<64>();
    Saved::new(pass).salted(salt).fill(rest, out);
}
