// scrypt's BlockMix over lent bytes: RFC 7914 section 4.
#![tactic(auto)]

ghost use Rattle.std.specs.Prelude.{◌≡◌, ◌+◌, ◌*◌, ◌/◌, ◌%◌, ◌≤◌, ◌<◌, length};
ghost use Rattle.std.proofs.lemmas.List.Edits.{sets};
ghost use Rattle.lent.specs.Bytes.{part, Apart, xors};
ghost use Rattle.mixing.specs.BlockMix.{block_mix};

// Sixteen words exclusive or sixteen others.
fn xored(y: [u32; 16], z: [u32; 16]) -> [u32; 16]
    ensures { result ≡ xors y z }
{
    let mut x = [0u32; 16];
    for j in 0..16 {
        x[j] = y[j] ^ z[j];
    }
    x
}

// The piece after the ith of n; after the last, the first, so that there is always one to read.
fn after(i: usize, n: usize) -> usize
    requires { i < n }
    ensures { (result < n) × (i + 1 < n → result ≡ i + 1) }
{
    if i + 1 < n { i + 1 } else { 0 }
}

// Which piece of the result the ith is: the even ones come first, then the odd.
fn place(i: usize, r: usize) -> usize
    requires { (i < 2 * r) × (r ≤ 64) }
    ensures { (result < 2 * r) × (result ≡ i / 2 + i % 2 * r) }
{
    i % 2 * r + i / 2
}

// Writes BlockMix of the block of 2 * r pieces at place from over the block at place to, which lies apart: two places of
// one lent slice, as in `lent`. Each turn carries what goes into its core, and puts what comes out where the RFC's last
// step wants it. The store stands before the exclusive or: the other order is slower (docs/MEASURED.md).
pub fn block_mix(s: &mut [u8], from: usize, to: usize, r: usize)
    requires { (1 ≤ r) × (r ≤ 64) × (from + 128 * r ≤ length s.old) × (to + 128 * r ≤ length s.old) × Apart (128 * r) from to }
    ensures { s.new ≡ sets s.old to (block_mix r (part from (128 * r) s.old)) }
{
    let n = 2 * r;
    let mut x = xored(salsa::load(s, from + 64 * (n - 1)), salsa::load(s, from));
    for i in 0..n {
        let y = salsa::core(x);
        let z = salsa::load(s, from + 64 * after(i, n));
        salsa::store(s, to + 64 * place(i, r), y);
        x = xored(y, z);
    }
}
