// Salsa20/8, BlockMix, ROMix and the derivation.
ghost use Rattle.std.specs.Prelude.{◌≡◌, ◌+◌, ◌*◌, ◌%◌, ◌≤◌, length, IfOk};

use crate::rooms::{OUTPUT, Rooms, SCRATCH};
use cost::{Cost, MOST_N, MOST_R, Power};
use lines::fault::Fault;
use lines::fields::{buffer, bytes, number};
use lines::say::{BEFORE, Hex, Left};
use scrypt::Derived;
use std::io;

pub fn core(rt: &impl Print, rooms: &mut Rooms, x: &[u8]) -> Result<(), Fault> {
    let x = bytes(x, &mut rooms.first)?;
    if x.len() != 64 {
        return Err(Fault::Malformed);
    }
    let mut y = [0u8; 64];
    salsa::store(&mut y, 0, salsa::core(salsa::load(x, 0)));
    println!(rt; "salsa {}", Hex(&y))?;
    Ok(())
}

// The r that a word says, where the block has its 128·r bytes. Clauses here have the numbers of MOST_R,
// MOST_N and SCRATCH.
fn width(r: &[u8], block: &[u8]) -> Result<usize, Fault>
    ensures { IfOk result (λ r. (1 ≤ r) × (r ≤ 32) × (128 * r ≡ length block.now)) }
{
    let r = number(r)?;
    if !(1..=MOST_R).contains(&r) || block.len() as u64 != 128 * r {
        return Err(Fault::Malformed);
    }
    Ok(r as usize)
}

// The room of a block of the greatest r and of its mixture.
const BLOCKS: usize = 8192;

pub fn block(rt: &impl Print, rooms: &mut Rooms, r: &[u8], block: &[u8]) -> Result<(), Fault> {
    let block = bytes(block, &mut rooms.first)?;
    let r = width(r, block)?;
    let half = 128 * r;
    let end = 256 * r;
    let mut s = [BEFORE; BLOCKS];
    lent::copy(&mut s, 0, block);
    mixing::block_mix(&mut s, 0, half, r);
    println!(rt; "blockmix {}", Hex(&s[half..end]))?;
    Ok(())
}

// The costs of one lane with one block in k stored, w of them. Beside those ROMix wants four.
#[derive(Clone, Copy)]
struct LaneCosts {
    n: usize,
    r: usize,
    k: usize,
    w: usize,
    ghost thin: { 1 ≤ r },
    ghost wide: { r ≤ 32 },
    ghost some: { 1 ≤ k },
    ghost few: { k ≤ n },
    ghost small: { n ≤ 1048576 },
    ghost power: { 4294967296 % n ≡ 0 },
    ghost held: { n ≤ w * k },
    ghost room: { (w + 4) * (128 * r) ≤ 65536 },
}

impl LaneCosts {
    // N is a power of two where it divides 2^32.
    fn new(n: u64, r: usize, k: u64) -> Result<LaneCosts, Fault>
        requires { (1 ≤ r) × (r ≤ 32) }
    {
        if !(1..=n).contains(&k) || MOST_N < n || 4294967296 % n != 0 {
            return Err(Fault::Malformed);
        }
        let w = n.div_ceil(k) as usize;
        if SCRATCH / (128 * r) < w + 4 {
            return Err(Fault::Malformed);
        }
        Ok(LaneCosts {
            n: n as usize,
            r,
            k: k as usize,
            w,
        })
    }

    // The number of mixings made.
    fn mix(self, s: &mut [u8; SCRATCH]) -> u64 {
        romix::mix_lanes(self.n, self.r, 1, self.k, self.w, s, u64::MAX)
    }
}

pub fn lane(
    rt: &impl Print,
    rooms: &mut Rooms,
    n: &[u8],
    r: &[u8],
    k: &[u8],
    block: &[u8],
) -> Result<(), Fault> {
    let block = bytes(block, &mut rooms.first)?;
    let costs = LaneCosts::new(number(n)?, width(r, block)?, number(k)?)?;
    let mut s = [BEFORE; SCRATCH];
    lent::copy(&mut s, 0, block);
    let mixings = costs.mix(&mut s);
    println!(rt; "romix mixings {mixings} lane {}", Hex(&s[..block.len()]))?;
    Ok(())
}

// The cost that three words say: N, r and p.
fn cost(words: [&[u8]; 3]) -> Result<Cost, Fault> {
    let [n, r, p] = words;
    Ok(Cost {
        n: Power::new(number(n)?),
        r: number(r)?,
        p: number(p)?,
    })
}

// The number is 0 where nothing is refused (docs/VECTORS.md).
fn say_derived(
    rt: &impl Print,
    x: Result<Derived, scrypt::Reason>,
    key: &[u8],
    scratch: &[u8],
) -> io::Result<()> {
    let [why, spacing, stored, mixings] = match x {
        Ok(d) => [0, d.spacing, d.stored, d.mixings],
        Err(why) => [why.into(), 0, 0, 0],
    };
    println!(rt;
        "derive {why} spacing {spacing} stored {stored} mixings {mixings} key {} scratch {}",
        Left(key),
        Left(scratch)
    )
}

pub fn derive(
    rt: &impl Print,
    rooms: &mut Rooms,
    pass: &[u8],
    salt: &[u8],
    costs: [&[u8]; 3],
    key: &[u8],
    scratch: &[u8],
    allowance: &[u8],
) -> Result<(), Fault> {
    let pass = bytes(pass, &mut rooms.first)?;
    let salt = bytes(salt, &mut rooms.second)?;
    let costs = cost(costs)?;
    let mut output = [BEFORE; OUTPUT];
    let mut room = [BEFORE; SCRATCH];
    let key = buffer(key, &mut output)?;
    let scratch = buffer(scratch, &mut room)?;
    let x = scrypt::derive(pass, salt, costs, key, scratch, number(allowance)?);
    say_derived(rt, x, key, scratch)?;
    Ok(())
}
