// The derivation: RFC 7914's scrypt over one lent scratch, with its refusals.
#![tactic(auto)]

ghost use Rattle.std.specs.Prelude.{Ok, ◌≡◌, ◌+◌, ◌*◌, ◌/◌, ◌^◌, ◌≤◌, ◌<◌, length};
ghost use Rattle.std.proofs.lemmas.List.Edits.{sets};
ghost use Rattle.lent.specs.Bytes.{part, zeros};
ghost use Rattle.pbkdf2.specs.Pbkdf2.{pbkdf2};
ghost use Rattle.cost.proofs.Goods.{Sound};
ghost use Rattle.scrypt.specs.Limits.{longest_passphrase, longest_salt, longest_key};
ghost use Rattle.scrypt.specs.Plans.{reason_no, afforded, plan_of};
ghost use Rattle.scrypt.specs.Scrypt.{scrypt, all_mixings};
ghost use Rattle.scrypt.specs.Derivation.{paper, plan_for, derivation};

use cost::{Cost, Flaw};

// The limits on lengths. Each stands here once, and once in specs/Limits.antt.
pub const LONGEST_PASSPHRASE: usize = 1024;

pub const LONGEST_SALT: usize = 1024;

pub const LONGEST_KEY: usize = 256;

// Why a derivation is refused.
#[derive(Clone, Copy, Debug, PartialEq, Eq)]
pub enum Reason {
    Passphrase,
    Salt,
    Key,
    Costs(Flaw),
    Scratch,
    Allowance,
}

// A cost's flaw is a reason, so that `?` refuses a derivation for it.
impl From<Flaw> for Reason {
    ghost use Rattle.scrypt.specs.declared.Reason.TheVariants.{Costs};

    ghost from_gives = { λ flaw why. why ≡ Costs flaw };

    fn from(flaw: Flaw) -> Reason {
        Reason::Costs(flaw)
    }
}

// The paper's number of a reason.
impl From<Reason> for u64 {
    ghost from_gives = { λ why n. n ≡ reason_no why };

    fn from(why: Reason) -> u64 {
        match why {
            Reason::Passphrase => 1,
            Reason::Salt => 2,
            Reason::Key => 3,
            Reason::Costs(f) => f.into(),
            Reason::Scratch => 8,
            Reason::Allowance => 9,
        }
    }
}

// What a derivation will do: at spacing k with n / k blocks stored.
#[derive(Clone, Copy)]
pub struct Plan {
    pub spacing: u64,
    pub stored: u64,
}

// What a derivation did: its spacing, its stored blocks and the mixings made, side by side as the paper
// and C have them.
#[derive(Clone, Copy)]
pub struct Derived {
    pub spacing: u64,
    pub stored: u64,
    pub mixings: u64,
}

// Refusals 8 and 9, for a cost that passed 4 to 7.
#[tactic(auto, using(crate::proofs::Sizes::sizes), unfolding(crate::specs::Plans::afforded))]
fn afford(scratch: usize, allowance: u64, c: Cost) -> Result<Plan, Reason>
    requires { Sound c }
    ensures { result ≡ afforded scratch allowance c }
{
    let n = c.n.number();
    let f = scratch as u64 / (128 * c.r);
    if f < c.p + 4 {
        return Err(Reason::Scratch);
    }
    let k = cost::space(n, c.p, f);
    if allowance < c.p * (n * (k + 1)) {
        return Err(Reason::Allowance);
    }
    Ok(Plan {
        spacing: k,
        stored: n / k,
    })
}

// What a derivation with these lengths, this cost and this allowance will do.
#[tactic(auto, unfolding(crate::specs::Plans::plan_of))]
fn planned(
    pass: usize,
    salt: usize,
    key: usize,
    scratch: usize,
    allowance: u64,
    c: Cost,
) -> Result<Plan, Reason>
    ensures { result ≡ plan_of pass salt key scratch allowance c }
{
    if LONGEST_PASSPHRASE < pass {
        return Err(Reason::Passphrase);
    }
    if LONGEST_SALT < salt {
        return Err(Reason::Salt);
    }
    if !(1..=LONGEST_KEY).contains(&key) {
        return Err(Reason::Key);
    }
    afford(scratch, allowance, c.check()?)
}

// Fills the front of the scratch with the lanes. The whole scratch and a size, as in `lent`.
#[tactic(auto, using(crate::proofs::Lanes::laying))]
fn lay_lanes(pass: &[u8], salt: &[u8], size: usize, scratch: &mut [u8])
    requires { (length pass.now ≤ longest_passphrase) × (length salt.now ≤ longest_salt) × (size ≤ 2 ^ 20) × (size ≤ length scratch.old) }
    ensures { scratch.new ≡ sets scratch.old 0 (pbkdf2 pass.now salt.now size) }
{
    pbkdf2::pbkdf2(pass, salt, &mut scratch[..size]);
}

// Fills the key from the lanes where they lie.
fn take_key(pass: &[u8], size: usize, scratch: &[u8], key: &mut [u8])
    requires { (length pass.now ≤ longest_passphrase) × (size ≤ 2 ^ 20) × (size ≤ length scratch.now) × (length key.old ≤ longest_key) }
    ensures { key.new ≡ pbkdf2 pass.now (part 0 size scratch.now) (length key.old) }
{
    pbkdf2::pbkdf2(pass, &scratch[..size], key);
}

// Steps 1 to 3 of section 6, for a plan that goes ahead: fills the key, wipes the scratch, and
// answers the mixings made.
fn work(
    pass: &[u8],
    salt: &[u8],
    c: Cost,
    key: &mut [u8],
    scratch: &mut [u8],
    allowance: u64,
    plan: Plan,
) -> u64
    requires { plan_for pass.now salt.now c key.old scratch.old allowance ≡ Ok plan }
    ensures { (result ≡ all_mixings plan.spacing pass.now salt.now c.n.0 c.r c.p)
        × (key.new ≡ scrypt pass.now salt.now c.n.0 c.r c.p (length key.old))
        × (scratch.new ≡ zeros (length scratch.old)) }
{
    let n = c.n.number() as usize;
    let r = c.r as usize;
    let p = c.p as usize;
    let size = p * (128 * r);
    lay_lanes(pass, salt, size, scratch);
    let made = romix::mix_lanes(
        n,
        r,
        p,
        plan.spacing as usize,
        plan.stored as usize,
        scratch,
        allowance,
    );
    take_key(pass, size, scratch, key);
    lent::wipe_all(scratch);
    made
}

// Derives a key. Any request gets an answer: refused, nothing lent has changed; derived, the key
// buffer holds RFC 7914's key and the whole scratch is zero. What is lent stays six parameters, as
// the host's call lends it: a struct of them would be made at each call and opened at once.
#[tactic(auto, unfolding(crate::specs::Derivation::derivation))]
pub fn derive(
    pass: &[u8],
    salt: &[u8],
    c: Cost,
    key: &mut [u8],
    scratch: &mut [u8],
    allowance: u64,
) -> Result<Derived, Reason>
    ensures { (paper result, (key.new, scratch.new))
        ≡ derivation pass.now salt.now c key.old scratch.old allowance }
{
    let plan = planned(
        pass.len(),
        salt.len(),
        key.len(),
        scratch.len(),
        allowance,
        c,
    )?;
    let mixings = work(pass, salt, c, key, scratch, allowance, plan);
    Ok(Derived {
        spacing: plan.spacing,
        stored: plan.stored,
        mixings,
    })
}
