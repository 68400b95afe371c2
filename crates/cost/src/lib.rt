// What a derivation costs: the kinds of number, their limits, and how scratch becomes spacing.
#![tactic(auto)]

ghost use Rattle.std.specs.Prelude.{◌≡◌, ◌+◌, ◌^◌, ◌≤◌, ◌<◌};
ghost use Rattle.cost.specs.Limits.{ok_power, ok_size};
ghost use Rattle.cost.specs.Costs.{flaw_no, checked, power_of, checked_exponent};
ghost use Rattle.cost.specs.Spacing.{spacing};

// The limits. Each stands here once, and once in specs/Limits.antt; the function that tests it ties
// the two.
pub const MOST_R: u64 = 32;

pub const MOST_P: u64 = 64;

pub const MOST_EXPONENT: u64 = 20;

pub const MOST_N: u64 = 1048576;

// N is 2 to this power. A card holds the exponent and a derivation wants N; one can never pass for
// the other. So neither has a From to or from u64: with `.into()` any number would pass for either, and
// either for a number.
#[derive(Clone, Copy)]
pub struct Exponent(u64);

// N itself: any number, until it is checked.
#[derive(Clone, Copy)]
pub struct Power(u64);

impl Exponent {
    pub fn new(e: u64) -> Exponent
        ensures { result.0 ≡ e }
    {
        Exponent(e)
    }

    pub fn number(self) -> u64
        ensures { result ≡ self.0 }
    {
        self.0
    }

    // An exponent of 200 is refused, never shifted by.
    #[tactic(auto, unfolding(crate::specs::Costs::power_of))]
    pub fn power(self) -> Option<Power>
        ensures { result ≡ power_of self }
    {
        (1..=MOST_EXPONENT)
            .contains(&self.0)
            .then(|| Power(1 << self.0))
    }
}

impl Power {
    pub fn new(n: u64) -> Power
        ensures { result.0 ≡ n }
    {
        Power(n)
    }

    pub fn number(self) -> u64
        ensures { result ≡ self.0 }
    {
        self.0
    }
}

// Whether n is one of 2, 4, 8 .. 2^63.
#[tactic(auto, using(crate::proofs::Powers::powers))]
fn is_power(n: u64) -> bool
    ensures { result ≡ ok_power n }
{
    2 <= n && n.is_power_of_two()
}

// Whether n is at most 2^20 and below 2^(16·r): from r = 2 on the second follows from the first.
#[tactic(auto, using(crate::proofs::Powers::wide))]
fn size_fits(n: u64, r: u64) -> bool
    requires { 0 < r }
    ensures { result ≡ ok_size n r }
{
    n <= MOST_N && (2 <= r || n < 65536)
}

// What is wrong with a cost.
#[derive(Clone, Copy, Debug, PartialEq, Eq)]
pub enum Flaw {
    BlockSize,
    Lanes,
    NotPower,
    TooLarge,
}

// The paper's number of a flaw.
impl From<Flaw> for u64 {
    ghost from_gives = { λ flaw n. n ≡ flaw_no flaw };

    fn from(flaw: Flaw) -> u64 {
        match flaw {
            Flaw::BlockSize => 4,
            Flaw::Lanes => 5,
            Flaw::NotPower => 6,
            Flaw::TooLarge => 7,
        }
    }
}

// The cost settings. A value may be filled in by hand, so nobody who takes one trusts it.
#[derive(Clone, Copy)]
pub struct Cost {
    pub n: Power,
    pub r: u64,
    pub p: u64,
}

impl Cost {
    // The house default: N = 16,384, r = 8, p = 1.
    pub const HOUSE: Cost = Cost {
        n: Power(16384),
        r: 8,
        p: 1,
    };

    pub fn new(n: Power, r: u64, p: u64) -> Result<Cost, Flaw>
        ensures { result ≡ checked (record { n = n; r = r; p = p }) }
    {
        Cost { n, r, p }.check()
    }

    #[tactic(auto, unfolding(crate::specs::Costs::checked_exponent))]
    pub fn of_exponent(e: Exponent, r: u64, p: u64) -> Result<Cost, Flaw>
        ensures { result ≡ checked_exponent e r p }
    {
        let n = e.power().ok_or(Flaw::TooLarge)?;
        Cost::new(n, r, p)
    }

    // The cost itself, or the first of refusals 4 to 7 that applies.
    #[tactic(auto, unfolding(crate::specs::Costs::checked))]
    pub fn check(self) -> Result<Cost, Flaw>
        ensures { result ≡ checked self }
    {
        let n = self.n.number();
        if !(1..=MOST_R).contains(&self.r) {
            return Err(Flaw::BlockSize);
        }
        if !(1..=MOST_P).contains(&self.p) {
            return Err(Flaw::Lanes);
        }
        if !is_power(n) {
            return Err(Flaw::NotPower);
        }
        if !size_fits(n, self.r) {
            return Err(Flaw::TooLarge);
        }
        Ok(self)
    }
}

// The smallest power of two k with n / k + p + 3 at most f. It doubles until it fits: no index is
// counted, so the `while` is the plain form.
#[tactic(auto, using(crate::proofs::Spacings::turns))]
pub fn space(n: u64, p: u64, f: u64) -> u64
    requires { (0 < n) × (n < 2 ^ 62) × (p < 2 ^ 62) × (p + 4 ≤ f) }
    ensures { result ≡ spacing n p f }
{
    let mut k = 1;
    while f < n / k + p + 3 {
        k *= 2;
    }
    k
}
