// The card: a salt, a key, and a trailer at the end that points back to them. Any bytes at all may be
// read, and get an answer.
#![tactic(auto)]

ghost use Rattle.std.specs.Prelude.{◌≡◌, [], ◌++◌, ◌+◌, ◌≤◌, ◌<◌, length};
ghost use Rattle.std.proofs.lemmas.List.Edits.{sets};
ghost use Rattle.lent.specs.Word.{of_le};
ghost use Rattle.card.specs.declared.Reason.TheVariants.{Costs};
ghost use Rattle.card.specs.Layout.{first, trailer_length, trailer_bytes, trailer_saying, trailer_in, claimed_of};
ghost use Rattle.card.specs.Refusals.{ok_lengths, meant_of, judged, read_of, salt_of, key_of, write_of};
ghost use Rattle.card.specs.Paper.{reason_no, paper, paper_written};

use cost::{Cost, Exponent, Flaw};

// What edition 1 has of its own, and how long that makes its trailer: `first` of specs/Layout.antt.
const EDITION: u8 = 1;

const MARK: [u8; 4] = *b"RTKC";

const TRAILER: usize = 12;

// The lengths that 24 allows, as in specs/Refusals.antt.
const LEAST_SALT: usize = 8;

const MOST_SALT: usize = 64;

const LEAST_KEY: usize = 16;

const MOST_KEY: usize = 64;

// Why a card is not read, or not written.
#[derive(Clone, Copy, Debug, PartialEq, Eq)]
pub enum Reason {
    Short,
    Unmarked,
    OtherEdition,
    Lengths,
    Costs,
    Room,
}

// The paper's number of a reason.
impl From<Reason> for u64 {
    ghost from_gives = { λ why n. n ≡ reason_no why };

    fn from(why: Reason) -> u64 {
        match why {
            Reason::Short => 21,
            Reason::Unmarked => 22,
            Reason::OtherEdition => 23,
            Reason::Lengths => 24,
            Reason::Costs => 25,
            Reason::Room => 26,
        }
    }
}

// A card is refused for its costs as a whole, whatever is wrong with them.
impl From<Flaw> for Reason {
    ghost from_gives = { λ _ why. why ≡ Costs };

    fn from(_flaw: Flaw) -> Reason {
        Self::Costs
    }
}

// What a card says beside its bytes: the costs, and how long its parts are. The salt lies at the
// front, the key behind it. Lengths and no slices, as `paper` tells them and C is told them.
#[derive(Clone, Copy)]
pub struct Meaning {
    pub exponent: Exponent,
    pub r: u64,
    pub p: u64,
    pub salt: usize,
    pub key: usize,
}

// ---- what reader and writer share

impl Meaning {
    fn lengths_fit(self) -> bool
        ensures { result ≡ ok_lengths self.salt self.key }
    {
        (LEAST_KEY..=MOST_KEY).contains(&self.key) && (LEAST_SALT..=MOST_SALT).contains(&self.salt)
    }

    // The meaning as it is, or the first of 24 and 25 that applies.
    #[tactic(auto, unfolding(crate::specs::Refusals::meant_of, crate::specs::Refusals::ok_costs))]
    fn check(self) -> Result<Meaning, Reason>
        ensures { paper result ≡ meant_of self.salt self.key self.exponent.0 self.r self.p }
    {
        if !self.lengths_fit() {
            return Err(Reason::Lengths);
        }
        Cost::of_exponent(self.exponent, self.r, self.p)?;
        Ok(self)
    }
}

// ---- reading

// The distance that two bytes say.
#[tactic(auto, unfolding(lent::specs::Word::of_le))]
fn distance(bytes: [u8; 2]) -> usize
    ensures { (result ≡ of_le bytes) × (result < 65536) }
{
    usize::from(u16::from_le_bytes(bytes))
}

// 23 to 25, for a card whose trailer stands behind so many bytes.
#[tactic(auto, using(crate::proofs::Cards::meant_none), unfolding(crate::specs::Refusals::judged, crate::specs::Layout::trailer_in))]
fn judge(at: usize, trailer: &[u8; TRAILER]) -> Result<Meaning, Reason>
    ensures { paper result ≡ judged first (at + trailer_length first) (trailer_in first 0 trailer.now) }
{
    let [s0, s1, k0, k1, edition, e, r, p, ..] = *trailer;
    if edition != EDITION {
        return Err(Reason::OtherEdition);
    }
    let back = distance([s0, s1]);
    let key = distance([k0, k1]);
    if back != at {
        return Err(Reason::Lengths);
    }
    // Never wrapped: a salt that would begin inside the key is refused first. No `checked_sub`: its wrong
    // form wraps, and the contract lets that pass, since 24 refuses the length that it leaves.
    if back < key {
        return Err(Reason::Lengths);
    }
    let meaning = Meaning {
        exponent: Exponent::new(u64::from(e)),
        r: u64::from(r),
        p: u64::from(p),
        salt: back - key,
        key,
    };
    meaning.check()
}

// The numbers on the card, or the first refusal that applies.
#[tactic(auto, using(crate::proofs::Pieces::ends_in_is, crate::proofs::Meanings::read_marked), unfolding(crate::specs::Refusals::read_of))]
pub fn read(card: &[u8]) -> Result<Meaning, Reason>
    ensures { paper result ≡ read_of card.now }
{
    let (parts, trailer) = card.split_last_chunk().ok_or(Reason::Short)?;
    if !card.ends_with(&MARK) {
        return Err(Reason::Unmarked);
    }
    judge(parts.len(), trailer)
}

// The salt; empty where the card is refused, as `salt_of` and `key_of` are.
#[tactic(auto, using(crate::proofs::Meanings::bounds), unfolding(crate::specs::Refusals::salt_of))]
pub fn salt(card: &[u8]) -> &[u8]
    ensures { result.now ≡ salt_of card.now }
{
    match read(card) {
        Ok(m) => &card[..m.salt],
        Err(_) => &[],
    }
}

// The key; empty where the card is refused.
#[tactic(auto, using(crate::proofs::Meanings::within), unfolding(crate::specs::Refusals::key_of))]
pub fn key(card: &[u8]) -> &[u8]
    ensures { result.now ≡ key_of card.now }
{
    match read(card) {
        Ok(m) => &card[m.salt..m.salt + m.key],
        Err(_) => &[],
    }
}

// How long the card at the end of these bytes says it is, and 0 where they hold no trailer. Whoever
// keeps cards one behind the other finds the last by it, and reads that part alone. 0 and no Option, as
// `claimed_of` of specs/Layout.antt has it.
#[tactic(auto, unfolding(crate::specs::Layout::claimed_of, crate::specs::Layout::trailer_in))]
pub fn claimed(bytes: &[u8]) -> usize
    ensures { result ≡ claimed_of bytes.now }
{
    match bytes.last_chunk::<TRAILER>() {
        Some(&[s0, s1, ..]) => distance([s0, s1]) + TRAILER,
        None => 0,
    }
}

// ---- writing

impl Meaning {
    // The trailer of a card that means this.
    #[tactic(auto, using(crate::proofs::Costing::small), unfolding(crate::specs::Layout::trailer_bytes, lent::specs::Word::le))]
    fn trailer(self) -> [u8; TRAILER]
        requires { (meant_of self.salt self.key self.exponent.0 self.r self.p).refusal ≡ 0 }
        ensures { result ≡ trailer_bytes first (trailer_saying first [] (self.salt + self.key) self.key self.exponent.0 self.r self.p) }
    {
        let [s0, s1] = ((self.salt + self.key) as u16).to_le_bytes();
        let [k0, k1] = (self.key as u16).to_le_bytes();
        let e = self.exponent.number() as u8;
        let r = self.r as u8;
        let p = self.p as u8;
        let [m0, m1, m2, m3] = MARK;
        [s0, s1, k0, k1, EDITION, e, r, p, m0, m1, m2, m3]
    }
}

// Writes the card over the front of the room.
#[tactic(auto, using(crate::proofs::Pieces::three_laid))]
fn put_card(salt: &[u8], key: &[u8], trailer: &[u8], room: &mut [u8])
    requires { length salt.now + length key.now + length trailer.now ≤ length room.old }
    ensures { room.new ≡ sets room.old 0 (salt.now ++ key.now ++ trailer.now) }
{
    lent::copy(room, 0, salt);
    lent::copy(room, salt.len(), key);
    lent::copy(room, salt.len() + key.len(), trailer);
}

// Writes the card over the front of the room and says how long it is, or changes nothing. The costs are
// lent as the C call lends them.
#[tactic(auto, using(crate::proofs::Costing::small, crate::proofs::Meanings::write_refused, crate::proofs::Meanings::write_short, crate::proofs::Meanings::write_laid))]
pub fn write(
    salt: &[u8],
    key: &[u8],
    exponent: Exponent,
    r: u64,
    p: u64,
    room: &mut [u8],
) -> Result<usize, Reason>
    ensures { paper_written result room.new ≡ write_of salt.now key.now exponent.0 r p room.old }
{
    let meaning = Meaning {
        exponent,
        r,
        p,
        salt: salt.len(),
        key: key.len(),
    };
    meaning.check()?;
    let n = salt.len() + key.len() + TRAILER;
    if room.len() < n {
        return Err(Reason::Room);
    }
    put_card(salt, key, &meaning.trailer(), room);
    Ok(n)
}
