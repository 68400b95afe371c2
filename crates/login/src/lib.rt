// The login check: a text, a card, one lent scratch and an allowance; yes, no, or which desk refused
// and why.
#![tactic(auto)]

ghost use Rattle.std.specs.Prelude.{◌≡◌, Ok, length};
ghost use Rattle.card.specs.Refusals.{read_of as card_of, salt_of, key_of};
ghost use Rattle.card.specs.Paper.{paper as cardPaper};
ghost use Rattle.login.specs.Login.{paper, found, cost_on, weighed, login_of};

use card::Meaning;
use cost::Cost;

// Which of the three desks refused, with that desk's own reason.
#[derive(Clone, Copy, Debug, PartialEq, Eq)]
pub enum Desk {
    OfCard(card::Reason),
    OfText(text::Reason),
    OfDerivation(scrypt::Reason),
}

impl From<card::Reason> for Desk {
    ghost use Rattle.login.specs.declared.Desk.TheVariants.{OfCard};

    ghost from_gives = { λ why desk. desk ≡ OfCard why };

    fn from(why: card::Reason) -> Desk {
        Desk::OfCard(why)
    }
}

impl From<text::Reason> for Desk {
    ghost use Rattle.login.specs.declared.Desk.TheVariants.{OfText};

    ghost from_gives = { λ why desk. desk ≡ OfText why };

    fn from(why: text::Reason) -> Desk {
        Desk::OfText(why)
    }
}

impl From<scrypt::Reason> for Desk {
    ghost use Rattle.login.specs.declared.Desk.TheVariants.{OfDerivation};

    ghost from_gives = { λ why desk. desk ≡ OfDerivation why };

    fn from(why: scrypt::Reason) -> Desk {
        Desk::OfDerivation(why)
    }
}

// Three cases, the form that docs/DECISIONS.md names, and so no Result.
#[derive(Clone, Copy, Debug, PartialEq, Eq)]
pub enum Login {
    Yes,
    No,
    Refused(Desk),
}

impl From<Result<bool, Desk>> for Login {
    ghost use Rattle.login.specs.Login.{paper, found};

    ghost from_gives = { λ x login. paper login ≡ found x };

    fn from(x: Result<bool, Desk>) -> Login {
        match x {
            Ok(true) => Login::Yes,
            Ok(false) => Login::No,
            Err(desk) => Login::Refused(desk),
        }
    }
}

// Derives the password's key into the room for it and holds it against the card's. Scratch and
// allowance go from call to call as the C call lends them.
#[tactic(auto, using(crate::proofs::Desks::weighed_refused, crate::proofs::Desks::weighed_answered))]
fn weigh(
    password: &[u8],
    card: &[u8],
    c: Cost,
    key: &mut [u8],
    scratch: &mut [u8],
    allowance: u64,
) -> Result<bool, Desk>
    ensures { (found result, scratch.new)
        ≡ weighed password.now (salt_of card.now) (key_of card.now) c (length key.old) scratch.old allowance }
{
    scrypt::derive(password, card::salt(card), c, key, scratch, allowance)?;
    Ok(lent::same(key, card::key(card)))
}

// The derivation's desk, for a card that means m. No card that is read has costs that are refused. The
// room has the length of the longest key: nothing is allocated.
#[tactic(auto, using(crate::proofs::Desks::read_passes))]
fn unlock(
    password: &[u8],
    card: &[u8],
    m: Meaning,
    scratch: &mut [u8],
    allowance: u64,
) -> Result<bool, Desk>
    requires { cardPaper (Ok m) ≡ card_of card.now }
    ensures { (found result, scratch.new)
        ≡ weighed password.now (salt_of card.now) (key_of card.now) (cost_on card.now) (card_of card.now).key scratch.old allowance }
{
    let c = Cost::of_exponent(m.exponent, m.r, m.p).map_err(scrypt::Reason::Costs)?;
    let mut room = [0u8; 64];
    weigh(password, card, c, &mut room[..m.key], scratch, allowance)
}

// Card, text, derivation: each desk is asked whole before the next.
#[tactic(auto, using(crate::proofs::Desks::card_refuses, crate::proofs::Desks::text_refuses, crate::proofs::Desks::asks_derivation))]
fn ask(text: &[u8], card: &[u8], scratch: &mut [u8], allowance: u64) -> Result<bool, Desk>
    ensures { (found result, scratch.new) ≡ login_of text.now card.now scratch.old allowance }
{
    let m = card::read(card)?;
    text::read(text)?;
    unlock(text::password(text), card, m, scratch, allowance)
}

// Checks a login. Refused, the scratch is untouched; after yes or no it is all zero.
pub fn check(text: &[u8], card: &[u8], scratch: &mut [u8], allowance: u64) -> Login
    ensures { (paper result, scratch.new) ≡ login_of text.now card.now scratch.old allowance }
{
    ask(text, card, scratch, allowance).into()
}
