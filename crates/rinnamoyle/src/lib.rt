// What a caster links: five calls on numbers and byte slices. Any arguments get an answer; no call
// keeps anything or needs a heap. host/include/rinnamoyle.h is the manual.
#![tactic(auto)]

ghost use Rattle.std.specs.Prelude.{◌≡◌, List, ℕ, ◌^◌, ◌<◌};
ghost use Rattle.scrypt.specs.Derivation.{derivation};
ghost use Rattle.scrypt.specs.Derivation as Derivation;
ghost use Rattle.card.specs.Refusals.{read_of as card_of, write_of};
ghost use Rattle.card.specs.Paper as CardPaper;
ghost use Rattle.text.specs.Login.{read_of as text_of};
ghost use Rattle.text.specs.Paper as TextPaper;
ghost use Rattle.login.specs.Login.{login_of};
ghost use Rattle.login.specs.Login as Logins;
ghost use Rattle.rinnamoyle.specs.Host.{derived, card_told, written, text_told, login_told, hosted};

use card::Meaning;
use cost::{Cost, Exponent, Power};
use login::{Desk, Login};
use scrypt::Derived;
use text::Split;

// Numbers for refusals, desks and answers: C reads these structs.
#[repr(C)]
#[derive(Clone, Copy, Default)]
pub struct DeriveTold {
    pub number: u64,
    pub spacing: u64,
    pub stored: u64,
    pub mixings: u64,
}

#[repr(C)]
#[derive(Clone, Copy, Default)]
pub struct CardTold {
    pub number: u64,
    pub exponent: u64,
    pub r: u64,
    pub p: u64,
    pub salt_at: u64,
    pub salt_len: u64,
    pub key_at: u64,
    pub key_len: u64,
}

#[repr(C)]
#[derive(Clone, Copy, Default)]
pub struct WriteTold {
    pub number: u64,
    pub length: u64,
}

#[repr(C)]
#[derive(Clone, Copy, Default)]
pub struct TextTold {
    pub number: u64,
    pub user_len: u64,
    pub password_at: u64,
    pub password_len: u64,
}

#[repr(C)]
#[derive(Clone, Copy, Default)]
pub struct LoginTold {
    pub answer: u64,
    pub desk: u64,
    pub number: u64,
}

impl From<Result<Derived, scrypt::Reason>> for DeriveTold {
    ghost from_gives = { λ x told. derived told ≡ Derivation.paper x };

    fn from(x: Result<Derived, scrypt::Reason>) -> DeriveTold {
        match x {
            Ok(d) => DeriveTold {
                number: 0,
                spacing: d.spacing,
                stored: d.stored,
                mixings: d.mixings,
            },
            Err(why) => DeriveTold {
                number: why.into(),
                ..Default::default()
            },
        }
    }
}

// Derives a key.
#[unsafe(no_mangle)]
pub extern "C" fn rinnamoyle_derive(
    pass: &[u8],
    salt: &[u8],
    n: u64,
    r: u64,
    p: u64,
    key: &mut [u8],
    scratch: &mut [u8],
    allowance: u64,
) -> DeriveTold
    ensures { (derived result, (key.new, scratch.new))
        ≡ derivation pass.now salt.now (record { n = record { 0 = n }; r = r; p = p }) key.old scratch.old allowance }
{
    let c = Cost {
        n: Power::new(n),
        r,
        p,
    };
    scrypt::derive(pass, salt, c, key, scratch, allowance).into()
}

impl From<Result<Meaning, card::Reason>> for CardTold {
    ghost from_gives = { λ x told. told ≡ card_told (CardPaper.paper x) };

    fn from(x: Result<Meaning, card::Reason>) -> CardTold {
        match x {
            Ok(m) => CardTold {
                number: 0,
                exponent: m.exponent.number(),
                r: m.r,
                p: m.p,
                salt_at: 0,
                salt_len: m.salt as u64,
                key_at: m.salt as u64,
                key_len: m.key as u64,
            },
            Err(why) => CardTold {
                number: why.into(),
                ..Default::default()
            },
        }
    }
}

// Reads a card.
#[unsafe(no_mangle)]
pub extern "C" fn rinnamoyle_card_read(card: &[u8]) -> CardTold
    ensures { result ≡ card_told (card_of card.now) }
{
    card::read(card).into()
}

impl From<Result<usize, card::Reason>> for WriteTold {
    ghost from_gives = { λ x told. (room : List ℕ) → written told room ≡ CardPaper.paper_written x room };

    fn from(x: Result<usize, card::Reason>) -> WriteTold {
        match x {
            Ok(n) => WriteTold {
                number: 0,
                length: n as u64,
            },
            Err(why) => WriteTold {
                number: why.into(),
                ..Default::default()
            },
        }
    }
}

// Writes a card over the front of the room.
#[unsafe(no_mangle)]
pub extern "C" fn rinnamoyle_card_write(
    salt: &[u8],
    key: &[u8],
    exponent: u64,
    r: u64,
    p: u64,
    room: &mut [u8],
) -> WriteTold
    ensures { written result room.new ≡ write_of salt.now key.now exponent r p room.old }
{
    card::write(salt, key, Exponent::new(exponent), r, p, room).into()
}

// No `From`: that asks nothing of its caller, and this asks that the place behind the colon is a number.
fn tell_text(x: Result<Split, text::Reason>) -> TextTold
    requires { (TextPaper.paper x).user < 2 ^ 63 }
    ensures { result ≡ text_told (TextPaper.paper x) }
{
    match x {
        Ok(s) => TextTold {
            number: 0,
            user_len: s.user as u64,
            password_at: s.user as u64 + 1,
            password_len: s.password as u64,
        },
        Err(why) => TextTold {
            number: why.into(),
            ..Default::default()
        },
    }
}

// Takes a login text apart.
#[tactic(auto, using(text::proofs::Splits::within))]
#[unsafe(no_mangle)]
pub extern "C" fn rinnamoyle_text_read(text: &[u8]) -> TextTold
    ensures { result ≡ text_told (text_of text.now) }
{
    tell_text(text::read(text))
}

// Two numbers, as C reads them.
fn refused(desk: u64, number: u64) -> LoginTold
    ensures { result ≡ login_told (Logins.refused_by desk number) }
{
    LoginTold {
        answer: 2,
        desk,
        number,
    }
}

impl From<Desk> for LoginTold {
    ghost from_gives = { λ desk told. told ≡ login_told (Logins.desk_told desk) };

    fn from(desk: Desk) -> LoginTold {
        match desk {
            Desk::OfCard(why) => refused(1, why.into()),
            Desk::OfText(why) => refused(2, why.into()),
            Desk::OfDerivation(why) => refused(3, why.into()),
        }
    }
}

impl From<Login> for LoginTold {
    ghost from_gives = { λ x told. told ≡ login_told (Logins.paper x) };

    fn from(x: Login) -> LoginTold {
        match x {
            Login::Yes => LoginTold {
                answer: 1,
                ..Default::default()
            },
            Login::No => LoginTold::default(),
            Login::Refused(desk) => desk.into(),
        }
    }
}

// Checks a login against a card.
#[unsafe(no_mangle)]
pub extern "C" fn rinnamoyle_login(
    text: &[u8],
    card: &[u8],
    scratch: &mut [u8],
    allowance: u64,
) -> LoginTold
    ensures { (result, scratch.new) ≡ hosted (login_of text.now card.now scratch.old allowance) }
{
    login::check(text, card, scratch, allowance).into()
}
