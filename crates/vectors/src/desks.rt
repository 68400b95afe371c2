// Cards, texts and logins.
use crate::rooms::{OUTPUT, Rooms, SCRATCH};
use cost::Exponent;
use lines::fault::Fault;
use lines::fields::{buffer, bytes, number};
use lines::say::{BEFORE, Hex, Left};
use login::{Desk, Login};
use std::{fmt, io};

// The number printed behind a name is the refusal's, and 0 for none (docs/VECTORS.md).
fn say_card(rt: &impl Print, card: &[u8]) -> io::Result<()> {
    let [why, exponent, r, p] = match card::read(card) {
        Ok(m) => [0, m.exponent.number(), m.r, m.p],
        Err(why) => [why.into(), 0, 0, 0],
    };
    let salt = Hex(card::salt(card));
    let key = Hex(card::key(card));
    let claims = card::claimed(card);
    println!(rt; "card {why} exponent {exponent} r {r} p {p} salt {salt} key {key} claims {claims}")
}

pub fn card(rt: &impl Print, rooms: &mut Rooms, card: &[u8]) -> Result<(), Fault> {
    say_card(rt, bytes(card, &mut rooms.first)?)?;
    Ok(())
}

// The number is 0 where nothing is refused (docs/VECTORS.md).
fn say_written(
    rt: &impl Print,
    written: Result<usize, card::Reason>,
    room: &[u8],
) -> io::Result<()> {
    let (why, length) = match written {
        Ok(n) => (0, n as u64),
        Err(why) => (why.into(), 0),
    };
    println!(rt; "write {why} length {length} room {}", Left(room))
}

pub fn write(
    rt: &impl Print,
    rooms: &mut Rooms,
    salt: &[u8],
    key: &[u8],
    costs: [&[u8]; 3],
    room: &[u8],
) -> Result<(), Fault> {
    let salt = bytes(salt, &mut rooms.first)?;
    let key = bytes(key, &mut rooms.second)?;
    let [exponent, r, p] = costs;
    let exponent = Exponent::new(number(exponent)?);
    let mut output = [BEFORE; OUTPUT];
    let room = buffer(room, &mut output)?;
    let written = card::write(salt, key, exponent, number(r)?, number(p)?, room);
    say_written(rt, written, room)?;
    Ok(())
}

// The number is 0 where nothing is refused (docs/VECTORS.md).
fn say_text(rt: &impl Print, text: &[u8]) -> io::Result<()> {
    let why = match text::read(text) {
        Ok(_) => 0,
        Err(why) => why.into(),
    };
    let user = Hex(text::user(text));
    let password = Hex(text::password(text));
    println!(rt; "text {why} user {user} password {password}")
}

pub fn text(rt: &impl Print, rooms: &mut Rooms, text: &[u8]) -> Result<(), Fault> {
    say_text(rt, bytes(text, &mut rooms.first)?)?;
    Ok(())
}

// The desk that refused, and its number.
#[derive(Clone, Copy)]
struct Refusal(Desk);

impl fmt::Display for Refusal {
    fn fmt<W: fmt::Write>(&self, f: &mut fmt::Formatter<W>) -> fmt::Result {
        match self.0 {
            Desk::OfCard(why) => write!(f, "card {}", u64::from(why)),
            Desk::OfText(why) => write!(f, "text {}", u64::from(why)),
            Desk::OfDerivation(why) => write!(f, "derivation {}", u64::from(why)),
        }
    }
}

// What the login says.
#[derive(Clone, Copy)]
struct Verdict(Login);

impl fmt::Display for Verdict {
    fn fmt<W: fmt::Write>(&self, f: &mut fmt::Formatter<W>) -> fmt::Result {
        match self.0 {
            Login::Yes => f.write_str("yes"),
            Login::No => f.write_str("no"),
            Login::Refused(desk) => write!(f, "refused {}", Refusal(desk)),
        }
    }
}

pub fn login(
    rt: &impl Print,
    rooms: &mut Rooms,
    text: &[u8],
    card: &[u8],
    scratch: &[u8],
    allowance: &[u8],
) -> Result<(), Fault> {
    let text = bytes(text, &mut rooms.first)?;
    let card = bytes(card, &mut rooms.second)?;
    let mut room = [BEFORE; SCRATCH];
    let scratch = buffer(scratch, &mut room)?;
    let x = login::check(text, card, scratch, number(allowance)?);
    println!(rt; "login {} scratch {}", Verdict(x), Left(scratch))?;
    Ok(())
}
