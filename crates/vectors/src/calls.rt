// Which call a line is.
use crate::rooms::Rooms;
use crate::{desks, hashes, mixes};
use lines::fault::Fault;
use std::io;

// Runs the call that the words are: its name, and as many fields as it has.
fn run(rt: &impl Print, rooms: &mut Rooms, words: &[&[u8]]) -> Result<(), Fault> {
    match words {
        [b"sha256", m] => hashes::hash(rt, rooms, m),
        [b"hmac", key, text] => hashes::mac(rt, rooms, key, text),
        [b"pbkdf2", pass, salt, out] => hashes::derive(rt, rooms, pass, salt, out),
        [b"salsa", x] => mixes::core(rt, rooms, x),
        [b"blockmix", r, block] => mixes::block(rt, rooms, r, block),
        [b"romix", n, r, k, block] => mixes::lane(rt, rooms, n, r, k, block),
        [b"derive", pass, salt, n, r, p, key, scratch, allowance] => {
            mixes::derive(rt, rooms, pass, salt, [n, r, p], key, scratch, allowance)
        }
        [b"card", card] => desks::card(rt, rooms, card),
        [b"write", salt, key, exponent, r, p, room] => {
            desks::write(rt, rooms, salt, key, [exponent, r, p], room)
        }
        [b"text", text] => desks::text(rt, rooms, text),
        [b"login", text, card, scratch, allowance] => {
            desks::login(rt, rooms, text, card, scratch, allowance)
        }
        _ => Err(Fault::Malformed),
    }
}

// The longest call has nine words: a tenth is enough to say that there are too many.
const WORDS: usize = 10;

// Runs the call that a line is. Its words stand in an array since nothing is allocated for the program
// (docs/DECISIONS.md).
fn run_line(rt: &impl Print, rooms: &mut Rooms, line: &[u8]) -> Result<(), Fault> {
    let mut words = [b"".as_slice(); WORDS];
    let split = line.split(|b| *b == b' ');
    let n = words
        .iter_mut()
        .zip(split)
        .map(|(to, word)| *to = word)
        .count();
    run(rt, rooms, &words[..n])
}

// Answers a line, or says that it is malformed.
pub fn answer(rt: &impl Print, rooms: &mut Rooms, line: &[u8]) -> io::Result<()> {
    match run_line(rt, rooms, line) {
        Ok(()) => Ok(()),
        Err(Fault::Malformed) => println!(rt; "malformed"),
        Err(Fault::Io(e)) => Err(e),
    }
}
