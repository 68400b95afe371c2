// Reads cases as lines from standard input, calls the proved library, and writes a line for each: the
// answer, and what became of each lent buffer. Its proof is the same for ten cases or ten thousand.
#![tactic(auto)]

mod calls;
mod desks;
mod hashes;
mod mixes;
mod rooms;

use rooms::{FIRST, Rooms, SECOND};
use std::io;
use std::io::Read;

// Empty lines and headings are written as they are.
fn is_case(line: &[u8]) -> bool {
    line.first().is_some_and(|b| *b != b'#')
}

fn answer(rt: &impl Print, rooms: &mut Rooms, line: &[u8]) -> io::Result<()> {
    if is_case(line) {
        return calls::answer(rt, rooms, line);
    }
    rt.write_all(line)?;
    println!(rt;)
}

// The last line may lack its end. The rooms are made once and not for each line (docs/DECISIONS.md).
fn answer_all(rt: &impl Print, input: &[u8]) -> io::Result<()> {
    let mut rooms = Rooms {
        first: [0; FIRST],
        second: [0; SECOND],
    };
    for line in input.split_inclusive(|b| *b == b'\n') {
        answer(rt, &mut rooms, line.strip_suffix(b"\n").unwrap_or(line))?;
    }
    Ok(())
}

// One byte more than the longest input that is taken.
const ROOM: usize = 2097153;

fn run(rt: &(impl Print + Input), room: &mut [u8; ROOM]) -> io::Result<()> {
    let n = io::copy(&mut rt.reader().take(ROOM as u64), &mut room.as_mut_slice())? as usize;
    if ROOM <= n {
        return println!(rt; "input too long");
    }
    answer_all(rt, &room[..n])
}

// The input stands in an array since nothing is allocated for the program (docs/DECISIONS.md).
fn main(rt: HostRuntime) -> io::Result<()> {
    let mut room = [0u8; ROOM];
    run(&rt, &mut room)
}
