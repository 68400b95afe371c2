// The rooms of a line's fields. They are arrays since nothing is allocated for the program
// (docs/DECISIONS.md).

// The longest key or card that is written, and the longest scratch.
pub const OUTPUT: usize = 4096;

pub const SCRATCH: usize = 65536;

// The longest first BYTES of a line, and the longest second.
pub const FIRST: usize = 1048576;

pub const SECOND: usize = 4096;

// Where they are put.
#[derive(Drop)]
pub struct Rooms {
    pub first: [u8; FIRST],
    pub second: [u8; SECOND],
}
