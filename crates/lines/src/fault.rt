// Why a line gets no answer.
ghost use Rattle.std.specs.Prelude.{◌≡◌};
ghost use Rattle.lines.specs.declared.fault.Fault.TheVariants.{Io};

use std::io;

// The line is malformed, or something could not be written.
#[derive(Drop)]
pub enum Fault {
    Malformed,
    Io(io::Error),
}

impl From<io::Error> for Fault {
    ghost from_gives = { λ e f. f ≡ Io e };

    fn from(e: io::Error) -> Fault {
        Fault::Io(e)
    }
}
