//! Why bytes are no media that can be read.
ghost use Rattle.std.specs.Prelude.{◌≡◌};

use fallible_collections::TryReserveError;
use std::{error, fmt};

/// Why bytes were not read.
#[derive(Clone, Copy, PartialEq, Eq, Debug)]
pub enum Error {
    /// A box or what is in it claims more bytes than are left of what holds it.
    Truncated,
    /// A box claims to be shorter than its own front.
    BadSize,
    /// Boxes stand in more others than are read.
    TooDeep,
    /// A text is longer than what is kept of one.
    TooLarge,
    /// A track has no number, or that of another one.
    BadTrack,
    /// Memory was refused.
    Memory(TryReserveError),
}

impl fmt::Display for Error {
    fn fmt<W: fmt::Write>(&self, f: &mut fmt::Formatter<W>) -> fmt::Result {
        match self {
            Error::Truncated => f.write_str("longer than what holds it"),
            Error::BadSize => f.write_str("a box is shorter than its front"),
            Error::TooDeep => f.write_str("too many boxes in one another"),
            Error::TooLarge => f.write_str("a text is too long"),
            Error::BadTrack => f.write_str("a track has no number of its own"),
            Error::Memory(_refused) => f.write_str("out of memory"),
        }
    }
}

impl error::Error for Error {}

impl From<TryReserveError> for Error {
    ghost use Rattle.example_boxes.specs.declared.error.Error.TheVariants.{Memory};

    ghost from_gives = { λ refused e. e ≡ Memory refused };

    fn from(refused: TryReserveError) -> Error {
        Error::Memory(refused)
    }
}
