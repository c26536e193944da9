//! What can be wrong with a library text, with the number and the words by which a user is told.
ghost use Rattle.std.specs.Prelude.{◌≡◌};

use gr_text::ReadError;
use thiserror::Error;

/// What is wrong with a library text at the first token for which a check fails.
#[derive(Clone, Copy, Debug, PartialEq, Eq, Error)]
pub enum LibraryFault {
    #[error("the text ends where a token is due")]
    Ended = 1,
    #[error("another word is due")]
    Word = 2,
    #[error("a whole number in its range is due")]
    Number = 3,
    #[error("the design doesn't have this layer, or its wire was given before")]
    Layer = 4,
    #[error("an earlier kind has this name")]
    RepeatedKind = 5,
    #[error("the wire of a layer, the via, the driver or the sink isn't given")]
    Missing = 6,
    #[error("a token stands behind the end")]
    Trailing = 7,
    #[error("the text is longer than 2,147,483,648 bytes")]
    TooLong = 8,
    #[error("32 kinds stand before this one")]
    TooMany = 9,
    #[error("the design doesn't have this tile")]
    Tile = 10,
    #[error("no net of the design has this id")]
    UnknownId = 11,
    #[error("the net doesn't have this sink")]
    Pin = 12,
}

impl LibraryFault {
    ghost use Rattle.rc_library.specs.Faults.{fault_number};

    /// The number under which a user is told of the fault.
    pub fn number(self) -> u8
        ensures { result ≡ fault_number self }
    {
        self as u8
    }
}

/// Why no library was read.
pub type LibraryError = ReadError<LibraryFault>;
