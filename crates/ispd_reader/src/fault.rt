//! What can be wrong with a design text, with the number and the words by which a user is told.
ghost use Rattle.std.specs.Prelude.{◌≡◌};

use gr_text::ReadError;
use thiserror::Error;

/// What is wrong with a design text at the first token for which a check fails.
#[derive(Clone, Copy, Debug, PartialEq, Eq, Error)]
pub enum DesignFault {
    #[error("the text ends where a token is due")]
    Ended = 1,
    #[error("another word is due")]
    Word = 2,
    #[error("a whole number in its range is due")]
    Number = 3,
    #[error("the grid has more than 8,388,608 cells")]
    Grid = 4,
    #[error("a tile has no width or no height")]
    Tile = 5,
    #[error("no layer has capacity along a way in which the grid is wider than one tile")]
    NoLayer = 6,
    #[error("the net has no pin, or the nets have more than 16,777,216 pins together")]
    Pins = 7,
    #[error("the pin lies outside the chip")]
    PinOutside = 8,
    #[error("the pin lies on a layer that the grid doesn't have")]
    PinLayer = 9,
    #[error("an earlier net has this id")]
    RepeatedId = 10,
    #[error("the adjustment names no wire edge of the grid")]
    Adjust = 11,
    #[error("a token stands behind the end")]
    Trailing = 12,
    #[error("the text is longer than 2,147,483,648 bytes")]
    TooLong = 13,
}

impl DesignFault {
    ghost use Rattle.ispd_reader.specs.Faults.{fault_number};

    /// The number under which a user is told of the fault.
    pub fn number(self) -> u8
        ensures { result ≡ fault_number self }
    {
        self as u8
    }
}

/// Why no design was read.
pub type DesignError = ReadError<DesignFault>;
