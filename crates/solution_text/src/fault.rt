//! What can be wrong with the text of a solution, with the number and the words by which a user is told.
ghost use Rattle.std.specs.Prelude.{◌≡◌};

use thiserror::Error;

/// What is wrong with a token of a solution.
#[derive(Clone, Copy, Debug, PartialEq, Eq, Error)]
pub enum SolutionFault {
    #[error("the text ends within a record")]
    Ended = 1,
    #[error("the token has the wrong form")]
    Form = 2,
    #[error("the number is out of range")]
    Number = 3,
    #[error("the design has no net of this id")]
    UnknownId = 4,
    #[error("the net of this id has another name")]
    Name = 5,
    #[error("the net has a record before this one")]
    RepeatedNet = 6,
    #[error("the segment leaves the chip")]
    Outside = 7,
    #[error("the segment isn't straight")]
    Slanted = 8,
    #[error("the text is too long")]
    TooLong = 9,
}

impl SolutionFault {
    ghost use Rattle.solution_text.specs.Faults.{fault_number};

    /// The number under which a user is told of the fault.
    pub fn number(self) -> u8
        ensures { result ≡ fault_number self }
    {
        self as u8
    }
}
