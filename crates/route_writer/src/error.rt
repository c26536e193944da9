//! The two reasons why a text isn't written whole, made from the errors of sinks and of memory.
use std::alloc::AllocError;
use thiserror::Error;

/// Why the text wasn't written whole.
#[derive(Clone, Copy, Debug, PartialEq, Eq, Error)]
pub enum WriteError {
    #[error("a device failed")]
    Failed,
    #[error("out of memory")]
    NoMemory,
}

impl From<gr_io::Failed> for WriteError {
    ghost use Rattle.std.specs.Prelude.{◌≡◌};
    ghost use Rattle.route_writer.specs.declared.error.WriteError.TheVariants.{Failed};

    ghost from_gives = { λ _ e. e ≡ Failed };

    fn from(_failed: gr_io::Failed) -> Self {
        WriteError::Failed
    }
}

impl From<AllocError> for WriteError {
    ghost use Rattle.std.specs.Prelude.{◌≡◌};
    ghost use Rattle.route_writer.specs.declared.error.WriteError.TheVariants.{NoMemory};

    ghost from_gives = { λ _ e. e ≡ NoMemory };

    fn from(_refused: AllocError) -> Self {
        WriteError::NoMemory
    }
}
