//! Errors of plans.
use std::alloc::AllocError;
use thiserror::Error;

/// Why a net has no plan.
#[derive(Clone, Copy, Debug, PartialEq, Eq, Error)]
pub enum PolarError {
    /// No placement gives each sink the signal that it wants.
    #[error("no legal placement")]
    NoLegal,
    #[error("out of memory")]
    NoMemory,
}

impl From<AllocError> for PolarError {
    ghost use Rattle.std.specs.Prelude.{◌≡◌};
    ghost use Rattle.polar_lists.specs.declared.error.PolarError.TheVariants.{NoMemory};

    ghost from_gives = { λ _ e. e ≡ NoMemory };

    fn from(_refused: AllocError) -> Self {
        PolarError::NoMemory
    }
}
