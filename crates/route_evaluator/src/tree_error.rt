//! The two reasons why a net has no tree: its edges aren't one, or memory is wanting.
use std::alloc::AllocError;
use thiserror::Error;

/// Why a net has no tree.
#[derive(Clone, Copy, Debug, PartialEq, Eq, Error)]
pub enum TreeError {
    #[error("the edges of the net aren't a tree")]
    NotTree,
    #[error("out of memory")]
    NoMemory,
}

impl From<AllocError> for TreeError {
    ghost use Rattle.std.specs.Prelude.{◌≡◌};
    ghost use Rattle.route_evaluator.specs.declared.tree_error.TreeError.TheVariants.{NoMemory};

    ghost from_gives = { λ _ e. e ≡ NoMemory };

    fn from(_refused: AllocError) -> Self {
        TreeError::NoMemory
    }
}
