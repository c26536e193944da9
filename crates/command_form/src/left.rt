//! What a command leaves.
ghost use Rattle.std.specs.Prelude.{◌≡◌, None};

use crate::stop::{Outcome, Stop};
use gr_base::{Design, Routes};
use rc_library::Library;

/// What a command read and made, and needs no more. To let go of it takes as long as there are nets
/// and trees, which a program that ends need not wait for.
#[derive(Debug, Drop)]
pub struct Spent {
    pub design: Design,
    pub library: Library,
    pub routes: Routes,
}

/// How a command ended, and what it keeps and hands back, which is of type `K`.
#[derive(Drop)]
pub struct Left<K> {
    pub end: Result<Outcome, Stop>,
    pub kept: Option<K>,
    pub spent: Option<Spent>,
}

impl<K> Left<K> {
    /// Ended so, with nothing kept.
    pub fn with_nothing(end: Result<Outcome, Stop>) -> Left<K>
        ensures end { result.end ≡ end }
        ensures kept { result.kept ≡ None }
    {
        Left {
            end,
            kept: None,
            spent: None,
        }
    }
}
