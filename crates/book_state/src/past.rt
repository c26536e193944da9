//! A caller's own hold on the first part of a history.
ghost use Rattle.std.specs.Prelude.{◌≡◌, [], length, take, OnOk, OnErr};

use crate::history::{Block, History};
use std::alloc::{AllocError, Global};
use std::marker::Model;

/// A hold on the first part of a history, which stays as it is while the history grows.
/// `History::extend` makes it longer.
#[derive(Debug, Drop)]
pub struct Past {
    held: History,
    /// Holds on single entries that a hold on their block has replaced.
    spent: Block,
}

impl Model for Past {
    ghost use Rattle.std.specs.Prelude.{List};
    ghost use Rattle.book_state.specs.declared.entry.Entry.{Entry};

    ghost Value = { List Entry };

    ghost view = { λ p. p.held };
}

impl Past {
    /// The empty past, which takes no memory.
    pub fn new(alloc: Global) -> Past
        ensures { result ≡ [] }
    {
        Past {
            held: History::new(alloc),
            spent: Vec::new(alloc),
        }
    }

    /// Its entries, as a history.
    pub(crate) fn entries(&self) -> &History
        ensures { result.now ≡ self.now }
    {
        &self.held
    }

    /// Takes a hold on the entries of a history of which this past is the first part. An error
    /// leaves the past as it was.
    pub(crate) fn extend_to(&mut self, whole: &History) -> Result<(), AllocError>
        requires { take (length self.old) whole.now ≡ self.old }
        ensures ok { OnOk result (self.new ≡ whole.now) }
        ensures err { OnErr result (self.new ≡ self.old) }
    {
        self.held.grow_to(whole, &mut self.spent)
    }

    /// Lets go of holds that the past needs no more. That takes as long as a block has entries, so
    /// that a caller does it once it has let go of the lock on the history.
    pub fn let_go(&mut self)
        ensures { self.new ≡ self.old }
    {
        self.spent.clear();
    }

    /// How many entries it holds.
    pub fn len(&self) -> u64
        ensures { result ≡ length self.now }
    {
        self.held.len()
    }
}
