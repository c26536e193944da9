//! The ids of a design's nets.
ghost use Rattle.std.specs.Prelude.{◌≡◌, ◌<◌, ◌++◌, ◌∷◌, [], None, length, nat_eq, IfOk, OnOk, OnErr};
ghost use Rattle.std.specs.List.{position_from};
ghost use Rattle.gr_base.specs.Limits.{most_nets};

use indexmap::IndexSet;
use std::alloc::{AllocError, Global};
use std::marker::Model;

/// The ids of nets, in the order of the nets. No two are the same.
///
/// The ids 0, 1, 2 and so on with which they begin are only counted. Most designs have no others.
#[derive(Debug, Drop)]
pub(crate) struct Ids {
    counted: u32,
    others: IndexSet<u32>,
}

impl Ids {
    /// No ids.
    pub(crate) fn new(alloc: Global) -> Ids
        ensures { result ≡ [] }
    {
        Ids {
            counted: 0,
            others: IndexSet::new(alloc),
        }
    }

    /// Adds an id behind the others. The only error is want of memory.
    pub(crate) fn push(&mut self, id: u32) -> Result<(), AllocError>
        requires fresh { position_from (nat_eq id) 0 self.old ≡ None }
        requires room { length self.old < most_nets }
        ensures ok { OnOk result (self.new ≡ self.old ++ id ∷ []) }
        ensures err { OnErr result (self.new ≡ self.old) }
    {
        if id == self.counted && self.others.is_empty() {
            self.counted += 1;
        } else {
            self.others.insert(id)?;
        }
        Ok(())
    }

    /// The place of an id. None exactly where it isn't among them.
    pub(crate) fn place_of(&self, id: u32) -> Option<u32>
        ensures { result ≡ position_from (nat_eq id) 0 self.now }
    {
        if id < self.counted {
            return Some(id);
        }
        match self.others.get_index_of(&id) {
            Some(place) => Some(self.counted + place as u32),
            None => None,
        }
    }
}

impl Model for Ids {
    ghost use Rattle.std.specs.Prelude.{ℕ, List, ◌++◌, ◌+◌, ◌≤◌, length};
    ghost use Rattle.std.specs.List.{range_with_len};
    ghost use Rattle.gr_base.specs.Limits.{most_nets};

    ghost Value = { List ℕ };

    ghost view = { λ i. range_with_len 0 i.counted ++ i.others.keys };

    ghost invariant = { λ i. i.counted + length i.others.keys ≤ most_nets };
}
