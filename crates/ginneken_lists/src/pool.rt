//! Memory of lists.
ghost use Rattle.std.specs.Prelude.{◌≡◌, ◌≤◌, [], IfOk};
ghost use Rattle.std.specs.Vec.{vec_len, vec_capacity};

use crate::stored::Stored;
use std::alloc::{AllocError, Global};

/// For how many pairs a list that is kept has room at most.
const MOST_ROOM: usize = 256;

/// The memory of lists that are done with, which serves those to come, and that of the offers of
/// buffers. Of a list with room for more than 256 pairs none is kept.
#[derive(Debug, Drop)]
pub struct ListPool {
    pub(crate) offers: Vec<Stored>,
    spare: Vec<Vec<Stored>>,
    /// No more lists than this are in use.
    lent: usize,
}

impl ListPool {
    /// A pool without memory.
    pub fn new(alloc: Global) -> ListPool {
        ListPool {
            offers: Vec::new(alloc),
            spare: Vec::new(alloc),
            lent: 0,
        }
    }

    /// No pairs yet, with room for so many. The room in which the pool keeps them in the end is taken
    /// now. The only error is want of memory.
    pub(crate) fn empty(&mut self, alloc: Global, room: usize) -> Result<Vec<Stored>, AllocError>
        ensures items { IfOk result (λ pairs. pairs.items ≡ []) }
        ensures len { IfOk result (λ pairs. vec_len pairs ≡ 0) }
        ensures room { IfOk result (λ pairs. room ≤ vec_capacity pairs) }
    {
        let lent = self.lent.saturating_add(1);
        self.spare.reserve(lent)?;
        self.lent = lent;
        let Some(mut pairs) = self.spare.pop() else {
            return Vec::with_capacity(alloc, room);
        };
        pairs.clear();
        pairs.reserve(room)?;
        Ok(pairs)
    }

    /// Keeps the memory of some pairs, where that isn't much. It takes none.
    pub(crate) fn keep(&mut self, pairs: Vec<Stored>) {
        self.lent = self.lent.saturating_sub(1);
        if pairs.capacity() <= MOST_ROOM && self.spare.len() < self.spare.capacity() {
            self.spare.push_reserved(pairs);
        }
    }
}
