//! The history, in blocks that are shared.
ghost use Rattle.std.specs.Prelude.{◌≡◌, ℕ, ◌+◌, ◌*◌, ◌^◌, ◌<◌, ◌≤◌, [], ◌∷◌, ◌++◌, length, take, slice_get, Some, OnOk, OnErr, IfErr};
ghost use Rattle.book_state.specs.HistoryStore.{block_size, entries_of, entries_in, AreFull};

use crate::entry::Entry;
use crate::past::Past;
use std::alloc::{AllocError, Global};
use std::marker::Model;
use std::mem::replace;
use std::sync::Arc;

/// How many entries a block has that is full.
const BLOCK: usize = 1024;

/// A history has fewer entries than this, which no machine stores.
const LIMIT: u64 = 1 << 62;

/// Entries, of which each is shared.
pub(crate) type Block = Vec<Arc<Entry>>;

/// The calls to a book with their replies, in order. An entry doesn't change once it is added. Full
/// blocks of 1,024 entries are shared as a whole, the entries of the last block one by one. There
/// are fewer than 2^62 entries.
#[derive(Debug, Drop)]
pub struct History {
    blocks: Vec<Arc<Block>>,
    last: Block,
}

impl Model for History {
    ghost use Rattle.std.specs.Prelude.{List};
    ghost use Rattle.book_state.specs.declared.entry.Entry.{Entry};

    ghost Value = { List Entry };

    ghost use Rattle.book_state.specs.HistoryStore.{seen, Keeps};

    ghost view = { seen };

    ghost invariant = { Keeps };
}

impl History {
    /// The empty history, which takes no memory.
    pub(crate) fn new(alloc: Global) -> History
        ensures { result ≡ [] }
    {
        History {
            blocks: Vec::new(alloc),
            last: Vec::new(alloc),
        }
    }

    /// How many entries there are.
    pub fn len(&self) -> u64
        ensures len { result ≡ length self.now }
        ensures few { result < 2 ^ 62 }
    {
        self.blocks.len() as u64 * BLOCK as u64 + self.last.len() as u64
    }

    /// The entry at a place. Places count from 0.
    pub fn entry(&self, at: u64) -> &Entry
        requires { at < length self.now }
        ensures entry { slice_get self.now at ≡ Some result.now }
        ensures few { length self.now < 2 ^ 62 }
    {
        let block = (at / BLOCK as u64) as usize;
        let place = (at % BLOCK as u64) as usize;
        if block < self.blocks.len() {
            &self.blocks[block][place]
        } else {
            &self.last[place]
        }
    }

    /// The allocator of the entries.
    pub(crate) fn alloc(&self) -> Global {
        *self.last.allocator()
    }

    /// Adds an entry behind the others. It comes back only for want of memory, as where there are
    /// 2^62 - 1 entries.
    pub(crate) fn push(&mut self, entry: Entry) -> Result<(), Entry>
        ensures ok { OnOk result (self.new ≡ self.old ++ entry ∷ []) }
        ensures err { OnErr result (self.new ≡ self.old) }
        ensures back { IfErr result (λ refused. refused ≡ entry) }
    {
        if self.len() + 1 == LIMIT {
            return Err(entry);
        }
        let Ok(()) = begin_block(&mut self.blocks, &mut self.last) else {
            return Err(entry);
        };
        push_shared(&mut self.last, entry)
    }
}

impl History {
    /// Makes a past of this history equal to it. The past gains a hold on each new entry: on full
    /// blocks as a whole, on the entries of the last block one by one. The only error is want of
    /// memory, and leaves the past as it was.
    pub fn extend(&self, past: &mut Past) -> Result<(), AllocError>
        requires { take (length past.old) self.now ≡ past.old }
        ensures ok { OnOk result (past.new ≡ self.now) }
        ensures err { OnErr result (past.new ≡ past.old) }
    {
        past.extend_to(self)
    }

    /// Takes a hold on the entries of a history of which this one is the first part. Holds on single
    /// entries that one on their block replaces are put in place of what was spent before.
    pub(crate) fn grow_to(&mut self, whole: &History, spent: &mut Block) -> Result<(), AllocError>
        requires { take (length self.old) whole.now ≡ self.old }
        ensures ok { OnOk result (self.new ≡ whole.now) }
        ensures err { OnErr result (self.new ≡ self.old) }
    {
        let known = self.blocks.len();
        if known < whole.blocks.len() {
            let last = Vec::from_clones(whole.alloc(), &whole.last)?;
            self.blocks.extend_with_clones(&whole.blocks[known..])?;
            *spent = replace(&mut self.last, last);
        } else {
            let missing = (whole.len() - self.len()) as usize;
            let from = whole.last.len() - missing;
            self.last.extend_with_clones(&whole.last[from..])?;
        }
        Ok(())
    }
}

/// Begins a new block where the last one is full. The only error is want of memory.
fn begin_block(blocks: &mut Vec<Arc<Block>>, last: &mut Block) -> Result<(), AllocError>
    requires last { length last.old.items ≤ block_size }
    requires full { AreFull blocks.old.items }
    ensures entries { entries_in blocks.new.items last.new.items ≡ entries_in blocks.old.items last.old.items }
    ensures full { AreFull blocks.new.items }
    ensures last { length last.new.items ≤ block_size }
    ensures room { OnOk result (length last.new.items < block_size) }
{
    if last.len() < BLOCK {
        return Ok(());
    }
    let alloc = *last.allocator();
    blocks.reserve(1)?;
    match Arc::new(alloc, replace(last, Vec::new(alloc))) {
        Ok(block) => {
            blocks.push_reserved(block);
            Ok(())
        }
        Err(refused) => {
            *last = refused.value;
            Err(AllocError)
        }
    }
}

/// Adds an entry to a block. It comes back only for want of memory.
fn push_shared(last: &mut Block, entry: Entry) -> Result<(), Entry>
    ensures ok { OnOk result (entries_of last.new.items ≡ entries_of last.old.items ++ entry ∷ []) }
    ensures err { OnErr result (last.new.items ≡ last.old.items) }
    ensures back { IfErr result (λ refused. refused ≡ entry) }
{
    let Ok(()) = last.reserve(1) else {
        return Err(entry);
    };
    match Arc::new(*last.allocator(), entry) {
        Ok(shared) => {
            last.push_reserved(shared);
            Ok(())
        }
        Err(refused) => Err(refused.value),
    }
}
