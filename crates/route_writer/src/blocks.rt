//! Blocks of nets, whose records are put side by side.
ghost use Rattle.std.specs.Prelude.{◌≡◌, ◌+◌, ◌<◌, ◌≤◌, ◌++◌, length, All, Err, IfOk, IsTrue, OnOk, OnErr};
ghost use Rattle.beside_calls.specs.Blocks.{block_start as start_of};
ghost use Rattle.gr_io.specs.Counts.{Rose};
ghost use Rattle.gr_io.specs.Parts.{AppendsPart};
ghost use Rattle.straight_runs.specs.Routed.{HaveTrees};
ghost use Rattle.route_writer.specs.Blocks.{ArePut, IsPut, texts_of};

use crate::error::WriteError;
use crate::nets::put_nets;
use crate::record::Draft;
use beside_calls::block_start;
use gr_base::{Design, Routes};
use gr_io::{Sink, write_whole};
use std::alloc::{AllocError, Global};
use std::thread::{Threads, for_each_mut};

/// The most nets that a block has.
pub(crate) const MOST_IN_BLOCK: u32 = 65_536;

/// The records of a block of nets, and whether it has them all: else memory ran out.
#[derive(Drop)]
pub(crate) struct BlockRecords {
    pub draft: Draft,
    pub whole: bool,
}

/// So many blocks without text. The only error is want of memory.
pub(crate) fn blocks(alloc: Global, count: u32) -> Result<Vec<BlockRecords>, AllocError>
    ensures { IfOk result (λ blocks. length blocks.items ≡ count) }
{
    let mut blocks = Vec::with_capacity(alloc, count as usize)?;
    for _ in 0..count {
        blocks.push(BlockRecords {
            draft: Draft::new(alloc),
            whole: true,
        })?;
    }
    Ok(blocks)
}

/// Puts the records of the nets from a number on into the blocks, side by side, so many nets into
/// each block while there are nets. The texts that the blocks had are gone.
pub(crate) fn put_blocks<R: Threads + Sync>(
    rt: &R,
    design: &Design,
    routes: &Routes,
    from: u32,
    size: u32,
    blocks: &mut Vec<BlockRecords>,
)
    requires routed { HaveTrees design.now routes.now }
    requires from { from ≤ length design.now.nets }
    requires size { size ≤ 65536 }
    requires some { 0 < length blocks.old.items }
    ensures long { length blocks.new.items ≡ length blocks.old.items }
    ensures put { ArePut design.now routes.now from size blocks.new.items }
{
    let threads = blocks.len();
    for_each_mut(
        rt,
        blocks.as_mut_slice(),
        threads,
        &|at, block: &mut BlockRecords|
            requires { HaveTrees design.now routes.now × (from ≤ length design.now.nets) × (size ≤ 65536) }
            ensures { IsPut design.entry.now routes.entry.now (start_of (length design.entry.now.nets) from size at)
                (start_of (length design.entry.now.nets) from size (at + 1)) block.exit.now }
        {
            put_block(block, design, routes, from, size, at);
        },
    );
}

/// Puts the records of a block's nets into it.
fn put_block(
    block: &mut BlockRecords,
    design: &Design,
    routes: &Routes,
    from: u32,
    size: u32,
    at: usize,
)
    requires routed { HaveTrees design.now routes.now }
    requires from { from ≤ length design.now.nets }
    requires size { size ≤ 65536 }
    ensures { IsPut design.now routes.now (start_of (length design.now.nets) from size at)
        (start_of (length design.now.nets) from size (at + 1)) block.new }
{
    let first = block_start(design.nets(), from, size, at);
    let last = design.nets().min(first + size);
    block.draft.text.clear();
    block.whole = put_nets(&mut block.draft, design, routes, first, last).is_ok();
}

/// Writes the texts of the blocks. At an error the sink holds a first part of them: `NoMemory` comes
/// at the first block that isn't whole, `Failed` only where the sink's count of faults rose.
pub(crate) fn write_blocks<K: Sink>(sink: &mut K, blocks: &[BlockRecords]) -> Result<(), WriteError>
    ensures ok { OnOk result (IsTrue K.tells → K.written sink.new ≡ K.written sink.old ++ texts_of blocks.now) }
    ensures whole { OnOk result (All (λ block. IsTrue block.whole) blocks.now) }
    ensures quiet { OnOk result (K.faults sink.new ≡ K.faults sink.old) }
    ensures prefix { OnErr result
        (IsTrue K.tells → AppendsPart (K.written sink.old) (K.written sink.new) (texts_of blocks.now)) }
    ensures failed { result ≡ Err WriteError.Failed → Rose (K.faults sink.old) (K.faults sink.new) }
    ensures no_memory { result ≡ Err WriteError.NoMemory → K.faults sink.new ≡ K.faults sink.old }
    ensures faults_kept { K.faults sink.old ≤ K.faults sink.new }
{
    for block in blocks {
        if !block.whole {
            return Err(WriteError::NoMemory);
        }
        write_whole(sink, block.draft.text.bytes())?;
    }
    Ok(())
}
