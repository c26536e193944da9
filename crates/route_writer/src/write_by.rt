//! Writes the routes of a design with several workers; only the calling thread touches the sink.
ghost use Rattle.std.specs.Prelude.{◌≡◌, ◌<◌, ◌≤◌, length, Err, OnOk, OnErr};
ghost use Rattle.gr_io.specs.Counts.{Rose};
ghost use Rattle.straight_runs.specs.Routed.{HaveTrees};
ghost use Rattle.route_writer.specs.Written.{AddsRoutes, AddsPart};

use crate::blocks::{MOST_IN_BLOCK, blocks, put_blocks, write_blocks};
use crate::error::WriteError;
use crate::write::write_solution;
use beside_calls::block_start;
use gr_base::{Design, Routes};
use gr_io::Sink;
use std::alloc::Global;
use std::thread::Threads;

/// How many nets the first blocks have.
const FIRST_BLOCK: u32 = 1_024;

/// Blocks with less text than this are followed by blocks of more nets, those with more text than
/// four times as much by blocks of fewer.
const FEW_BYTES: usize = 262_144;

/// Writes the text of the routes as `write_solution` does. More than one worker puts records together
/// side by side, in blocks of nets; each block's text is written whole, in the order of the nets.
pub fn write_solution_by<R: Threads + Sync, K: Sink>(
    rt: &R,
    alloc: Global,
    sink: &mut K,
    design: &Design,
    routes: &Routes,
    workers: u32,
) -> Result<(), WriteError>
    requires routed { HaveTrees design.now routes.now }
    requires workers { 0 < workers }
    ensures ok { OnOk result (AddsRoutes K.tells K.written design.now routes.now sink.old sink.new) }
    ensures quiet { OnOk result (K.faults sink.new ≡ K.faults sink.old) }
    ensures prefix { OnErr result (AddsPart K.tells K.written design.now routes.now sink.old sink.new) }
    ensures failed { result ≡ Err WriteError.Failed → Rose (K.faults sink.old) (K.faults sink.new) }
    ensures no_memory { result ≡ Err WriteError.NoMemory → K.faults sink.new ≡ K.faults sink.old }
    ensures faults_kept { K.faults sink.old ≤ K.faults sink.new }
{
    if workers == 1 {
        return write_solution(alloc, sink, design, routes);
    }
    let mut blocks = blocks(alloc, workers)?;
    let mut size = FIRST_BLOCK;
    let mut from = 0;
    while from < design.nets() {
        put_blocks(rt, design, routes, from, size, &mut blocks);
        write_blocks(sink, &blocks)?;
        from = block_start(design.nets(), from, size, workers as usize);
        size = next_size(size, blocks[0].draft.text.bytes().len());
    }
    Ok(())
}

/// How many nets the next blocks have.
fn next_size(size: u32, bytes: usize) -> u32
    requires some { 0 < size }
    requires most { size ≤ 65536 }
    ensures some { 0 < result }
    ensures most { result ≤ 65536 }
{
    if bytes < FEW_BYTES {
        MOST_IN_BLOCK.min(2 * size)
    } else if bytes > 4 * FEW_BYTES {
        1.max(size / 2)
    } else {
        size
    }
}
