//! Writes the routes of a design from one thread, with little of the text in memory at a time.
ghost use Rattle.std.specs.Prelude.{◌≡◌, ◌≤◌, ◌++◌, [], Err, IsTrue, OnOk, OnErr};
ghost use Rattle.gr_io.specs.Counts.{Rose};
ghost use Rattle.gr_io.specs.Parts.{AppendsPart};
ghost use Rattle.straight_runs.specs.Routed.{HaveTrees};
ghost use Rattle.route_writer.specs.Written.{AddsRoutes, AddsPart};

use crate::error::WriteError;
use crate::nets::put_net;
use crate::record::Draft;
use gr_base::{Design, Routes};
use gr_io::Sink;
use std::alloc::{AllocError, Global};

/// The records are written once they fill so many bytes.
const FULL: usize = 65_536;

/// Writes the text of the routes: for each routed net, in the design's order, its record with the
/// maximal straight runs of its tree's edges. `Failed` comes only where the sink's count of faults
/// rose. At an error the sink holds a first part of the text, and no more.
pub fn write_solution<K: Sink>(
    alloc: Global,
    sink: &mut K,
    design: &Design,
    routes: &Routes,
) -> Result<(), WriteError>
    requires { HaveTrees design.now routes.now }
    ensures ok { OnOk result (AddsRoutes K.tells K.written design.now routes.now sink.old sink.new) }
    ensures quiet { OnOk result (K.faults sink.new ≡ K.faults sink.old) }
    ensures prefix { OnErr result (AddsPart K.tells K.written design.now routes.now sink.old sink.new) }
    ensures failed { result ≡ Err WriteError.Failed → Rose (K.faults sink.old) (K.faults sink.new) }
    ensures no_memory { result ≡ Err WriteError.NoMemory → K.faults sink.new ≡ K.faults sink.old }
    ensures faults_kept { K.faults sink.old ≤ K.faults sink.new }
{
    let mut draft = Draft::new(alloc);
    for net in 0..design.nets() {
        put_net(&mut draft, design, routes, net)?;
        if draft.text.bytes().len() < FULL {
            continue;
        }
        draft.text.flush(sink)?;
    }
    draft.text.flush(sink)?;
    Ok(())
}
