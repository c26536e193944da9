//! The command that places buffers on a solution of a design.
ghost use Rattle.std.specs.Prelude.{◌≡◌, ◌<◌, length, None, IsTrue, IfOk, IfErr, OnOk};
ghost use Rattle.gr_base.specs.Designs.{is_routed};
ghost use Rattle.gr_io.specs.Devices.{device_of, reading_of};
ghost use Rattle.rc_library.specs.Libraries.{IsLibraryOf};
ghost use Rattle.route_evaluator.specs.TreeSets.{AreSetsOf};
ghost use Rattle.route_reader.specs.Solutions.{IsOf, edges_by};
ghost use Rattle.buffer_plan.specs.Plans.{AreRoutesOf};
ghost use Rattle.text_commands.specs.Buffering.{AreTreesBy, StopsAtNet, StopsAtTrees, IsBuffersText, IsPlacedText, GivesTree, GiveTrees, LeavesPlaced, buffering};
ghost use Rattle.command_form.specs.Leaving.{LeavesOut, WritesOne};

use crate::placing::text_by;
use buffer_plan::{Planner, RoutedNets};
use command_form::{Left, Outcome, Stop, open_design, open_library, open_solution};
use gr_base::{Design, RouteTree, Routes};
use gr_io::{Shelf, Sink, write_whole};
use gr_text::Text;
use polar_lists::PolarPlanner;
use rc_library::Library;
use route_evaluator::{TreeError, TreeMaker};
use route_reader::Solution;
use std::alloc::{AllocError, Global};
use std::thread::Threads;

/// All nets are planned in the caller's thread: the words of the command ask for no workers.
const ONE_WORKER: u32 = 1;

/// Carries out `buffer`: reads the design, the library and the solution of these names, places buffers
/// on the solution's trees, and writes them on out.
pub fn buffer<K, R: Threads + Sync, S: Shelf, O: Sink>(
    rt: &R,
    alloc: Global,
    shelf: &mut S,
    out: &mut O,
    design: &str,
    library: &str,
    solution: &str,
) -> Left<K>
    ensures { LeavesOut (buffering design.now library.now solution.now)
        (reading_of S.tells S.held S.faults S.misses shelf.old shelf.new)
        (device_of O.tells O.faults O.written out.old out.new)
        result.kept result.end }
{
    Left {
        end: read_and_buffer::<K, R, S, O>(rt, alloc, shelf, out, design, library, solution),
        kept: None,
        spent: None,
    }
}

/// Reads the design, the library and the solution of these names, places buffers on the solution's
/// trees, and writes them on out.
fn read_and_buffer<K, R: Threads + Sync, S: Shelf, O: Sink>(
    rt: &R,
    alloc: Global,
    shelf: &mut S,
    out: &mut O,
    design: &str,
    library: &str,
    solution: &str,
) -> Result<Outcome, Stop>
    ensures { LeavesOut {K = K} (buffering design.now library.now solution.now)
        (reading_of S.tells S.held S.faults S.misses shelf.old shelf.new)
        (device_of O.tells O.faults O.written out.old out.new)
        None result }
{
    let design = open_design(alloc, shelf, design)?;
    let library = open_library(alloc, shelf, &design, library)?;
    buffer_opened::<K, R, S, O>(rt, alloc, shelf, out, &design, &library, solution)
}

/// Reads the solution of this name for a design and a library, places buffers on the solution's
/// trees, and writes them on out.
fn buffer_opened<K, R: Threads + Sync, S: Shelf, O: Sink>(
    rt: &R,
    alloc: Global,
    shelf: &mut S,
    out: &mut O,
    design: &Design,
    library: &Library,
    solution: &str,
) -> Result<Outcome, Stop>
    requires { IsLibraryOf design.now library.now }
    ensures { LeavesPlaced K design.now library.now solution.now
        (reading_of S.tells S.held S.faults S.misses shelf.old shelf.new)
        (device_of O.tells O.faults O.written out.old out.new)
        result }
{
    let solution = open_solution(alloc, shelf, design, solution)?;
    write_buffers(rt, alloc, out, design, library, &solution)
}

/// Places buffers on the trees of a solution, and writes them on out.
fn write_buffers<R: Threads + Sync, O: Sink>(
    rt: &R,
    alloc: Global,
    out: &mut O,
    design: &Design,
    library: &Library,
    solution: &Solution,
) -> Result<Outcome, Stop>
    requires library { IsLibraryOf design.now library.now }
    requires solution { IsOf design.now solution.now }
    ensures { WritesOne (IsPlacedText design.now library.now (edges_by solution.now))
        (StopsAtNet design.now (edges_by solution.now))
        (device_of O.tells O.faults O.written out.old out.new)
        result }
{
    let trees = solution_trees(alloc, design, solution)?;
    let Ok(text) = buffers_on(rt, alloc, design, library, &trees, ONE_WORKER) else {
        return Err(Stop::NoMemory);
    };
    match write_whole(out, text.bytes()) {
        Ok(()) => Ok(Outcome::Whole),
        Err(_) => Err(Stop::WriteFailed),
    }
}

/// The tree of each routed net of a solution. It stops at the first net whose edges aren't one.
fn solution_trees(alloc: Global, design: &Design, solution: &Solution) -> Result<Routes, Stop>
    requires { IsOf design.now solution.now }
    ensures { GiveTrees design.now (edges_by solution.now) result }
{
    let Ok(mut trees) = Routes::new(alloc, design.nets()) else {
        return Err(Stop::NoMemory);
    };
    set_trees(alloc, design, solution, &mut trees)?;
    Ok(trees)
}

/// Sets the tree of each routed net of a solution. It stops at the first net whose edges aren't one.
fn set_trees(
    alloc: Global,
    design: &Design,
    solution: &Solution,
    trees: &mut Routes,
) -> Result<(), Stop>
    requires of { IsOf design.now solution.now }
    requires long { length trees.old ≡ length design.now.nets }
    ensures trees { OnOk result (AreTreesBy design.now (edges_by solution.now) trees.new) }
    ensures stops { IfErr result (StopsAtTrees design.now (edges_by solution.now)) }
{
    let Ok(mut maker) = TreeMaker::new(alloc, design.frame().shape) else {
        return Err(Stop::NoMemory);
    };
    set_trees_with(alloc, design, solution, &mut maker, trees)
}

/// Sets the tree of each routed net of a solution, which this maker makes. It stops at the first net
/// whose edges aren't one.
fn set_trees_with(
    alloc: Global,
    design: &Design,
    solution: &Solution,
    maker: &mut TreeMaker,
    trees: &mut Routes,
) -> Result<(), Stop>
    requires of { IsOf design.now solution.now }
    requires sets { AreSetsOf design.now.frame.shape maker.old }
    requires long { length trees.old ≡ length design.now.nets }
    ensures trees { OnOk result (AreTreesBy design.now (edges_by solution.now) trees.new) }
    ensures stops { IfErr result (StopsAtTrees design.now (edges_by solution.now)) }
{
    for net in 0..design.nets() {
        if !design.routed(net) {
            continue;
        }
        let tree = solution_tree(alloc, design, solution, net, maker)?;
        trees.set(net, tree);
    }
    Ok(())
}

/// The tree of a routed net of a solution.
fn solution_tree(
    alloc: Global,
    design: &Design,
    solution: &Solution,
    net: u32,
    maker: &mut TreeMaker,
) -> Result<RouteTree, Stop>
    requires of { IsOf design.now solution.now }
    requires routed { IsTrue (is_routed design.now net) }
    requires sets { AreSetsOf design.now.frame.shape maker.old }
    ensures tree { GivesTree design.now (edges_by solution.now) net result }
    ensures sets { OnOk result (AreSetsOf design.now.frame.shape maker.new) }
{
    match maker.tree_of(alloc, design, solution, net) {
        Ok(tree) => Ok(tree),
        Err(TreeError::NotTree) => Err(Stop::NotTree {
            id: design.net(net).id,
        }),
        Err(TreeError::NoMemory) => Err(Stop::NoMemory),
    }
}

/// The text of the buffers that are placed on trees, planned and put together by so many workers. With a
/// library of version 3 each sink gets the signal that it wants, or its net no buffers. The only error is
/// want of memory.
pub fn buffers_on<R: Threads + Sync>(
    rt: &R,
    alloc: Global,
    design: &Design,
    library: &Library,
    trees: &Routes,
    workers: u32,
) -> Result<Text, AllocError>
    requires library { IsLibraryOf design.now library.now }
    requires workers { 0 < workers }
    requires trees { AreRoutesOf design.now trees.now }
    ensures { IfOk result (IsBuffersText design.now library.now trees.now) }
{
    let nets = RoutedNets {
        design,
        library,
        routes: trees,
    };
    if library.version() < 3 {
        return text_by::<Planner, R>(rt, alloc, &nets, workers);
    }
    text_by::<PolarPlanner, R>(rt, alloc, &nets, workers)
}
