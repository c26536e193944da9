//! The command `route`.
ghost use Rattle.std.specs.Prelude.{◌≡◌, ◌<◌, ◌++◌, ℕ, List, IfOk, OnOk};
ghost use Rattle.std.specs.Borrow.{Bor};
ghost use Rattle.std.specs.Option.{option_map};
ghost use Rattle.gr_base.specs.Designs.{IsDesign};
ghost use Rattle.gr_base.specs.Trees.{TreeView, route_edges};
ghost use Rattle.rc_library.specs.Libraries.{IsLibraryOf};
ghost use Rattle.gr_io.specs.Devices.{device_of, reading_of};
ghost use Rattle.straight_runs.specs.Routed.{HaveTrees};
ghost use Rattle.solution_text.specs.WrittenText.{written_text};
ghost use Rattle.command_form.specs.Leaving.{IsWritten, Leaves};
ghost use Rattle.word_reader.specs.Orders.{AreInRange};
ghost use Rattle.buffer_plan.specs.Plans.{AreRoutesOf};
ghost use Rattle.route_evaluator.specs.NetTrees.{AreTrees};
ghost use Rattle.text_commands.specs.Buffering.{IsBuffersText};
ghost use Rattle.text_commands.specs.Judging.{report_of};
ghost use Rattle.router_top.specs.Booking.{GivesVerdict, HaveBookedRoutes, IsVerdictOn};
ghost use Rattle.run_histories.specs.GivenRoutes.{AreGivenRoutes};
ghost use Rattle.router_top.specs.Routing.{told_between, IsRoutedDesign, LeavesBegun, LeavesRouted, routing};

use crate::beginning::{Beginning, open_beginning, put_kept};
use crate::booking::{BookedRoutes, booked_routes, verdict_on};
use crate::kept::Kept;
use crate::means::Means;
use crate::request::Request;
use crate::tracing::put_rounds;
use book_state::History;
use command_form::{Left, Outcome, Spent, Stop, open_design, open_library};
use gr_base::{Design, Routes};
use gr_io::{Shelf, Sink, write_whole};
use gr_text::Text;
use rc_library::Library;
use report_text::report;
use ripup_workers::{Gate, Rounds};
use route_evaluator::Verdict;
use route_writer::{WriteError, write_solution_by};
use std::alloc::{AllocError, Global};
use std::sync::Wait;
use std::thread::{Threads, join};
use text_commands::buffers_on;
use word_reader::Options;

/// The routes of a design, and the report of them and of their buffers, with the rounds that they
/// are from.
#[derive(Drop)]
struct RoutedDesign {
    rounds: Rounds,
    routes: Routes,
    report: Text,
}

/// Carries out `route`: reads the design and the library of these names, and the solution from whose
/// routes to begin, if one is named; routes the design, and writes the routes on out, and the report of
/// them and of their buffers on err.
pub(crate) fn route<R: Threads + Wait + Sync, S: Shelf, O: Sink, E: Sink, G: Gate + Sync>(
    means: &Means<R, G>,
    shelf: &mut S,
    out: &mut O,
    err: &mut E,
    design: &str,
    library: &str,
    from: Option<&str>,
    options: Options,
) -> Left<Kept>
    requires { AreInRange options }
    ensures { Leaves (routing design.now library.now (option_map (λ (name : Bor (List ℕ)). name.now) from.entry) options)
        (reading_of S.tells S.held S.faults S.misses shelf.old shelf.new)
        (device_of O.tells O.faults O.written out.old out.new)
        (device_of E.tells E.faults E.written err.old err.new)
        result.kept result.end }
{
    let design = match open_design(means.alloc, shelf, design) {
        Ok(design) => design,
        Err(stop) => return Left::with_nothing(Err(stop)),
    };
    let library = match open_library(means.alloc, shelf, &design, library) {
        Ok(library) => library,
        Err(stop) => return Left::with_nothing(Err(stop)),
    };
    route_from(means, shelf, out, err, design, library, from, options)
}

/// Reads the solution from whose routes to begin, if one is named, for a design and a library; routes the
/// design, and writes the routes on out, and the report of them and of their buffers on err.
fn route_from<R: Threads + Wait + Sync, S: Shelf, O: Sink, E: Sink, G: Gate + Sync>(
    means: &Means<R, G>,
    shelf: &mut S,
    out: &mut O,
    err: &mut E,
    design: Design,
    library: Library,
    from: Option<&str>,
    options: Options,
) -> Left<Kept>
    requires design { IsDesign design }
    requires library { IsLibraryOf design library }
    requires options { AreInRange options }
    ensures { LeavesBegun design library (option_map (λ (name : Bor (List ℕ)). name.now) from.entry) options
        (reading_of S.tells S.held S.faults S.misses shelf.old shelf.new)
        (device_of O.tells O.faults O.written out.old out.new)
        (device_of E.tells E.faults E.written err.old err.new)
        result.kept result.end }
{
    match open_beginning(means.alloc, shelf, &design, from) {
        Ok(beginning) => route_opened(means, out, err, design, library, beginning, options),
        Err(stop) => Left::with_nothing(Err(stop)),
    }
}

/// Routes a design, and writes the routes on out, and the report of them and of their buffers on err.
fn route_opened<R: Threads + Wait + Sync, O: Sink, E: Sink, G: Gate + Sync>(
    means: &Means<R, G>,
    out: &mut O,
    err: &mut E,
    design: Design,
    library: Library,
    beginning: Beginning,
    options: Options,
) -> Left<Kept>
    requires design { IsDesign design }
    requires library { IsLibraryOf design library }
    requires given { AreGivenRoutes design beginning.given }
    requires options { AreInRange options }
    ensures { LeavesRouted design library beginning options
        (device_of O.tells O.faults O.written out.old out.new)
        (device_of E.tells E.faults E.written err.old err.new)
        result.kept result.end }
{
    let Ok(routed) = route_design(means, &design, &library, &beginning, options) else {
        return Left::with_nothing(Err(Stop::NoMemory));
    };
    let end = write_routes(
        means.rt,
        means.alloc,
        out,
        err,
        &design,
        &routed,
        options.workers,
    );
    Left {
        end,
        kept: Some(Kept {
            book: routed.rounds.book,
            hands: routed.rounds.hands,
        }),
        spent: Some(Spent {
            design,
            library,
            routes: routed.routes,
        }),
    }
}

/// Routes a design, and makes the report of the trees that are booked at the first mark of least
/// overflow, and of their buffers. The only error is want of memory.
fn route_design<R: Threads + Wait + Sync, G: Gate + Sync>(
    means: &Means<R, G>,
    design: &Design,
    library: &Library,
    beginning: &Beginning,
    options: Options,
) -> Result<RoutedDesign, AllocError>
    requires library { IsLibraryOf design.now library.now }
    requires given { AreGivenRoutes design.now beginning.now.given }
    requires options { AreInRange options }
    ensures { IfOk result (IsRoutedDesign design.now library.now beginning.now options) }
{
    let request = Request {
        design,
        given: &beginning.given,
        options,
    };
    let booked = booked_routes(means, &request)?;
    let told = verdict_and_buffers(means.rt, means.alloc, design, library, &booked, options)?;
    let history = booked.rounds.book.state().history();
    let between = text_between(means.alloc, design, beginning, options, history)?;
    let report = report_with(means.alloc, &told.0, &between, &told.1)?;
    Ok(RoutedDesign {
        rounds: booked.rounds,
        routes: booked.routes,
        report,
    })
}

/// The verdict on booked routes, and the text of their buffers, which are made side by side where there
/// is more than one worker. The only error is want of memory.
fn verdict_and_buffers<R: Threads + Sync>(
    rt: &R,
    alloc: Global,
    design: &Design,
    library: &Library,
    booked: &BookedRoutes,
    options: Options,
) -> Result<(Verdict, Text), AllocError>
    requires library { IsLibraryOf design.now library.now }
    requires booked { HaveBookedRoutes design.now options booked.now }
    requires options { AreInRange options }
    ensures verdict { IfOk result (λ told. IsVerdictOn design.now options booked.now.routes told.0) }
    ensures trees { OnOk result (AreTrees design.now booked.now.routes) }
    ensures buffers { IfOk result (λ told. IsBuffersText design.now library.now booked.now.routes told.1) }
{
    if options.workers == 1 {
        let verdict = verdict_on(alloc, design, booked, options)?;
        let buffers = buffers_on(rt, alloc, design, library, &booked.routes, 1)?;
        return Ok((verdict, buffers));
    }
    let (verdict, buffers) = made_side_by_side(rt, alloc, design, library, booked, options);
    Ok((verdict?, buffers?))
}

/// The same, where there is more than one worker.
fn made_side_by_side<R: Threads + Sync>(
    rt: &R,
    alloc: Global,
    design: &Design,
    library: &Library,
    booked: &BookedRoutes,
    options: Options,
) -> (Result<Verdict, AllocError>, Result<Text, AllocError>)
    requires library { IsLibraryOf design.now library.now }
    requires booked { HaveBookedRoutes design.now options booked.now }
    requires options { AreInRange options }
    ensures verdict { GivesVerdict design.now options booked.now.routes result.0 }
    ensures buffers { IfOk result.1 (IsBuffersText design.now library.now booked.now.routes) }
{
    // The caller's thread judges.
    let threads = options.workers.saturating_sub(1).max(1);
    join(
        rt,
        || -> Result<Verdict, AllocError>
            requires { HaveBookedRoutes design.now options booked.now × AreInRange options }
            ensures { GivesVerdict design.entry.now options booked.entry.now.routes result }
        { verdict_on(alloc, design, booked, options) },
        || -> Result<Text, AllocError>
            requires { IsLibraryOf design.now library.now × AreRoutesOf design.now booked.now.routes × (0 < threads) }
            ensures { IfOk result (IsBuffersText design.entry.now library.entry.now booked.entry.now.routes) }
        { buffers_on(rt, alloc, design, library, &booked.routes, threads) },
    )
}

/// What is told between the report and the buffers. The only error is want of memory.
fn text_between(
    alloc: Global,
    design: &Design,
    beginning: &Beginning,
    options: Options,
    history: &History,
) -> Result<Text, AllocError>
    ensures { IfOk result (λ text. text ≡ told_between design.now beginning.now options history.now) }
{
    let mut text = Text::new(alloc);
    put_kept(&mut text, design, beginning)?;
    put_rounds(alloc, &mut text, options.trace, history)?;
    Ok(text)
}

/// The report of a verdict, with two texts behind it. The only error is want of memory.
fn report_with(
    alloc: Global,
    verdict: &Verdict,
    between: &Text,
    buffers: &Text,
) -> Result<Text, AllocError>
    ensures { IfOk result (λ text. text ≡ report_of verdict.now ++ between.now ++ buffers.now) }
{
    let mut text = report(alloc, verdict)?;
    text.put(between.bytes())?;
    text.put(buffers.bytes())?;
    Ok(text)
}

/// Writes the routes on out, by so many workers, and their report on err.
fn write_routes<R: Threads + Sync, O: Sink, E: Sink>(
    rt: &R,
    alloc: Global,
    out: &mut O,
    err: &mut E,
    design: &Design,
    routed: &RoutedDesign,
    workers: u32,
) -> Result<Outcome, Stop>
    requires routed { HaveTrees design.now routed.now.routes }
    requires workers { 0 < workers }
    ensures { IsWritten (written_text design.now (route_edges routed.now.routes)) routed.now.report
        (device_of O.tells O.faults O.written out.old out.new)
        (device_of E.tells E.faults E.written err.old err.new)
        result }
{
    match write_solution_by(rt, alloc, out, design, &routed.routes, workers) {
        Ok(()) => {}
        Err(WriteError::Failed) => return Err(Stop::WriteFailed),
        Err(WriteError::NoMemory) => return Err(Stop::NoMemory),
    }
    match write_whole(err, routed.report.bytes()) {
        Ok(()) => Ok(Outcome::Whole),
        Err(_) => Err(Stop::WriteFailed),
    }
}
