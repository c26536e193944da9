//! The command `trial`.
ghost use Rattle.std.specs.Prelude.{◌≡◌, ◌++◌, IfOk, Ok};
ghost use Rattle.command_form.specs.Leaving.{LeavesAlone, WritesOut};
ghost use Rattle.design_maker.specs.Ranges.{IsMade};
ghost use Rattle.design_maker.specs.Texts.{text_of};
ghost use Rattle.gr_base.specs.Designs.{IsDesign};
ghost use Rattle.gr_io.specs.Devices.{device_of};
ghost use Rattle.ispd_reader.specs.DesignText.{design_of};
ghost use Rattle.router_top.specs.Tracing.{rounds_told};
ghost use Rattle.router_top.specs.Trying.{trying};
ghost use Rattle.text_commands.specs.Judging.{report_of};
ghost use Rattle.word_reader.specs.Orders.{AreInRange};

use crate::beginning::Beginning;
use crate::booking::{booked_routes, verdict_on};
use crate::kept::Kept;
use crate::means::Means;
use crate::request::Request;
use crate::tracing::put_rounds;
use book_state::History;
use command_form::{Left, Outcome, Stop};
use design_maker::{Made, made_text};
use gr_base::{Design, Name};
use gr_io::{Shelf, Sink, Slot, SureShelf, write_whole};
use gr_text::Text;
use ispd_reader::read_design;
use report_text::report;
use ripup_workers::Gate;
use route_evaluator::Verdict;
use std::alloc::{AllocError, Global};
use std::sync::Wait;
use std::thread::Threads;
use word_reader::Options;

/// Carries out `trial`: routes a made design, and writes the report of its routes on out.
pub(crate) fn trial<R: Threads + Wait + Sync, O: Sink, G: Gate + Sync>(
    means: &Means<R, G>,
    out: &mut O,
    made: Made,
    options: Options,
) -> Left<Kept>
    requires made { IsMade made }
    requires options { AreInRange options }
    ensures { LeavesAlone (trying made options)
        (device_of O.tells O.faults O.written out.old out.new)
        result.kept result.end }
{
    let Ok(design) = made_design(means.alloc, made) else {
        return Left::with_nothing(Err(Stop::NoMemory));
    };
    let Ok(beginning) = Beginning::from_nothing(means.alloc) else {
        return Left::with_nothing(Err(Stop::NoMemory));
    };
    let request = Request {
        design: &design,
        given: &beginning.given,
        options,
    };
    let Ok(booked) = booked_routes(means, &request) else {
        return Left::with_nothing(Err(Stop::NoMemory));
    };
    let Ok(verdict) = verdict_on(means.alloc, &design, &booked, options) else {
        return Left::with_nothing(Err(Stop::NoMemory));
    };
    let history = booked.rounds.book.state().history();
    let end = write_report(means.alloc, out, &verdict, options.trace, history);
    Left {
        end,
        kept: Some(Kept {
            book: booked.rounds.book,
            hands: booked.rounds.hands,
        }),
        spent: None,
    }
}

/// Writes the report of a verdict on out, and behind it what each round did, where it is asked for.
fn write_report<O: Sink>(
    alloc: Global,
    out: &mut O,
    verdict: &Verdict,
    trace: bool,
    history: &History,
) -> Result<Outcome, Stop>
    ensures { WritesOut (report_of verdict.now ++ rounds_told trace history.now)
        (device_of O.tells O.faults O.written out.old out.new) result }
{
    let Ok(text) = report_with_rounds(alloc, verdict, trace, history) else {
        return Err(Stop::NoMemory);
    };
    match write_whole(out, text.bytes()) {
        Ok(()) => Ok(Outcome::Whole),
        Err(_) => Err(Stop::WriteFailed),
    }
}

/// The report of a verdict, and behind it what each round did, where it is asked for. The only error is
/// want of memory.
fn report_with_rounds(
    alloc: Global,
    verdict: &Verdict,
    trace: bool,
    history: &History,
) -> Result<Text, AllocError>
    ensures { IfOk result (λ text. text ≡ report_of verdict.now ++ rounds_told trace history.now) }
{
    let mut text = report(alloc, verdict)?;
    put_rounds(alloc, &mut text, trace, history)?;
    Ok(text)
}

/// The design that the text of a made design says. The only error is want of memory.
fn made_design(alloc: Global, made: Made) -> Result<Design, AllocError>
    requires { IsMade made }
    ensures said { IfOk result (λ design. design_of (text_of made) ≡ Ok design) }
    ensures design { IfOk result IsDesign }
{
    let text = made_text(alloc, made)?;
    let nothing = Name::from_bytes(alloc, b"")?;
    let unread = Name::from_bytes(alloc, b"")?;
    let design = Name::from_bytes(alloc, text.bytes())?;
    let mut shelf = SureShelf::new(design, nothing, unread);
    let Ok(()) = shelf.reach(alloc, Slot::Design, "") else {
        unreachable!()
    };
    match read_design(alloc, &mut shelf) {
        Ok(design) => Ok(design),
        Err(_) => Err(AllocError),
    }
}
