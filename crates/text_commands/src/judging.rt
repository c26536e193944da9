//! The command that judges a solution of a design.
ghost use Rattle.std.specs.Prelude.{◌≡◌, ◌<◌, ◌≤◌, length, All, None, IfOk};
ghost use Rattle.gr_io.specs.Devices.{device_of, reading_of};
ghost use Rattle.route_reader.specs.Solutions.{IsOf, edges_by};
ghost use Rattle.text_commands.specs.Judging.{judging, outcome_of, verdict_text, IsVerdictText};
ghost use Rattle.command_form.specs.Leaving.{LeavesOut, WritesOne};

use command_form::{Left, Outcome, Stop, open_design, open_solution};
use gr_base::Design;
use gr_io::{Shelf, Sink, write_whole};
use gr_text::Text;
use report_text::{report, unjoined};
use route_evaluator::{Verdict, evaluate};
use route_reader::Solution;
use std::alloc::{AllocError, Global};

/// Carries out `evaluate`: reads the design and the solution of these names, judges the solution's
/// routes, and writes the verdict on out. A via edge counts as `via_cost` wire edges, at most 1,000.
pub fn judge<K, S: Shelf, O: Sink>(
    alloc: Global,
    shelf: &mut S,
    out: &mut O,
    design: &str,
    solution: &str,
    via_cost: u32,
) -> Left<K>
    requires { via_cost ≤ 1000 }
    ensures { LeavesOut (judging design.now solution.now via_cost)
        (reading_of S.tells S.held S.faults S.misses shelf.old shelf.new)
        (device_of O.tells O.faults O.written out.old out.new)
        result.kept result.end }
{
    Left {
        end: read_and_judge::<K, S, O>(alloc, shelf, out, design, solution, via_cost),
        kept: None,
        spent: None,
    }
}

/// Reads the design and the solution of these names, judges the solution's routes, and writes the
/// verdict on out.
fn read_and_judge<K, S: Shelf, O: Sink>(
    alloc: Global,
    shelf: &mut S,
    out: &mut O,
    design: &str,
    solution: &str,
    via_cost: u32,
) -> Result<Outcome, Stop>
    requires { via_cost ≤ 1000 }
    ensures { LeavesOut {K = K} (judging design.now solution.now via_cost)
        (reading_of S.tells S.held S.faults S.misses shelf.old shelf.new)
        (device_of O.tells O.faults O.written out.old out.new)
        None result }
{
    let design = open_design(alloc, shelf, design)?;
    let solution = open_solution(alloc, shelf, &design, solution)?;
    write_verdict(alloc, out, &design, &solution, via_cost)
}

/// Judges a solution's routes, and writes the verdict on out.
fn write_verdict<O: Sink>(
    alloc: Global,
    out: &mut O,
    design: &Design,
    solution: &Solution,
    via_cost: u32,
) -> Result<Outcome, Stop>
    requires solution { IsOf design.now solution.now }
    requires via_cost { via_cost ≤ 1000 }
    ensures { WritesOne (IsVerdictText design.now (edges_by solution.now) via_cost) (λ stop. ⊥)
        (device_of O.tells O.faults O.written out.old out.new)
        result }
{
    let Ok(verdict) = evaluate(alloc, design, solution, via_cost) else {
        return Err(Stop::NoMemory);
    };
    let Ok(text) = verdict_text(alloc, design, &verdict) else {
        return Err(Stop::NoMemory);
    };
    match write_whole(out, text.bytes()) {
        Ok(()) => Ok(outcome_of(&verdict)),
        Err(_) => Err(Stop::WriteFailed),
    }
}

/// The report of a verdict, and the nets that it finds unjoined. The only error is want of memory.
fn verdict_text(alloc: Global, design: &Design, verdict: &Verdict) -> Result<Text, AllocError>
    requires { All (λ net. net < length design.now.nets) verdict.now.unjoined }
    ensures { IfOk result (λ text. text ≡ verdict_text design.now verdict.now) }
{
    let mut text = report(alloc, verdict)?;
    let unjoined = unjoined(alloc, design, verdict)?;
    text.put(unjoined.bytes())?;
    Ok(text)
}

/// Whether some routed net isn't joined.
fn outcome_of(verdict: &Verdict) -> Outcome
    ensures { result ≡ outcome_of verdict.now.unjoined }
{
    if verdict.unjoined.as_slice().is_empty() {
        Outcome::Whole
    } else {
        Outcome::Open
    }
}
