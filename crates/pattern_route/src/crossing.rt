//! Sweeps the lines between two tiles for the first crossing of least cost, and lists the cells of its walk.
ghost use Rattle.std.specs.Prelude.{◌≡◌, ◌≢◌, ◌+◌, ◌++◌, OnOk, if◌then◌else◌, nat_lt};
ghost use mathlib.Core.List.{IsPrefix};
ghost use Rattle.gr_base.specs.Grid.{gap};
ghost use Rattle.gr_base.specs.declared.grid.Cell.{Cell};
ghost use Rattle.pattern_route.specs.Steps.{toward};
ghost use Rattle.pattern_route.specs.Walks.{IsFlat, walk_cost, first_least, least_of, cheaper};
ghost use Rattle.pattern_route.specs.Lines.{across, span_of, leaving, arriving, crossing, SpanFits, walk_by, walk_at, walks_by, walks_after, IsBetween, IsAtLine, IsCrossing};

use crate::leg::{cost_along, one_toward, push_along, step_along};
use crate::line::{Axis, Crossing, Line, Span, Sweep};
use cost_rules::Costs;
use gr_base::{Cell, Shape};
use std::alloc::AllocError;

impl Axis {
    fn across(self) -> Axis
        ensures { result ≡ across self }
    {
        match self {
            Axis::Columns => Axis::Rows,
            Axis::Rows => Axis::Columns,
        }
    }
}

impl Span {
    pub(crate) fn new(axis: Axis, a: Cell, b: Cell) -> Span
        ensures { result ≡ span_of axis a b }
    {
        match axis {
            Axis::Columns => Span {
                axis,
                start: a.x,
                end: b.x,
                from: a.y,
                to: b.y,
            },
            Axis::Rows => Span {
                axis,
                start: a.y,
                end: b.y,
                from: a.x,
                to: b.x,
            },
        }
    }

    /// The line across the axis on which walks leave the first tile.
    pub(crate) fn leaving(self) -> Line
        ensures { result ≡ leaving self }
    {
        Line {
            axis: self.axis.across(),
            at: self.from,
        }
    }

    /// The line of the axis that a walk crosses by.
    pub(crate) fn crossing(self, at: u32) -> Line
        ensures { result ≡ crossing self at }
    {
        Line {
            axis: self.axis,
            at,
        }
    }

    /// The line across the axis on which walks arrive at the second tile.
    pub(crate) fn arriving(self) -> Line
        ensures { result ≡ arriving self }
    {
        Line {
            axis: self.axis.across(),
            at: self.to,
        }
    }

    /// How many steps a walk takes along the lines that it crosses by.
    fn steps_across(self) -> u64
        ensures { result ≡ gap self.from self.to }
    {
        u64::from(self.from.abs_diff(self.to))
    }

    /// How many steps each walk takes. None of them costs less than 1.
    fn steps(self) -> u64
        ensures { result ≡ gap self.start self.end + gap self.from self.to }
    {
        u64::from(self.start.abs_diff(self.end)) + self.steps_across()
    }
}

/// The sweep at the span's first line.
fn start<C: Costs>(costs: &C, shape: Shape, span: Span) -> Sweep
    requires grid { C.grid costs.now ≡ shape }
    requires flat { IsFlat shape (C.price costs.now) }
    requires fits { SpanFits shape span }
    ensures sweep { IsAtLine shape (C.price costs.now) result }
    ensures span { result.span ≡ span }
    ensures at { result.at ≡ span.start }
{
    Sweep {
        span,
        at: span.start,
        left: 0,
        to_come: cost_along(costs, shape, span.arriving(), span.start, span.end),
    }
}

/// The sweep at the next line.
fn next<C: Costs>(costs: &C, shape: Shape, sweep: Sweep) -> Sweep
    requires grid { C.grid costs.now ≡ shape }
    requires flat { IsFlat shape (C.price costs.now) }
    requires sweep { IsAtLine shape (C.price costs.now) sweep }
    requires more { sweep.at ≢ sweep.span.end }
    ensures sweep { IsAtLine shape (C.price costs.now) result }
    ensures span { result.span ≡ sweep.span }
    ensures at { result.at ≡ toward sweep.at sweep.span.end }
{
    let span = sweep.span;
    let leave = step_along(costs, shape, span.leaving(), sweep.at, span.end);
    let arrive = step_along(costs, shape, span.arriving(), sweep.at, span.end);
    Sweep {
        span,
        at: one_toward(sweep.at, span.end),
        left: sweep.left + leave,
        to_come: sweep.to_come - arrive,
    }
}

/// The crossing by the line that the sweep has come to.
fn crossing_at<C: Costs>(costs: &C, shape: Shape, sweep: Sweep) -> Crossing
    requires grid { C.grid costs.now ≡ shape }
    requires flat { IsFlat shape (C.price costs.now) }
    requires sweep { IsAtLine shape (C.price costs.now) sweep }
    ensures crossing { IsCrossing shape (C.price costs.now) result }
    ensures span { result.span ≡ sweep.span }
    ensures at { result.at ≡ sweep.at }
{
    let span = sweep.span;
    let across = cost_along(costs, shape, span.crossing(sweep.at), span.from, span.to);
    Crossing {
        span,
        at: sweep.at,
        cost: sweep.left + across + sweep.to_come,
    }
}

/// Of two crossings the second where it costs less, else the first.
fn cheaper_of(first: Crossing, second: Crossing) -> Crossing
    ensures { result ≡ (if nat_lt second.cost first.cost then second else first) }
{
    if second.cost < first.cost {
        second
    } else {
        first
    }
}

/// Of a crossing and that by the sweep's line the second where it costs less, else the first. The
/// line isn't priced where even steps that cost 1 each would not make it cheaper.
fn cheaper_at<C: Costs>(costs: &C, shape: Shape, best: Crossing, sweep: Sweep) -> Crossing
    requires grid { C.grid costs.now ≡ shape }
    requires flat { IsFlat shape (C.price costs.now) }
    requires best { IsCrossing shape (C.price costs.now) best }
    requires sweep { IsAtLine shape (C.price costs.now) sweep }
    ensures crossing { IsCrossing shape (C.price costs.now) result }
    ensures walk { let cost = walk_cost shape (C.price costs.now) in
        walk_at shape result ≡ cheaper cost (walk_at shape best) (walk_by shape sweep.span sweep.at) }
{
    if best.cost <= sweep.left + sweep.span.steps_across() + sweep.to_come {
        return best;
    }
    cheaper_of(best, crossing_at(costs, shape, sweep))
}

/// The first of least cost of a crossing and those by the lines after a sweep's. The sweep ends
/// early at a crossing that costs 1 a step.
fn least_after<C: Costs>(costs: &C, shape: Shape, first: Sweep, found: Crossing) -> Crossing
    requires grid { C.grid costs.now ≡ shape }
    requires flat { IsFlat shape (C.price costs.now) }
    requires first { IsAtLine shape (C.price costs.now) first }
    requires found { IsCrossing shape (C.price costs.now) found }
    ensures crossing { IsCrossing shape (C.price costs.now) result }
    ensures least { let cost = walk_cost shape (C.price costs.now) in
        walk_at shape result ≡ least_of cost (walk_at shape found) (walks_after shape first) }
{
    let mut sweep = first;
    let mut best = found;
    while sweep.at != sweep.span.end {
        if best.cost <= sweep.span.steps() {
            return best;
        }
        sweep = next(costs, shape, sweep);
        best = cheaper_at(costs, shape, best, sweep);
    }
    best
}

/// The first crossing of least cost by a line of the span.
pub(crate) fn least_crossing<C: Costs>(costs: &C, shape: Shape, span: Span) -> Crossing
    requires grid { C.grid costs.now ≡ shape }
    requires flat { IsFlat shape (C.price costs.now) }
    requires fits { SpanFits shape span }
    ensures crossing { IsCrossing shape (C.price costs.now) result }
    ensures least { let cost = walk_cost shape (C.price costs.now) in
        walk_at shape result ≡ first_least cost (walks_by shape span) }
{
    let sweep = start(costs, shape, span);
    least_after(costs, shape, sweep, crossing_at(costs, shape, sweep))
}

/// The first of least cost of a crossing and those by the lines of the span.
pub(crate) fn least_with<C: Costs>(costs: &C, shape: Shape, found: Crossing, span: Span) -> Crossing
    requires grid { C.grid costs.now ≡ shape }
    requires flat { IsFlat shape (C.price costs.now) }
    requires found { IsCrossing shape (C.price costs.now) found }
    requires fits { SpanFits shape span }
    ensures crossing { IsCrossing shape (C.price costs.now) result }
    ensures least { let cost = walk_cost shape (C.price costs.now) in
        walk_at shape result ≡ least_of cost (walk_at shape found) (walks_by shape span) }
{
    if found.cost <= span.steps() {
        return found;
    }
    let sweep = start(costs, shape, span);
    least_after(costs, shape, sweep, cheaper_at(costs, shape, found, sweep))
}

/// Puts the walk by a crossing in place of what a list holds. The only error is want of memory, and leaves
/// the list with the first cells of the walk.
pub(crate) fn put_walk(
    cells: &mut Vec<u32>,
    shape: Shape,
    crossing: Crossing,
) -> Result<(), AllocError>
    requires fits { SpanFits shape crossing.span }
    requires between { IsBetween crossing.span.start crossing.at crossing.span.end }
    ensures all { OnOk result (cells.new.items ≡ walk_at shape crossing) }
    ensures part { IsPrefix cells.new.items (walk_at shape crossing) }
{
    let span = crossing.span;
    cells.clear();
    cells.push(span.leaving().cell(shape, span.start))?;
    push_along(cells, shape, span.leaving(), span.start, crossing.at)?;
    push_along(cells, shape, span.crossing(crossing.at), span.from, span.to)?;
    push_along(cells, shape, span.arriving(), crossing.at, span.end)
}
