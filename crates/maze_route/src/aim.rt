//! Bounds on the rest of walks to some cells of a window, by the window's scales.
ghost use Rattle.std.specs.Prelude.{◌≡◌, ℕ, ◌≤◌, ◌<◌, All, length, map, Option, IfOk, IsTrue};
ghost use Rattle.cost_rules.specs.Formulas.{most_cost};
ghost use Rattle.cost_rules.specs.Prices.{IsBelowVias};
ghost use Rattle.gr_base.specs.declared.grid.Edge.{Edge};
ghost use Rattle.gr_base.specs.Trees.{is_among};
ghost use Rattle.maze_route.specs.Positions.{most_position, AreUpTo, outside};
ghost use Rattle.maze_route.specs.Scales.{AreScales};
ghost use Rattle.maze_route.specs.Spans.{outside_by, IsNear};
ghost use Rattle.maze_route.specs.Steps.{size_of, rest_of, IsGuide};

use crate::pane::{Aim, Pane};
use crate::scales::Scales;
use crate::span::Span;
use std::alloc::{AllocError, Global};

/// The greatest position of a column or a row.
const MOST_POSITION: u64 = 17_592_186_044_416;

/// The bound on walks to the least box that holds these cells of a window, with what a via edge costs
/// at least.
pub(crate) fn aim_at(
    alloc: Global,
    scales: &Scales,
    pane: Pane,
    ends: &[u32],
    via: u64,
) -> Result<Aim, AllocError>
    requires ends { All (λ end. end < size_of pane) ends.now }
    requires small { via ≤ most_cost }
    requires columns { length scales.now.columns.items ≡ pane.shape.columns }
    requires rows { length scales.now.rows.items ≡ pane.shape.rows }
    ensures ends { IfOk result (λ aim. (end : ℕ) → IsTrue (is_among ends.now end) → rest_of pane aim end ≡ 0) }
    ensures guide { (price : Edge → Option ℕ) → AreScales pane.grid pane.window price scales.now →
        IsBelowVias pane.grid price via → IfOk result (IsGuide pane price) }
{
    let span = span_of(scales, pane, ends);
    Ok(Aim {
        columns: rests(alloc, &scales.columns, span.left, span.right)?,
        rows: rests(alloc, &scales.rows, span.low, span.high)?,
        via,
        top: span.top,
    })
}

/// The least box that holds these cells of a window.
fn span_of(scales: &Scales, pane: Pane, ends: &[u32]) -> Span
    requires ends { All (λ end. end < size_of pane) ends.now }
    requires columns { length scales.now.columns.items ≡ pane.shape.columns }
    requires rows { length scales.now.rows.items ≡ pane.shape.rows }
    ensures near { IsNear result }
    ensures ends { (end : ℕ) → IsTrue (is_among ends.now end) → outside_by scales.now pane result end ≡ 0 }
{
    let mut span = Span {
        left: MOST_POSITION,
        right: 0,
        low: MOST_POSITION,
        high: 0,
        top: 0,
    };
    for &end in ends {
        let place = pane.spot(end).place;
        let column = scales.columns[place.x as usize];
        let row = scales.rows[place.y as usize];
        span = span.with(column, row, place.layer);
    }
    span
}

/// How far outside two positions each of some others lies.
fn rests(alloc: Global, positions: &[u64], from: u64, to: u64) -> Result<Vec<u64>, AllocError>
    requires from { from ≤ most_position }
    requires near { AreUpTo most_position positions.now }
    ensures { IfOk result (λ rests. rests.items ≡ map (outside from to) positions.now) }
{
    let mut rests = Vec::with_capacity(alloc, positions.len())?;
    for &position in positions {
        rests.push(from.saturating_sub(position) + position.saturating_sub(to))?;
    }
    Ok(rests)
}
