//! Keeps rows of what it costs to climb each span, with which the tables of net after net begin.
ghost use Rattle.std.specs.Prelude.{◌≡◌, ℕ, ◌<◌, ◌≤◌, Option, [], length, IfOk, OnOk};
ghost use Rattle.gr_base.specs.Limits.{most_cells};
ghost use Rattle.layer_assign.specs.declared.climbs.TheConstants.{KEPT_ROWS};
ghost use Rattle.layer_assign.specs.declared.span.Span.{Span as SpanView};
ghost use Rattle.layer_assign.specs.Spans.{IsWithin, climb};
ghost use Rattle.layer_assign.specs.Choices.{entry};
ghost use Rattle.layer_assign.specs.Tables.{HasRows, AreClimbs};

use crate::spans::{climb, next_span, spans_of};
use gr_base::Shape;
use std::alloc::{AllocError, Global};

/// How many rows of climbs are kept: few nets have more nodes.
const KEPT_ROWS: u32 = 64;

/// What it costs to climb each span of a grid's layers, in rows as the tables of nodes have them.
#[derive(Debug, Drop)]
pub(crate) struct ClimbRows {
    shape: Shape,
    costs: Vec<u64>,
    ghost rows: { AreClimbs shape.layers KEPT_ROWS costs.items },
}

impl ClimbRows {
    /// The rows for a grid of this shape. The only error is want of memory.
    pub(crate) fn new(alloc: Global, shape: Shape) -> Result<ClimbRows, AllocError>
        ensures { IfOk result (λ rows. rows.shape ≡ shape) }
    {
        let mut costs = Vec::new(alloc);
        climbs(shape, KEPT_ROWS, &mut costs)?;
        Ok(ClimbRows { shape, costs })
    }

    /// Makes the rows anew where they aren't those of the grid. The only error is want of memory.
    pub(crate) fn fit(&mut self, alloc: Global, shape: Shape) -> Result<(), AllocError>
        ensures { OnOk result (self.new.shape ≡ shape) }
    {
        if self.shape != shape {
            *self = ClimbRows::new(alloc, shape)?;
        }
        Ok(())
    }

    /// Puts the climbs of so many nodes in the place of what a list held.
    pub(crate) fn copy_to(&self, nodes: u32, costs: &mut Vec<u64>) -> Result<(), AllocError>
        requires { nodes ≤ most_cells }
        ensures { OnOk result (AreClimbs self.now.shape.layers nodes costs.new.items) }
    {
        let spans = spans_of(self.shape);
        costs.clear();
        let mut done = 0;
        while done < nodes {
            let rows = KEPT_ROWS.min(nodes - done);
            costs.extend_from_slice(&self.costs[..rows as usize * spans])?;
            done += rows;
        }
        Ok(())
    }
}

/// What it costs to climb each span, for each node.
fn climbs(shape: Shape, nodes: u32, costs: &mut Vec<u64>) -> Result<(), AllocError>
    requires some { 0 < nodes }
    requires few { nodes ≤ most_cells }
    ensures rows { OnOk result (HasRows shape.layers nodes costs.new.items) }
    ensures climbs { OnOk result ((node : ℕ) → (s : Option SpanView) → node < nodes → IsWithin shape.layers s →
        entry shape.layers costs.new.items node s ≡ climb s) }
{
    let spans = spans_of(shape);
    costs.clear();
    costs.reserve(nodes as usize * spans)?;
    climb_row(shape, costs)?;
    for _ in 1..nodes {
        costs.extend_from_within(..spans)?;
    }
    Ok(())
}

/// What it costs to climb each span, in an empty list.
fn climb_row(shape: Shape, costs: &mut Vec<u64>) -> Result<(), AllocError>
    requires { costs.old.items ≡ [] }
    ensures row { OnOk result (HasRows shape.layers 1 costs.new.items) }
    ensures climbs { OnOk result ((s : Option SpanView) → IsWithin shape.layers s →
        entry shape.layers costs.new.items 0 s ≡ climb s) }
{
    let mut span = None;
    for _ in 0..spans_of(shape) {
        costs.push(climb(span))?;
        span = next_span(shape, span);
    }
    Ok(())
}
