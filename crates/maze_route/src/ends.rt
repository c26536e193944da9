//! The goals of a walk, by their numbers in the window.
ghost use Rattle.std.specs.Prelude.{◌≡◌, ℕ, ◌<◌, All, length, map, OnOk, IfSome};
ghost use Rattle.gr_base.specs.Trees.{is_among};
ghost use Rattle.maze_route.specs.Ends.{IsFirstOf, earlier_of};
ghost use Rattle.maze_route.specs.Kept.{IsLabelOf};
ghost use Rattle.maze_route.specs.Labels.{label_at};
ghost use Rattle.maze_route.specs.Search.{is_marked};
ghost use Rattle.maze_route.specs.Steps.{size_of, local_of};
ghost use Rattle.maze_route.specs.Windows.{LieIn};

use crate::front::Labels;
use crate::pane::{Pane, Reached};
use gr_base::refill;
use std::alloc::AllocError;

/// Puts the numbers in the window of some cells in the place of what a list held.
pub(crate) fn locals(pane: Pane, cells: &[u32], ends: &mut Vec<u32>) -> Result<(), AllocError>
    requires { LieIn pane.grid pane.window cells.now }
    ensures { OnOk result (ends.new.items ≡ map (local_of pane) cells.now) }
{
    ends.clear();
    for &cell in cells {
        ends.push(pane.local(cell))?;
    }
    Ok(())
}

/// Puts a mark for each of these cells of a window, and for no other, in the place of what a list
/// held.
pub(crate) fn mark(pane: Pane, ends: &[u32], marks: &mut Vec<bool>) -> Result<(), AllocError>
    requires { All (λ end. end < size_of pane) ends.now }
    ensures size { OnOk result (length marks.new.items ≡ size_of pane) }
    ensures marks { (cell : ℕ) → OnOk result (is_marked marks.new.items cell ≡ is_among ends.now cell) }
{
    refill(marks, false, pane.size() as usize)?;
    for &end in ends {
        marks[end as usize] = true;
    }
    Ok(())
}

/// The earlier of two labelled cells, if the second has a label: the one of least label, and of
/// equals the one of least number.
fn earlier(first: Option<Reached>, label: Option<u64>, cell: u32) -> Option<Reached>
    ensures { result ≡ earlier_of first label cell }
{
    let Some(cost) = label else {
        return first;
    };
    match first {
        Some(best) if best.cost < cost || best.cost == cost && best.cell <= cell => first,
        _ => Some(Reached { cell, cost }),
    }
}

/// The cell of least label, and of these the least-numbered, if one has a label.
pub(crate) fn first_reached(labels: &Labels, ends: &[u32]) -> Option<Reached>
    requires { All (λ end. end < length labels.now.costs.items) ends.now }
    ensures { IsFirstOf (label_at labels.now.costs.items) ends.now result }
{
    let mut first = None;
    for &end in ends {
        first = earlier(first, labels.at(end), end);
    }
    first
}

/// The least label of these cells, if one has a label.
pub(crate) fn nearest_of(labels: &Labels, ends: &[u32]) -> Option<u64>
    requires { All (λ end. end < length labels.now.costs.items) ends.now }
    ensures { IfSome result (IsLabelOf (label_at labels.now.costs.items) ends.now) }
{
    let first = first_reached(labels, ends)?;
    Some(first.cost)
}
