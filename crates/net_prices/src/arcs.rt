//! What is taken of arcs where labels fall along them.
ghost use Rattle.std.specs.Prelude.{◌≡◌, ℕ, All, ◌+◌, ◌-◌, ◌*◌, ◌<◌, ◌≤◌, length, slice_index, IsTrue};
ghost use Rattle.gr_base.specs.Grid.{cells_of};
ghost use Rattle.gr_base.specs.Trees.{is_among};
ghost use Rattle.route_evaluator.specs.EdgeNumbers.{way_number as number_of_way};
ghost use Rattle.net_prices.specs.Arcs.{nothing, level_at, AreLower, ArePaid, IsPaidAt, IsPaidDown, IsPaidUp};
ghost use Rattle.net_prices.specs.Levels.{level_of};

use crate::labels::{Labels, NOTHING};
use crate::levels::Levels;
use gr_base::{Shape, Way};

/// The number of a way.
pub(crate) fn way_number(way: Way) -> u32
    ensures number { result ≡ number_of_way way }
    ensures most { result ≤ 2 }
{
    match way {
        Way::East => 0,
        Way::North => 1,
        Way::Up => 2,
    }
}

/// Takes of what is left for an arc what falls along it, from its tail's level to its head's. False
/// where that is more than what is left.
fn pay_arc(left: &mut Vec<u32>, arc: u32, tail: u32, head: u32) -> bool
    requires { arc < length left.old.items }
    ensures lower { AreLower left.old.items left.new.items }
    ensures paid { IsTrue result → slice_index left.old.items arc < nothing →
        slice_index left.new.items arc + (tail - head) ≤ slice_index left.old.items arc }
{
    let held = left[arc as usize];
    let fall = tail.saturating_sub(head);
    if fall == 0 || held == NOTHING {
        return true;
    }
    if held < fall {
        return false;
    }
    left[arc as usize] = held - fall;
    true
}

/// Takes what falls along the arc into a cell from the one before it along a way.
fn pay_up(left: &mut Vec<u32>, levels: &Levels<'_>, cell: u32, way: Way) -> bool
    requires cell { cell < cells_of levels.now.shape }
    requires left { length left.old.items ≡ 6 * cells_of levels.now.shape }
    ensures lower { AreLower left.old.items left.new.items }
    ensures paid { IsTrue result →
        IsPaidUp levels.now.shape (level_of levels.now) left.old.items left.new.items cell way }
{
    let stride = levels.shape.stride(way);
    if cell < stride {
        return true;
    }
    let arc = 6 * cell + 2 * way_number(way);
    pay_arc(left, arc, levels.at(cell - stride), levels.at(cell))
}

/// Takes what falls along the arc into a cell from the one behind it along a way.
fn pay_down(left: &mut Vec<u32>, levels: &Levels<'_>, cell: u32, way: Way) -> bool
    requires cell { cell < cells_of levels.now.shape }
    requires left { length left.old.items ≡ 6 * cells_of levels.now.shape }
    ensures lower { AreLower left.old.items left.new.items }
    ensures paid { IsTrue result →
        IsPaidDown levels.now.shape (level_of levels.now) left.old.items left.new.items cell way }
{
    let stride = levels.shape.stride(way);
    if levels.shape.cells() - cell <= stride {
        return true;
    }
    let arc = 6 * cell + 2 * way_number(way) + 1;
    pay_arc(left, arc, levels.at(cell + stride), levels.at(cell))
}

/// Takes what falls along both arcs into a cell along a way.
fn pay_way(left: &mut Vec<u32>, levels: &Levels<'_>, cell: u32, way: Way) -> bool
    requires cell { cell < cells_of levels.now.shape }
    requires left { length left.old.items ≡ 6 * cells_of levels.now.shape }
    ensures lower { AreLower left.old.items left.new.items }
    ensures up { IsTrue result →
        IsPaidUp levels.now.shape (level_of levels.now) left.old.items left.new.items cell way }
    ensures down { IsTrue result →
        IsPaidDown levels.now.shape (level_of levels.now) left.old.items left.new.items cell way }
{
    pay_up(left, levels, cell, way) && pay_down(left, levels, cell, way)
}

/// Takes what falls along the arcs into a cell. False where something falls by more than is left.
fn pay_into(left: &mut Vec<u32>, levels: &Levels<'_>, cell: u32) -> bool
    requires cell { cell < cells_of levels.now.shape }
    requires left { length left.old.items ≡ 6 * cells_of levels.now.shape }
    ensures lower { AreLower left.old.items left.new.items }
    ensures paid { IsTrue result →
        IsPaidAt levels.now.shape (level_of levels.now) left.old.items left.new.items cell }
{
    if levels.labels[cell as usize] >= levels.bound {
        return true;
    }
    if !pay_way(left, levels, cell, Way::East) {
        return false;
    }
    if !pay_way(left, levels, cell, Way::North) {
        return false;
    }
    pay_way(left, levels, cell, Way::Up)
}

/// Takes what falls along the arcs into some cells. False where something falls by more than is left.
fn pay_cells(left: &mut Vec<u32>, levels: &Levels<'_>, cells: &[u32]) -> bool
    requires cells { All (λ cell. cell < cells_of levels.now.shape) cells.now }
    requires left { length left.old.items ≡ 6 * cells_of levels.now.shape }
    ensures lower { AreLower left.old.items left.new.items }
    ensures paid { IsTrue result → (cell : ℕ) → IsTrue (is_among cells.now cell) →
        IsPaidAt levels.now.shape (level_of levels.now) left.old.items left.new.items cell }
{
    for cell in cells {
        if !pay_into(left, levels, *cell) {
            return false;
        }
    }
    true
}

/// Takes of what is left for arcs what levels fall along them: labels, but at most the bound. False
/// where something falls by more than is left; then less may be taken.
pub(crate) fn pay_all(left: &mut Vec<u32>, labels: &Labels, shape: Shape, bound: u32) -> bool
    requires labels { length labels.now.table ≡ cells_of shape }
    requires left { length left.old.items ≡ 6 * cells_of shape }
    ensures lower { AreLower left.old.items left.new.items }
    ensures paid { IsTrue result →
        ArePaid shape (level_at labels.now.table bound) left.old.items left.new.items }
{
    let levels = Levels {
        shape,
        labels: labels.table(),
        bound,
    };
    pay_cells(left, &levels, labels.cells())
}
