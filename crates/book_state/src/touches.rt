//! Wire edges whose cost to a net entries may have changed.
//!
//! What costs a net more after one entry may cost it the same again after the next: so it is where another
//! net is released and then claimed along the same edges. So it is noted what edges were, and looked at
//! once all entries are read.
ghost use Rattle.std.specs.Prelude.{◌≡◌, All, IsTrue, OnOk};
ghost use Rattle.gr_base.specs.Grid.{has_edge, is_wire};
ghost use Rattle.gr_base.specs.Trees.{IsTree, edges_of};
ghost use Rattle.gr_base.specs.declared.grid.Edge.{Edge};
ghost use Rattle.grid_demand.specs.LoadSums.{demand_at};
ghost use Rattle.book_state.specs.Beyond.{outside, BeginsNone};
ghost use Rattle.book_state.specs.Still.{joins_cells as joins_cells_of, lacks_room};
ghost use Rattle.book_state.specs.Touches.{is_noted as noted_in, IsTouch, AddsTouches, IsSettled};

use crate::still::Sought;
use cost_rules::reach;
use gr_base::{Cell, Edge, RouteTree};
use grid_demand::{Capacity, Loads};
use maze_route::Window;
use std::alloc::AllocError;

/// A wire edge, and the demand for it before entries changed that.
#[derive(Clone, Copy, Debug)]
pub(crate) struct Touch {
    edge: Edge,
    demand: u64,
}

/// Notes the wire edges of a tree, which another net takes or leaves, that begin in the window and lack
/// room for the net: the others cost it the same before and after. On a large grid most trees lie far from
/// the window, so that is asked first. The only error is want of memory.
pub(crate) fn note_tree(
    capacity: &Capacity,
    loads: &Loads,
    tree: &RouteTree,
    sought: &Sought<'_>,
    beside: Option<u32>,
    touches: &mut Vec<Touch>,
) -> Result<(), AllocError>
    requires tree { tree.now.shape ≡ capacity.now.shape }
    requires loads { loads.now.shape ≡ capacity.now.shape }
    ensures adds { AddsTouches capacity.now sought.now.window (demand_at loads.now) touches.old.items touches.new.items }
    ensures noted { (e : Edge) → IsTrue (lacks_room capacity.now sought.now.formula sought.now.window (demand_at loads.now)
        sought.now.net beside e) → IsTrue (edges_of tree.now e) → OnOk result (IsTrue (noted_in touches.new.items e)) }
    ensures tree { IsTree tree.now }
{
    if lies_beyond(tree, sought.window) {
        return Ok(());
    }
    for node in 0..tree.len() {
        if let Some(edge) = tree.wire_to_parent(node) {
            note_edge(capacity, loads, edge, sought, beside, touches)?;
        }
    }
    Ok(())
}

/// Whether a tree has too few nodes to reach a window from its first cell: a node lies at most as many
/// steps away from there as its number says.
pub(crate) fn lies_beyond(tree: &RouteTree, window: Window) -> bool
    ensures beyond { IsTrue result → BeginsNone tree.now window }
    ensures tree { IsTree tree.now }
{
    let first = tree.shape().place_of(tree.cell(0));
    steps_outside(window, first) >= u64::from(tree.len())
}

/// How many columns and rows a place lies outside a window, together.
fn steps_outside(window: Window, place: Cell) -> u64
    ensures { result ≡ outside window place }
{
    let columns = window
        .x0
        .saturating_sub(place.x)
        .max(place.x.saturating_sub(window.x1));
    let rows = window
        .y0
        .saturating_sub(place.y)
        .max(place.y.saturating_sub(window.y1));
    u64::from(columns) + u64::from(rows)
}

/// Notes a wire edge that another net takes or leaves, where it begins in the window, lacks room for the
/// net, and isn't noted yet. The only error is want of memory.
fn note_edge(
    capacity: &Capacity,
    loads: &Loads,
    e: Edge,
    sought: &Sought<'_>,
    beside: Option<u32>,
    touches: &mut Vec<Touch>,
) -> Result<(), AllocError>
    requires edge { IsTrue (has_edge capacity.now.shape e) }
    requires wire { IsTrue (is_wire e) }
    requires loads { loads.now.shape ≡ capacity.now.shape }
    ensures adds { AddsTouches capacity.now sought.now.window (demand_at loads.now) touches.old.items touches.new.items }
    ensures noted { IsTrue (lacks_room capacity.now sought.now.formula sought.now.window (demand_at loads.now) sought.now.net beside e) →
        OnOk result (IsTrue (noted_in touches.new.items e)) }
{
    if !is_short(capacity, loads, e, sought, beside) || is_noted(touches, e) {
        return Ok(());
    }
    touches.push(Touch {
        edge: e,
        demand: loads.demand(e),
    })?;
    Ok(())
}

/// Whether an edge is noted.
fn is_noted(touches: &[Touch], e: Edge) -> bool
    ensures { result ≡ noted_in touches.now e }
{
    touches.iter().any(|touch| touch.edge == e)
}

/// Whether a wire edge begins in a window and has no room for a net beside the demand and another net,
/// if there is one. Most edges have room, and the place of a cell takes divisions, so it is asked last.
fn is_short(
    capacity: &Capacity,
    loads: &Loads,
    e: Edge,
    sought: &Sought<'_>,
    beside: Option<u32>,
) -> bool
    requires edge { IsTrue (has_edge capacity.now.shape e) }
    requires wire { IsTrue (is_wire e) }
    requires loads { loads.now.shape ≡ capacity.now.shape }
    ensures { result ≡ lacks_room capacity.now sought.now.formula sought.now.window (demand_at loads.now) sought.now.net beside e }
{
    let taken = match beside {
        Some(other) => capacity.need(other, e),
        None => 0,
    };
    let need = capacity.need(sought.net, e);
    let wanted = taken + need + reach(sought.formula, need);
    loads.demand(e).saturating_add(wanted) > capacity.at(e)
        && sought.window.holds(capacity.shape().place_of(e.low))
}

/// Whether the noted edges leave the net's plan the best: each would be as much over its capacity with
/// the net on it as it was, or more so where it doesn't join two cells of the plan's tree.
pub(crate) fn are_settled(
    capacity: &Capacity,
    loads: &Loads,
    sought: &Sought<'_>,
    touches: &[Touch],
) -> bool
    requires loads { loads.now.shape ≡ capacity.now.shape }
    requires touches { All (IsTouch capacity.now sought.now.window) touches.now }
    ensures { IsTrue result →
        All (IsSettled capacity.now sought.now.formula sought.now.net sought.now.tree.now (demand_at loads.now)) touches.now }
{
    for touch in touches {
        if !is_settled(capacity, loads, sought, *touch) {
            return false;
        }
    }
    true
}

/// Whether a noted edge leaves the net's plan the best.
fn is_settled(capacity: &Capacity, loads: &Loads, sought: &Sought<'_>, touch: Touch) -> bool
    requires loads { loads.now.shape ≡ capacity.now.shape }
    requires touch { IsTouch capacity.now sought.now.window touch }
    ensures { IsTrue result → IsSettled capacity.now sought.now.formula sought.now.net sought.now.tree.now (demand_at loads.now) touch }
{
    let e = touch.edge;
    let need = capacity.need(sought.net, e);
    let free = capacity
        .at(e)
        .saturating_sub(need + reach(sought.formula, need));
    let before = touch.demand.max(free);
    let now = loads.demand(e).max(free);
    before == now || before < now && !joins_cells(capacity, sought.tree, e)
}

/// Whether both ends of an edge are cells of a tree. It looks at each node of the tree in turn.
fn joins_cells(capacity: &Capacity, tree: &RouteTree, e: Edge) -> bool
    requires { IsTrue (has_edge capacity.now.shape e) }
    ensures { result ≡ joins_cells_of capacity.now.shape tree.now e }
{
    let high = capacity.shape().high(e);
    tree.node_at(e.low).is_some() && tree.node_at(high).is_some()
}
