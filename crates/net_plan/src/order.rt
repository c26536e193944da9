//! Puts the points of a topology in the order in which they are joined to a flat tree, each after its parent.
ghost use Rattle.std.specs.Prelude.{◌≡◌, ℕ, ◌<◌, length, false, IfSome, OnOk};
ghost use Rattle.steiner_topology.specs.Spanning.{IsTopology};
ghost use Rattle.maze_route.specs.Search.{is_marked};
ghost use Rattle.net_plan.specs.Orders.{is_due, next_due, order_of, AreBelowChildren};

use std::alloc::AllocError;
use steiner_topology::Topology;

/// Puts the points of a topology but point 0, in the order in which they are joined to a tree, in
/// place of what `order` holds: again and again the least-numbered one that hasn't been handled and
/// whose parent has. Point 0 counts as handled. `handled` and `lowest` are room for a mark and a
/// number for each point. The only error is want of memory.
pub(crate) fn order_of(
    topology: &Topology,
    order: &mut Vec<u32>,
    handled: &mut Vec<bool>,
    lowest: &mut Vec<u32>,
) -> Result<(), AllocError>
    ensures order { OnOk result (order.new.items ≡ order_of topology.now) }
    ensures tree { IsTopology topology.now }
{
    put_lowest_children(topology, lowest)?;
    handled.clear();
    handled.resize(topology.len() as usize, false)?;
    handled[0] = true;
    order.clear();
    let mut from = 0;
    while let Some(point) = next_due(topology, handled, from) {
        handled[point as usize] = true;
        order.push(point)?;
        // The point's children are due now, and of the lower points only they.
        from = point.min(lowest[point as usize]);
    }
    Ok(())
}

/// Puts the lowest number of each point's children in place of what a list holds, and a number
/// above all points for one without children.
fn put_lowest_children(topology: &Topology, lowest: &mut Vec<u32>) -> Result<(), AllocError>
    ensures lowest { OnOk result (AreBelowChildren topology.now lowest.new.items) }
    ensures tree { IsTopology topology.now }
{
    lowest.clear();
    lowest.resize(topology.len() as usize, u32::MAX)?;
    for child in 0..topology.len() {
        let parent = topology.parent(child) as usize;
        lowest[parent] = lowest[parent].min(child);
    }
    Ok(())
}

/// The least-numbered point that is due, where none is below `from`.
fn next_due(topology: &Topology, handled: &[bool], from: u32) -> Option<u32>
    requires marks { length handled.now ≡ length topology.now }
    requires none_below { (point : ℕ) → point < from → is_due topology.now (is_marked handled.now) point ≡ false }
    ensures due { result ≡ next_due topology.now (is_marked handled.now) }
    ensures inside { IfSome result (λ point. point < length topology.now) }
    ensures tree { IsTopology topology.now }
{
    for point in from..topology.len() {
        if is_due(topology, handled, point) {
            return Some(point);
        }
    }
    None
}

/// Whether a point hasn't been handled, and its parent has.
fn is_due(topology: &Topology, handled: &[bool], point: u32) -> bool
    requires handled { length handled.now ≡ length topology.now }
    requires point { point < length topology.now }
    ensures { result ≡ is_due topology.now (is_marked handled.now) point }
{
    !handled[point as usize] && handled[topology.parent(point) as usize]
}
