//! Capacity and loads.
ghost use Rattle.std.specs.Prelude.{◌≡◌, IfOk, IfSome, IsTrue};
ghost use Rattle.gr_base.specs.Grid.{has_edge, is_wire};
ghost use Rattle.gr_base.specs.Trees.{IsTree};
ghost use Rattle.grid_demand.specs.LoadSums.{no_loads, added, marked};

use crate::numbers::{at, from};
use crate::trees::stepped;
use gr_base::{Design, Edge, RouteTree, Shape, Way};
use grid_demand::{Capacity, Loads, loads_are_sums};
use std::alloc::{AllocError, Global};
use std::io;

/// Prints what a line asks for of the capacity and the loads of a design.
pub(crate) fn tell<R: Print>(
    rt: &R,
    alloc: Global,
    design: &Design,
    command: &str,
    numbers: &[u64],
) -> io::Result<()> {
    let capacity = Capacity::of(alloc, design)?;
    let Some(e) = wire(capacity.shape(), at(numbers, 0), at(numbers, 1)) else {
        return Ok(());
    };
    match command {
        "capacity" => tell_capacity(rt, &capacity, e),
        "charge" => tell_charge(rt, alloc, &capacity, e),
        "marks" => tell_marks(rt, alloc, &capacity, e, at(numbers, 2)),
        _ => tell_loads(rt, alloc, &capacity, e, from(numbers, 2)),
    }
}

/// The wire edge between two cells.
fn wire(shape: Shape, a: u32, b: u32) -> Option<Edge>
    ensures edge { IfSome result (λ e. IsTrue (has_edge shape e)) }
    ensures wire { IfSome result (λ e. IsTrue (is_wire e)) }
{
    if a >= shape.cells() || b >= shape.cells() {
        return None;
    }
    let e = shape.edge_between(a, b)?;
    match e.way {
        Way::East | Way::North => Some(e),
        Way::Up => None,
    }
}

/// Prints an edge's capacity, whether wires may use it, and what net 0 needs of it.
fn tell_capacity<R: Print>(rt: &R, capacity: &Capacity, e: Edge) -> io::Result<()>
    requires edge { IsTrue (has_edge capacity.now.shape e) }
    requires wire { IsTrue (is_wire e) }
{
    println!(rt; "{e:?}: capacity {}", capacity.at(e))?;
    println!(rt;
        "usable {}, need {}",
        capacity.usable(e),
        capacity.need(0, e)
    )
}

/// Prints the demand for an edge that one net is charged for.
fn tell_charge<R: Print>(rt: &R, alloc: Global, capacity: &Capacity, e: Edge) -> io::Result<()>
    requires edge { IsTrue (has_edge capacity.now.shape e) }
    requires wire { IsTrue (is_wire e) }
{
    let mut loads = Loads::new(alloc, capacity)?;
    loads.charge(capacity, 0, e);
    println!(rt;
        "demand {}, over by {}",
        loads.demand(e),
        loads.over_total(capacity)
    )
}

/// Prints the marks of an edge that one net is charged for, once its loads were marked so often.
fn tell_marks<R: Print>(
    rt: &R,
    alloc: Global,
    capacity: &Capacity,
    e: Edge,
    times: u32,
) -> io::Result<()>
    requires edge { IsTrue (has_edge capacity.now.shape e) }
    requires wire { IsTrue (is_wire e) }
{
    let mut loads = Loads::new(alloc, capacity)?;
    loads.charge(capacity, 0, e);
    for _ in 0..times {
        loads.mark(capacity);
    }
    println!(rt; "marks {}", loads.marks(e))
}

/// Prints loads with the tree of the numbers, and without it.
fn tell_loads<R: Print>(
    rt: &R,
    alloc: Global,
    capacity: &Capacity,
    e: Edge,
    numbers: &[u64],
) -> io::Result<()>
    requires edge { IsTrue (has_edge capacity.now.shape e) }
    requires wire { IsTrue (is_wire e) }
{
    let (shape, start) = (capacity.shape(), at(numbers, 0));
    if start >= shape.cells() {
        return Ok(());
    }
    let tree = stepped(alloc, shape, start, from(numbers, 1))?;
    tell_added(rt, alloc, capacity, e, &tree)
}

/// Prints the loads with this tree, and without it.
fn tell_added<R: Print>(
    rt: &R,
    alloc: Global,
    capacity: &Capacity,
    e: Edge,
    tree: &RouteTree,
) -> io::Result<()>
    requires edge { IsTrue (has_edge capacity.now.shape e) }
    requires wire { IsTrue (is_wire e) }
    requires tree { tree.now.shape ≡ capacity.now.shape }
{
    let mut loads = marked_loads(alloc, capacity, tree)?;
    tell_over(rt, capacity, &loads)?;
    println!(rt; "demand {}, marks {}", loads.demand(e), loads.marks(e))?;
    loads.take(capacity, 0, tree);
    loads_are_sums();
    tell_over(rt, capacity, &loads)
}

/// Prints the total overflow and the greatest one.
fn tell_over<R: Print>(rt: &R, capacity: &Capacity, loads: &Loads) -> io::Result<()>
    requires { capacity.now.shape ≡ loads.now.shape }
{
    println!(rt;
        "over by {}, at most {}",
        loads.over_total(capacity),
        loads.over_max(capacity)
    )
}

/// Loads with one tree of net 0, marked once.
fn marked_loads(alloc: Global, capacity: &Capacity, tree: &RouteTree) -> Result<Loads, AllocError>
    requires { tree.now.shape ≡ capacity.now.shape }
    ensures tree { IfOk result (λ _. IsTree tree.now) }
    ensures loads { IfOk result (λ loads. loads ≡ marked capacity.now (added capacity.now 0 tree.now (no_loads capacity.now.shape))) }
{
    let mut loads = Loads::new(alloc, capacity)?;
    loads.add(capacity, 0, tree);
    loads.mark(capacity);
    Ok(loads)
}
