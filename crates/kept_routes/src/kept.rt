//! The trees of the nets that are kept.
ghost use Rattle.std.specs.Prelude.{◌≡◌, length, Ok, None, IfOk, OnOk, IsTrue};
ghost use Rattle.gr_base.specs.Designs.{is_routed};
ghost use Rattle.route_reader.specs.Solutions.{IsOf, edges_by};
ghost use Rattle.kept_routes.specs.Kept.{AreKept, KeepsNet};
ghost use Rattle.kept_routes.specs.Keepers.{AreKeptBefore, IsKeeperOf};

use crate::cut::cut_to_pins;
use crate::keeper::Keeper;
use crate::usable::has_usable_wires;
use gr_base::{Design, RouteTree, Routes};
use route_evaluator::TreeError;
use route_reader::Solution;
use std::alloc::{AllocError, Global};

/// The trees of the nets that can be kept as a solution routes them: of the routed nets whose edges are a
/// tree, as `tree_of` of route_evaluator says it, and lie in usable directions as far as they lie on ways
/// from the driver to pins. A net's tree has just the edges on those ways: where the solution's has more
/// nodes, these are left out, and the others stand in the same order. The only error is want of memory.
pub fn kept_routes(
    alloc: Global,
    design: &Design,
    solution: &Solution,
) -> Result<Routes, AllocError>
    requires { IsOf design.now solution.now }
    ensures { IfOk result (AreKept design.now (edges_by solution.now)) }
{
    let mut kept = Routes::new(alloc, design.nets())?;
    let mut keeper = Keeper::new(alloc, design)?;
    keep_nets(alloc, design, solution, &mut keeper, &mut kept)?;
    Ok(kept)
}

/// Sets the tree of each net that can be kept. The only error is want of memory.
fn keep_nets(
    alloc: Global,
    design: &Design,
    solution: &Solution,
    keeper: &mut Keeper,
    kept: &mut Routes,
) -> Result<(), AllocError>
    requires of { IsOf design.now solution.now }
    requires keeper { IsKeeperOf design.now keeper.old }
    requires none { AreKeptBefore design.now (edges_by solution.now) 0 kept.old }
    ensures { OnOk result (AreKept design.now (edges_by solution.now) kept.new) }
{
    for net in 0..design.nets() {
        if !design.routed(net) {
            continue;
        }
        let Some(tree) = kept_tree(alloc, design, solution, net, keeper)? else {
            continue;
        };
        kept.set(net, tree);
    }
    Ok(())
}

/// The tree of a routed net, if the net can be kept. The only error is want of memory.
fn kept_tree(
    alloc: Global,
    design: &Design,
    solution: &Solution,
    net: u32,
    keeper: &mut Keeper,
) -> Result<Option<RouteTree>, AllocError>
    requires of { IsOf design.now solution.now }
    requires routed { IsTrue (is_routed design.now net) }
    requires keeper { IsKeeperOf design.now keeper.old }
    ensures tree { KeepsNet design.now (edges_by solution.now) net result }
    ensures keeper { OnOk result (IsKeeperOf design.now keeper.new) }
{
    let whole = match keeper.maker.tree_of(alloc, design, solution, net) {
        Ok(tree) => tree,
        Err(TreeError::NotTree) => return Ok(None),
        Err(TreeError::NoMemory) => return Err(AllocError),
    };
    let pins = design.net(net).pins.as_slice();
    let tree = cut_to_pins(alloc, &mut keeper.index, &whole, pins)?;
    if !has_usable_wires(&keeper.capacity, &tree) {
        return Ok(None);
    }
    Ok(Some(tree))
}
