//! The nodes of a tree that are on the way from the first to a pin.
ghost use Rattle.std.specs.Prelude.{◌≡◌, ◌<◌, [], length, All, IfOk};
ghost use Rattle.gr_base.specs.NodeIndexes.{Indexes};
ghost use Rattle.kept_routes.specs.Cuts.{AreMarked, AreWanted, MarksAbove};

use gr_base::{NodeIndex, RouteTree};
use std::alloc::{AllocError, Global};

/// Which nodes are on the way from the first to the node of a pin, by an index of the tree. The only
/// error is want of memory.
pub(crate) fn wanted_nodes(
    alloc: Global,
    index: &NodeIndex,
    tree: &RouteTree,
    pins: &[u32],
) -> Result<Vec<bool>, AllocError>
    requires index { Indexes index.now tree.now.nodes }
    requires pins { All (λ pin. pin < length index.now) pins.now }
    ensures { IfOk result (λ wanted. AreWanted tree.now pins.now wanted.items) }
{
    let mut wanted = vec![in alloc; false; tree.len() as usize]?;
    mark_pins(&mut wanted, index, tree, pins);
    mark_above(&mut wanted, tree);
    Ok(wanted)
}

/// Marks the nodes of the pins.
fn mark_pins(wanted: &mut Vec<bool>, index: &NodeIndex, tree: &RouteTree, pins: &[u32])
    requires index { Indexes index.now tree.now.nodes }
    requires pins { All (λ pin. pin < length index.now) pins.now }
    requires none { AreMarked tree.now [] wanted.old.items }
    ensures { AreMarked tree.now pins.now wanted.new.items }
{
    for pin in pins {
        let Some(node) = index.node_at(tree, *pin) else {
            continue;
        };
        wanted[node as usize] = true;
    }
}

/// Marks all nodes above those that are marked.
fn mark_above(wanted: &mut Vec<bool>, tree: &RouteTree)
    requires { length wanted.old.items ≡ length tree.now.nodes }
    ensures { MarksAbove tree.now 1 wanted.old.items wanted.new.items }
{
    for node in (1..tree.len()).rev() {
        if wanted[node as usize] {
            wanted[tree.parent(node) as usize] = true;
        }
    }
}
