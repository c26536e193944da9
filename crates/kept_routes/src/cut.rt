//! Trees without stubs.
ghost use Rattle.std.specs.Prelude.{◌≡◌, ◌<◌, length, All, IfOk};
ghost use Rattle.gr_base.specs.Grid.{cells_of};
ghost use Rattle.kept_routes.specs.Cuts.{AreClosed, IsCut, IsCutTo};

use crate::wanted::wanted_nodes;
use gr_base::{NodeIndex, RouteTree};
use std::alloc::{AllocError, Global};

/// The tree without the nodes that are on no way from its first node to that of a pin; the others
/// stand in the same order. What the index says before the call means nothing. The only error is want
/// of memory.
pub(crate) fn cut_to_pins(
    alloc: Global,
    index: &mut NodeIndex,
    tree: &RouteTree,
    pins: &[u32],
) -> Result<RouteTree, AllocError>
    requires index { length index.old ≡ cells_of tree.now.shape }
    requires pins { All (λ pin. pin < cells_of tree.now.shape) pins.now }
    ensures cut { IfOk result (IsCut tree.now pins.now) }
    ensures index { length index.new ≡ length index.old }
{
    index.extend(tree, 0);
    let wanted = wanted_nodes(alloc, index, tree, pins)?;
    cut_to_marked(alloc, tree, &wanted)
}

/// The tree of the first node and of the wanted ones. The only error is want of memory.
fn cut_to_marked(alloc: Global, tree: &RouteTree, wanted: &[bool]) -> Result<RouteTree, AllocError>
    requires long { length wanted.now ≡ length tree.now.nodes }
    requires closed { AreClosed tree.now wanted.now }
    ensures { IfOk result (IsCutTo tree.now wanted.now) }
{
    let mut cut = RouteTree::start_with_room(
        alloc,
        tree.shape(),
        tree.cell(0),
        tree.len() as usize,
    )?;
    let mut numbers = vec![in alloc; 0; tree.len() as usize]?;
    for node in 1..tree.len() {
        if !wanted[node as usize] {
            continue;
        }
        let number = cut.len();
        let parent = tree.parent(node);
        cut.hang(
            numbers[parent as usize],
            &[tree.cell(node), tree.cell(parent)],
        )?;
        numbers[node as usize] = number;
    }
    cut.trim();
    Ok(cut)
}
