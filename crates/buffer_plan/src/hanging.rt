//! Nodes that are hung on their parents.
ghost use Rattle.std.specs.Prelude.{◌≡◌, ◌+◌, ◌-◌, ◌*◌, ◌<◌, ◌≤◌, length, IfOk, OnOk, All};
ghost use Rattle.elmore_delay.specs.Loadings.{IsLoading};
ghost use Rattle.ginneken_lists.specs.Candidates.{all_joined};
ghost use Rattle.ginneken_lists.specs.Pairs.{candidates as candidates_of, AreMarked, IsList, IsInRange};
ghost use Rattle.ginneken_lists.specs.Trails.{Keeps};
ghost use Rattle.buffer_plan.specs.Picked.{sites_of, all_hanging};
ghost use Rattle.buffer_plan.specs.Gathered.{pairs_in, IsLoadingOf, AreGathered, AreSmall, most_steps};

use crate::lists::{self, Lists};
use elmore_delay::Loading;
use ginneken_lists::{ListPool, OptionList, Steps, Trail};
use gr_base::RouteTree;
use rc_library::Library;
use std::alloc::{AllocError, Global};
use std::sync::ledger::Ledger;

/// Hangs each node but node 0 on its parent, from the last down.
pub(crate) fn hang_all<L: Ledger>(
    alloc: Global,
    tree: &RouteTree,
    library: &Library,
    loading: &Loading,
    lists: &mut Lists,
    trail: &mut Trail,
    pool: &mut ListPool,
    steps: &mut Steps<L>,
) -> Result<(), AllocError>
    requires ours { IsLoadingOf loading.now tree.now library.now }
    requires loading { IsLoading loading.now }
    requires lists { AreGathered (sites_of loading.now) (length tree.now.nodes) trail.old lists.old.items }
    ensures lists { OnOk result (AreGathered (sites_of loading.now) 1 trail.new lists.new.items) }
    ensures steps { steps.new ≤ steps.old
        + most_steps (length library.now.kinds) (length tree.now.nodes) * (length tree.now.nodes - 1) }
{
    for node in (1..tree.len()).rev() {
        hang(
            alloc, tree, library, loading, node, lists, trail, pool, steps,
        )?;
    }
    Ok(())
}

/// Hangs a node on its parent: the parent's list is joined with what the parent sees of the node.
fn hang<L: Ledger>(
    alloc: Global,
    tree: &RouteTree,
    library: &Library,
    loading: &Loading,
    node: u32,
    lists: &mut Lists,
    trail: &mut Trail,
    pool: &mut ListPool,
    steps: &mut Steps<L>,
) -> Result<(), AllocError>
    requires ours { IsLoadingOf loading.now tree.now library.now }
    requires loading { IsLoading loading.now }
    requires later { 0 < node }
    requires lists { AreGathered (sites_of loading.now) (node + 1) trail.old lists.old.items }
    ensures lists { OnOk result (AreGathered (sites_of loading.now) node trail.new lists.new.items) }
    ensures steps { steps.new ≤ steps.old + most_steps (length library.now.kinds) (length tree.now.nodes) }
{
    let below = lists::whole(alloc, lists::take(lists, node), pool)?;
    let upper = raised(library, loading, node, below, trail, pool, steps)?;
    let parent = tree.parent(node);
    let own = lists::take(lists, parent);
    let joined = join(alloc, own, upper, trail, pool, steps)?;
    lists[parent as usize] = Some(joined);
    Ok(())
}

/// What a node's parent sees of it: with an offer of each kind where a buffer may stand, at the upper
/// end of the edge.
fn raised<L: Ledger>(
    library: &Library,
    loading: &Loading,
    node: u32,
    below: OptionList,
    trail: &mut Trail,
    pool: &mut ListPool,
    steps: &mut Steps<L>,
) -> Result<OptionList, AllocError>
    requires library { loading.now.library ≡ library.now }
    requires loading { IsLoading loading.now }
    requires node { node < length loading.now.tree.nodes }
    requires marks { AreMarked trail.old below }
    requires small { AreSmall (candidates_of trail.old below) }
    ensures upper { IfOk result (λ upper. candidates_of trail.new upper
        ≡ all_hanging (sites_of loading.now) node (candidates_of trail.old below)) }
    ensures list { IfOk result IsList }
    ensures marks { IfOk result (AreMarked trail.new) }
    ensures kept { Keeps trail.old trail.new }
    ensures short { IfOk result (λ upper. length upper ≤ length below + length library.now.kinds) }
    ensures steps { steps.new ≤ steps.old
        + 3 * (length library.now.kinds * (length below + length library.now.kinds))
        + length below + length library.now.kinds }
{
    let mut upper = below;
    if loading.free(node) {
        upper.offer(node, library, trail, pool, steps)?;
    }
    upper.wire(loading.wire(node), steps);
    Ok(upper)
}

/// Joins what hangs on a node with the node's own list, if it has one.
fn join<L: Ledger>(
    alloc: Global,
    own: Option<OptionList>,
    upper: OptionList,
    trail: &mut Trail,
    pool: &mut ListPool,
    steps: &mut Steps<L>,
) -> Result<OptionList, AllocError>
    requires list { IsList upper }
    requires own_range { All IsInRange (pairs_in own) }
    requires range { All IsInRange upper }
    requires own_marks { AreMarked trail.old (pairs_in own) }
    requires marks { AreMarked trail.old upper }
    ensures joined { IfOk result (λ joined. candidates_of trail.new joined
        ≡ all_joined (candidates_of trail.old (pairs_in own)) (candidates_of trail.old upper)) }
    ensures marks { IfOk result (AreMarked trail.new) }
    ensures kept { Keeps trail.old trail.new }
    ensures short { IfOk result (λ joined. length joined + 1 ≤ length (pairs_in own) + length upper) }
    ensures steps { steps.new ≤ steps.old + 2 * (length (pairs_in own) + length upper) }
{
    match own {
        None => Ok(upper),
        Some(own) => OptionList::merge(alloc, own, upper, trail, pool, steps),
    }
}
