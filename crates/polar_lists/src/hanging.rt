//! Nodes that are hung on their parents.
ghost use Rattle.std.specs.Prelude.{◌≡◌, ◌+◌, ◌-◌, ◌*◌, ◌<◌, ◌≤◌, ℕ, Bool, length, IfOk, OnOk};
ghost use Rattle.elmore_delay.specs.Loadings.{IsLoading};
ghost use Rattle.ginneken_lists.specs.Candidates.{all_joined};
ghost use Rattle.ginneken_lists.specs.Thinning.{AreRising};
ghost use Rattle.ginneken_lists.specs.Trails.{Keeps};
ghost use Rattle.buffer_plan.specs.Picked.{sites_of};
ghost use Rattle.buffer_plan.specs.Gathered.{most_steps};
ghost use Rattle.polar_lists.specs.Signals.{both_hanging};
ghost use Rattle.polar_lists.specs.BothLists.{IsOurLoading, side, sides_in, candidates_by, AreBothMarked, AreBothInRange, AreBothSmall, AreShort, AreBothGathered, most_offer_steps};

use crate::lists::{self, Lists};
use crate::offers::{self, Offers};
use crate::side;
use crate::sides::Sides;
use elmore_delay::Loading;
use ginneken_lists::{ListPool, Steps, Trail};
use gr_base::RouteTree;
use rc_library::Library;
use std::alloc::{AllocError, Global};
use std::sync::ledger::Ledger;

/// Hangs each node but node 0 on its parent, from the last down.
pub(crate) fn hang_all<L: Ledger>(
    alloc: Global,
    tree: &RouteTree,
    library: &Library,
    loading: &Loading,
    lists: &mut Lists,
    offers: &mut Offers,
    trail: &mut Trail,
    pool: &mut ListPool,
    steps: &mut Steps<L>,
) -> Result<(), AllocError>
    requires ours { IsOurLoading loading.now tree.now library.now }
    requires lists { AreBothGathered (sites_of loading.now) (length tree.now.nodes) trail.old lists.old.items }
    ensures lists { OnOk result (AreBothGathered (sites_of loading.now) 1 trail.new lists.new.items) }
    ensures steps { steps.new ≤ steps.old
        + 2 * most_steps (length library.now.kinds) (length tree.now.nodes) * (length tree.now.nodes - 1) }
{
    for node in (1..tree.len()).rev() {
        hang(
            alloc, tree, library, loading, node, lists, offers, trail, pool, steps,
        )?;
    }
    Ok(())
}

/// Hangs a node on its parent: the parent's lists are joined with what the parent sees of the node.
fn hang<L: Ledger>(
    alloc: Global,
    tree: &RouteTree,
    library: &Library,
    loading: &Loading,
    node: u32,
    lists: &mut Lists,
    offers: &mut Offers,
    trail: &mut Trail,
    pool: &mut ListPool,
    steps: &mut Steps<L>,
) -> Result<(), AllocError>
    requires ours { IsOurLoading loading.now tree.now library.now }
    requires later { 0 < node }
    requires lists { AreBothGathered (sites_of loading.now) (node + 1) trail.old lists.old.items }
    ensures lists { OnOk result (AreBothGathered (sites_of loading.now) node trail.new lists.new.items) }
    ensures steps { steps.new ≤ steps.old + 2 * most_steps (length library.now.kinds) (length tree.now.nodes) }
{
    let below = lists::whole(alloc, lists::take(lists, node), pool)?;
    let upper = raised(
        alloc, library, loading, node, below, offers, trail, pool, steps,
    )?;
    let parent = tree.parent(node);
    let own = lists::take(lists, parent);
    let joined = join(alloc, own, upper, trail, pool, steps)?;
    lists[parent as usize] = Some(joined);
    Ok(())
}

/// What a node's parent sees of it: with an offer of each kind where a buffer may stand, at the upper
/// end of the edge.
fn raised<L: Ledger>(
    alloc: Global,
    library: &Library,
    loading: &Loading,
    node: u32,
    below: Sides,
    offers: &mut Offers,
    trail: &mut Trail,
    pool: &mut ListPool,
    steps: &mut Steps<L>,
) -> Result<Sides, AllocError>
    requires library { loading.now.library ≡ library.now }
    requires loading { IsLoading loading.now }
    requires node { node < length loading.now.tree.nodes }
    requires marks { AreBothMarked trail.old below }
    requires small { AreBothSmall (candidates_by trail.old below) }
    requires rising { (inverted : Bool) → AreRising (candidates_by trail.old below inverted) }
    ensures upper { IfOk result (λ upper. (inverted : Bool) → candidates_by trail.new upper inverted
        ≡ both_hanging (sites_of loading.now) node (candidates_by trail.old below) inverted) }
    ensures marks { IfOk result (AreBothMarked trail.new) }
    ensures kept { Keeps trail.old trail.new }
    ensures short { IfOk result (λ upper. (inverted : Bool) →
        length (side upper inverted) ≤ length (side below inverted) + length library.now.kinds) }
    ensures steps { (most : ℕ) → AreShort most below → steps.new ≤ steps.old
        + most_offer_steps (length library.now.kinds) most + 2 * (most + length library.now.kinds) }
{
    let upper = offers::offer(
        alloc, library, loading, node, below, offers, trail, pool, steps,
    )?;
    let wire = loading.wire(node);
    Ok(Sides {
        plain: side::along(upper.plain, wire, steps),
        inverse: side::along(upper.inverse, wire, steps),
    })
}

/// Joins what hangs on a node with the node's own lists, if it has some.
fn join<L: Ledger>(
    alloc: Global,
    own: Option<Sides>,
    upper: Sides,
    trail: &mut Trail,
    pool: &mut ListPool,
    steps: &mut Steps<L>,
) -> Result<Sides, AllocError>
    requires rising { (inverted : Bool) → AreRising (candidates_by trail.old upper inverted) }
    requires own_range { AreBothInRange (sides_in own) }
    requires range { AreBothInRange upper }
    requires own_marks { AreBothMarked trail.old (sides_in own) }
    requires marks { AreBothMarked trail.old upper }
    ensures joined { IfOk result (λ joined. (inverted : Bool) → candidates_by trail.new joined inverted
        ≡ all_joined (candidates_by trail.old (sides_in own) inverted) (candidates_by trail.old upper inverted)) }
    ensures marks { IfOk result (AreBothMarked trail.new) }
    ensures kept { Keeps trail.old trail.new }
    ensures short { IfOk result (λ joined. (inverted : Bool) → length (side joined inverted) - 1
        ≤ length (side (sides_in own) inverted) - 1 + (length (side upper inverted) - 1)) }
    ensures steps { (most more : ℕ) → AreShort most (sides_in own) → AreShort more upper
        → steps.new ≤ steps.old + 4 * (most + more) }
{
    let Some(own) = own else {
        return Ok(upper);
    };
    let plain = side::joined(alloc, own.plain, upper.plain, trail, pool, steps)?;
    let inverse = side::joined(alloc, own.inverse, upper.inverse, trail, pool, steps)?;
    Ok(Sides { plain, inverse })
}
