//! The lists of nodes.
ghost use Rattle.std.specs.Prelude.{◌≡◌, ◌<◌, [], ◌∷◌, None, length, map, IfOk, OnOk, slice_set};
ghost use Rattle.elmore_delay.specs.RcTrees.{sinks_at, sinks_load, soonest, twice};
ghost use Rattle.elmore_delay.specs.Loadings.{IsLoading, rc_of};
ghost use Rattle.buffer_plan.specs.Picked.{sites_of};
ghost use Rattle.buffer_plan.specs.Gathered.{pairs_in, pairs_at, AreGathered};

use elmore_delay::Loading;
use ginneken_lists::{ListPool, OptionList};
use gr_base::RouteTree;
use std::alloc::{AllocError, Global};

/// Lists by node, where none stands for a branch without sinks.
pub(crate) type Lists = Vec<Option<OptionList>>;

/// Puts the list of its own sinks at each node of a tree.
pub(crate) fn start(
    alloc: Global,
    tree: &RouteTree,
    loading: &Loading,
    lists: &mut Lists,
    pool: &mut ListPool,
) -> Result<(), AllocError>
    requires tree { loading.now.tree ≡ tree.now }
    requires loading { IsLoading loading.now }
    ensures lists { OnOk result (AreGathered (sites_of loading.now) (length tree.now.nodes) [] lists.new.items) }
{
    lists.clear();
    for node in 0..tree.len() {
        lists.push(of_sinks(alloc, loading, node, pool)?)?;
    }
    Ok(())
}

/// The list of the sinks at a node. None where there is no sink.
fn of_sinks(
    alloc: Global,
    loading: &Loading,
    node: u32,
    pool: &mut ListPool,
) -> Result<Option<OptionList>, AllocError>
    requires { node < length loading.now.tree.nodes }
    ensures { IfOk result (λ list. pairs_in list ≡ record {
      load = sinks_load (rc_of loading.now) node;
      time = soonest (map twice (sinks_at (rc_of loading.now) node));
      mark = 0;
    } ∷ []) }
{
    let Some(time) = loading.time(node) else {
        return Ok(None);
    };
    let load = loading.load(node);
    Ok(Some(OptionList::leaf(alloc, load, Some(i128::from(time)), pool)?))
}

/// Takes the list of a node out of the lists, if it has one.
pub(crate) fn take(lists: &mut Lists, node: u32) -> Option<OptionList>
    requires { node < length lists.old.items }
    ensures list { pairs_in result ≡ pairs_at lists.old.items node }
    ensures taken { lists.new.items ≡ slice_set lists.old.items node None }
{
    lists[node as usize].take()
}

/// A list, where none stands for a branch without sinks.
pub(crate) fn whole(
    alloc: Global,
    list: Option<OptionList>,
    pool: &mut ListPool,
) -> Result<OptionList, AllocError>
    ensures { IfOk result (λ whole. whole ≡ pairs_in list) }
{
    match list {
        None => OptionList::leaf(alloc, 0, None, pool),
        Some(list) => Ok(list),
    }
}
