//! The lists of nodes.
ghost use Rattle.std.specs.Prelude.{◌≡◌, ◌<◌, [], None, length, IfOk, OnOk, slice_set};
ghost use Rattle.elmore_delay.specs.Loadings.{IsLoading, rc_of};
ghost use Rattle.buffer_plan.specs.Picked.{sites_of};
ghost use Rattle.polar_lists.specs.BothLists.{all_in, suits_those, sides_in, sides_at, pairs_of_sinks, AreOfSinks, AreBothGathered};

use crate::sides::Sides;
use elmore_delay::{Loading, Wants};
use ginneken_lists::{ListPool, OptionList};
use gr_base::RouteTree;
use std::alloc::{AllocError, Global};

/// Lists by node, where none stand for a branch without sinks.
pub(crate) type Lists = Vec<Option<Sides>>;

/// Puts the lists of its own sinks at each node of a tree.
pub(crate) fn start(
    alloc: Global,
    tree: &RouteTree,
    loading: &Loading,
    lists: &mut Lists,
    pool: &mut ListPool,
) -> Result<(), AllocError>
    requires tree { loading.now.tree ≡ tree.now }
    requires loading { IsLoading loading.now }
    ensures lists { OnOk result (AreBothGathered (sites_of loading.now) (length tree.now.nodes) [] lists.new.items) }
{
    lists.clear();
    for node in 0..tree.len() {
        lists.push(of_sinks(alloc, loading, node, pool)?)?;
    }
    Ok(())
}

/// The lists of the sinks at a node: for a signal that all of them want, one pair without buffers.
/// None where there is no sink.
fn of_sinks(
    alloc: Global,
    loading: &Loading,
    node: u32,
    pool: &mut ListPool,
) -> Result<Option<Sides>, AllocError>
    requires { node < length loading.now.tree.nodes }
    ensures { IfOk result (λ sides. AreOfSinks (rc_of loading.now) node (sides_in sides)) }
{
    let wants = loading.wants(node);
    if let Wants::Any = wants {
        return Ok(None);
    }
    let plain = of_those(alloc, loading, node, suits(wants, false), pool)?;
    let inverse = of_those(alloc, loading, node, suits(wants, true), pool)?;
    Ok(Some(Sides { plain, inverse }))
}

/// Whether a signal, inverted or plain, is what all sinks want.
fn suits(wants: Wants, inverted: bool) -> bool
    ensures { result ≡ suits_those wants inverted }
{
    match wants {
        Wants::Any => true,
        Wants::Plain => !inverted,
        Wants::Inverse => inverted,
        Wants::Both => false,
    }
}

/// The list of the sinks at a node where they want the signal, and else none.
fn of_those(
    alloc: Global,
    loading: &Loading,
    node: u32,
    wanted: bool,
    pool: &mut ListPool,
) -> Result<Option<OptionList>, AllocError>
    requires { node < length loading.now.tree.nodes }
    ensures { IfOk result (λ list. all_in list ≡ pairs_of_sinks (rc_of loading.now) node wanted) }
{
    if !wanted {
        return Ok(None);
    }
    let time = loading.time(node).map(i128::from);
    Ok(Some(OptionList::leaf(alloc, loading.load(node), time, pool)?))
}

/// Takes the lists of a node out of the lists, if it has some.
pub(crate) fn take(lists: &mut Lists, node: u32) -> Option<Sides>
    requires { node < length lists.old.items }
    ensures list { sides_in result ≡ sides_at lists.old.items node }
    ensures taken { lists.new.items ≡ slice_set lists.old.items node None }
{
    lists[node as usize].take()
}

/// Lists, where none stand for a branch without sinks.
pub(crate) fn whole(
    alloc: Global,
    sides: Option<Sides>,
    pool: &mut ListPool,
) -> Result<Sides, AllocError>
    ensures { IfOk result (λ whole. whole ≡ sides_in sides) }
{
    match sides {
        None => Ok(Sides {
            plain: Some(OptionList::leaf(alloc, 0, None, pool)?),
            inverse: Some(OptionList::leaf(alloc, 0, None, pool)?),
        }),
        Some(sides) => Ok(sides),
    }
}
