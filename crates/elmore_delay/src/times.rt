//! Required times, from the leaves to the driver.
ghost use Rattle.std.specs.Prelude.{◌≡◌, ◌<◌, length, map, IfOk};
ghost use Rattle.std.specs.List.{range_with_len};
ghost use Rattle.elmore_delay.specs.RcTrees.{required_time};
ghost use Rattle.elmore_delay.specs.FromLeaves.{sinks_seen, seen_whole, at_driver};
ghost use Rattle.elmore_delay.specs.Placements.{NamesKinds, buffers_of};
ghost use Rattle.elmore_delay.specs.Loadings.{IsLoading, rc_of};

use crate::loading::Loading;
use crate::placement::Placement;
use crate::seen::Seen;
use gr_base::RouteTree;
use std::alloc::{AllocError, Global};

/// The required time at the driver with a placement of buffers, in half femtoseconds: the least over
/// the sinks of twice the time less the delay to the sink, and 0 without a sink. It goes through the
/// tree once, from the last node to the first. The only error is want of memory.
///
/// After Elmore, "The transient response of damped linear networks", 1948, and van Ginneken, "Buffer
/// placement in distributed RC-tree networks for minimal Elmore delay", 1990.
pub fn required(
    alloc: Global,
    tree: &RouteTree,
    loading: &Loading,
    placement: &Placement,
) -> Result<i128, AllocError>
    requires tree { loading.now.tree ≡ tree.now }
    requires nodes { length placement.now ≡ length tree.now.nodes }
    requires kinds { NamesKinds loading.now.library placement.now }
    ensures required { IfOk result (λ time. time
        ≡ required_time (rc_of loading.now) (buffers_of loading.now.library placement.now)) }
    ensures loading { IsLoading loading.now }
{
    let driver = loading.driver();
    prove!(placement.at(0).is_none());
    let mut seen = at_sinks(alloc, tree, loading)?;
    for node in (1..tree.len()).rev() {
        let kind = loading.buffer(placement, node);
        let upper = seen[node as usize].hanging(loading.wire(node), kind);
        let parent = tree.parent(node) as usize;
        seen[parent] = seen[parent].joined(upper);
    }
    Ok(seen[0].at_driver(driver))
}

/// What is seen below each node of its own sinks.
fn at_sinks(alloc: Global, tree: &RouteTree, loading: &Loading) -> Result<Vec<Seen>, AllocError>
    requires tree { loading.now.tree ≡ tree.now }
    ensures { IfOk result (λ seen. seen.items
        ≡ map (sinks_seen (rc_of loading.now)) (range_with_len 0 (length tree.now.nodes))) }
{
    let mut seen = Vec::with_capacity(alloc, tree.len() as usize)?;
    for node in 0..tree.len() {
        seen.push(Seen::of_sinks(loading.load(node), loading.time(node)))?;
    }
    Ok(seen)
}
