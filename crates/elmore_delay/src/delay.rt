//! Delays along the paths of a tree.
ghost use Rattle.std.specs.Prelude.{◌≡◌, ◌≤◌, ◌<◌, ◌*◌, pos, length};
ghost use Rattle.elmore_delay.specs.RcTrees.{in_stage, own_load, below, node_delay, delay_to};
ghost use Rattle.elmore_delay.specs.Placements.{NamesKinds, buffers_of};
ghost use Rattle.elmore_delay.specs.Loadings.{IsLoading, rc_of};
ghost use Rattle.elmore_delay.specs.Ranges.{most_load, most_step_delay};

use crate::loading::Loading;
use crate::placement::Placement;
use crate::seen::{buffer_delay, edge_delay};
use gr_base::RouteTree;
use rc_library::Kind;

/// The delay from the driver to a node with a placement of buffers, in half femtoseconds; a buffer
/// at the node itself counts. It takes no memory: for each node of the path it looks at all nodes
/// below, and from each of these up to the next buffer.
pub fn delay_to(tree: &RouteTree, loading: &Loading, placement: &Placement, node: u32) -> i128
    requires tree { loading.now.tree ≡ tree.now }
    requires node { node < length tree.now.nodes }
    requires nodes { length placement.now ≡ length tree.now.nodes }
    requires kinds { NamesKinds loading.now.library placement.now }
    ensures delay { result ≡ pos (delay_to (rc_of loading.now) (buffers_of loading.now.library placement.now) node) }
    ensures loading { IsLoading loading.now }
{
    prove!(placement.at(0).is_none());
    let driven = load_below(tree, loading, placement, 0);
    let mut delay = 2 * u128::from(loading.driver()) * u128::from(driven);
    let mut at = node;
    while at != 0 {
        delay += node_delay(tree, loading, placement, at);
        at = tree.parent(at);
    }
    delay as i128
}

/// What a node on the path adds to the delay: the edge into it, and its buffer.
fn node_delay(tree: &RouteTree, loading: &Loading, placement: &Placement, node: u32) -> u128
    requires tree { loading.now.tree ≡ tree.now }
    requires node { node < length tree.now.nodes }
    requires nodes { length placement.now ≡ length tree.now.nodes }
    requires kinds { NamesKinds loading.now.library placement.now }
    ensures delay { result ≡ node_delay (rc_of loading.now) (buffers_of loading.now.library placement.now) node }
    ensures most { result ≤ 2 * most_step_delay }
{
    let wire = loading.wire(node);
    let load = load_below(tree, loading, placement, node);
    match loading.buffer(placement, node) {
        None => edge_delay(wire, load),
        Some(kind) => edge_delay(wire, u64::from(kind.c)) + buffer_delay(kind, load),
    }
}

/// The load of a node's stage.
fn load_below(tree: &RouteTree, loading: &Loading, placement: &Placement, v: u32) -> u64
    requires tree { loading.now.tree ≡ tree.now }
    requires node { v < length tree.now.nodes }
    requires nodes { length placement.now ≡ length tree.now.nodes }
    requires kinds { NamesKinds loading.now.library placement.now }
    ensures load { result ≡ below (rc_of loading.now) (buffers_of loading.now.library placement.now) v }
    ensures most { result ≤ most_load }
{
    let mut load = loading.load(v);
    for node in v + 1..tree.len() {
        if in_stage(tree, loading, placement, v, node) {
            load += own_load(loading, placement, node);
        }
    }
    load
}

/// What a node adds to the load of each stage that it is in.
fn own_load(loading: &Loading, placement: &Placement, node: u32) -> u64
    requires node { node < length loading.now.tree.nodes }
    requires nodes { length placement.now ≡ length loading.now.tree.nodes }
    requires kinds { NamesKinds loading.now.library placement.now }
    ensures { result ≡ own_load (rc_of loading.now) (buffers_of loading.now.library placement.now) node }
{
    let input = match loading.buffer(placement, node) {
        None => loading.load(node),
        Some(kind) => u64::from(kind.c),
    };
    u64::from(loading.wire(node).c) + input
}

/// Whether a node is strictly below another, with no buffer at the nodes strictly between them.
fn in_stage(tree: &RouteTree, loading: &Loading, placement: &Placement, v: u32, node: u32) -> bool
    requires tree { loading.now.tree ≡ tree.now }
    requires loading { IsLoading loading.now }
    requires order { v < node }
    requires node { node < length tree.now.nodes }
    requires nodes { length placement.now ≡ length tree.now.nodes }
    requires kinds { NamesKinds loading.now.library placement.now }
    ensures { result ≡ in_stage (rc_of loading.now) (buffers_of loading.now.library placement.now) v node }
{
    let mut at = tree.parent(node);
    while at > v {
        if loading.buffer(placement, at).is_some() {
            return false;
        }
        at = tree.parent(at);
    }
    at == v
}
