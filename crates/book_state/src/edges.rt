//! The edges of trees, and which of them are full or over their capacity.
ghost use Rattle.std.specs.Prelude.{◌≡◌, ℕ, ◌+◌, ◌*◌, ◌<◌, length, Some, IfSome, IsSome, IsTrue};
ghost use Rattle.std.specs.List.{list_any};
ghost use Rattle.gr_base.specs.Grid.{cells_of, has_edge, is_wire};
ghost use Rattle.gr_base.specs.Trees.{IsTree, tree_edges};
ghost use Rattle.grid_demand.specs.LoadSums.{demand_at};
ghost use Rattle.book_state.specs.Books.{is_full as full_edge, first_full as first_full_edge, reply_to_free as free_reply};
ghost use Rattle.book_state.specs.Crowds.{is_overfull};

use crate::entry::{Claim, Reply};
use gr_base::{Edge, RouteTree};
use grid_demand::{Capacity, Loads, Overfull};

/// The reply to a claim of a net that isn't booked.
pub(crate) fn reply_to_free(capacity: &Capacity, loads: &Loads, claim: &Claim) -> Reply
    requires tree { claim.now.tree.shape ≡ capacity.now.shape }
    requires loads { loads.now.shape ≡ capacity.now.shape }
    ensures reply { result ≡ free_reply capacity.now (demand_at loads.now) claim.now claim.now.slack }
    ensures tree { IsSome claim.now.slack → IsTree claim.now.tree }
{
    let Some(slack) = claim.slack else {
        return Reply::Claimed;
    };
    match first_full(capacity, loads, claim, slack) {
        Some(edge) => Reply::Full {
            edge,
            demand: loads.demand(edge),
        },
        None => Reply::Claimed,
    }
}

/// The first edge of a claim's tree, by node number, that has no room for the net within capacity
/// and slack. Via edges have room always.
fn first_full(capacity: &Capacity, loads: &Loads, claim: &Claim, slack: u32) -> Option<Edge>
    requires tree { claim.now.tree.shape ≡ capacity.now.shape }
    requires loads { loads.now.shape ≡ capacity.now.shape }
    ensures first { result ≡ first_full_edge capacity.now (demand_at loads.now) claim.now.net slack claim.now.tree }
    ensures edge { IfSome result (λ e. IsTrue (has_edge capacity.now.shape e)) }
    ensures wire { IfSome result (λ e. IsTrue (is_wire e)) }
    ensures tree { IsTree claim.now.tree }
{
    let tree = &claim.tree;
    for node in 0..tree.len() {
        let Some(e) = tree.wire_to_parent(node) else {
            continue;
        };
        if is_full(capacity, loads, claim.net, slack, e) {
            return Some(e);
        }
    }
    None
}

/// Whether a tree has an edge with more demand than capacity.
pub(crate) fn is_crowded(over: &Overfull, tree: &RouteTree) -> bool
    requires long { length over.now.table ≡ 2 * cells_of tree.now.shape }
    ensures crowded { result ≡ list_any (is_overfull over.now.table) (tree_edges tree.now) }
    ensures tree { IsTree tree.now }
{
    for node in 0..tree.len() {
        let Some(edge) = tree.wire_to_parent(node) else {
            continue;
        };
        if over.has(edge) {
            return true;
        }
    }
    false
}

/// Whether a wire edge has no room for a net.
fn is_full(capacity: &Capacity, loads: &Loads, net: u32, slack: u32, e: Edge) -> bool
    requires edge { IsTrue (has_edge capacity.now.shape e) }
    requires wire { IsTrue (is_wire e) }
    requires loads { loads.now.shape ≡ capacity.now.shape }
    ensures { result ≡ full_edge capacity.now (demand_at loads.now) net slack e }
{
    let room = capacity.at(e) + u64::from(slack);
    loads.demand(e).saturating_add(capacity.need(net, e)) > room
}
