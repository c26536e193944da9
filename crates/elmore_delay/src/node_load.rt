//! What the sinks and the wire at one node of a tree are.
ghost use Rattle.std.specs.Prelude.{◌≡◌, ℕ, ◌<◌, ◌≤◌, ◌^◌, length, map, slice_get, Some, IfOk};
ghost use Rattle.std.specs.List.{range_with_len};
ghost use Rattle.gr_base.specs.Grid.{cells_of};
ghost use Rattle.gr_base.specs.NodeIndexes.{Indexes};
ghost use Rattle.gr_base.specs.ParentEdges.{parent_edge};
ghost use Rattle.gr_base.specs.Trees.{IsTree};
ghost use Rattle.rc_library.specs.Libraries.{IsSinking, IsWire};
ghost use Rattle.elmore_delay.specs.Loadings.{LoadingView, IsLoading, wire_of, may_hold, sinks_of};
ghost use Rattle.elmore_delay.specs.NodeLoads.{bare_node, with_sink_at, AreStored};

use crate::wants::Wants;
use gr_base::{NodeIndex, RouteTree, Way};
use rc_library::{Library, Sinking, Wire};
use std::alloc::{AllocError, Global};

/// A node of a tree: the sum of the loads of its sinks in femtofarads, the least of twice their
/// times in femtoseconds, the wire of the edge to its parent, whether a buffer may stand there, and
/// which signal the sinks want.
#[derive(Clone, Copy, Debug)]
pub(crate) struct NodeLoad {
    pub load: u64,
    pub time: Option<i64>,
    pub wire: Wire,
    pub free: bool,
    pub wants: Wants,
}

impl NodeLoad {
    /// The node with one more sink.
    pub(crate) fn with(self, sink: Sinking, flipped: bool) -> NodeLoad
        requires load { self.load < 2 ^ 63 }
        requires sink { IsSinking sink }
        ensures { result ≡ with_sink_at self sink flipped }
    {
        let due = 2 * sink.time;
        NodeLoad {
            load: self.load + u64::from(sink.c),
            time: match self.time {
                None => Some(due),
                Some(time) => Some(time.min(due)),
            },
            wants: self.wants.with(flipped),
            ..self
        }
    }
}

/// The nodes of a tree without sinks.
pub(crate) fn without_sinks(
    alloc: Global,
    library: &Library,
    tree: &RouteTree,
) -> Result<Vec<NodeLoad>, AllocError>
    requires columns { library.now.sizes.columns ≡ tree.now.shape.columns }
    requires rows { library.now.sizes.rows ≡ tree.now.shape.rows }
    requires layers { length library.now.wires ≡ tree.now.shape.layers }
    ensures nodes { IfOk result (λ nodes. nodes.items
        ≡ map (bare_node library.now tree.now) (range_with_len 0 (length tree.now.nodes))) }
    ensures tree { IsTree tree.now }
{
    let mut nodes = Vec::with_capacity(alloc, tree.len() as usize)?;
    for node in 0..tree.len() {
        nodes.push(NodeLoad {
            load: 0,
            time: None,
            wire: wire_to_parent(library, tree, node),
            free: may_hold(library, tree, node),
            wants: Wants::Any,
        })?;
    }
    Ok(nodes)
}

/// The wire of the edge from a node to its parent.
fn wire_to_parent(library: &Library, tree: &RouteTree, node: u32) -> Wire
    requires node { node < length tree.now.nodes }
    requires layers { length library.now.wires ≡ tree.now.shape.layers }
    ensures { result ≡ wire_of library.now tree.now.shape (parent_edge tree.now node) }
{
    let Some(edge) = tree.edge_to_parent(node) else {
        return Wire { r: 0, c: 0 };
    };
    match edge.way {
        Way::East | Way::North => library.wire(tree.shape().place_of(edge.low).layer),
        Way::Up => library.via(),
    }
}

/// Whether a buffer may stand at a node.
fn may_hold(library: &Library, tree: &RouteTree, node: u32) -> bool
    requires node { node < length tree.now.nodes }
    requires columns { library.now.sizes.columns ≡ tree.now.shape.columns }
    requires rows { library.now.sizes.rows ≡ tree.now.shape.rows }
    ensures { result ≡ may_hold library.now tree.now node }
{
    let place = tree.shape().place_of(tree.cell(node));
    node != 0 && !library.blocked(place.x, place.y)
}

/// Adds the sinks of a net to the nodes that have their cells.
pub(crate) fn hang_sinks(
    nodes: &mut Vec<NodeLoad>,
    library: &Library,
    net: u32,
    pins: &[u32],
    tree: &RouteTree,
    index: &NodeIndex,
)
    requires loading { IsLoading (record { library = library.now; net = net; pins = pins.now; tree = tree.now }) }
    requires index { Indexes index.now tree.now.nodes }
    requires cells { cells_of tree.now.shape ≤ length index.now }
    requires nodes { nodes.old.items
        ≡ map (bare_node library.now tree.now) (range_with_len 0 (length tree.now.nodes)) }
    ensures { let l : LoadingView = record { library = library.now; net = net; pins = pins.now; tree = tree.now } in
        AreStored l (sinks_of l) nodes.new.items }
{
    for pin in 1..pins.len() {
        let node = index.node_at(tree, pins[pin]).unwrap() as usize;
        let sink = library.sink_of(net, pin as u32);
        let flipped = library.flipped(net, pin as u32);
        nodes[node] = nodes[node].with(sink, flipped);
    }
}
