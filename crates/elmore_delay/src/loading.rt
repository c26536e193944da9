//! Nets' trees with what a library says of them.
ghost use Rattle.std.specs.Prelude.{◌≡◌, ◌<◌, ◌≤◌, length, map, IfOk, IfSome};
ghost use Rattle.gr_base.specs.Designs.{pins_at};
ghost use Rattle.gr_base.specs.Grid.{cells_of};
ghost use Rattle.gr_base.specs.Plans.{IsRouteOfNet};
ghost use Rattle.rc_library.specs.Libraries.{IsLibraryOf, IsWire, IsKind};
ghost use Rattle.rc_library.specs.Limits.{most_resistance};
ghost use Rattle.elmore_delay.specs.RcTrees.{sinks_at, sinks_load, soonest, twice};
ghost use Rattle.elmore_delay.specs.Ranges.{most_load};
ghost use Rattle.elmore_delay.specs.Placements.{NamesKinds, buffers_of};
ghost use Rattle.elmore_delay.specs.Loadings.{IsLoading, rc_of, wire_at, is_free, wants_at};

use crate::node_load::{NodeLoad, hang_sinks, without_sinks};
use crate::placement::Placement;
use crate::wants::Wants;
use gr_base::{Design, Net, NodeIndex, RouteTree};
use rc_library::{Kind, Library, Wire};
use std::alloc::{AllocError, Global};
use std::marker::Model;

/// A net's tree with a library: for each node the wire of the edge to its parent, the loads and
/// times of the sinks there, and whether a buffer may stand there.
#[derive(Debug, Drop)]
pub struct Loading<'a> {
    library: &'a Library,
    net: &'a Net,
    tree: &'a RouteTree,
    number: u32,
    nodes: Vec<NodeLoad>,
}

impl<'a> Model for Loading<'a> {
    ghost use Rattle.elmore_delay.specs.Ranges.{most_load};
    ghost use Rattle.elmore_delay.specs.Placements.{NamesKinds, buffers_of};
    ghost use Rattle.elmore_delay.specs.Loadings.{LoadingView};

    ghost Value = { LoadingView };

    ghost use Rattle.elmore_delay.specs.LoadingStore.{seen, Keeps};

    ghost view = { seen };

    ghost invariant = { Keeps };
}

impl<'a> Loading<'a> {
    /// The loading of a net's tree. The index serves net after net: what it holds before the call
    /// means nothing. The only error is want of memory.
    pub fn of(
        alloc: Global,
        library: &'a Library,
        design: &'a Design,
        net: u32,
        tree: &'a RouteTree,
        index: &mut NodeIndex,
    ) -> Result<Loading<'a>, AllocError>
        requires library { IsLibraryOf design.now library.now }
        requires net { net < length design.now.nets }
        requires tree { IsRouteOfNet design.now net tree.now }
        requires index { cells_of tree.now.shape ≤ length index.old }
        ensures loading { IfOk result (λ loading. loading
            ≡ record { library = library.now; net = net; pins = pins_at design.now net; tree = tree.now }) }
        ensures index { length index.new ≡ length index.old }
    {
        let routed = design.net(net);
        index.extend(tree, 0);
        let mut nodes = without_sinks(alloc, library, tree)?;
        hang_sinks(
            &mut nodes,
            library,
            net,
            routed.pins.as_slice(),
            tree,
            index,
        );
        Ok(Loading {
            library,
            net: routed,
            tree,
            number: net,
            nodes,
        })
    }

    /// The resistance in ohms of the net's driver.
    pub fn driver(&self) -> u32
        ensures driver { result ≡ (rc_of self.now).driver }
        ensures fits { result ≤ most_resistance }
        ensures loading { IsLoading self.now }
    {
        self.library.driver_of(self.number)
    }

    /// The wire of the edge from a node to its parent; for node 0, which has no edge, no resistance
    /// and no capacitance.
    pub fn wire(&self, node: u32) -> Wire
        requires { node < length self.now.tree.nodes }
        ensures wire { result ≡ wire_at self.now node }
        ensures fits { IsWire result }
        ensures loading { IsLoading self.now }
    {
        self.nodes[node as usize].wire
    }

    /// The sum in femtofarads of the loads of the sinks at a node.
    pub fn load(&self, node: u32) -> u64
        requires { node < length self.now.tree.nodes }
        ensures load { result ≡ sinks_load (rc_of self.now) node }
        ensures most { result ≤ most_load }
        ensures loading { IsLoading self.now }
    {
        self.nodes[node as usize].load
    }

    /// The least of twice the times in femtoseconds of the sinks at a node. None exactly where no
    /// sink is.
    pub fn time(&self, node: u32) -> Option<i64>
        requires { node < length self.now.tree.nodes }
        ensures time { result ≡ soonest (map twice (sinks_at (rc_of self.now) node)) }
        ensures loading { IsLoading self.now }
    {
        self.nodes[node as usize].time
    }

    /// Whether a buffer may stand at a node: whether it isn't node 0 and its tile isn't blocked.
    pub fn free(&self, node: u32) -> bool
        requires { node < length self.now.tree.nodes }
        ensures free { result ≡ is_free self.now node }
        ensures loading { IsLoading self.now }
    {
        self.nodes[node as usize].free
    }

    /// Which signal the sinks at a node want.
    pub fn wants(&self, node: u32) -> Wants
        requires { node < length self.now.tree.nodes }
        ensures wants { result ≡ wants_at self.now node }
        ensures loading { IsLoading self.now }
    {
        self.nodes[node as usize].wants
    }

    /// The kind of the buffer that a placement puts at a node, or none.
    pub(crate) fn buffer(&self, placement: &Placement, node: u32) -> Option<Kind>
        requires node { node < length placement.now }
        requires kinds { NamesKinds self.now.library placement.now }
        ensures buffer { result ≡ buffers_of self.now.library placement.now node }
        ensures fits { IfSome result IsKind }
    {
        match placement.at(node) {
            None => None,
            Some(kind) => Some(self.library.kind(kind)),
        }
    }
}
