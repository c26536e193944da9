//! The booked nets on edges over their capacity, as a book finds them mark by mark: by a box around
//! the wires of each booked tree, which is made once a claim.
ghost use Rattle.std.specs.Prelude.{◌≡◌, ◌+◌, ◌<◌, ◌≤◌, ◌++◌, [], All, length, IfOk, IsTrue, OnOk};
ghost use Rattle.std.specs.List.{filter, range_with_len};
ghost use Rattle.gr_base.specs.Limits.{most_nets};
ghost use Rattle.maze_route.specs.Windows.{IsWindow};
ghost use Rattle.book_state.specs.Books.{nets_of, IsLegal, is_victim as victim_net};
ghost use Rattle.book_state.specs.Crowds.{AreCrowds};
ghost use Rattle.book_state.specs.Extents.{Bounds, IsExtent, AreExtents, IsPart, AreParts, IsLookedAt, AreSeen, listed};
ghost use Rattle.book_state.specs.PlaceStore.{told};
ghost use Rattle.book_state.specs.Replicas.{place_of, StandsFor};

use crate::crowds::Crowds;
use crate::history::History;
use crate::places::tree_by_place;
use crate::replica::Replica;
use beside_calls::for_each_beside;
use gr_base::{Cells, RouteTree};
use grid_demand::Capacity;
use maze_route::Window;
use std::alloc::{AllocError, Global};
use std::thread::Threads;

/// What was last seen of a net's booked tree.
#[derive(Clone, Copy, Debug)]
pub(crate) struct Extent {
    /// The length of the history's first part that ends with its claim, or 0 if it wasn't booked.
    front: u64,
    /// A box in which each of its wire edges begins.
    window: Window,
}

/// Nets that follow one another, and what was last seen of each.
#[derive(Debug, Drop)]
pub(crate) struct Part {
    extents: Vec<Extent>,
    /// The victims among the nets, as they were last looked for, in order.
    victims: Vec<u32>,
    /// The first of the nets.
    first: u32,
    /// Whether there was memory for the list of victims.
    whole: bool,
}

/// The most parts into which the nets are put.
const MOST_PARTS: u32 = 64;

/// A box of one tile, for nets that aren't booked.
const ONE_TILE: Window = Window {
    x0: 0,
    y0: 0,
    x1: 0,
    y1: 0,
};

/// The nets in parts, without anything seen of them yet. The only error is want of memory.
pub(crate) fn unseen_parts(
    alloc: Global,
    capacity: &Capacity,
    nets: u32,
) -> Result<Vec<Part>, AllocError>
    requires nets { nets ≡ nets_of capacity.now }
    requires few { nets ≤ most_nets }
    ensures { IfOk result (λ parts. AreParts capacity.now [] parts.items) }
{
    let size = nets / MOST_PARTS + 1;
    let mut parts = Vec::with_capacity(alloc, MOST_PARTS as usize)?;
    let mut first = 0;
    while first < nets {
        let count = size.min(nets - first);
        parts.push(Part {
            extents: unseen(alloc, capacity, count)?,
            victims: Vec::new(alloc),
            first,
            whole: true,
        })?;
        first += count;
    }
    Ok(parts)
}

/// Nothing is seen of so many nets yet. The only error is want of memory.
fn unseen(alloc: Global, capacity: &Capacity, nets: u32) -> Result<Vec<Extent>, AllocError>
    ensures long { IfOk result (λ extents. length extents.items ≡ nets) }
    ensures extents { IfOk result (λ extents. AreExtents capacity.now.shape [] extents.items) }
{
    let mut extents = Vec::with_capacity(alloc, nets as usize)?;
    for _ in 0..nets {
        extents.push(Extent {
            front: 0,
            window: ONE_TILE,
        })?;
    }
    Ok(extents)
}

/// Looks at the nets of each part, by at most so many threads.
pub(crate) fn look_at_all<R: Threads + Sync>(
    rt: &R,
    replica: &Replica,
    capacity: &Capacity,
    history: &History,
    crowds: &Crowds,
    threads: u32,
    parts: &mut Vec<Part>,
)
    requires legal { IsLegal capacity.now history.now }
    requires stands { StandsFor capacity.now history.now replica.now }
    requires crowds { AreCrowds capacity.now replica.now.loads crowds.now }
    requires parts { AreParts capacity.now history.now parts.old.items }
    requires threads { 0 < threads }
    ensures parts { AreParts capacity.now history.now parts.new.items }
    ensures seen { AreSeen capacity.now history.now parts.new.items }
{
    for_each_beside(
        rt,
        parts.as_mut_slice(),
        threads as usize,
        &|_at, part: &mut Part|
            requires { IsLegal capacity.now history.now × StandsFor capacity.now history.now replica.now ×
                AreCrowds capacity.now replica.now.loads crowds.now ×
                IsPart capacity.now history.now part.now }
            ensures { IsLookedAt capacity.entry.now history.entry.now part.entry.now part.exit.now }
        {
            look_at_part(replica, capacity, history, crowds, part);
        },
    );
}

/// Looks at the nets of a part, and lists the victims among them.
fn look_at_part(
    replica: &Replica,
    capacity: &Capacity,
    history: &History,
    crowds: &Crowds,
    part: &mut Part,
)
    requires legal { IsLegal capacity.now history.now }
    requires stands { StandsFor capacity.now history.now replica.now }
    requires crowds { AreCrowds capacity.now replica.now.loads crowds.now }
    requires part { IsPart capacity.now history.now part.old }
    ensures { IsLookedAt capacity.now history.now part.old part.new }
{
    let first = part.first;
    part.victims.clear();
    part.whole = list_victims(
        replica,
        capacity,
        history,
        crowds,
        first,
        &mut part.extents,
        &mut part.victims,
    )
    .is_ok();
}

/// Looks at the nets from a number on, and lists those that are victims. The only error is want of
/// memory, and the nets behind the one for which it came aren't looked at.
fn list_victims(
    replica: &Replica,
    capacity: &Capacity,
    history: &History,
    crowds: &Crowds,
    first: u32,
    extents: &mut Vec<Extent>,
    victims: &mut Vec<u32>,
) -> Result<(), AllocError>
    requires legal { IsLegal capacity.now history.now }
    requires stands { StandsFor capacity.now history.now replica.now }
    requires crowds { AreCrowds capacity.now replica.now.loads crowds.now }
    requires extents { AreExtents capacity.now.shape history.now extents.old.items }
    requires within { first + length extents.old.items ≤ nets_of capacity.now }
    requires few { nets_of capacity.now ≤ most_nets }
    requires empty { victims.old.items ≡ [] }
    ensures long { length extents.new.items ≡ length extents.old.items }
    ensures extents { AreExtents capacity.now.shape history.now extents.new.items }
    ensures victims { OnOk result (victims.new.items ≡
        filter (victim_net capacity.now history.now) (range_with_len first (length extents.old.items))) }
{
    for at in 0..extents.len() {
        let net = first + at as u32;
        let extent = &mut extents[at];
        if look(replica, capacity, history, crowds, net as usize, extent) {
            victims.push(net)?;
        }
    }
    Ok(())
}

/// Looks at a net, and says whether it is a victim. Its tree is gone through only where its box wasn't
/// made for its claim, or meets an edge over its capacity.
fn look(
    replica: &Replica,
    capacity: &Capacity,
    history: &History,
    crowds: &Crowds,
    net: usize,
    extent: &mut Extent,
) -> bool
    requires legal { IsLegal capacity.now history.now }
    requires stands { StandsFor capacity.now history.now replica.now }
    requires crowds { AreCrowds capacity.now replica.now.loads crowds.now }
    requires extent { IsExtent capacity.now.shape history.now extent.old }
    requires net { net < nets_of capacity.now }
    ensures extent { IsExtent capacity.now.shape history.now extent.new }
    ensures victim { result ≡ victim_net capacity.now history.now net }
{
    if extent.front != replica.places().front(net) {
        *extent = extent_of(replica, capacity, history, net);
    }
    crowds.meets(extent.window) && replica.is_victim(capacity, history, crowds.over(), net)
}

/// A net's box, without a look at its edges.
fn extent_of(replica: &Replica, capacity: &Capacity, history: &History, net: usize) -> Extent
    requires legal { IsLegal capacity.now history.now }
    requires stands { StandsFor capacity.now history.now replica.now }
    requires net { net < nets_of capacity.now }
    ensures extent { IsExtent capacity.now.shape history.now result }
    ensures place { told result.front ≡ place_of replica.now.places net }
{
    let places = replica.places();
    let window = match tree_by_place(history, places, net) {
        Some(tree) => window_of(tree),
        None => ONE_TILE,
    };
    Extent {
        front: places.front(net),
        window,
    }
}

/// A box in which each wire edge of a tree begins.
fn window_of(tree: &RouteTree) -> Window
    ensures window { IsWindow tree.now.shape result }
    ensures bounds { Bounds result tree.now }
{
    let shape = tree.shape();
    let root = shape.place_of(tree.cell(0));
    let mut window = Window {
        x0: root.x,
        y0: root.y,
        x1: root.x,
        y1: root.y,
    };
    for node in 0..tree.len() {
        if let Some(edge) = tree.wire_to_parent(node) {
            window = window.with(shape.place_of(edge.low));
        }
    }
    window
}

/// The victims that the parts list, in order. The only error is want of memory, here or in a part.
pub(crate) fn listed_victims(alloc: Global, parts: &[Part]) -> Result<Cells, AllocError>
    ensures victims { IfOk result (λ victims. victims ≡ listed parts.now) }
    ensures whole { OnOk result (All (λ part. IsTrue part.whole) parts.now) }
{
    let mut victims = Cells::new(alloc);
    for part in parts {
        if !part.whole {
            return Err(AllocError);
        }
        add_each(&mut victims, &part.victims)?;
    }
    Ok(victims)
}

/// Adds nets behind others. The only error is want of memory.
fn add_each(all: &mut Cells, nets: &[u32]) -> Result<(), AllocError>
    ensures { OnOk result (all.new ≡ all.old ++ nets.now) }
{
    for net in nets {
        all.push(*net)?;
    }
    Ok(())
}
