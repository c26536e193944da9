//! Least walks, as callers ask for them.
ghost use Rattle.std.specs.Prelude.{◌≡◌, ◌<◌, length, IfOk, OnOk, IsTrue};
ghost use Rattle.gr_base.specs.Trees.{IsTree, IsWalkTo};
ghost use Rattle.maze_route.specs.Fields.{IsPriced};
ghost use Rattle.maze_route.specs.Kept.{IsKept, Serves};
ghost use Rattle.maze_route.specs.Scales.{AreScales};
ghost use Rattle.maze_route.specs.Steps.{size_of, pane_graph};
ghost use Rattle.maze_route.specs.Walks.{IsLeastWalk};
ghost use Rattle.maze_route.specs.Windows.{IsWindow, TreeLiesIn, LieIn, IsPassable, window_graph};
ghost use Rattle.maze_route.specs.Whole.{whole};

use crate::aim::aim_at;
use crate::back::walk_back;
use crate::ends::{first_reached, locals, mark, nearest_of};
use crate::resume::resume;
use crate::room::MazeRoom;
use crate::runs::RunCosts;
use crate::search::search;
use crate::window::Window;
use cost_rules::Costs;
use gr_base::{Cells, RouteTree};
use std::alloc::{AllocError, Global};

/// The least walk from the nearest goal to the tree, inside a window.
///
/// The distance of a cell is the least cost of all walks to it from a cell of the tree, along edges
/// that have a cost and whose ends lie in the window. The walk begins at the goal of least distance,
/// and of these at the least-numbered. From each cell it goes to the least-numbered neighbour whose
/// distance and the cost of the edge between make up its own, until it meets the tree. It can be
/// attached to the tree. The only error is want of memory.
///
/// The walk is found by Dijkstra's method, "A note on two problems in connexion with graphs", 1959,
/// with a lower bound on the rest of the way.
pub fn least_walk<C: RunCosts>(
    alloc: Global,
    costs: &C,
    window: Window,
    tree: &RouteTree,
    goals: &[u32],
) -> Result<Cells, AllocError>
    requires grid { C.grid costs.now ≡ tree.now.shape }
    requires window { IsWindow tree.now.shape window }
    requires tree { TreeLiesIn window tree.now }
    requires goals { LieIn tree.now.shape window goals.now }
    requires some { 0 < length goals.now }
    requires passable { IsPassable tree.now.shape (C.ways costs.now) window }
    ensures walk { IfOk result (IsLeastWalk (window_graph tree.now window (C.price costs.now)) goals.now) }
    ensures attaches { IfOk result (IsWalkTo tree.now) }
{
    let mut room = MazeRoom::new(alloc);
    room.begin(alloc, costs, tree.shape(), window)?;
    least_walk_by(alloc, &mut room, costs, window, tree, goals)
}

/// The same walk, in a room that serves the tree: `MazeRoom::begin` makes it so, and each walk leaves it
/// so, also for the tree with the walk attached.
pub fn least_walk_by<C: Costs>(
    alloc: Global,
    room: &mut MazeRoom,
    costs: &C,
    window: Window,
    tree: &RouteTree,
    goals: &[u32],
) -> Result<Cells, AllocError>
    requires grid { C.grid costs.now ≡ tree.now.shape }
    requires window { IsWindow tree.now.shape window }
    requires room { Serves tree.now window (C.price costs.now) room.old }
    requires tree { TreeLiesIn window tree.now }
    requires goals { LieIn tree.now.shape window goals.now }
    requires some { 0 < length goals.now }
    requires passable { IsPassable tree.now.shape (C.ways costs.now) window }
    ensures walk { IfOk result (IsLeastWalk (window_graph tree.now window (C.price costs.now)) goals.now) }
    ensures attaches { IfOk result (IsWalkTo tree.now) }
    ensures room { OnOk result (Serves tree.now window (C.price costs.now) room.new) }
{
    // The call says that it is a tree.
    let _shape = tree.shape();
    walk_in(alloc, room, costs, tree, goals)
}

/// The same walk in the room's window.
fn walk_in<C: Costs>(
    alloc: Global,
    room: &mut MazeRoom,
    costs: &C,
    tree: &RouteTree,
    goals: &[u32],
) -> Result<Cells, AllocError>
    requires grid { C.grid costs.now ≡ room.old.field.pane.grid }
    requires priced { IsPriced (C.price costs.now) room.old.field }
    requires shape { tree.now.shape ≡ room.old.field.pane.grid }
    requires scales { AreScales room.old.field.pane.grid room.old.field.pane.window (C.price costs.now)
        room.old.scales }
    requires tree { TreeLiesIn room.old.field.pane.window tree.now }
    requires rooted { IsTree tree.now }
    requires goals { LieIn room.old.field.pane.grid room.old.field.pane.window goals.now }
    requires some { 0 < length goals.now }
    requires passable { IsPassable room.old.field.pane.grid (C.ways costs.now) room.old.field.pane.window }
    requires size { length room.old.front.labels.costs.items ≡ size_of room.old.field.pane }
    requires kept { let pane = room.old.field.pane in
        IsKept (pane_graph pane tree.now (C.price costs.now)) (size_of pane) room.old.front }
    ensures walk { IfOk result (IsLeastWalk (whole room.old.field.pane tree.now (C.price costs.now)) goals.now) }
    ensures field { room.new.field ≡ room.old.field }
    ensures scales { room.new.scales ≡ room.old.scales }
    ensures size { OnOk result (length room.new.front.labels.costs.items ≡ size_of room.old.field.pane) }
    ensures kept { let pane = room.old.field.pane in
        OnOk result (IsKept (pane_graph pane tree.now (C.price costs.now)) (size_of pane) room.new.front) }
{
    let pane = room.field.pane;
    locals(pane, goals, &mut room.ends)?;
    let aim = aim_at(alloc, &room.scales, pane, &room.ends, costs.least_via())?;
    mark(pane, &room.ends, &mut room.marks)?;
    resume(pane, &aim, tree, &mut room.waiting, &mut room.front)?;
    let known = nearest_of(&room.front.labels, &room.ends);
    search(
        costs,
        &room.field,
        &aim,
        &room.marks,
        known,
        tree,
        &mut room.front,
    )?;
    let goal = first_reached(&room.front.labels, &room.ends).unwrap();
    walk_back(alloc, costs, &room.field, tree, &room.front.labels, goal)
}
