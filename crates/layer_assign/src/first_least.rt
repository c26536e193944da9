//! Assigns the edges of a flat tree to layers: tables are filled from the last node back and followed from the first.
ghost use Rattle.std.specs.Prelude.{◌≡◌, ℕ, ◌<◌, ◌≤◌, length, slice_index, IfOk};
ghost use Rattle.gr_base.specs.Trees.{IsTree};
ghost use Rattle.layer_assign.specs.Assignments.{IsFlat, tile_count, IsAssignment, IsLeast, IsFirst, HasLayers, ArePins};
ghost use Rattle.layer_assign.specs.Answers.{IsFirstLeast};

use crate::choices::choose_layers;
use crate::layers::Layers;
use crate::room::LayerRoom;
use crate::spans::spans_of;
use crate::tiles::{follow, pin_spans};
use cost_rules::Costs;
use gr_base::{RouteTree, Shape, refill};
use std::alloc::{AllocError, Global};

/// The first assignment of least cost of a flat tree's edges to layers.
///
/// An assignment gives each edge a layer that goes its way. It costs what its wire edges cost and,
/// for each tile of the tree, 3 for each layer from the least to the greatest of those that meet
/// there: the layers of the tile's edges and of its pins. Of the least assignments the first by the
/// layers of nodes 1, 2 and so on is taken. The only error is want of memory.
///
/// The flat tree has the grid's columns and rows and one layer, and for each of its edges a layer of the
/// grid goes its way. There is at least one pin; each is a cell of the grid whose tile the flat tree holds.
/// The room is for at least as many tiles as the grid has.
///
/// After Lee and Wang, "Congestion-constrained layer assignment for via minimization in global
/// routing", 2008: by tables from the last node down, here for each span of layers of a tile. A node
/// takes time in the square of the number of layers, and in its third power where edges branch.
pub fn assign<C: Costs>(
    alloc: Global,
    costs: &C,
    shape: Shape,
    flat: &RouteTree,
    pins: &[u32],
    room: &mut LayerRoom,
) -> Result<Layers, AllocError>
    requires grid { C.grid costs.now ≡ shape }
    requires flat { IsFlat shape flat.now.shape }
    requires pins { ArePins shape flat.now pins.now }
    requires layers { HasLayers shape (C.ways costs.now) flat.now }
    requires room { tile_count shape ≤ room.old }
    ensures nodes { IfOk result (λ layers. length layers ≡ length flat.now.nodes) }
    ensures assignment { IfOk result (λ layers. IsAssignment shape (C.ways costs.now) flat.now
        (λ node. slice_index layers node)) }
    ensures least { IfOk result (λ layers.
        IsLeast shape (C.ways costs.now) (C.price costs.now) flat.now pins.now (λ node. slice_index layers node)) }
    ensures first { IfOk result (λ layers.
        IsFirst shape (C.ways costs.now) (C.price costs.now) flat.now pins.now (λ node. slice_index layers node)) }
    ensures room { room.new ≡ room.old }
{
    let numbers = first_least(alloc, costs, shape, flat, pins, room)?;
    Ok(Layers { numbers })
}

/// The layers of the first least assignment, by the nodes.
fn first_least<C: Costs>(
    alloc: Global,
    costs: &C,
    shape: Shape,
    flat: &RouteTree,
    pins: &[u32],
    room: &mut LayerRoom,
) -> Result<Vec<u32>, AllocError>
    requires grid { C.grid costs.now ≡ shape }
    requires flat { IsFlat shape flat.now.shape }
    requires pins { ArePins shape flat.now pins.now }
    requires layers { HasLayers shape (C.ways costs.now) flat.now }
    requires room { tile_count shape ≤ room.old }
    ensures least { IfOk result (λ layers.
        IsFirstLeast shape (C.ways costs.now) (C.price costs.now) flat.now pins.now layers.items) }
    ensures room { room.new ≡ room.old }
{
    room.index.extend(flat, 0);
    pin_spans(shape, flat, pins, &room.index, &mut room.spans)?;
    let nodes = flat.len();
    room.climbs.fit(alloc, shape)?;
    room.climbs.copy_to(nodes, &mut room.least)?;
    refill(&mut room.choices, 0, nodes as usize * spans_of(shape))?;
    refill(&mut room.joined, false, nodes as usize)?;
    for node in (1..nodes).rev() {
        choose_layers(
            costs,
            shape,
            flat,
            &room.spans,
            &room.joined,
            node,
            &mut room.least,
            &mut room.choices,
            &mut room.workings,
        );
        room.joined[flat.parent(node) as usize] = true;
    }
    follow(alloc, shape, flat, &mut room.spans, &room.choices)
}
