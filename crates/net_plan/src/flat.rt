//! Makes the flat tree of a net's pins: their topology, joined by flat walks at the least costs over the layers.
ghost use Rattle.std.specs.Prelude.{◌≡◌, ◌<◌, ◌≤◌, ◌^◌, All, length, IfOk, IsTrue};
ghost use Rattle.gr_base.specs.Grid.{cells_of};
ghost use Rattle.gr_base.specs.Trees.{holds};
ghost use Rattle.grid_demand.specs.Tables.{capacity_of};
ghost use Rattle.layer_assign.specs.Assignments.{tile_count};
ghost use Rattle.pattern_route.specs.Walks.{IsFlat};
ghost use Rattle.steiner_topology.specs.Topology.{topology_of};
ghost use Rattle.net_plan.specs.Prices.{price_of};
ghost use Rattle.net_plan.specs.FlatTrees.{IsTileIn, IsFlatTree, HoldsTiles, cell_of_tile, tree_of};

use crate::flat_costs::{FlatCosts, flattened};
use crate::join::{JoinRoom, tree_of};
use crate::net_costs::NetCosts;
use crate::pin_tiles::distinct_tiles;
use cost_rules::Costs;
use gr_base::{Design, RouteTree, Shape};
use std::alloc::{AllocError, Global};
use steiner_topology::{Tile, TopologyRoom, topology};

/// What flat trees are made with, kept from net to net. What it holds between two calls means nothing.
#[derive(Debug, Drop)]
pub(crate) struct FlatRoom {
    pub(crate) tiles: Vec<Tile>,
    pub(crate) topologies: TopologyRoom,
    pub(crate) joining: JoinRoom,
}

impl FlatRoom {
    /// Room for the flat trees of a grid. The only error is want of memory.
    pub(crate) fn new(alloc: Global, shape: Shape) -> Result<FlatRoom, AllocError>
        ensures { IfOk result (λ room. tile_count shape ≤ length room.joining.index) }
    {
        Ok(FlatRoom {
            tiles: Vec::new(alloc),
            topologies: TopologyRoom::new(alloc),
            joining: JoinRoom::new(alloc, flattened(shape))?,
        })
    }
}

/// The flat tree of a net's pins over a design's grid, by the least costs over its layers. The only
/// error is want of memory.
pub(crate) fn flat_tree(
    alloc: Global,
    design: &Design,
    costs: &NetCosts<'_>,
    pins: &[u32],
    room: &mut FlatRoom,
) -> Result<RouteTree, AllocError>
    requires capacity { costs.now.capacity.now ≡ capacity_of design.now }
    requires pins { All (λ pin. pin < cells_of design.now.frame.shape) pins.now }
    requires some { 0 < length pins.now }
    requires few { length pins.now < 2 ^ 31 }
    requires room { tile_count design.now.frame.shape ≤ length room.old.joining.index }
    ensures tree { let costs = costs.now in
        let price = price_of costs.capacity.now costs.loads.now costs.rule.now.formula costs.net in
        IfOk result (IsFlatTree design.now.frame.shape price pins.now) }
    ensures tiles { IfOk result (HoldsTiles design.now.frame.shape pins.now) }
    ensures room { length room.new.joining.index ≡ length room.old.joining.index }
{
    distinct_tiles(design.frame().shape, pins, &mut room.tiles)?;
    let costs = FlatCosts::new(costs);
    let topologies = &mut room.topologies;
    let joining = &mut room.joining;
    tree_of_tiles(alloc, &costs, costs.shape, &room.tiles, topologies, joining)
}

/// The flat tree of tiles, of which the first is the driver's, on a grid of one layer: it starts
/// with the driver's tile, and each point of their topology in turn is joined to its parent by a
/// flat walk, which ends where it meets the tree. The only error is want of memory.
fn tree_of_tiles<C: Costs>(
    alloc: Global,
    costs: &C,
    shape: Shape,
    tiles: &[Tile],
    topologies: &mut TopologyRoom,
    joining: &mut JoinRoom,
) -> Result<RouteTree, AllocError>
    requires grid { C.grid costs.now ≡ shape }
    requires flat { IsFlat shape (C.price costs.now) }
    requires some { 0 < length tiles.now }
    requires few { length tiles.now < 2 ^ 31 }
    requires inside { All (IsTileIn shape) tiles.now }
    requires room { cells_of shape ≤ length joining.old.index }
    ensures tree { IfOk result (λ t. t ≡ tree_of shape (C.price costs.now) (topology_of tiles.now)) }
    ensures tiles { IfOk result (λ t. All (λ tile. IsTrue (holds t (cell_of_tile shape tile))) tiles.now) }
    ensures room { length joining.new.index ≡ length joining.old.index }
{
    let topology = topology(alloc, tiles, topologies)?;
    let tree = tree_of(alloc, costs, shape, &topology, joining)?;
    topologies.give_back(topology);
    Ok(tree)
}
