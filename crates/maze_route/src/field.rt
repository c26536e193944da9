//! The prices of a window's wire edges, each asked for once.
ghost use Rattle.std.specs.Prelude.{◌≡◌, ℕ, ◌+◌, ◌*◌, ◌<◌, ◌≤◌, None, Some, length, IfSome, OnOk, IsTrue};
ghost use Rattle.cost_rules.specs.Formulas.{most_cost};
ghost use Rattle.gr_base.specs.Grid.{place_at, has_room, has_edge, is_wire_way, edge_at};
ghost use Rattle.maze_route.specs.Fields.{ArePricedTo, IsTable, IsPriced, edges_in_line};
ghost use Rattle.maze_route.specs.Runs.{price_at};
ghost use Rattle.maze_route.specs.Steps.{size_of, cell_in};
ghost use Rattle.maze_route.specs.Windows.{IsWindow};

use crate::pane::Pane;
use crate::runs::{NO_PRICE, RunCosts};
use crate::window::Window;
use cost_rules::Costs;
use gr_base::{Edge, Shape, Way, refill};
use std::alloc::{AllocError, Global};

/// The cells of a window and the prices of its wire edges, by the numbers in the window of their low
/// ends. What is held for a cell without an edge that way means nothing.
#[derive(Debug, Drop)]
pub(crate) struct Field {
    pub(crate) pane: Pane,
    pub(crate) east: Vec<u32>,
    pub(crate) north: Vec<u32>,
}

impl Field {
    /// A field of a grid's first tile, without prices. It takes no memory.
    pub(crate) fn new(alloc: Global) -> Field {
        let cell = Shape {
            columns: 1,
            rows: 1,
            layers: 1,
        };
        let tile = Window {
            x0: 0,
            y0: 0,
            x1: 0,
            y1: 0,
        };
        Field {
            pane: Pane::new(cell, tile),
            east: Vec::new(alloc),
            north: Vec::new(alloc),
        }
    }

    /// Makes it the field of a window by what edges cost. It keeps its memory. The only error is want
    /// of memory.
    pub(crate) fn fill<C: RunCosts>(
        &mut self,
        costs: &C,
        grid: Shape,
        window: Window,
    ) -> Result<(), AllocError>
        requires grid { C.grid costs.now ≡ grid }
        requires window { IsWindow grid window }
        ensures grid { self.new.pane.grid ≡ grid }
        ensures window { self.new.pane.window ≡ window }
        ensures priced { OnOk result (IsPriced (C.price costs.now) self.new) }
    {
        self.pane = Pane::new(grid, window);
        price_edges(costs, self.pane, Way::East, &mut self.east)?;
        price_edges(costs, self.pane, Way::North, &mut self.north)
    }

    /// What an edge of the window costs, by the number in the window of its low end.
    #[inline(always)]
    pub(crate) fn cost<C: Costs>(&self, costs: &C, low: u32, edge: Edge) -> Option<u64>
        requires grid { C.grid costs.now ≡ self.now.pane.grid }
        requires priced { IsPriced (C.price costs.now) self.now }
        requires inside { low < size_of self.now.pane }
        requires low { edge.low ≡ cell_in self.now.pane low }
        requires room { IsTrue (has_room self.now.pane.shape (place_at self.now.pane.shape low) edge.way) }
        ensures price { result ≡ C.price costs.now edge }
        ensures most { IfSome result (λ cost. cost ≤ most_cost) }
    {
        match edge.way {
            Way::East => held_at(&self.east, low),
            Way::North => held_at(&self.north, low),
            Way::Up => costs.via(edge),
        }
    }
}

/// The price that is held for a cell, or none.
#[inline(always)]
fn held_at(prices: &Vec<u32>, cell: u32) -> Option<u64>
    requires { cell < length prices.now.items }
    ensures { result ≡ price_at prices.now.items cell }
{
    let held = prices[cell as usize];
    if held == NO_PRICE {
        None
    } else {
        Some(u64::from(held))
    }
}

/// Puts the prices of a window's edges that go a way in place of what a list held.
fn price_edges<C: RunCosts>(
    costs: &C,
    pane: Pane,
    way: Way,
    prices: &mut Vec<u32>,
) -> Result<(), AllocError>
    requires grid { C.grid costs.now ≡ pane.grid }
    requires wire { IsTrue (is_wire_way way) }
    ensures table { OnOk result (IsTable pane (C.price costs.now) way prices.new.items) }
{
    refill(prices, NO_PRICE, pane.size() as usize)?;
    for line in 0..pane.shape.rows() * pane.shape.layers() {
        price_line(costs, pane, way, line, prices);
    }
    Ok(())
}

/// Prices the edges that begin on a line of cells: a row of a layer. The rows of all layers are numbered
/// one after the other.
fn price_line<C: RunCosts>(costs: &C, pane: Pane, way: Way, line: u32, prices: &mut Vec<u32>)
    requires grid { C.grid costs.now ≡ pane.grid }
    requires wire { IsTrue (is_wire_way way) }
    requires line { line < pane.shape.rows * pane.shape.layers }
    requires before { ArePricedTo pane (C.price costs.now) way (line * pane.shape.columns) prices.old.items }
    ensures after { ArePricedTo pane (C.price costs.now) way ((line + 1) * pane.shape.columns) prices.new.items }
{
    let layer = line / pane.shape.rows;
    if !costs.goes(layer, way) {
        return;
    }
    let row = line % pane.shape.rows;
    let low = pane
        .grid
        .cell_of(pane.window.x0, pane.window.y0 + row, layer);
    let first = (line * pane.shape.columns) as usize;
    let count = edges_in_line(pane, way, row);
    costs.price_run(Edge { low, way }, count, first, prices);
}

/// How many edges that go a way begin in a row of the window and end in it: at its first cells.
fn edges_in_line(pane: Pane, way: Way, row: u32) -> u32
    requires { row < pane.shape.rows }
    ensures { result ≡ edges_in_line pane way row }
{
    match way {
        Way::East => pane.shape.columns - 1,
        Way::North => {
            if row + 1 < pane.shape.rows {
                pane.shape.columns
            } else {
                0
            }
        }
        Way::Up => 0,
    }
}
