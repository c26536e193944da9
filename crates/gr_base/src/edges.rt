//! Cells by number, and the edges between them.
ghost use Rattle.std.specs.Prelude.{◌≡◌, ◌≢◌, ℕ, ◌+◌, ◌*◌, ◌<◌, ◌≤◌, ◌↔◌, IsTrue, IsSome, IsNone, IfSome};
ghost use Rattle.gr_base.specs.Limits.{is_grid, most_cells, most_layers};
ghost use Rattle.gr_base.specs.Grid.{cells_of, number_of, IsInside, place_at, AreNeighbours, way_between, edge_of, on_layer, stride, high_of, beyond, has_room as room_at, has_edge, Joins};

use crate::grid::{Cell, Edge, Shape, Way};
use crate::limits::{MOST_CELLS, MOST_LAYERS};

impl Shape {
    /// None exactly where a number is 0, there are more than 16 layers, or more than 8,388,608 cells.
    pub fn new(columns: u32, rows: u32, layers: u32) -> Option<Shape>
        ensures some { IsSome result ↔ IsTrue (is_grid columns rows layers) }
        ensures columns { IfSome result (λ shape. shape.columns ≡ columns) }
        ensures rows { IfSome result (λ shape. shape.rows ≡ rows) }
        ensures layers { IfSome result (λ shape. shape.layers ≡ layers) }
    {
        let cells = u128::from(columns) * u128::from(rows) * u128::from(layers);
        if columns > 0
            && rows > 0
            && layers > 0
            && layers <= MOST_LAYERS
            && cells <= u128::from(MOST_CELLS)
        {
            Some(Shape {
                columns,
                rows,
                layers,
            })
        } else {
            None
        }
    }

    /// How many columns the grid has.
    pub fn columns(self) -> u32
        ensures columns { result ≡ self.columns }
        ensures some { 0 < result }
        ensures most { result ≤ most_cells }
    {
        self.columns
    }

    /// How many rows the grid has.
    pub fn rows(self) -> u32
        ensures rows { result ≡ self.rows }
        ensures some { 0 < result }
        ensures most { result ≤ most_cells }
    {
        self.rows
    }

    /// How many layers the grid has.
    pub fn layers(self) -> u32
        ensures layers { result ≡ self.layers }
        ensures some { 0 < result }
        ensures most { result ≤ most_layers }
    {
        self.layers
    }

    /// How many cells the grid has.
    pub fn cells(self) -> u32
        ensures cells { result ≡ cells_of self }
        ensures most { result ≤ most_cells }
    {
        self.columns * self.rows * self.layers
    }

    /// The number of a cell inside the grid.
    pub fn cell_of(self, x: u32, y: u32, layer: u32) -> u32
        requires { IsInside self (record { x = x; y = y; layer = layer }) }
        ensures number { result ≡ number_of self (record { x = x; y = y; layer = layer }) }
        ensures cell { result < cells_of self }
        ensures inverse { place_at self result ≡ record { x = x; y = y; layer = layer } }
    {
        (layer * self.rows + y) * self.columns + x
    }

    /// The cell with a number below `cells`: the inverse of `cell_of`.
    pub fn place_of(self, cell: u32) -> Cell
        requires { cell < cells_of self }
        ensures place { result ≡ place_at self cell }
        ensures inside { IsInside self result }
        ensures inverse { number_of self result ≡ cell }
    {
        let row = cell / self.columns;
        Cell {
            x: cell % self.columns,
            y: row % self.rows,
            layer: row / self.rows,
        }
    }

    /// Whether the cell at this place has a neighbour that way.
    pub fn has_room(self, place: Cell, way: Way) -> bool
        requires { IsInside self place }
        ensures { result ≡ room_at self place way }
    {
        match way {
            Way::East => place.x + 1 < self.columns,
            Way::North => place.y + 1 < self.rows,
            Way::Up => place.layer + 1 < self.layers,
        }
    }

    /// The edge between two cells. None exactly where they aren't neighbours: where they don't
    /// differ by 1 in exactly one of column, row and layer.
    pub fn edge_between(self, a: u32, b: u32) -> Option<Edge>
        requires a { a < cells_of self }
        requires b { b < cells_of self }
        ensures edge { result ≡ edge_of self a b }
        ensures some { IsSome result ↔ AreNeighbours self a b }
        ensures joins { IfSome result (λ e. Joins self e a b) }
    {
        self.edge_of_cells(a, b)
    }

    fn edge_of_cells(self, a: u32, b: u32) -> Option<Edge>
        requires a { a < cells_of self }
        requires b { b < cells_of self }
        ensures { result ≡ edge_of self a b }
    {
        let from = self.place_of(a);
        let to = self.place_of(b);
        let steps = from.x.abs_diff(to.x) + from.y.abs_diff(to.y) + from.layer.abs_diff(to.layer);
        if steps != 1 {
            return None;
        }
        let way = self.way_between(a, b);
        Some(Edge { low: a.min(b), way })
    }

    /// The way of a line between two cells: East where their columns differ, else North where their
    /// rows differ, else Up.
    pub fn way_between(self, a: u32, b: u32) -> Way
        requires a { a < cells_of self }
        requires b { b < cells_of self }
        ensures { result ≡ way_between self a b }
    {
        let from = self.place_of(a);
        let to = self.place_of(b);
        if from.x != to.x {
            Way::East
        } else if from.y != to.y {
            Way::North
        } else {
            Way::Up
        }
    }

    /// The edge on a layer over an edge of the grid of one layer of this grid's columns and rows.
    pub fn edge_over(self, layer: u32, flat: Edge) -> Edge
        requires layer { layer < self.layers }
        requires tile { flat.low < self.columns * self.rows }
        ensures { result ≡ on_layer self layer flat }
    {
        Edge {
            low: layer * (self.columns * self.rows) + flat.low,
            way: flat.way,
        }
    }

    /// The end of higher number of one of the grid's edges.
    pub fn high(self, e: Edge) -> u32
        requires { IsTrue (has_edge self e) }
        ensures high { result ≡ high_of self e }
        ensures cell { result < cells_of self }
        ensures place { place_at self result ≡ beyond (place_at self e.low) e.way }
        ensures joined { edge_of self e.low result ≡ Some e }
    {
        e.low + self.stride(e.way)
    }

    /// By how much cell numbers grow along a way.
    pub fn stride(self, way: Way) -> u32
        ensures { result ≡ stride self way }
    {
        match way {
            Way::East => 1,
            Way::North => self.columns,
            Way::Up => self.columns * self.rows,
        }
    }
}
