//! Cells of a window by their numbers in it and in the grid.
ghost use Rattle.std.specs.Prelude.{◌≡◌, ◌<◌, IsTrue};
ghost use Rattle.gr_base.specs.declared.grid.Shape.{Shape};
ghost use Rattle.gr_base.specs.Grid.{place_at, IsInside};
ghost use Rattle.maze_route.specs.Windows.{IsWindow, in_window};
ghost use Rattle.maze_route.specs.Steps.{size_of, cell_in, local_of, IsSpot};

use crate::divisor::Divisor;
use crate::pane::{Pane, Spot};
use crate::window::Window;
use gr_base::{Cell, Shape};

impl Pane {
    pub(crate) fn new(grid: Shape, window: Window) -> Pane
        requires { IsWindow grid window }
        ensures grid { result.grid ≡ grid }
        ensures window { result.window ≡ window }
    {
        let columns = window.x1 - window.x0 + 1;
        let rows = window.y1 - window.y0 + 1;
        Pane {
            grid,
            window,
            shape: Shape {
                columns,
                rows,
                layers: grid.layers,
            },
            columns: Divisor::new(columns),
            rows: Divisor::new(rows),
        }
    }

    /// How many cells the window has.
    pub(crate) fn size(self) -> u32
        ensures { result ≡ size_of self }
    {
        self.shape.cells()
    }

    /// The number in the window of one of its cells.
    pub(crate) fn local(self, cell: u32) -> u32
        requires { IsTrue (in_window self.grid self.window cell) }
        ensures local { result ≡ local_of self cell }
        ensures inside { result < size_of self }
        ensures cell { cell_in self result ≡ cell }
    {
        let place = self.grid.place_of(cell);
        self.shape.cell_of(
            place.x - self.window.x0,
            place.y - self.window.y0,
            place.layer,
        )
    }

    /// The place of a cell by its number in the window.
    #[inline(always)]
    fn place(self, local: u32) -> Cell
        requires { local < size_of self }
        ensures place { result ≡ place_at self.shape local }
        ensures inside { IsInside self.shape result }
    {
        let row = self.columns.quotient(local);
        let layer = self.rows.quotient(row);
        Cell {
            x: local - row * self.columns.by,
            y: row - layer * self.rows.by,
            layer,
        }
    }

    /// The cell with this number in the window.
    pub(crate) fn spot(self, local: u32) -> Spot
        requires { local < size_of self }
        ensures spot { IsSpot self result }
        ensures local { result.local ≡ local }
    {
        let place = self.place(local);
        let cell = self.grid.cell_of(
            self.window.x0 + place.x,
            self.window.y0 + place.y,
            place.layer,
        );
        Spot { local, cell, place }
    }
}
