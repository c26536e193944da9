//! Windows of the grid.
ghost use Rattle.std.specs.Prelude.{◌≡◌};
ghost use Rattle.maze_route.specs.Windows.{is_within, with_place};

use gr_base::Cell;

/// A box of tiles on all layers, by its first and last column and row.
#[derive(Clone, Copy, Debug, PartialEq, Eq)]
pub struct Window {
    pub x0: u32,
    pub y0: u32,
    pub x1: u32,
    pub y1: u32,
}

impl Window {
    /// The least box that holds this one and a place.
    pub fn with(self, place: Cell) -> Window
        ensures { result ≡ with_place self place }
    {
        Window {
            x0: self.x0.min(place.x),
            y0: self.y0.min(place.y),
            x1: self.x1.max(place.x),
            y1: self.y1.max(place.y),
        }
    }

    /// Whether a place lies in the window's columns and rows.
    pub fn holds(self, place: Cell) -> bool
        ensures { result ≡ is_within self place }
    {
        self.x0 <= place.x && place.x <= self.x1 && self.y0 <= place.y && place.y <= self.y1
    }
}
