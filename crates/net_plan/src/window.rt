//! Finds the window of a net's maze plan, from the net's pins, the margin and the size of the grid alone.
ghost use Rattle.std.specs.Prelude.{◌≡◌, ◌<◌, All, IsTrue, length};
ghost use Rattle.gr_base.specs.Designs.{is_routed, pins_at};
ghost use Rattle.gr_base.specs.Grid.{cells_of};
ghost use Rattle.net_plan.specs.Mazes.{box_of, window_of};

use gr_base::{Design, Shape};
use maze_route::Window;

/// The window in which a routed net's maze plan grows, in tiles: the least box that holds its pins,
/// grown by `margin` columns and rows on each side and cut at the chip's border.
pub fn maze_window(design: &Design, net: u32, margin: u32) -> Window
    requires net { IsTrue (is_routed design.now net) }
    ensures window { result ≡ window_of design.now.frame.shape (pins_at design.now net) margin }
{
    let pins = design.net(net).pins.as_slice();
    window_of(design.frame().shape, pins, margin)
}

/// The least box of columns and rows that holds a net's pins, grown by a margin on each side and
/// cut at the chip's border.
pub(crate) fn window_of(shape: Shape, pins: &[u32], margin: u32) -> Window
    requires some { 0 < length pins.now }
    requires pins { All (λ pin. pin < cells_of shape) pins.now }
    ensures { result ≡ window_of shape pins.now margin }
{
    let pins_box = box_of(shape, pins);
    Window {
        x0: pins_box.x0.saturating_sub(margin),
        y0: pins_box.y0.saturating_sub(margin),
        x1: pins_box.x1.saturating_add(margin).min(shape.columns() - 1),
        y1: pins_box.y1.saturating_add(margin).min(shape.rows() - 1),
    }
}

/// The least box of columns and rows that holds some cells.
fn box_of(shape: Shape, cells: &[u32]) -> Window
    requires some { 0 < length cells.now }
    requires cells { All (λ cell. cell < cells_of shape) cells.now }
    ensures { result ≡ box_of shape cells.now }
{
    let first = shape.place_of(cells[0]);
    let mut held = Window {
        x0: first.x,
        y0: first.y,
        x1: first.x,
        y1: first.y,
    };
    for &cell in cells {
        held = held.with(shape.place_of(cell));
    }
    held
}
