//! Sums over many planned nets.
ghost use Rattle.std.specs.Prelude.{◌≡◌, ◌+◌, ◌<◌, ◌≤◌, IsTrue};
ghost use Rattle.gr_base.specs.Grid.{cells_of, place_at};
ghost use Rattle.maze_route.specs.Windows.{IsWindow, in_window};

use crate::draws::Draws;
use crate::mazes::walk_of;
use crate::numbers::at;
use crate::priced::Priced;
use crate::{topologies, walks};
use gr_base::Shape;
use maze_route::Window;
use std::alloc::{AllocError, Global};
use std::io;

/// The columns and rows of the grid of mazes.
const SIDE: u32 = 300;

/// Prints the sum that a line asks for.
pub(crate) fn tell<R: Print>(
    rt: &R,
    alloc: Global,
    command: &str,
    numbers: &[u64],
) -> io::Result<()> {
    let (first, second) = (at(numbers, 0), at(numbers, 1));
    let sum = match command {
        "mazes" => mazes(alloc, first, second)?,
        "walks" => walks::sum(alloc, first, second)?,
        _ => topologies::sum(alloc, first)?,
    };
    println!(rt; "{sum}")
}

/// A square window of the grid.
fn window(draws: &mut Draws, shape: Shape, side: u32) -> Window
    requires columns { shape.columns ≡ 300 }
    requires rows { shape.rows ≡ 300 }
    requires some { 0 < side }
    requires most { side ≤ 300 }
    ensures window { IsWindow shape result }
    ensures columns { result.x1 + 1 ≡ result.x0 + side }
    ensures rows { result.y1 + 1 ≡ result.y0 + side }
{
    let x0 = draws.below(SIDE + 1 - side);
    let y0 = draws.below(SIDE + 1 - side);
    Window {
        x0,
        y0,
        x1: x0 + side - 1,
        y1: y0 + side - 1,
    }
}

/// A cell of the window, on the lowest layer.
fn cell(draws: &mut Draws, shape: Shape, window: Window, side: u32) -> u32
    requires window { IsWindow shape window }
    requires some { 0 < side }
    requires columns { window.x1 + 1 ≡ window.x0 + side }
    requires rows { window.y1 + 1 ≡ window.y0 + side }
    ensures inside { result < cells_of shape }
    ensures within { IsTrue (in_window shape window result) }
{
    let x = window.x0 + draws.below(side);
    let y = window.y0 + draws.below(side);
    shape.cell_of(x, y, 0)
}

/// The sum of the cells of the least walk between two cells of a window.
fn walk_sum(
    alloc: Global,
    costs: &Priced,
    window: Window,
    from: u32,
    to: u32,
) -> Result<u64, AllocError>
    requires window { IsWindow costs.now.shape window }
    requires from { IsTrue (in_window costs.now.shape window from) }
    requires inside { from < cells_of costs.now.shape }
    requires to { IsTrue (in_window costs.now.shape window to) }
{
    let walk = walk_of(alloc, costs, window, from, &[to])?;
    let mut sum: u64 = 0;
    for cell in walk.as_slice() {
        sum = sum.wrapping_add(u64::from(*cell));
    }
    Ok(sum)
}

/// The sum of the cells of so many least walks in square windows of a grid of 300 by 300 tiles and
/// six layers.
fn mazes(alloc: Global, side: u32, count: u32) -> Result<u64, AllocError> {
    let Some(shape) = Shape::new(SIDE, SIDE, 6) else {
        return Ok(0);
    };
    if side == 0 || side > SIDE {
        return Ok(0);
    }
    let costs = Priced::steep(shape);
    let mut draws = Draws::new();
    let mut sum: u64 = 0;
    for _ in 0..count {
        let window = window(&mut draws, shape, side);
        let from = cell(&mut draws, shape, window, side);
        let to = cell(&mut draws, shape, window, side);
        sum = sum.wrapping_add(walk_sum(alloc, &costs, window, from, to)?);
    }
    Ok(sum)
}
