//! Numbers of cells, and what is counted of them.
ghost use Rattle.std.specs.Prelude.{◌≡◌, ℕ, ◌<◌, ◌≤◌, All, filter, length, map, OnOk};
ghost use Rattle.gr_base.specs.Grid.{cells_of};
ghost use Rattle.span_bounds.specs.Lines.{number_of};
ghost use Rattle.wall_laws.specs.Spans.{different, is_low, least_of, most_of, spread};

use gr_base::{Shape, Way};
use std::alloc::AllocError;

/// Which number of a cell is meant.
#[derive(Clone, Copy)]
pub(crate) enum Number {
    Column,
    Row,
    Layer,
    /// The number of its tile: that of the cell on the lowest layer.
    Tile,
}

fn number_of(shape: Shape, number: Number, cell: u32) -> u32
    requires { cell < cells_of shape }
    ensures { result ≡ number_of shape number cell }
{
    match number {
        Number::Column => shape.place_of(cell).x,
        Number::Row => shape.place_of(cell).y,
        Number::Layer => shape.place_of(cell).layer,
        Number::Tile => cell % shape.stride(Way::Up),
    }
}

/// Replaces the list by this number of each cell. The only error is want of memory.
pub(crate) fn list(
    numbers: &mut Vec<u32>,
    shape: Shape,
    number: Number,
    cells: &[u32],
) -> Result<(), AllocError>
    requires { All (λ cell. cell < cells_of shape) cells.now }
    ensures { OnOk result (numbers.new.items ≡ map (number_of shape number) cells.now) }
{
    numbers.clear();
    for cell in cells {
        numbers.push(number_of(shape, number, *cell))?;
    }
    Ok(())
}

/// Replaces the list by this number of each cell that is at the layer or below. The only error is want
/// of memory.
pub(crate) fn list_low(
    numbers: &mut Vec<u32>,
    shape: Shape,
    number: Number,
    layer: u32,
    cells: &[u32],
) -> Result<(), AllocError>
    requires { All (λ cell. cell < cells_of shape) cells.now }
    ensures { OnOk result
        (numbers.new.items ≡ map (number_of shape number) (filter (is_low shape layer) cells.now)) }
{
    numbers.clear();
    for cell in cells {
        if shape.place_of(*cell).layer <= layer {
            numbers.push(number_of(shape, number, *cell))?;
        }
    }
    Ok(())
}

/// The least of the numbers, or 0.
pub(crate) fn least_of(numbers: &[u32]) -> u32
    ensures { result ≡ least_of numbers.now }
{
    numbers.iter().copied().min().unwrap_or(0)
}

/// The greatest of the numbers, or 0.
pub(crate) fn most_of(numbers: &[u32]) -> u32
    ensures { result ≡ most_of numbers.now }
{
    numbers.iter().copied().max().unwrap_or(0)
}

/// How far the greatest of the numbers is above the least.
pub(crate) fn spread(numbers: &[u32]) -> u32
    ensures { result ≡ spread numbers.now }
{
    most_of(numbers) - least_of(numbers)
}

/// How many different numbers there are. The list is sorted, and has each once from then on.
pub(crate) fn different(numbers: &mut Vec<u32>) -> usize
    ensures number { result ≡ different numbers.old.items }
    ensures most { result ≤ length numbers.old.items }
{
    numbers.sort_unstable();
    numbers.dedup();
    numbers.len()
}
