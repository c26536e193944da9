//! Goes from cells to tiles and back: the distinct tiles of pins, and the cell of a tile on a grid of one layer.
ghost use Rattle.std.specs.Prelude.{◌≡◌, ◌<◌, ◌≤◌, All, length, OnOk};
ghost use Rattle.std.specs.List.{list_any};
ghost use Rattle.gr_base.specs.Grid.{cells_of};
ghost use Rattle.net_plan.specs.FlatTrees.{IsTileIn, cell_of_tile, is_tile, distinct_tiles};

use gr_base::Shape;
use std::alloc::AllocError;
use steiner_topology::Tile;

/// Puts the distinct tiles of cells, in the order of first appearance, in place of what a list holds.
/// It takes time in the product of cells and tiles. The only error is want of memory.
pub(crate) fn distinct_tiles(
    shape: Shape,
    cells: &[u32],
    tiles: &mut Vec<Tile>,
) -> Result<(), AllocError>
    requires { All (λ cell. cell < cells_of shape) cells.now }
    ensures tiles { OnOk result (tiles.new.items ≡ distinct_tiles shape cells.now) }
    ensures inside { OnOk result (All (IsTileIn shape) tiles.new.items) }
    ensures few { OnOk result (length tiles.new.items ≤ length cells.now) }
{
    tiles.clear();
    for &cell in cells {
        let place = shape.place_of(cell);
        let tile = (place.x, place.y);
        if !has_tile(tiles, tile) {
            tiles.push(tile)?;
        }
    }
    Ok(())
}

/// Whether one of some tiles is this one.
fn has_tile(tiles: &[Tile], tile: Tile) -> bool
    ensures { result ≡ list_any (is_tile tile) tiles.now }
{
    tiles
        .iter()
        .any(|other| tile.0 == other.0 && tile.1 == other.1)
}

/// The cell of a tile on a grid of one layer.
pub(crate) fn cell_of_tile(shape: Shape, tile: Tile) -> u32
    requires { IsTileIn shape tile }
    ensures cell { result ≡ cell_of_tile shape tile }
    ensures inside { result < cells_of shape }
{
    shape.cell_of(tile.0, tile.1, 0)
}
