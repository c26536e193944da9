//! The places of a wall's wires.
ghost use Rattle.std.specs.Prelude.{◌≡◌, ◌+◌, ◌*◌, ◌^◌, ◌<◌, ◌≤◌, ◌++◌, OnOk};
ghost use Rattle.gr_base.specs.Limits.{most_cells};
ghost use Rattle.cut_bounds.specs.Boxes.{IsOnChip};
ghost use Rattle.cut_bounds.specs.TileWires.{tiles_of};
ghost use Rattle.cut_bounds.specs.Places.{places_of, run_of, left_run, right_run, lower_run, upper_run};
ghost use Rattle.cut_bounds.specs.Places.{IsBoxOf, IsWallOf};

use crate::wall::{TileBox, Wall};
use gr_base::Shape;
use std::alloc::AllocError;

/// Replaces the list by the places of a wall's wires. The only error is want of memory.
pub(crate) fn gather_places(
    places: &mut Vec<u32>,
    shape: Shape,
    wall: Wall,
) -> Result<(), AllocError>
    requires { IsWallOf shape wall }
    ensures { OnOk result (places.new.items ≡ places_of shape wall) }
{
    places.clear();
    let columns = shape.columns();
    match wall {
        Wall::Column(x) => push_run(places, x, columns, shape.rows()),
        Wall::Row(y) => push_run(places, tiles(shape) + number(shape, 0, y), 1, columns),
        Wall::Box(area) => push_box(places, shape, area),
    }
}

/// Puts the places of a box's wires behind the others.
fn push_box(places: &mut Vec<u32>, shape: Shape, area: TileBox) -> Result<(), AllocError>
    requires { IsBoxOf shape area }
    ensures { OnOk result (places.new.items ≡ (((places.old.items ++ left_run shape area) ++
        right_run shape area) ++ lower_run shape area) ++ upper_run shape area) }
{
    push_left(places, shape, area)?;
    push_right(places, shape, area)?;
    push_lower(places, shape, area)?;
    push_upper(places, shape, area)?;
    Ok(())
}

/// Puts the places of a box's wires to the left behind the others.
fn push_left(places: &mut Vec<u32>, shape: Shape, area: TileBox) -> Result<(), AllocError>
    requires { IsBoxOf shape area }
    ensures { OnOk result (places.new.items ≡ places.old.items ++ left_run shape area) }
{
    if area.x0 == 0 {
        return Ok(());
    }
    let first = number(shape, area.x0 - 1, area.y0);
    push_run(places, first, shape.columns(), area.y1 + 1 - area.y0)
}

/// Puts the places of a box's wires to the right behind the others.
fn push_right(places: &mut Vec<u32>, shape: Shape, area: TileBox) -> Result<(), AllocError>
    requires { IsBoxOf shape area }
    ensures { OnOk result (places.new.items ≡ places.old.items ++ right_run shape area) }
{
    if area.x1 + 1 >= shape.columns() {
        return Ok(());
    }
    let first = number(shape, area.x1, area.y0);
    push_run(places, first, shape.columns(), area.y1 + 1 - area.y0)
}

/// Puts the places of a box's wires down behind the others.
fn push_lower(places: &mut Vec<u32>, shape: Shape, area: TileBox) -> Result<(), AllocError>
    requires { IsBoxOf shape area }
    ensures { OnOk result (places.new.items ≡ places.old.items ++ lower_run shape area) }
{
    if area.y0 == 0 {
        return Ok(());
    }
    let first = tiles(shape) + number(shape, area.x0, area.y0 - 1);
    push_run(places, first, 1, area.x1 + 1 - area.x0)
}

/// Puts the places of a box's wires up behind the others.
fn push_upper(places: &mut Vec<u32>, shape: Shape, area: TileBox) -> Result<(), AllocError>
    requires { IsBoxOf shape area }
    ensures { OnOk result (places.new.items ≡ places.old.items ++ upper_run shape area) }
{
    if area.y1 + 1 >= shape.rows() {
        return Ok(());
    }
    let first = tiles(shape) + number(shape, area.x0, area.y1);
    push_run(places, first, 1, area.x1 + 1 - area.x0)
}

/// How many tiles there are.
fn tiles(shape: Shape) -> u32
    ensures tiles { result ≡ tiles_of shape }
    ensures most { result ≤ most_cells }
{
    shape.columns() * shape.rows()
}

/// The number of a tile.
fn number(shape: Shape, x: u32, y: u32) -> u32
    requires { IsOnChip shape (record { x = x; y = y }) }
    ensures number { result ≡ y * shape.columns + x }
    ensures inside { result < tiles_of shape }
{
    y * shape.columns() + x
}

/// Puts so many places behind the others, each a step behind the one before.
fn push_run(places: &mut Vec<u32>, first: u32, step: u32, count: u32) -> Result<(), AllocError>
    requires { first + count * step ≤ 2 ^ 25 }
    ensures { OnOk result (places.new.items ≡ places.old.items ++ run_of first step count) }
{
    let mut place = first;
    for _ in 0..count {
        places.push(place)?;
        place += step;
    }
    Ok(())
}
