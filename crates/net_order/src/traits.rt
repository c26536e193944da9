//! What is looked up of a net before nets are put in order.
ghost use Rattle.std.specs.Prelude.{◌≡◌, ◌*◌, ◌%◌, ◌==◌, ◌<◌, ◌≤◌, pos, ◌+ℤ◌, ◌≤ℤ◌, length, IsTrue};
ghost use Rattle.std.specs.List.{list_any};
ghost use Rattle.gr_base.specs.Designs.{is_routed};
ghost use Rattle.net_plan.specs.FlatTrees.{distinct_tiles};
ghost use Rattle.net_order.specs.Freedoms.{freedom, IsOfNet};

use gr_base::{Design, Shape};
use net_plan::maze_window;

/// What is looked up of a net.
#[derive(Clone, Copy)]
pub(crate) struct Traits {
    /// The place of the driver's tile in Morton's order.
    pub(crate) place: u32,
    /// How free the net is to go another way, in tiles.
    pub(crate) freedom: i32,
}

/// What is looked up of a net before that is done, and of one that isn't routed.
pub(crate) const NO_TRAITS: Traits = Traits {
    place: 0,
    freedom: 0,
};

/// What is looked up of a net.
pub(crate) fn traits_of(design: &Design, net: u32) -> Traits
    requires { net < length design.now.nets }
    ensures { IsOfNet design.now net result.freedom }
{
    if !design.routed(net) {
        return NO_TRAITS;
    }
    Traits {
        place: driver_place(design, net),
        freedom: freedom(design, net),
    }
}

/// How free a net is to go another way that is hardly longer: columns less 1 and rows less 1 of the least
/// box that holds its pins, less 2 for each tile with a pin. A large box has many walks of least length,
/// and each tile with a pin ties them down.
fn freedom(design: &Design, net: u32) -> i32
    requires { IsTrue (is_routed design.now net) }
    ensures freedom { result ≡ freedom design.now net }
    ensures least { pos 0 ≤ℤ (result +ℤ pos 2000) }
{
    let pins = design.net(net).pins.as_slice();
    let pins_box = maze_window(design, net, 0);
    let across = (pins_box.x1 - pins_box.x0) + (pins_box.y1 - pins_box.y0);
    let tiles = tiles_with_pins(design.frame().shape, pins);
    across as i32 - 2 * tiles as i32
}

/// In how many tiles the cells lie. It takes no memory, and time in the square of the number of cells.
fn tiles_with_pins(shape: Shape, cells: &[u32]) -> u32
    requires { length cells.now ≤ 1000 }
    ensures tiles { result ≡ length (distinct_tiles shape cells.now) }
    ensures few { result ≤ length cells.now }
{
    let plane = plane_of(shape);
    let mut tiles = 0;
    for at in 0..cells.len() {
        if !is_tile_among(plane, cells[at], &cells[..at]) {
            tiles += 1;
        }
    }
    tiles
}

/// How many tiles a grid has.
fn plane_of(shape: Shape) -> u32
    ensures tiles { result ≡ shape.rows * shape.columns }
    ensures some { 0 < result }
{
    shape.rows() * shape.columns()
}

/// Whether one of some cells lies in the tile of this one.
fn is_tile_among(plane: u32, cell: u32, others: &[u32]) -> bool
    requires { 0 < plane }
    ensures { result ≡ list_any (λ other. other % plane == cell % plane) others.now }
{
    let tile = tile_number(plane, cell);
    others
        .iter()
        .any(|other| tile_number(plane, *other) == tile)
}

/// The number of a cell's tile, on a grid with so many tiles. Most pins lie on the first layer, where the
/// cell has the same one.
fn tile_number(plane: u32, cell: u32) -> u32
    requires { 0 < plane }
    ensures { result ≡ cell % plane }
{
    if cell < plane { cell } else { cell % plane }
}

/// The place of the tile of a net's driver in Morton's order, in which tiles that follow one another
/// mostly lie near one another. 0 where the net has no such pin.
///
/// After Morton, "A computer oriented geodetic data base and a new technique in file sequencing", 1966.
fn driver_place(design: &Design, net: u32) -> u32
    requires { net < length design.now.nets }
{
    match design.net(net).pins.as_slice().first() {
        Some(driver) => tile_place(design.frame().shape, *driver),
        None => 0,
    }
}

/// The place of a cell's tile in Morton's order: the bits of its column and of its row in turn.
fn tile_place(shape: Shape, cell: u32) -> u32 {
    let column = cell % shape.columns();
    let row = cell / shape.columns() % shape.rows();
    spread(column) | spread(row) << 1
}

/// The low 16 bits of a number, each with a 0 before it.
fn spread(number: u32) -> u32 {
    let low = number & 0xffff;
    let bytes = (low | low << 8) & 0x00ff_00ff;
    let halves = (bytes | bytes << 4) & 0x0f0f_0f0f;
    let pairs = (halves | halves << 2) & 0x3333_3333;
    (pairs | pairs << 1) & 0x5555_5555
}
