//! What stands before the nets: the grid, the capacities, the widths and spacings, and the tiles.
ghost use Rattle.std.specs.Prelude.{◌≡◌, ◌-◌, ◌*◌, ◌<◌, ◌≤◌, ℤ, All, Any, length, replicate, take, drop, nat_lt, negsuc, pos, ◌≤ℤ◌, IsTrue, IfOk};
ghost use Rattle.std.specs.List.{list_any};
ghost use Rattle.gr_text.specs.Reads.{ReadsBy, Moves};
ghost use Rattle.gr_base.specs.Limits.{most_lower, most_width, most_capacity};
ghost use Rattle.gr_base.specs.Designs.{IsFrame};
ghost use Rattle.ispd_reader.specs.Header.{above_zero, shape_of, grid, by_layer, stack_of, IsStack, capacities, measures, layers, corner, frame};

use crate::fault::DesignFault;
use crate::steps::{ENDS, words};
use gr_base::{
    Frame, Layer, MOST_CAPACITY, MOST_CELLS, MOST_LAYERS, MOST_LOWER, MOST_TILE, MOST_WIDTH, Shape,
};
use gr_text::{ReadError, TokenSource, check, given, natural, number, word};

/// What stands for a layer that the grid hasn't.
const NO_LAYER: Layer = Layer {
    vertical: 0,
    horizontal: 0,
    width: 0,
    spacing: 0,
    via: 0,
};

fn shape_of(columns: u32, rows: u32, layers: u32) -> Option<Shape>
    ensures { result ≡ shape_of columns rows layers }
{
    Shape::new(columns, rows, layers)
}

/// Takes a whole number from 1 to `most`. 0 has a fault of its own.
#[tactic(auto, unfolding(crate::specs::Header::above_zero))]
fn above_zero<S: TokenSource>(
    source: &mut S,
    most: u32,
    fault: DesignFault,
) -> Result<u32, ReadError<DesignFault>>
    ensures reads { ReadsBy S.tells S.place (above_zero most fault) (λ n. n) result source.old source.new }
    ensures moves { Moves S.faults S.reaches S.stops S.origin result source.old source.new }
    ensures some { IfOk result (λ n. 0 < n) }
    ensures most { IfOk result (λ n. n ≤ most) }
{
    let n = natural(source, ENDS, DesignFault::Number, most)?;
    check(source, 0 < n, fault)?;
    Ok(n)
}

#[tactic(auto, unfolding(crate::specs::Header::grid))]
fn grid<S: TokenSource>(source: &mut S) -> Result<Shape, ReadError<DesignFault>>
    ensures reads { ReadsBy S.tells S.place grid (λ shape. shape) result source.old source.new }
    ensures moves { Moves S.faults S.reaches S.stops S.origin result source.old source.new }
{
    word(source, ENDS, DesignFault::Word, b"grid")?;
    let columns = above_zero(source, MOST_CELLS, DesignFault::Number)?;
    let rows = above_zero(source, MOST_CELLS, DesignFault::Number)?;
    let layers = above_zero(source, MOST_LAYERS, DesignFault::Number)?;
    given(source, shape_of(columns, rows, layers), DesignFault::Grid)
}

/// A number for each of the grid's layers. The others have 0.
fn by_layer<S: TokenSource>(
    source: &mut S,
    layers: u32,
    most: u32,
) -> Result<[u32; 16], ReadError<DesignFault>>
    requires { layers ≤ 16 }
    ensures reads { ReadsBy S.tells S.place (by_layer layers most) (λ numbers. numbers) result source.old source.new }
    ensures moves { Moves S.faults S.reaches S.stops S.origin result source.old source.new }
    ensures count { IfOk result (λ numbers. length numbers ≡ 16) }
    ensures most { IfOk result (All (λ n. n ≤ most)) }
    ensures others { IfOk result (λ numbers. drop layers numbers ≡ replicate (16 - layers) 0) }
{
    let mut numbers = [0; 16];
    for layer in 0..layers {
        numbers[layer as usize] = natural(source, ENDS, DesignFault::Number, most)?;
    }
    Ok(numbers)
}

fn is_any_above_zero(numbers: &[u32; 16]) -> bool
    ensures { result ≡ list_any (nat_lt 0) numbers.now }
{
    numbers.iter().any(|&n| 0 < n)
}

/// The capacities along one way, in which the grid is so many tiles wide.
#[tactic(auto, unfolding(crate::specs::Header::capacities))]
fn capacities<S: TokenSource>(
    source: &mut S,
    way: &[u8],
    tiles: u32,
    layers: u32,
) -> Result<[u32; 16], ReadError<DesignFault>>
    requires { layers ≤ 16 }
    ensures reads { ReadsBy S.tells S.place (capacities way.now tiles layers)
        (λ numbers. numbers) result source.old source.new }
    ensures moves { Moves S.faults S.reaches S.stops S.origin result source.old source.new }
    ensures count { IfOk result (λ numbers. length numbers ≡ 16) }
    ensures most { IfOk result (All (λ n. n ≤ most_capacity)) }
    ensures some { IfOk result (λ numbers. 1 < tiles → Any (λ n. 0 < n) (take layers numbers)) }
{
    words(source, way, b"capacity")?;
    let numbers = by_layer(source, layers, MOST_CAPACITY)?;
    check(
        source,
        tiles <= 1 || is_any_above_zero(&numbers),
        DesignFault::NoLayer,
    )?;
    Ok(numbers)
}

/// The widths or the spacings of the layers.
#[tactic(auto, unfolding(crate::specs::Header::measures))]
fn measures<S: TokenSource>(
    source: &mut S,
    first: &[u8],
    second: &[u8],
    layers: u32,
) -> Result<[u32; 16], ReadError<DesignFault>>
    requires { layers ≤ 16 }
    ensures reads { ReadsBy S.tells S.place (measures first.now second.now layers)
        (λ numbers. numbers) result source.old source.new }
    ensures moves { Moves S.faults S.reaches S.stops S.origin result source.old source.new }
    ensures count { IfOk result (λ numbers. length numbers ≡ 16) }
    ensures most { IfOk result (All (λ n. n ≤ most_width)) }
{
    words(source, first, second)?;
    by_layer(source, layers, MOST_WIDTH)
}

/// A coordinate of the lower left corner.
#[tactic(auto, unfolding(crate::specs::Header::corner))]
fn corner<S: TokenSource>(source: &mut S) -> Result<i64, ReadError<DesignFault>>
    ensures reads { ReadsBy S.tells S.place corner (λ n. n) result source.old source.new }
    ensures moves { Moves S.faults S.reaches S.stops S.origin result source.old source.new }
    ensures low { IfOk result (λ n. negsuc (most_lower - 1) ≤ℤ n) }
    ensures high { IfOk result (λ n. n ≤ℤ pos most_lower) }
{
    number(source, ENDS, DesignFault::Number, -MOST_LOWER, MOST_LOWER)
}

/// The numbers of each layer out of those of all layers.
fn stacked(
    vertical: &[u32; 16],
    horizontal: &[u32; 16],
    width: &[u32; 16],
    spacing: &[u32; 16],
    via: &[u32; 16],
) -> [Layer; 16]
    ensures { result ≡ stack_of vertical.now horizontal.now width.now spacing.now via.now }
{
    let mut layers = [NO_LAYER; 16];
    for at in 0..16 {
        layers[at] = Layer {
            vertical: vertical[at],
            horizontal: horizontal[at],
            width: width[at],
            spacing: spacing[at],
            via: via[at],
        };
    }
    layers
}

/// The capacities, widths and spacings of the layers.
#[tactic(auto, unfolding(crate::specs::Header::layers))]
fn layers<S: TokenSource>(
    source: &mut S,
    shape: Shape,
) -> Result<[Layer; 16], ReadError<DesignFault>>
    ensures reads { ReadsBy S.tells S.place (layers shape) (λ layers. layers) result source.old source.new }
    ensures moves { Moves S.faults S.reaches S.stops S.origin result source.old source.new }
    ensures stack { IfOk result (IsStack shape) }
{
    let vertical = capacities(source, b"vertical", shape.rows(), shape.layers())?;
    let horizontal = capacities(source, b"horizontal", shape.columns(), shape.layers())?;
    let width = measures(source, b"minimum", b"width", shape.layers())?;
    let spacing = measures(source, b"minimum", b"spacing", shape.layers())?;
    let via = measures(source, b"via", b"spacing", shape.layers())?;
    Ok(stacked(&vertical, &horizontal, &width, &spacing, &via))
}

/// Reads all that stands before the nets.
#[tactic(auto, unfolding(crate::specs::Header::frame))]
pub(crate) fn frame<S: TokenSource>(source: &mut S) -> Result<Frame, ReadError<DesignFault>>
    ensures reads { ReadsBy S.tells S.place frame (λ frame. frame) result source.old source.new }
    ensures moves { Moves S.faults S.reaches S.stops S.origin result source.old source.new }
    ensures frame { IfOk result IsFrame }
{
    let shape = grid(source)?;
    let layers = layers(source, shape)?;
    let lower_x = corner(source)?;
    let lower_y = corner(source)?;
    let tile_width = above_zero(source, MOST_TILE, DesignFault::Tile)?;
    let tile_height = above_zero(source, MOST_TILE, DesignFault::Tile)?;
    Ok(Frame {
        shape,
        layers,
        lower_x,
        lower_y,
        tile_width,
        tile_height,
    })
}
