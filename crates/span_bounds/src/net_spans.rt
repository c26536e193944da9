//! What the pins of one net ask for.
ghost use Rattle.std.specs.Prelude.{◌≡◌, ◌^◌, ◌<◌, ◌≤◌, All, ◌&&◌, length, nat_le, nat_lt, not, Some, IfOk};
ghost use Rattle.gr_base.specs.Capacities.{usable_along};
ghost use Rattle.gr_base.specs.Grid.{cells_of};
ghost use Rattle.span_bounds.specs.Lines.{number_of};
ghost use Rattle.wall_laws.specs.Spans.{forced, forced_by, is_blocked, is_low, least_usable_vias, least_vias, least_wires, vias_above};
ghost use Rattle.wall_laws.specs.Walls.{is_parted};

use crate::numbers::{Number, different, least_of, list, list_low, most_of, spread};
use gr_base::{Frame, Layer, Shape, Way};
use std::alloc::AllocError;

/// The wire edges that pins ask for. The only error is want of memory.
pub(crate) fn least_wires(
    shape: Shape,
    pins: &[u32],
    numbers: &mut Vec<u32>,
) -> Result<u64, AllocError>
    requires pins { All (λ pin. pin < cells_of shape) pins.now }
    requires few { length pins.now ≤ 1000 }
    ensures wires { IfOk result (λ wires. wires ≡ least_wires shape pins.now) }
    ensures most { IfOk result (λ wires. wires < 2 ^ 34) }
{
    list(numbers, shape, Number::Column, pins)?;
    let columns = spread(numbers);
    list(numbers, shape, Number::Row, pins)?;
    let rows = spread(numbers);
    list(numbers, shape, Number::Tile, pins)?;
    let tiles = different(numbers) as u64;
    Ok((u64::from(columns) + u64::from(rows)).max(tiles.saturating_sub(1)))
}

/// The via edges that pins ask for, where wires may run any way. The only error is want of memory.
pub(crate) fn least_vias(
    shape: Shape,
    pins: &[u32],
    numbers: &mut Vec<u32>,
) -> Result<u32, AllocError>
    requires { All (λ pin. pin < cells_of shape) pins.now }
    ensures { IfOk result (λ vias. vias ≡ least_vias shape pins.now) }
{
    list(numbers, shape, Number::Layer, pins)?;
    Ok(spread(numbers))
}

/// Whether the layer states no capacity for that way.
fn is_unusable(way: Way, layer: &Layer) -> bool
    ensures { result ≡ not (usable_along way (Some layer.now)) }
{
    match way {
        Way::East => layer.horizontal == 0,
        Way::North => layer.vertical == 0,
        Way::Up => false,
    }
}

/// Whether the layers up to this one all are unusable that way.
fn is_blocked(frame: &Frame, way: Way, layer: u32) -> bool
    requires { layer < 16 }
    ensures { result ≡ is_blocked frame.now way layer }
{
    frame.layers[..layer as usize + 1]
        .iter()
        .all(|layer| is_unusable(way, layer))
}

/// The via edges above a layer that the pins at it and below force, where low wires can't leave their
/// line of tiles. The only error is want of memory.
fn forced(
    frame: &Frame,
    way: Way,
    line: Number,
    layer: u32,
    pins: &[u32],
    numbers: &mut Vec<u32>,
) -> Result<u64, AllocError>
    requires layer { layer < 16 }
    requires pins { All (λ pin. pin < cells_of frame.now.shape) pins.now }
    requires few { length pins.now ≤ 1000 }
    ensures vias { IfOk result (λ vias.
        vias ≡ forced frame.now way (number_of frame.now.shape line) pins.now layer) }
    ensures most { IfOk result (λ vias. vias ≤ 1000) }
{
    if !is_blocked(frame, way, layer) {
        return Ok(0);
    }
    list_low(numbers, frame.shape, line, layer, pins)?;
    let all = numbers.len() == pins.len();
    Ok(forced_by(all, different(numbers) as u64))
}

/// The vias that pins force which lie in so many lines, or all of them in those.
fn forced_by(all: bool, lines: u64) -> u64
    ensures vias { result ≡ forced_by all lines }
    ensures most { result ≤ lines }
{
    if all && lines == 1 { 0 } else { lines }
}

/// The via edges above a layer that pins ask for, along usable edges, where that layer parts them or
/// doesn't. The only error is want of memory.
fn vias_above(
    frame: &Frame,
    layer: u32,
    parted: bool,
    pins: &[u32],
    numbers: &mut Vec<u32>,
) -> Result<u64, AllocError>
    requires layer { layer < 16 }
    requires pins { All (λ pin. pin < cells_of frame.now.shape) pins.now }
    requires few { length pins.now ≤ 1000 }
    requires parted { parted ≡ is_parted (is_low frame.now.shape layer) pins.now }
    ensures vias { IfOk result (λ vias. vias ≡ vias_above frame.now pins.now layer) }
    ensures most { IfOk result (λ vias. vias ≤ 1000) }
{
    let rows = forced(frame, Way::North, Number::Row, layer, pins, numbers)?;
    let columns = forced(frame, Way::East, Number::Column, layer, pins, numbers)?;
    Ok(u64::from(parted).max(rows).max(columns))
}

/// The via edges that pins ask for along usable edges. The only error is want of memory.
pub(crate) fn least_usable_vias(
    frame: &Frame,
    pins: &[u32],
    numbers: &mut Vec<u32>,
) -> Result<u64, AllocError>
    requires pins { All (λ pin. pin < cells_of frame.now.shape) pins.now }
    requires few { length pins.now ≤ 1000 }
    ensures vias { IfOk result (λ vias. vias ≡ least_usable_vias frame.now pins.now) }
    ensures most { IfOk result (λ vias. vias ≤ 16000) }
{
    list(numbers, frame.shape, Number::Layer, pins)?;
    let least = least_of(numbers);
    let most = most_of(numbers);
    let mut vias = 0;
    for layer in 0..frame.shape.layers() - 1 {
        let parted = is_between(least, layer, most);
        vias += vias_above(frame, layer, parted, pins, numbers)?;
    }
    Ok(vias)
}

fn is_between(least: u32, layer: u32, most: u32) -> bool
    ensures { result ≡ (nat_le least layer && nat_lt layer most) }
{
    least <= layer && layer < most
}
