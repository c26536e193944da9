//! The places of wire edges in tables.
ghost use Rattle.std.specs.Prelude.{◌≡◌, ◌^◌, ◌<◌};
ghost use Rattle.gr_base.specs.Sums.{wire_number as number_of};
ghost use Rattle.grid_demand.specs.Planes.{place_of, edge_placed as placed_edge};

use gr_base::{Edge, Way};

/// The place of a wire edge in a table of so many: the East edges fill its first half by the numbers
/// of their low ends, the North edges its second half. So edges of one layer and way stand together.
#[inline(always)]
pub(crate) fn place(e: Edge, wires: usize) -> usize
    ensures { result ≡ place_of wires (number_of e) }
{
    let first = match e.way {
        Way::North => wires / 2,
        Way::East | Way::Up => 0,
    };
    first + e.low as usize
}

/// The wire edge at a place of a table of so many.
pub(crate) fn edge_placed(place: usize, wires: usize) -> Edge
    requires few { wires < 2 ^ 32 }
    requires place { place < wires }
    ensures { result ≡ placed_edge wires place }
{
    let half = wires / 2;
    if place < half {
        Edge {
            low: place as u32,
            way: Way::East,
        }
    } else {
        Edge {
            low: (place - half) as u32,
            way: Way::North,
        }
    }
}
