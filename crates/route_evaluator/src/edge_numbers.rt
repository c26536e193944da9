//! The numbers of edges in tables.
ghost use Rattle.std.specs.Prelude.{◌≡◌, ◌<◌, map, OnOk};
ghost use Rattle.gr_base.specs.Limits.{most_cells};
ghost use Rattle.route_evaluator.specs.EdgeNumbers.{edge_number as number_of, edge_numbered, is_via_number};

use gr_base::{Edge, Way};
use std::alloc::AllocError;

/// The number of an edge: each cell has three, for its East, its North and its Up edge.
pub(crate) fn edge_number(e: Edge) -> u32
    requires { e.low < most_cells }
    ensures { result ≡ number_of e }
{
    let first = 3 * e.low;
    match e.way {
        Way::East => first,
        Way::North => first + 1,
        Way::Up => first + 2,
    }
}

/// The edge with a number.
pub(crate) fn edge_with_number(number: u32) -> Edge
    ensures { result ≡ edge_numbered number }
{
    let way = match number % 3 {
        0 => Way::East,
        1 => Way::North,
        _ => Way::Up,
    };
    Edge {
        low: number / 3,
        way,
    }
}

/// Replaces the list by the edges with these numbers, in their order. The only error is want of memory.
pub(crate) fn list_edges(edges: &mut Vec<Edge>, numbers: &[u32]) -> Result<(), AllocError>
    ensures { OnOk result (edges.new.items ≡ map edge_numbered numbers.now) }
{
    edges.clear();
    for number in numbers {
        edges.push(edge_with_number(*number))?;
    }
    Ok(())
}

/// Whether the edge with a number is a via edge.
pub(crate) fn is_via(number: u32) -> bool
    ensures { result ≡ is_via_number number }
{
    number % 3 == 2
}
