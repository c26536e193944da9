//! Lists the low ends of edges that go one way, rising and each once, so that runs are followed by look-ups.
ghost use Rattle.std.specs.Prelude.{◌≡◌, ℕ, ◌<◌, ◌==◌, All, OnOk};
ghost use Rattle.std.specs.List.{list_any};
ghost use Rattle.std.specs.List.Sorted.{IsStrictlyIncreasing};
ghost use Rattle.gr_base.specs.Grid.{edge_at};
ghost use Rattle.gr_base.specs.EdgeSets.{is_way, set_of};
ghost use Rattle.straight_runs.specs.Lows.{lows_below};

use gr_base::{Edge, Way};
use std::alloc::AllocError;

fn is_same(a: Way, b: Way) -> bool
    ensures { result ≡ is_way a b }
{
    match (a, b) {
        (Way::East, Way::East) | (Way::North, Way::North) | (Way::Up, Way::Up) => true,
        _ => false,
    }
}

/// Replaces the list by the low ends of the edges that go this way, in the order of the edges.
fn push_lows(lows: &mut Vec<u32>, edges: &[Edge], way: Way) -> Result<(), AllocError>
    ensures members { OnOk result
        ((cell : ℕ) → list_any (λ low. cell == low) lows.new.items ≡ set_of edges.now (edge_at cell way)) }
    ensures within { OnOk result
        ((cells : ℕ) → All (λ e. e.low < cells) edges.now → All (λ low. low < cells) lows.new.items) }
{
    lows.clear();
    for edge in edges {
        if !is_same(way, edge.way) {
            continue;
        }
        lows.push(edge.low)?;
    }
    Ok(())
}

/// Replaces the list by the low ends of the edges that go this way, rising and each once.
pub(crate) fn gather_lows(lows: &mut Vec<u32>, edges: &[Edge], way: Way) -> Result<(), AllocError>
    ensures { OnOk result
        ((cells : ℕ) → All (λ e. e.low < cells) edges.now →
        lows.new.items ≡ lows_below cells (set_of edges.now) way) }
{
    push_lows(lows, edges, way)?;
    lows.sort_unstable();
    lows.dedup();
    Ok(())
}

/// Whether a cell is among the low ends.
pub(crate) fn has_low(lows: &[u32], cell: u32) -> bool
    requires { IsStrictlyIncreasing lows.now }
    ensures { result ≡ list_any (λ low. cell == low) lows.now }
{
    lows.binary_search(&cell).is_ok()
}
