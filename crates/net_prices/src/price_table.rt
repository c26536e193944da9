//! Tables of what arcs cost a net.
ghost use Rattle.std.specs.Prelude.{◌≡◌, ◌+◌, ◌*◌, ◌<◌, ◌≤◌, Bool, length, slice_index, IsTrue};
ghost use Rattle.gr_base.specs.Grid.{cells_of, edge_at, has_edge, high_of, is_wire};
ghost use Rattle.gr_base.specs.declared.grid.Way.{Way as WayOf};
ghost use Rattle.net_prices.specs.Arcs.{arc_down, arc_of, arc_up, AreLower};
ghost use Rattle.net_prices.specs.Pricings.{ArePricesBy, HasAllArcs, IsPricedBy};

use crate::arcs::way_number;
use crate::labels::NOTHING;
use crate::pricing::Pricing;
use gr_base::{Edge, Shape, Way};

/// Puts a number into a table, if it is below the one that stands there.
fn put_lower(table: &mut Vec<u32>, at: u32, number: u32)
    requires { at < length table.old.items }
    ensures lower { AreLower table.old.items table.new.items }
    ensures most { slice_index table.new.items at ≤ number }
{
    if number < table[at as usize] {
        table[at as usize] = number;
    }
}

/// Puts a price in for both arcs of an edge.
fn put_price(table: &mut Vec<u32>, shape: Shape, e: Edge, price: u32)
    requires edge { IsTrue (has_edge shape e) }
    requires table { length table.old.items ≡ 6 * cells_of shape }
    ensures lower { AreLower table.old.items table.new.items }
    ensures most { (up : Bool) → slice_index table.new.items (arc_of shape e up) ≤ price }
{
    let high = shape.high(e);
    put_lower(table, 6 * high + 2 * way_number(e.way), price);
    put_lower(table, 6 * e.low + 2 * way_number(e.way) + 1, price);
}

/// Puts the price of an edge in for both arcs of where it stands, if it may be used.
fn price_edge(table: &mut Vec<u32>, pricing: &Pricing<'_>, e: Edge)
    requires edge { IsTrue (has_edge pricing.now.capacity.now.shape e) }
    requires table { HasAllArcs pricing.now table.old.items }
    ensures lower { AreLower table.old.items table.new.items }
    ensures priced { IsPricedBy pricing.now table.new.items e }
{
    if pricing.rates.usable_only && !pricing.capacity.usable(e) {
        return;
    }
    let price = pricing.price(e);
    let fold = pricing.fold;
    if !fold.flat {
        put_price(table, fold.small, e, price);
        return;
    }
    if e.way != Way::Up {
        let under = fold.edge(e);
        put_price(table, fold.small, under, price);
    }
}

/// Puts in the price of the edge from a cell that way, if there is one.
fn price_way(table: &mut Vec<u32>, pricing: &Pricing<'_>, e: Edge)
    requires cell { e.low < cells_of pricing.now.capacity.now.shape }
    requires table { HasAllArcs pricing.now table.old.items }
    ensures lower { AreLower table.old.items table.new.items }
    ensures priced { IsPricedBy pricing.now table.new.items e }
{
    let shape = pricing.capacity.shape();
    if shape.has_room(shape.place_of(e.low), e.way) {
        price_edge(table, pricing, e);
    }
}

/// Puts in the prices of the edges from a cell.
fn price_cell(table: &mut Vec<u32>, pricing: &Pricing<'_>, low: u32)
    requires cell { low < cells_of pricing.now.capacity.now.shape }
    requires table { HasAllArcs pricing.now table.old.items }
    ensures lower { AreLower table.old.items table.new.items }
    ensures priced { (way : WayOf) → IsPricedBy pricing.now table.new.items (edge_at low way) }
{
    let east = Edge {
        low,
        way: Way::East,
    };
    price_way(table, pricing, east);
    let north = Edge {
        low,
        way: Way::North,
    };
    price_way(table, pricing, north);
    let up = Edge { low, way: Way::Up };
    price_way(table, pricing, up);
}

/// Fills a table with what arcs cost a net.
pub(crate) fn fill_prices(table: &mut Vec<u32>, pricing: &Pricing<'_>)
    requires { HasAllArcs pricing.now table.old.items }
    ensures long { length table.new.items ≡ length table.old.items }
    ensures prices { ArePricesBy pricing.now table.new.items }
{
    empty_table(table);
    price_cells(table, pricing);
}

/// Puts in that there are no arcs.
fn empty_table(table: &mut Vec<u32>)
    ensures { length table.new.items ≡ length table.old.items }
{
    for arc in 0..table.len() {
        table[arc] = NOTHING;
    }
}

/// Puts in the prices of the edges from each cell.
fn price_cells(table: &mut Vec<u32>, pricing: &Pricing<'_>)
    requires { HasAllArcs pricing.now table.old.items }
    ensures long { length table.new.items ≡ length table.old.items }
    ensures prices { ArePricesBy pricing.now table.new.items }
{
    for low in 0..pricing.capacity.shape().cells() {
        price_cell(table, pricing, low);
    }
}
