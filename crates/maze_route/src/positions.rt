//! Positions of columns and rows, as sums of what it costs at least to cross from each to the next.
ghost use Rattle.std.specs.Prelude.{◌≡◌, ℕ, ◌+◌, ◌*◌, ◌<◌, ◌≤◌, length, Option, IfOk};
ghost use Rattle.cost_rules.specs.Formulas.{most_cost};
ghost use Rattle.gr_base.specs.declared.grid.Edge.{Edge};
ghost use Rattle.gr_base.specs.Grid.{number_of, stride};
ghost use Rattle.gr_base.specs.Limits.{most_cells};
ghost use Rattle.maze_route.specs.Fields.{IsTable, IsPriced, inner, IsUnderPrices};
ghost use Rattle.maze_route.specs.Positions.{most_position, AreUpTo, sums_from, AreLowered, borders_of, lines_of, start_of, AreUnder, ArePositions};
ghost use Rattle.maze_route.specs.Scales.{AreScales};
ghost use Rattle.maze_route.specs.Steps.{size_of};

use crate::field::Field;
use crate::pane::Pane;
use crate::scales::Scales;
use crate::window::Window;
use cost_rules::{Costs, MOST_COST};
use gr_base::{Edge, Shape, Way};
use std::alloc::{AllocError, Global};

impl Scales {
    /// The scales of a window by the least price of its edges between each column and the next, and
    /// between each row and the next. The only error is want of memory.
    pub(crate) fn of<C: Costs>(
        alloc: Global,
        costs: &C,
        field: &Field,
    ) -> Result<Scales, AllocError>
        requires grid { C.grid costs.now ≡ field.now.pane.grid }
        requires priced { IsPriced (C.price costs.now) field.now }
        ensures { IfOk result (AreScales field.now.pane.grid field.now.pane.window (C.price costs.now)) }
    {
        let pane = field.pane;
        Ok(Scales {
            columns: positions(alloc, costs, pane, Way::East, &field.east)?,
            rows: positions(alloc, costs, pane, Way::North, &field.north)?,
        })
    }
}

/// The positions of a window's columns, for the way East, or of its rows, for North, by the prices of the
/// edges that go the way.
#[inline(always)]
fn positions<C: Costs>(
    alloc: Global,
    costs: &C,
    pane: Pane,
    way: Way,
    prices: &[u32],
) -> Result<Vec<u64>, AllocError>
    requires grid { C.grid costs.now ≡ pane.grid }
    requires table { IsTable pane (C.price costs.now) way prices.now }
    ensures size { IfOk result (λ positions. length positions.items ≡ borders_of pane.window way + 1) }
    ensures near { IfOk result (λ positions. AreUpTo most_position positions.items) }
    ensures positions { IfOk result (λ positions.
        ArePositions pane.grid pane.window (C.price costs.now) way positions.items) }
{
    let mut steps = vec![in alloc; MOST_COST as u32; borders(pane.window, way) as usize]?;
    lower(costs, pane, way, prices, &mut steps);
    sums(alloc, &steps)
}

/// How many borders between columns or rows a window's edges cross this way.
fn borders(window: Window, way: Way) -> u32
    requires columns { window.x0 ≤ window.x1 }
    requires rows { window.y0 ≤ window.y1 }
    ensures { result ≡ borders_of window way }
{
    match way {
        Way::East => window.x1 - window.x0,
        Way::North => window.y1 - window.y0,
        Way::Up => 0,
    }
}

/// How many lines of edges cross these borders on a layer.
fn lines(pane: Pane, way: Way) -> u32
    ensures { result ≡ lines_of pane.window way }
{
    match way {
        Way::East => pane.shape.rows,
        Way::North => pane.shape.columns,
        Way::Up => 0,
    }
}

/// The first cell of such a line, by its number in the window.
fn start(pane: Pane, way: Way, layer: u32, line: u32) -> u32
    requires layer { layer < pane.shape.layers }
    requires line { line < lines_of pane.window way }
    ensures { result ≡ number_of pane.shape (start_of (inner pane.shape) way layer line) }
{
    match way {
        Way::East => pane.shape.cell_of(0, line, layer),
        Way::North => pane.shape.cell_of(line, 0, layer),
        Way::Up => pane.shape.cell_of(0, 0, layer),
    }
}

/// Lowers numbers to the prices of the edges of a line, each to its own one's.
#[inline(always)]
fn lower_line(prices: &[u32], shape: Shape, way: Way, first: u32, numbers: &mut [u32])
    requires inside { (place : ℕ) → place < length numbers.old →
        first + place * stride shape way < length prices.now }
    requires few { length prices.now ≤ most_cells }
    ensures lowered { AreLowered numbers.old numbers.new }
    ensures under { IsUnderPrices prices.now shape way first (length numbers.old) numbers.new }
{
    let stride = shape.stride(way);
    let mut at = first;
    for place in 0..numbers.len() {
        numbers[place] = numbers[place].min(prices[at as usize]);
        at += stride;
    }
}

/// Lowers the numbers of a window's borders to the prices of the edges that cross them on a layer.
#[inline(always)]
fn lower_layer(pane: Pane, way: Way, layer: u32, prices: &[u32], numbers: &mut [u32])
    requires layer { layer < pane.shape.layers }
    requires prices { length prices.now ≡ size_of pane }
    requires size { length numbers.old ≡ borders_of pane.window way }
    ensures lowered { AreLowered numbers.old numbers.new }
    ensures under { (price : Edge → Option ℕ) → IsTable pane price way prices.now →
        AreUnder pane.grid pane.window price way (λ place. place.layer ≡ layer) numbers.new }
{
    for line in 0..lines(pane, way) {
        let first = start(pane, way, layer, line);
        lower_line(prices, pane.shape, way, first, numbers);
    }
}

/// Lowers the numbers of a window's borders to the prices of the edges that cross them.
#[inline(always)]
fn lower<C: Costs>(costs: &C, pane: Pane, way: Way, prices: &[u32], numbers: &mut [u32])
    requires grid { C.grid costs.now ≡ pane.grid }
    requires table { IsTable pane (C.price costs.now) way prices.now }
    requires size { length numbers.old ≡ borders_of pane.window way }
    ensures lowered { AreLowered numbers.old numbers.new }
    ensures under { AreUnder pane.grid pane.window (C.price costs.now) way (λ place. place.layer < pane.grid.layers)
        numbers.new }
{
    for layer in 0..pane.shape.layers() {
        if !costs.goes(layer, way) {
            continue;
        }
        lower_layer(pane, way, layer, prices, numbers);
    }
}

/// The sums of the first numbers of a list, from that of none to that of all.
fn sums(alloc: Global, numbers: &[u32]) -> Result<Vec<u64>, AllocError>
    requires few { length numbers.now < most_cells }
    requires small { AreUpTo most_cost numbers.now }
    ensures { IfOk result (λ sums. sums.items ≡ sums_from 0 numbers.now) }
{
    let mut sums = Vec::with_capacity(alloc, numbers.len() + 1)?;
    let mut total = 0;
    for &number in numbers {
        sums.push(total)?;
        total += u64::from(number);
    }
    sums.push(total)?;
    Ok(sums)
}
