//! The capacity of wire edges, and what nets need of them.
ghost use Rattle.std.specs.Prelude.{◌≡◌, ℕ, ◌+◌, ◌*◌, ◌^◌, ◌<◌, ◌≤◌, ◌++◌, length, IfOk, OnOk, IsTrue, map, slice_get, Some};
ghost use Rattle.gr_base.specs.Designs.{DesignView, IsFrame, IsLayer};
ghost use Rattle.gr_base.specs.Capacities.{stated_along, capacity, usable, need, need_along, width_in, widths_of};
ghost use Rattle.gr_base.specs.Grid.{cells_of, place_at, has_edge, is_wire};
ghost use Rattle.gr_base.specs.Limits.{most_capacity, most_width};
ghost use Rattle.gr_base.specs.Sums.{wires_from_cells};
ghost use Rattle.grid_demand.specs.Planes.{by_number};
ghost use Rattle.grid_demand.specs.Tables.{capacity_of, stated_table, stated_along_way, capacity_table, capacity_at, usable_at, need_at, cell_layers, IsCapacity};
ghost use Rattle.grid_demand.specs.LayerNeeds.{IsLayerNeed};
ghost use Rattle.grid_demand.specs.Runs.{IsPart, AreBeside, IsRunOf};

use crate::wires::place;
use gr_base::{Design, Edge, Frame, Layer, Shape, Way};
use std::alloc::{AllocError, Global};
use std::marker::Model;

/// The capacities of a design's wire edges, which edges are usable, and what nets need of them.
///
/// The tables are filled once, so that each look-up takes an index or two.
#[derive(Debug, Drop)]
pub struct Capacity {
    shape: Shape,
    layers: [Layer; 16],
    cell_layers: Vec<u8>,
    widths: Vec<u32>,
    capacities: Vec<u32>,
}

impl Capacity {
    /// The capacity of a design. The only error is want of memory.
    pub fn of(alloc: Global, design: &Design) -> Result<Capacity, AllocError>
        ensures { IfOk result (λ c. c ≡ capacity_of design.now) }
    {
        let frame = *design.frame();
        Ok(Capacity {
            shape: frame.shape,
            layers: frame.layers,
            cell_layers: layers_by_cell(alloc, frame.shape)?,
            widths: widths_by_net(alloc, design)?,
            capacities: capacities_by_place(alloc, design)?,
        })
    }

    /// The grid of the design.
    pub fn shape(&self) -> Shape
        ensures shape { result ≡ self.now.shape }
        ensures tables { IsCapacity self.now }
    {
        self.shape
    }

    /// The capacity of a wire edge: that in its last adjustment, else what its layer states, the
    /// horizontal capacity for East and the vertical one for North.
    #[inline(always)]
    pub fn at(&self, e: Edge) -> u64
        requires edge { IsTrue (has_edge self.now.shape e) }
        requires wire { IsTrue (is_wire e) }
        ensures value { result ≡ capacity_at self.now e }
        ensures design { (d : DesignView) → self.now ≡ capacity_of d → result ≡ capacity d e }
        ensures most { result ≤ most_capacity }
    {
        u64::from(self.capacities[place(e, self.capacities.len())])
    }

    /// The capacity of each of so many wire edges that lie side by side, from one on.
    pub fn run(&self, from: Edge, count: u32) -> &[u32]
        requires { AreBeside self.now.shape from count }
        ensures run { IsRunOf (capacity_at self.now) from count result.now }
        ensures tables { IsCapacity self.now }
    {
        let first = place(from, self.capacities.len());
        part(&self.capacities, first, first + count as usize)
    }

    /// Whether wires may use an edge: a wire edge where its layer states a capacity for its way,
    /// whatever its adjustments say, and every via edge.
    pub fn usable(&self, e: Edge) -> bool
        requires { IsTrue (has_edge self.now.shape e) }
        ensures value { result ≡ usable_at self.now e }
        ensures design { (d : DesignView) → self.now ≡ capacity_of d → result ≡ usable d e }
    {
        let layer = self.layer_of(e);
        match e.way {
            Way::East => layer.horizontal != 0,
            Way::North => layer.vertical != 0,
            Way::Up => true,
        }
    }

    /// What a net takes of an edge, in units of width: nothing of a via edge, and of a wire edge
    /// the greater of its own and the layer's width, and the layer's spacing. A net that the
    /// design doesn't have is of width 0.
    pub fn need(&self, net: u32, e: Edge) -> u64
        requires { IsTrue (has_edge self.now.shape e) }
        ensures value { result ≡ need_at self.now net e }
        ensures design { (d : DesignView) → self.now ≡ capacity_of d → result ≡ need d net e }
        ensures most { result ≤ 2 * most_width }
    {
        self.need_of_width(self.width(net), e)
    }

    /// The width of a net: 0 where the design doesn't have the net.
    pub(crate) fn width(&self, net: u32) -> u32
        ensures width { result ≡ width_in self.now.widths net }
        ensures most { result ≤ most_width }
    {
        self.widths.get(net as usize).copied().unwrap_or(0)
    }

    /// What a net of a width takes of an edge.
    #[inline(always)]
    pub(crate) fn need_of_width(&self, width: u32, e: Edge) -> u64
        requires edge { IsTrue (has_edge self.now.shape e) }
        requires width { width ≤ most_width }
        ensures value { result ≡ need_along e.way width
            (slice_get self.now.layers (place_at self.now.shape e.low).layer) }
        ensures most { result ≤ 2 * most_width }
    {
        if e.way == Way::Up {
            return 0;
        }
        let layer = self.layer_of(e);
        u64::from(width.max(layer.width) + layer.spacing)
    }

    /// What a net of a width takes of the wire edges on the layer of one: what is known, where that is of
    /// this layer. Most edges of a tree lie on the layer of the one before.
    #[inline(always)]
    pub(crate) fn need_on_layer(&self, known: LayerNeed, width: u32, e: Edge) -> LayerNeed
        requires edge { IsTrue (has_edge self.now.shape e) }
        requires wire { IsTrue (is_wire e) }
        requires width { width ≤ most_width }
        requires known { IsLayerNeed self.now width known }
        ensures layer { IsLayerNeed self.now width result }
        ensures value { result.need ≡ need_along e.way width
            (slice_get self.now.layers (place_at self.now.shape e.low).layer) }
    {
        if known.from <= e.low && e.low < known.to {
            return known;
        }
        self.layer_need(width, e)
    }

    /// What a net of a width takes of the wire edges on the layer of one.
    fn layer_need(&self, width: u32, e: Edge) -> LayerNeed
        requires edge { IsTrue (has_edge self.now.shape e) }
        requires wire { IsTrue (is_wire e) }
        requires width { width ≤ most_width }
        ensures layer { IsLayerNeed self.now width result }
        ensures value { result.need ≡ need_along e.way width
            (slice_get self.now.layers (place_at self.now.shape e.low).layer) }
    {
        let layer = u32::from(self.cell_layers[e.low as usize]);
        let cells = cells_a_layer(self.shape);
        LayerNeed {
            from: layer * cells,
            to: layer * cells + cells,
            need: self.need_of_width(width, e),
        }
    }

    /// The layer of an edge's low end.
    fn layer_of(&self, e: Edge) -> Layer
        requires { IsTrue (has_edge self.now.shape e) }
        ensures layer { slice_get self.now.layers (place_at self.now.shape e.low).layer ≡ Some result }
        ensures in_range { IsLayer result }
    {
        self.layers[self.cell_layers[e.low as usize] as usize]
    }

    /// The capacities by the places of wire edges.
    pub(crate) fn table(&self) -> &[u32]
        ensures table { by_number 0 result.now ≡ self.now.capacities }
        ensures tables { IsCapacity self.now }
    {
        &self.capacities
    }
}

/// What a net takes of each wire edge whose low end is a cell from one to below another, by number: the
/// cells of a layer.
#[derive(Clone, Copy, Debug)]
pub(crate) struct LayerNeed {
    from: u32,
    to: u32,
    pub(crate) need: u64,
}

impl LayerNeed {
    ghost use Rattle.grid_demand.specs.Tables.{CapacityView};

    /// What it takes of no edge.
    pub(crate) fn none() -> LayerNeed
        ensures { (c : CapacityView) (width : ℕ) → IsLayerNeed c width result }
    {
        LayerNeed {
            from: 0,
            to: 0,
            need: 0,
        }
    }
}

impl Model for Capacity {
    ghost use Rattle.grid_demand.specs.Tables.{CapacityView};

    ghost Value = { CapacityView };

    ghost use Rattle.grid_demand.specs.CapacityStore.{seen, Keeps};

    ghost view = { seen };

    ghost invariant = { Keeps };
}

/// The capacities from a place to below another.
fn part(capacities: &[u32], from: usize, to: usize) -> &[u32]
    requires range { from ≤ to }
    requires inside { to ≤ length capacities.now }
    ensures { IsPart capacities.now from to result.now }
{
    &capacities[from..to]
}

/// How many cells each layer has. They follow one another by number.
fn cells_a_layer(shape: Shape) -> u32
    ensures { result ≡ shape.columns * shape.rows }
{
    shape.columns() * shape.rows()
}

/// The layer of each cell.
fn layers_by_cell(alloc: Global, shape: Shape) -> Result<Vec<u8>, AllocError>
    ensures { IfOk result (λ layers. layers.items ≡ cell_layers shape) }
{
    let cells = cells_a_layer(shape) as usize;
    let mut layers = Vec::with_capacity(alloc, shape.cells() as usize)?;
    for layer in 0..shape.layers {
        layers.resize(layers.len() + cells, layer as u8)?;
    }
    Ok(layers)
}

/// The width of each net.
fn widths_by_net(alloc: Global, design: &Design) -> Result<Vec<u32>, AllocError>
    ensures { IfOk result (λ widths. widths.items ≡ widths_of design.now) }
{
    let mut widths = Vec::with_capacity(alloc, design.nets() as usize)?;
    for net in 0..design.nets() {
        widths.push(design.net(net).width)?;
    }
    Ok(widths)
}

/// What the layers state for the wire edges, by place.
fn stated_by_place(alloc: Global, frame: &Frame) -> Result<Vec<u32>, AllocError>
    requires { IsFrame frame.now }
    ensures { IfOk result (λ capacities. by_number 0 capacities.items ≡ stated_table frame.now) }
{
    let mut capacities = Vec::with_capacity(alloc, 2 * frame.shape.cells() as usize)?;
    push_plane(&mut capacities, frame, Way::East)?;
    push_plane(&mut capacities, frame, Way::North)?;
    Ok(capacities)
}

/// Puts what the layers state for the wire edges that go a way behind what is there.
fn push_plane(capacities: &mut Vec<u32>, frame: &Frame, way: Way) -> Result<(), AllocError>
    requires { IsFrame frame.now }
    ensures { OnOk result (capacities.new.items
        ≡ capacities.old.items ++ stated_along_way frame.now way (cells_of frame.now.shape)) }
{
    let cells = cells_a_layer(frame.shape) as usize;
    for layer in 0..frame.shape.layers {
        let stated = stated_for(&frame.layers[layer as usize], way);
        capacities.resize(capacities.len() + cells, stated)?;
    }
    Ok(())
}

/// What a layer states for the wire edges that go a way.
fn stated_for(layer: &Layer, way: Way) -> u32
    ensures { result ≡ stated_along way (Some layer.now) }
{
    match way {
        Way::East => layer.horizontal,
        Way::North => layer.vertical,
        Way::Up => 0,
    }
}

/// The capacities of the wire edges, by place.
fn capacities_by_place(alloc: Global, design: &Design) -> Result<Vec<u32>, AllocError>
    ensures { IfOk result (λ capacities. by_number 0 capacities.items ≡ capacity_table design.now) }
{
    let mut capacities = stated_by_place(alloc, design.frame())?;
    for at in 0..design.adjustments() {
        let adjustment = design.adjustment(at);
        let wire = place(adjustment.edge, capacities.len());
        capacities[wire] = adjustment.capacity;
    }
    Ok(capacities)
}
