//! The straight cuts of a design: what nets need of them, and what they hold. None of it is relied on.
ghost use Rattle.std.specs.Prelude.{◌≡◌};

use gr_base::{Design, Edge, Frame, Shape, Way};
use grid_demand::Capacity;
use std::alloc::{AllocError, Global};

/// What the nets need that have pins on both sides of a cut, and what its edges hold.
#[derive(Clone, Copy, Debug)]
struct Cut {
    needs: u64,
    holds: u64,
}

/// The cuts behind columns, and behind rows.
#[derive(Debug, Drop)]
pub(crate) struct Cuts {
    columns: Vec<Cut>,
    rows: Vec<Cut>,
}

/// The straight cuts of a design. The only error is want of memory.
pub(crate) fn cuts_of(
    alloc: Global,
    design: &Design,
    capacity: &Capacity,
) -> Result<Cuts, AllocError> {
    let frame = design.frame();
    let none = Cut { needs: 0, holds: 0 };
    let mut cuts = Cuts {
        columns: vec![in alloc; none; frame.shape.columns() as usize]?,
        rows: vec![in alloc; none; frame.shape.rows() as usize]?,
    };
    cuts.add_edges(frame.shape, capacity);
    cuts.add_nets(design);
    Ok(cuts)
}

/// How many wire edges a grid has with its layers as one, by number.
pub(crate) fn flat_wires(shape: Shape) -> u32 {
    shape
        .columns()
        .saturating_mul(shape.rows())
        .saturating_mul(2)
}

/// What a wire edge of that grid holds over all layers, by its number.
pub(crate) fn held_over(shape: Shape, capacity: &Capacity, number: u32) -> u64 {
    let mut held = 0_u64;
    for layer in 0..shape.layers() {
        let place = layer
            .saturating_mul(flat_wires(shape))
            .saturating_add(number);
        held = held.saturating_add(u64::from(held_of(capacity, place)));
    }
    held
}

/// The least that a wire of a width takes of an edge, over the layers.
pub(crate) fn least_need(frame: &Frame, width: u32) -> u32 {
    let mut least = u32::MAX;
    for layer in 0..frame.shape.layers() {
        least = least.min(need_on(frame, width, layer));
    }
    least
}

/// What a wire of a width takes of an edge on a layer.
pub(crate) fn need_on(frame: &Frame, width: u32, layer: u32) -> u32 {
    match frame.layers.get(layer as usize) {
        Some(layer) => width.max(layer.width).saturating_add(layer.spacing),
        None => u32::MAX,
    }
}

impl Cuts {
    /// Whether the cut of a wire edge is overfull, by the number that the edge has with the layers as one.
    pub(crate) fn is_full(&self, shape: Shape, number: u32) -> bool {
        let columns = shape.columns().max(1);
        let tile = number / 2;
        let cut = if number % 2 == 0 {
            self.columns.get((tile % columns) as usize)
        } else {
            self.rows.get((tile / columns) as usize)
        };
        cut.is_some_and(|cut| cut.holds < cut.needs)
    }

    fn add_edges(&mut self, shape: Shape, capacity: &Capacity) {
        let columns = shape.columns().max(1);
        for number in 0..flat_wires(shape) {
            let held = held_over(shape, capacity, number);
            let tile = number / 2;
            if number % 2 == 0 {
                raise(&mut self.columns, tile % columns, held);
            } else {
                raise(&mut self.rows, tile / columns, held);
            }
        }
    }

    fn add_nets(&mut self, design: &Design) {
        let frame = design.frame();
        for net in 0..design.nets() {
            if design.routed(net) {
                let value = design.net(net);
                let need = u64::from(least_need(frame, value.width));
                self.add_net(frame.shape, value.pins.as_slice(), need);
            }
        }
    }

    fn add_net(&mut self, shape: Shape, pins: &[u32], need: u64) {
        let columns = shape.columns().max(1);
        let rows = shape.rows().max(1);
        let mut least = (columns, rows);
        let mut most = (0, 0);
        for pin in pins {
            let place = (*pin % columns, *pin / columns % rows);
            least = (least.0.min(place.0), least.1.min(place.1));
            most = (most.0.max(place.0), most.1.max(place.1));
        }
        need_between(&mut self.columns, least.0, most.0, need);
        need_between(&mut self.rows, least.1, most.1, need);
    }
}

/// Adds to what a cut holds.
fn raise(cuts: &mut Vec<Cut>, at: u32, more: u64) {
    if (at as usize) < cuts.len() {
        let held = cuts[at as usize].holds;
        cuts[at as usize].holds = held.saturating_add(more);
    }
}

/// Adds to what is needed of the cuts from one place up to another.
fn need_between(cuts: &mut Vec<Cut>, from: u32, to: u32, more: u64) {
    for at in from..to {
        if (at as usize) < cuts.len() {
            let needed = cuts[at as usize].needs;
            cuts[at as usize].needs = needed.saturating_add(more);
        }
    }
}

/// What the wire edge with a number holds, or nothing where it isn't one of the grid's.
pub(crate) fn held_of(capacity: &Capacity, number: u32) -> u32 {
    let shape = capacity.shape();
    let low = number / 2;
    let way = if number % 2 == 0 {
        Way::East
    } else {
        Way::North
    };
    if low >= shape.cells() || !shape.has_room(shape.place_of(low), way) {
        return 0;
    }
    capacity.at(Edge { low, way }) as u32
}
