//! What the trees that join nets take of wire edges.
ghost use Rattle.std.specs.Prelude.{◌≡◌};

use crate::groups::{at, put};
use gr_base::{Frame, Shape, Way};
use std::alloc::{AllocError, Global};

/// What trees take of each wire edge together, by its number. An edge counts once a tree.
#[derive(Debug, Drop)]
pub(crate) struct TreeDemand {
    taken: Vec<u32>,
    /// By wire edge: the number of the last tree that took it.
    last: Vec<u32>,
    tree: u32,
}

impl TreeDemand {
    /// Nothing taken, on so many cells. The only error is want of memory.
    pub(crate) fn new(alloc: Global, cells: u32) -> Result<TreeDemand, AllocError> {
        let wires = (cells as usize).saturating_mul(2);
        Ok(TreeDemand {
            taken: vec![in alloc; 0; wires]?,
            last: vec![in alloc; 0; wires]?,
            tree: 0,
        })
    }

    /// Begins a further tree.
    pub(crate) fn begin_tree(&mut self) {
        self.tree = self.tree.wrapping_add(1);
    }

    /// Adds what a wire of a width takes of the edge between two neighbouring cells.
    pub(crate) fn add(&mut self, frame: &Frame, shape: Shape, width: u32, a: u32, b: u32) {
        let low = a.min(b);
        let gap = a.max(b) - low;
        if gap == shape.stride(Way::Up) {
            return;
        }
        let north = gap != 1 || shape.columns() == 1;
        let number = low.saturating_mul(2).saturating_add(u32::from(north));
        if at(&self.last, number) == self.tree {
            return;
        }
        put(&mut self.last, number, self.tree);
        let need = if shape.layers() == frame.shape.layers() {
            need_on(frame, width, low / shape.stride(Way::Up).max(1))
        } else {
            least_need(frame, width)
        };
        let taken = at(&self.taken, number).saturating_add(need);
        put(&mut self.taken, number, taken);
    }

    /// What was taken of a wire edge, by its number.
    pub(crate) fn taken(&self, number: u32) -> u32 {
        at(&self.taken, number)
    }

    /// Takes all out.
    pub(crate) fn clear(&mut self) {
        for number in 0..self.taken.len() {
            self.taken[number] = 0;
        }
    }
}

/// What a wire of a width takes of an edge on a layer.
fn need_on(frame: &Frame, width: u32, layer: u32) -> u32 {
    match frame.layers.get(layer as usize) {
        Some(layer) => width.max(layer.width).saturating_add(layer.spacing),
        None => 0,
    }
}

/// The least that a wire of a width takes of an edge, over the layers.
fn least_need(frame: &Frame, width: u32) -> u32 {
    let mut least = u32::MAX;
    for layer in 0..frame.shape.layers() {
        least = least.min(need_on(frame, width, layer));
    }
    least
}
