//! Which groups of a net's pins are paid for, one after another, and the tree that joins them.
ghost use Rattle.std.specs.Prelude.{◌≡◌, length};

use crate::groups::Groups;
use crate::labels::Labels;
use crate::search::{Reached, Search};
use crate::tree_demand::TreeDemand;
use gr_base::{Frame, Shape};
use std::alloc::{AllocError, Global};

/// What is kept beside what is left for arcs. None of it is relied on: what is paid is checked.
#[derive(Drop)]
pub(crate) struct Finder {
    groups: Groups,
    search: Search,
    demand: TreeDemand,
    /// The cells into which arcs may have less left than they cost.
    touched: Vec<u32>,
}

/// A group from which another was reached.
#[derive(Clone, Copy, Debug)]
pub(crate) struct Found {
    pub(crate) group: u32,
    pub(crate) start: u32,
    pub(crate) reached: Reached,
}

impl Finder {
    /// For nets on a grid. The only error is want of memory.
    pub(crate) fn new(alloc: Global, shape: Shape) -> Result<Finder, AllocError> {
        Ok(Finder {
            groups: Groups::new(alloc, shape.cells())?,
            search: Search::new(alloc, shape)?,
            demand: TreeDemand::new(alloc, shape.cells())?,
            touched: Vec::new(alloc),
        })
    }

    /// Begins a net with these pins. The only error is want of memory.
    pub(crate) fn begin(&mut self, pins: &[u32]) -> Result<(), AllocError> {
        self.touched.clear();
        self.demand.begin_tree();
        self.groups.begin(pins)
    }

    /// Searches from the group for which least was paid to another one. The only error is want of memory.
    pub(crate) fn find(
        &mut self,
        left: &[u32],
        labels: &mut Labels,
    ) -> Result<Option<Found>, AllocError>
        ensures { length labels.new.table ≡ length labels.old.table }
    {
        labels.clear();
        let Some((group, start)) = self.groups.next() else {
            return Ok(None);
        };
        let found = self.search.reach(left, labels, &self.groups, group, start)?;
        Ok(found.map(|reached| Found {
            group,
            start,
            reached,
        }))
    }

    /// Joins a group to the one that was reached from it, for this distance. The only error is want of
    /// memory.
    pub(crate) fn join(
        &mut self,
        labels: &Labels,
        frame: &Frame,
        small: Shape,
        width: u32,
        found: Found,
    ) -> Result<(), AllocError> {
        self.touched.extend_from_slice(labels.cells())?;
        let mut cell = found.reached.cell;
        for _ in 0..small.cells() {
            if cell == found.start {
                break;
            }
            let next = self.search.next(cell);
            self.demand.add(frame, small, width, cell, next);
            self.groups.add_cell(found.group, next)?;
            cell = next;
        }
        self.groups
            .join(found.group, found.reached.group, found.reached.distance);
        Ok(())
    }

    /// The cells into which arcs may have less left than they cost.
    pub(crate) fn touched(&self) -> &[u32] {
        &self.touched
    }

    /// What the trees of the nets since the last clearing take of a wire edge, by its number.
    pub(crate) fn taken(&self, number: u32) -> u32 {
        self.demand.taken(number)
    }

    /// Forgets what trees take.
    pub(crate) fn clear(&mut self) {
        self.demand.clear();
    }
}
