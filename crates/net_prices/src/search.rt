//! The search from a pin against the direction of arcs, by what is left for them.
ghost use Rattle.std.specs.Prelude.{◌≡◌, ◌*◌, ◌<◌, length};
ghost use Rattle.gr_base.specs.Grid.{cells_of};

use crate::arcs::way_number;
use crate::groups::{Groups, at, put};
use crate::labels::{Labels, NOTHING};
use crate::waiting::Waiting;
use gr_base::{Shape, Way};
use std::alloc::{AllocError, Global};

/// What a search finds: the first cell of another group, that group, and how far it is.
#[derive(Clone, Copy, Debug)]
pub(crate) struct Reached {
    pub(crate) cell: u32,
    pub(crate) group: u32,
    pub(crate) distance: u32,
}

/// What stands for none.
const NOT_REACHED: Reached = Reached {
    cell: 0,
    group: 0,
    distance: NOTHING,
};

/// Searches on one grid, one after another.
#[derive(Drop)]
pub(crate) struct Search {
    shape: Shape,
    waiting: Waiting,
    /// By cell: the next one on the way to where the search began.
    next: Vec<u32>,
}

impl Search {
    /// Searches on a grid. The only error is want of memory.
    pub(crate) fn new(alloc: Global, shape: Shape) -> Result<Search, AllocError> {
        Ok(Search {
            shape,
            waiting: Waiting::new(alloc)?,
            next: vec![in alloc; 0; shape.cells() as usize]?,
        })
    }

    /// The next cell on the way from a cell to where the search began.
    pub(crate) fn next(&self, cell: u32) -> u32 {
        at(&self.next, cell)
    }

    /// Labels cells with how far it is from them to a cell of a group, until it is known which one of another
    /// group is nearest. None where there is no way. The only error is want of memory.
    pub(crate) fn reach(
        &mut self,
        left: &[u32],
        labels: &mut Labels,
        groups: &Groups,
        group: u32,
        start: u32,
    ) -> Result<Option<Reached>, AllocError>
        ensures { length labels.new.table ≡ length labels.old.table }
    {
        self.waiting.clear();
        self.offer(labels, start, start, 0)?;
        let mut found = NOT_REACHED;
        for _ in 0..u64::MAX {
            if let Some((distance, cell)) = self.waiting.take() {
                found = self.settle(left, labels, groups, group, found, distance, cell)?;
            } else if found.distance != NOTHING || !self.waiting.advance()? {
                break;
            }
        }
        Ok(if found.distance == NOTHING {
            None
        } else {
            Some(found)
        })
    }

    /// Goes on from a cell at a distance, unless it is one of another group. Gives the nearest one of another
    /// group so far. The only error is want of memory.
    fn settle(
        &mut self,
        left: &[u32],
        labels: &mut Labels,
        groups: &Groups,
        group: u32,
        found: Reached,
        distance: u32,
        cell: u32,
    ) -> Result<Reached, AllocError>
        ensures { length labels.new.table ≡ length labels.old.table }
    {
        if found.distance <= distance || at(labels.table(), cell) != distance {
            return Ok(found);
        }
        if let Some(group) = groups.other(group, cell) {
            return Ok(Reached {
                cell,
                group,
                distance,
            });
        }
        self.spread(left, labels, cell, distance)?;
        Ok(found)
    }

    /// Labels the cells from which arcs lead into a cell.
    fn spread(
        &mut self,
        left: &[u32],
        labels: &mut Labels,
        cell: u32,
        distance: u32,
    ) -> Result<(), AllocError>
        ensures { length labels.new.table ≡ length labels.old.table }
    {
        self.spread_along(left, labels, cell, distance, Way::East)?;
        self.spread_along(left, labels, cell, distance, Way::North)?;
        self.spread_along(left, labels, cell, distance, Way::Up)
    }

    fn spread_along(
        &mut self,
        left: &[u32],
        labels: &mut Labels,
        cell: u32,
        distance: u32,
        way: Way,
    ) -> Result<(), AllocError>
        ensures { length labels.new.table ≡ length labels.old.table }
    {
        let stride = self.shape.stride(way);
        let arc = cell.saturating_mul(6).saturating_add(2 * way_number(way));
        let up = arc_left(left, arc);
        if up != NOTHING && stride <= cell {
            self.offer(labels, cell - stride, cell, distance.saturating_add(up))?;
        }
        let down = arc_left(left, arc.saturating_add(1));
        if down != NOTHING {
            self.offer(
                labels,
                cell.saturating_add(stride),
                cell,
                distance.saturating_add(down),
            )?;
        }
        Ok(())
    }

    /// Labels a cell, if that lowers its label.
    fn offer(
        &mut self,
        labels: &mut Labels,
        cell: u32,
        next: u32,
        distance: u32,
    ) -> Result<(), AllocError>
        ensures { length labels.new.table ≡ length labels.old.table }
    {
        if (cell as usize) < labels.table().len() && distance < labels.table()[cell as usize] {
            labels.set(cell, distance)?;
            put(&mut self.next, cell, next);
            self.waiting.push(distance, cell)?;
        }
        Ok(())
    }
}

/// What is left for an arc.
fn arc_left(left: &[u32], arc: u32) -> u32 {
    left.get(arc as usize).copied().unwrap_or(NOTHING)
}
