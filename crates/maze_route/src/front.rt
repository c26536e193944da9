//! Labels of cells, and the cells that wait to hand theirs on.
ghost use Rattle.std.specs.Prelude.{◌≡◌, ℕ, [], ◌<◌, None, OnOk, length, if◌then◌else◌, slice_set};
ghost use Rattle.maze_route.specs.Labels.{unreached, label_at, is_lower};

use crate::queue::BucketQueue;
use gr_base::refill;
use std::alloc::{AllocError, Global};

/// What stands for no label.
const UNREACHED: u64 = u64::MAX;

/// The least cost that a search has found for each cell of a window, if it has found any.
#[derive(Debug, Drop)]
pub(crate) struct Labels {
    pub(crate) costs: Vec<u64>,
}

impl Labels {
    /// Labels of no cells, which take no memory.
    pub(crate) fn new(alloc: Global) -> Labels {
        Labels {
            costs: Vec::new(alloc),
        }
    }

    /// Makes them the labels of so many cells, of which none is set. The only error is want of
    /// memory.
    fn clear(&mut self, cells: u32) -> Result<(), AllocError>
        ensures size { OnOk result (length self.new.costs.items ≡ cells) }
        ensures none { (n : ℕ) → OnOk result (label_at self.new.costs.items n ≡ None) }
    {
        refill(&mut self.costs, UNREACHED, cells as usize)
    }

    /// The label of a cell.
    pub(crate) fn at(&self, cell: u32) -> Option<u64>
        requires { cell < length self.now.costs.items }
        ensures { result ≡ label_at self.now.costs.items cell }
    {
        let cost = self.costs[cell as usize];
        if cost == UNREACHED { None } else { Some(cost) }
    }

    /// Lowers the label of a cell to a cost, and tells whether it was higher or none.
    pub(crate) fn lower(&mut self, cell: u32, cost: u64) -> bool
        requires cell { cell < length self.old.costs.items }
        requires cost { cost < unreached }
        ensures lower { result ≡ is_lower (label_at self.old.costs.items cell) cost }
        ensures costs { self.new.costs.items ≡
            (if result then slice_set self.old.costs.items cell cost else self.old.costs.items) }
        ensures size { length self.new.costs.items ≡ length self.old.costs.items }
    {
        let lower = cost < self.costs[cell as usize];
        if lower {
            self.costs[cell as usize] = cost;
        }
        lower
    }
}

/// The state of a search: the labels, and the cells that wait to hand theirs on.
#[derive(Debug, Drop)]
pub(crate) struct Frontier {
    pub(crate) labels: Labels,
    pub(crate) queue: BucketQueue,
}

impl Frontier {
    /// Makes it the frontier of a search over so many cells: none has a label, and none waits. The only
    /// error is want of memory.
    pub(crate) fn clear(&mut self, cells: u32) -> Result<(), AllocError>
        ensures size { OnOk result (length self.new.labels.costs.items ≡ cells) }
        ensures none { (n : ℕ) → OnOk result (label_at self.new.labels.costs.items n ≡ None) }
        ensures queue { OnOk result (self.new.queue ≡ record { pairs = []; last = 0 }) }
    {
        self.labels.clear(cells)?;
        self.queue.clear();
        Ok(())
    }
}
