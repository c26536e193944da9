//! The booked nets on edges over their capacity.
ghost use Rattle.std.specs.Prelude.{◌≡◌, IfOk};
ghost use Rattle.book_state.specs.Books.{IsLegal, victims as victims_of, is_victim as victim_net};
ghost use Rattle.book_state.specs.Replicas.{StandsFor};
ghost use Rattle.grid_demand.specs.Overfull.{AreOverfull};

use crate::edges::is_crowded;
use crate::history::History;
use crate::places::tree_by_place;
use crate::replica::Replica;
use gr_base::Cells;
use grid_demand::{Capacity, Overfull};
use std::alloc::AllocError;

impl Replica {
    /// The booked nets whose tree has a wire edge with more demand than capacity, in the order of
    /// the design, after a history for which the replica stands. The only error is want of memory.
    pub(crate) fn victims(
        &self,
        capacity: &Capacity,
        history: &History,
    ) -> Result<Cells, AllocError>
        requires legal { IsLegal capacity.now history.now }
        requires stands { StandsFor capacity.now history.now self.now }
        ensures { IfOk result (λ nets. nets ≡ victims_of capacity.now history.now) }
    {
        let alloc = history.alloc();
        let over = self.loads().overfull(alloc, capacity)?;
        let mut nets = Cells::new(alloc);
        for net in 0..self.nets() {
            if self.is_victim(capacity, history, &over, net as usize) {
                nets.push(net)?;
            }
        }
        Ok(nets)
    }

    /// Whether a net is booked with a tree that has an edge for which the table says that it has more
    /// demand than capacity.
    pub(crate) fn is_victim(
        &self,
        capacity: &Capacity,
        history: &History,
        over: &Overfull,
        net: usize,
    ) -> bool
        requires legal { IsLegal capacity.now history.now }
        requires stands { StandsFor capacity.now history.now self.now }
        requires over { AreOverfull capacity.now self.now.loads over.now }
        ensures { result ≡ victim_net capacity.now history.now net }
    {
        match tree_by_place(history, self.places(), net) {
            Some(tree) => is_crowded(over, tree),
            None => false,
        }
    }
}
