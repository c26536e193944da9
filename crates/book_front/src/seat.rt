//! The counting word and its seats.
ghost use Rattle.std.specs.Prelude.{◌≡◌, []};

use crate::plays::Counted;
use crate::view::View;
use atomic_table::{Seat, Table};
use std::alloc::Global;

/// The word that counts the entries of one history.
#[derive(Drop)]
pub struct Front {
    pub(crate) table: Table<(), View, (), Counted, Global>,
    ghost one_word: { table.shared.table_id.words ≡ 1 },
}

/// A seat at a front: the keeper's, or that of a pass. It has no bytes. A seat that is dropped takes
/// what it knows with it.
#[derive(Drop)]
pub struct PassSeat {
    pub(crate) seat: Seat<(), View>,
    ghost no_slot: { seat.me.1 ≡ [] },
}
