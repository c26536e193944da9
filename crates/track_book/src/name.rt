//! Names of books.
use std::marker::Brand;

/// Which book it is: the word that counts its history, the capacity of its design, and how many
/// passes it has. A caller picks the name by a call, with `Brand`, of a function of its own over
/// `N: BookName`, and makes the book in that function.
pub trait BookName {
    ghost use Rattle.std.specs.Prelude.{ℕ};
    ghost use Rattle.atomic_table.specs.Seated.{TableId};
    ghost use Rattle.grid_demand.specs.Tables.{CapacityView};

    ghost word: { TableId };

    ghost capacity: { CapacityView };

    ghost passes: { ℕ };
}

impl BookName for Brand {
    ghost use Rattle.track_book.specs.Names.{no_word, no_capacity};

    ghost word = { no_word };

    ghost capacity = { no_capacity };

    ghost passes = { 0 };
}
