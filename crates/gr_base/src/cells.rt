//! Lists of cells.
ghost use Rattle.std.specs.Prelude.{◌≡◌, ℕ, List, [], ◌∷◌, ◌++◌, OnOk, OnErr};

use std::alloc::{AllocError, Global};
use std::marker::Model;

/// Cells of a grid by number, in an order.
#[derive(Debug, Drop)]
pub struct Cells {
    numbers: Vec<u32>,
}

impl Model for Cells {
    ghost Value = { List ℕ };

    ghost view = { λ c. c.numbers.items };
}

impl Cells {
    /// An empty list, which takes no memory.
    pub fn new(alloc: Global) -> Self
        ensures { result ≡ [] }
    {
        Cells {
            numbers: Vec::new(alloc),
        }
    }

    /// Adds a cell at the end. The only error is want of memory.
    pub fn push(&mut self, cell: u32) -> Result<(), AllocError>
        ensures ok { OnOk result (self.new ≡ self.old ++ cell ∷ []) }
        ensures err { OnErr result (self.new ≡ self.old) }
    {
        self.numbers.push(cell)?;
        Ok(())
    }

    /// The cells, in order.
    pub fn as_slice(&self) -> &[u32]
        ensures { result.now ≡ self.now }
    {
        &self.numbers
    }
}
