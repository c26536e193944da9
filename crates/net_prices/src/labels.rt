//! Labels of cells.
ghost use Rattle.std.specs.Prelude.{◌≡◌, ◌<◌, length, slice_index, IfOk, All, replicate};
ghost use Rattle.net_prices.specs.Arcs.{nothing};
ghost use Rattle.net_prices.specs.LabelTables.{AreLabels, IsUnlabelled};

use std::alloc::{AllocError, Global};
use std::marker::Model;

/// What stands for no label, and for no arc.
pub(crate) const NOTHING: u32 = u32::MAX;

/// The label of each cell, and a list of the cells that have one.
///
/// Taking all labels away takes a step for each of them, and none for each cell.
#[derive(Debug, Drop)]
pub(crate) struct Labels {
    table: Vec<u32>,
    cells: Vec<u32>,
}

impl Model for Labels {
    ghost use Rattle.net_prices.specs.LabelTables.{LabelsView};

    ghost Value = { LabelsView };

    ghost use Rattle.net_prices.specs.LabelStore.{seen, Keeps};

    ghost view = { seen };

    ghost invariant = { Keeps };
}

impl Labels {
    /// No label for so many cells. The only error is want of memory.
    pub(crate) fn new(alloc: Global, cells: u32) -> Result<Labels, AllocError>
        ensures { IfOk result (λ l. length l.table ≡ cells) }
    {
        Ok(Labels {
            table: vec![in alloc; NOTHING; cells as usize]?,
            cells: Vec::new(alloc),
        })
    }

    /// The label of each cell.
    pub(crate) fn table(&self) -> &[u32]
        ensures table { result.now ≡ self.now.table }
    {
        &self.table
    }

    /// The label of a cell.
    pub(crate) fn at(&self, cell: u32) -> u32
        requires { cell < length self.now.table }
        ensures { result ≡ slice_index self.now.table cell }
    {
        self.table[cell as usize]
    }

    /// The cells that have labels, in the order in which they came.
    pub(crate) fn cells(&self) -> &[u32]
        ensures cells { result.now ≡ self.now.cells }
        ensures labels { AreLabels self.now }
    {
        &self.cells
    }

    /// Gives a cell a label. The only error is want of memory.
    pub(crate) fn set(&mut self, cell: u32, label: u32) -> Result<(), AllocError>
        requires { cell < length self.old.table }
        ensures { length self.new.table ≡ length self.old.table }
    {
        if self.table[cell as usize] == NOTHING {
            self.cells.push(cell)?;
        }
        self.table[cell as usize] = label;
        Ok(())
    }

    /// Takes all labels away.
    pub(crate) fn clear(&mut self)
        ensures { length self.new.table ≡ length self.old.table }
    {
        unlabel(&mut self.table, &self.cells);
        self.cells.clear();
    }
}

/// Takes the labels of these cells away.
fn unlabel(table: &mut Vec<u32>, cells: &[u32])
    requires { All (λ cell. cell < length table.old.items) cells.now }
    ensures long { length table.new.items ≡ length table.old.items }
    ensures labels { IsUnlabelled table.old.items table.new.items cells.now }
{
    for cell in cells {
        table[*cell as usize] = NOTHING;
    }
}
