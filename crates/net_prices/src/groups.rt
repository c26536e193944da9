//! The pins of a net in groups, which are joined one after another until all are the driver's.
ghost use Rattle.std.specs.Prelude.{◌≡◌, length};

use std::alloc::{AllocError, Global};

/// What stands for no pin.
const NO_PIN: u32 = u32::MAX;

/// The most groups that are looked at: more than a routed net has pins.
const MOST_GROUPS: usize = 65_536;

/// The pins of a net in groups, and the cells that lie on the ways by which they were joined. A group
/// bears the number of one of its pins, from which all others of it are reached at no price that is left;
/// the driver's is 0.
#[derive(Debug, Drop)]
pub(crate) struct Groups {
    /// By cell: the number of a pin whose group the cell is in, plus 1, or 0.
    marks: Vec<u32>,
    marked: Vec<u32>,
    pins: Vec<u32>,
    groups: Vec<u32>,
    /// By pin: how much was paid for the group of its number.
    paid: Vec<u32>,
}

/// The number at a place, or 0.
pub(crate) fn at(numbers: &[u32], place: u32) -> u32 {
    numbers.get(place as usize).copied().unwrap_or(0)
}

/// Puts a number at a place, if there is one.
pub(crate) fn put(numbers: &mut Vec<u32>, place: u32, number: u32)
    ensures { length numbers.new.items ≡ length numbers.old.items }
{
    if (place as usize) < numbers.len() {
        numbers[place as usize] = number;
    }
}

impl Groups {
    /// No groups, on so many cells. The only error is want of memory.
    pub(crate) fn new(alloc: Global, cells: u32) -> Result<Groups, AllocError> {
        Ok(Groups {
            marks: vec![in alloc; 0; cells as usize]?,
            marked: Vec::new(alloc),
            pins: Vec::new(alloc),
            groups: Vec::new(alloc),
            paid: Vec::new(alloc),
        })
    }

    /// Puts each of these cells in a group of its own. The only error is want of memory.
    pub(crate) fn begin(&mut self, cells: &[u32]) -> Result<(), AllocError> {
        self.unmark();
        self.pins.clear();
        self.groups.clear();
        self.paid.clear();
        for cell in cells {
            self.add_pin(*cell)?;
        }
        Ok(())
    }

    fn add_pin(&mut self, cell: u32) -> Result<(), AllocError> {
        if at(&self.marks, cell) != 0 {
            return Ok(());
        }
        let number = self.pins.len().min(MOST_GROUPS) as u32;
        self.pins.push(cell)?;
        self.groups.push(number)?;
        self.paid.push(0)?;
        self.mark(cell, number)
    }

    fn mark(&mut self, cell: u32, number: u32) -> Result<(), AllocError> {
        if at(&self.marks, cell) == 0 {
            self.marked.push(cell)?;
            put(&mut self.marks, cell, number.saturating_add(1));
        }
        Ok(())
    }

    fn count(&self) -> u32 {
        self.groups.len().min(MOST_GROUPS) as u32
    }

    fn unmark(&mut self) {
        for cell in self.marked.iter() {
            put(&mut self.marks, *cell, 0);
        }
        self.marked.clear();
    }

    /// The group for which least was paid, but for the driver's, and the cell of its pin.
    pub(crate) fn next(&self) -> Option<(u32, u32)> {
        let mut least = NO_PIN;
        for number in 1..self.count() {
            let own = at(&self.groups, number) == number;
            if own && (least == NO_PIN || at(&self.paid, number) < at(&self.paid, least)) {
                least = number;
            }
        }
        let cell = self.pins.get(least as usize)?;
        Some((least, *cell))
    }

    /// The group of a cell, if that is another than this one.
    pub(crate) fn other(&self, group: u32, cell: u32) -> Option<u32> {
        let mark = at(&self.marks, cell);
        if mark == 0 {
            return None;
        }
        let other = at(&self.groups, mark - 1);
        if other == group { None } else { Some(other) }
    }

    /// Joins a group to another one, for which as much was paid as for both.
    pub(crate) fn join(&mut self, group: u32, other: u32, paid: u32) {
        let total = at(&self.paid, group).saturating_add(paid);
        let most = total.max(at(&self.paid, other));
        put(&mut self.paid, other, most);
        for number in 0..self.count() {
            if at(&self.groups, number) == group {
                put(&mut self.groups, number, other);
            }
        }
    }

    /// Puts a cell into a group, if it is in none. The only error is want of memory.
    pub(crate) fn add_cell(&mut self, group: u32, cell: u32) -> Result<(), AllocError> {
        self.mark(cell, group)
    }
}
