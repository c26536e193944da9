//! Keeps one value for each slot, so that a shelf's open texts stay apart.
ghost use Rattle.std.specs.Prelude.{◌≡◌};
ghost use Rattle.gr_io.specs.Slots.{at_slot, set_slot};

use crate::shelf::Slot;

/// A value for each slot.
#[derive(Drop)]
pub(crate) struct Slots<T> {
    pub(crate) design: T,
    pub(crate) library: T,
    pub(crate) solution: T,
}

impl<T> Slots<T> {
    pub(crate) fn get(&self, slot: Slot) -> &T
        ensures { result.now ≡ at_slot self.now slot }
    {
        match slot {
            Slot::Design => &self.design,
            Slot::Library => &self.library,
            Slot::Solution => &self.solution,
        }
    }

    pub(crate) fn set(&mut self, slot: Slot, value: T)
    where
        T: Drop,
        ensures { self.new ≡ set_slot self.old slot value }
    {
        match slot {
            Slot::Design => self.design = value,
            Slot::Library => self.library = value,
            Slot::Solution => self.solution = value,
        }
    }
}

impl<T: Drop> Slots<Option<T>> {
    pub(crate) fn take(&mut self, slot: Slot) -> Option<T>
        ensures value { result ≡ at_slot self.old slot }
        ensures rest { self.new ≡ set_slot self.old slot None }
    {
        match slot {
            Slot::Design => self.design.take(),
            Slot::Library => self.library.take(),
            Slot::Solution => self.solution.take(),
        }
    }
}
