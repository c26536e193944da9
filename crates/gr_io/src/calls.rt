//! Counts the calls of a device over memory and makes listed ones fail, so that errors can be tried at will.
ghost use Rattle.std.specs.Prelude.{◌≡◌, ◌≤◌, is_err, OnErr, OnOk};
ghost use Rattle.gr_io.specs.Calls.{no_calls, next_fails, with_fault, after_call};
ghost use Rattle.gr_io.specs.Counts.{Rose};

use crate::shelf::Failed;
use std::marker::Model;

/// The calls of a device over memory: some are to fail, by their numbers, which start at 1.
#[derive(Drop)]
pub(crate) struct Calls {
    fails: Vec<u64>,
    made: u64,
    faults: u64,
}

impl Model for Calls {
    ghost use Rattle.gr_io.specs.Calls.{CallLog};

    ghost Value = { CallLog };

    ghost view = { λ c. record { fails = c.fails.items; calls = c.made; faults = c.faults } };
}

impl Calls {
    pub(crate) fn new(fails: Vec<u64>) -> Self
        ensures { result ≡ no_calls fails.items }
    {
        Calls {
            fails,
            made: 0,
            faults: 0,
        }
    }

    /// Counts a call, and fails where it is to fail.
    pub(crate) fn begin(&mut self) -> Result<(), Failed>
        ensures failed { is_err result ≡ next_fails self.old }
        ensures log { self.new ≡ after_call self.old }
        ensures rose { OnErr result (Rose self.old.faults self.new.faults) }
        ensures quiet { OnOk result (self.new.faults ≡ self.old.faults) }
        ensures kept { self.old.faults ≤ self.new.faults }
    {
        self.made = self.made.saturating_add(1);
        if self.fails.contains(&self.made) {
            return Err(self.fail());
        }
        Ok(())
    }

    /// Counts a fault.
    pub(crate) fn fail(&mut self) -> Failed
        ensures log { self.new ≡ with_fault self.old }
        ensures rose { Rose self.old.faults self.new.faults }
        ensures kept { self.old.faults ≤ self.new.faults }
    {
        self.faults = self.faults.saturating_add(1);
        Failed
    }
}
