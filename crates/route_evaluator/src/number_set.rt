//! Sets of edges or cells by number, emptied in the time of what is in them, whatever the size of the grid.
ghost use Rattle.std.specs.Prelude.{◌≡◌, ◌==◌, ℕ, ◌<◌, ◌≤◌, false, length, count_by, slice_index_or, All, IfOk, OnOk, if◌then◌else◌};
ghost use Rattle.std.specs.List.{list_all};
ghost use Rattle.route_evaluator.specs.NumberSets.{has_number, empty_set, set_with};

use std::alloc::{AllocError, Global};
use std::marker::Model;

/// A set of numbers below a bound, with a list of its numbers in the order in which they came.
///
/// Emptying it takes a step for each of its numbers, and none for each number below the bound.
#[derive(Debug, Drop)]
pub(crate) struct NumberSet {
    bound: u32,
    numbers: Vec<u32>,
    marks: Vec<bool>,
}

impl Model for NumberSet {
    ghost use Rattle.route_evaluator.specs.NumberSets.{NumberSetView};

    ghost Value = { NumberSetView };

    ghost use Rattle.route_evaluator.specs.NumberSetStore.{seen, Keeps};

    ghost view = { seen };

    ghost invariant = { Keeps };
}

impl NumberSet {
    /// An empty set for numbers below the bound. The only error is want of memory.
    pub(crate) fn new(alloc: Global, bound: u32) -> Result<NumberSet, AllocError>
        ensures { IfOk result (λ s. s ≡ empty_set bound) }
    {
        Ok(NumberSet {
            bound,
            numbers: Vec::new(alloc),
            marks: vec![in alloc; false; bound as usize]?,
        })
    }

    /// The numbers in the set, in the order in which they came.
    pub(crate) fn numbers(&self) -> &[u32]
        ensures numbers { result.now ≡ self.now.numbers }
        ensures below { All (λ n. n < self.now.bound) result.now }
        ensures once { (n : ℕ) → count_by (λ other. n == other) result.now ≤ 1 }
        ensures few { length result.now ≤ self.now.bound }
    {
        &self.numbers
    }

    /// Whether the set has a number.
    pub(crate) fn has(&self, number: u32) -> bool
        requires { number < self.now.bound }
        ensures { result ≡ has_number self.now.numbers number }
    {
        self.marks[number as usize]
    }

    /// Whether the set has all these numbers.
    pub(crate) fn has_all(&self, numbers: &[u32]) -> bool
        requires { All (λ n. n < self.now.bound) numbers.now }
        ensures { result ≡ list_all (has_number self.now.numbers) numbers.now }
    {
        for number in numbers {
            if !self.has(*number) {
                return false;
            }
        }
        true
    }

    /// Puts a number in, behind the others, if it isn't one of them. The only error is want of
    /// memory.
    pub(crate) fn insert(&mut self, number: u32) -> Result<(), AllocError>
        requires { number < self.old.bound }
        ensures { OnOk result (self.new ≡ set_with self.old number) }
    {
        if !self.has(number) {
            self.numbers.push(number)?;
            self.marks[number as usize] = true;
        }
        Ok(())
    }

    /// Takes all numbers out.
    pub(crate) fn clear(&mut self)
        ensures { self.new ≡ empty_set self.old.bound }
    {
        unmark(&mut self.marks, &self.numbers);
        self.numbers.clear();
    }
}

/// Takes the marks of these numbers away.
fn unmark(marks: &mut Vec<bool>, numbers: &[u32])
    requires below { All (λ n. n < length marks.old.items) numbers.now }
    ensures long { length marks.new.items ≡ length marks.old.items }
    ensures marks { (n : ℕ) → slice_index_or marks.new.items n false
        ≡ (if has_number numbers.now n then false else slice_index_or marks.old.items n false) }
{
    for number in numbers {
        marks[*number as usize] = false;
    }
}
