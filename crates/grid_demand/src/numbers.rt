//! A number for each wire edge.
ghost use Rattle.std.specs.Prelude.{◌≡◌, ℕ, ◌^◌, ◌<◌, ◌≤◌, false, length, replicate, slice_index, slice_set, IfOk, IfSome};
ghost use Rattle.grid_demand.specs.Runs.{IsPart};
ghost use Rattle.std.specs.Vec.{vec_capacity};

use std::alloc::{AllocError, Global};
use std::marker::Model;

/// A number for each wire edge, by place: two bytes an edge, and beside it in four how many times 65,536
/// it is. That second list is empty until a number is so great, which for demands takes thousands of nets
/// of usual width. Its memory is taken before, so that `put` needs none, and isn't touched until then.
#[derive(Debug, Drop)]
pub(crate) struct Numbers {
    low: Vec<u16>,
    high: Vec<u32>,
}

impl Model for Numbers {
    ghost use Rattle.std.specs.Prelude.{ℕ, List};

    ghost Value = { List ℕ };

    ghost use Rattle.grid_demand.specs.NumbersStore.{seen, Keeps};

    ghost view = { seen };

    ghost invariant = { Keeps };
}

impl Numbers {
    /// 0 for each of so many wire edges. The only error is want of memory.
    pub(crate) fn none(alloc: Global, wires: usize) -> Result<Numbers, AllocError>
        ensures { IfOk result (λ numbers. numbers ≡ replicate wires 0) }
    {
        Ok(Numbers {
            low: vec![in alloc; 0; wires]?,
            high: Vec::with_capacity(alloc, wires)?,
        })
    }

    /// How many wire edges there are.
    #[inline(always)]
    pub(crate) fn len(&self) -> usize
        ensures { result ≡ length self.now }
    {
        self.low.len()
    }

    /// The number of the wire edge at a place.
    #[inline(always)]
    pub(crate) fn at(&self, place: usize) -> u64
        requires { place < length self.now }
        ensures value { result ≡ slice_index self.now place }
        ensures small { result < 2 ^ 48 }
    {
        let high = self.high.get(place).copied().unwrap_or(0);
        let low = u64::from(self.low[place]);
        low + 65536 * u64::from(high)
    }

    /// The numbers from a place to below another. None where some number may have a part in the second
    /// list.
    #[inline(always)]
    pub(crate) fn run(&self, from: usize, to: usize) -> Option<&[u16]>
        requires range { from ≤ to }
        requires inside { to ≤ length self.now }
        ensures { IfSome result (λ run. IsPart self.now from to run.now) }
    {
        if !self.high.is_empty() {
            return None;
        }
        Some(part(&self.low, from, to))
    }

    /// Whether a number may be above its bound, of the numbers from a place to below another. It goes by
    /// the first list alone, so only that there is none is said for certain.
    pub(crate) fn may_exceed(&self, bounds: &[u32], from: usize, to: usize) -> bool
        requires numbers { to ≤ length self.now }
        requires bounds { to ≤ length bounds.now }
        ensures { result ≡ false → (n : ℕ) → from ≤ n → n < to → slice_index self.now n ≤ slice_index bounds.now n }
    {
        !self.high.is_empty() || any_above(&self.low, bounds, from, to)
    }

    /// Puts another number for the wire edge at a place.
    #[inline(always)]
    pub(crate) fn put(&mut self, place: usize, number: u64)
        requires place { place < length self.old }
        requires small { number < 2 ^ 48 }
        ensures { self.new ≡ slice_set self.old place number }
    {
        self.low[place] = (number % 65536) as u16;
        if number >= 65536 || !self.high.is_empty() {
            let times = (number / 65536) as u32;
            put_high(&mut self.high, self.low.len(), place, times);
        }
    }
}

/// The numbers from a place to below another.
fn part(numbers: &[u16], from: usize, to: usize) -> &[u16]
    requires range { from ≤ to }
    requires inside { to ≤ length numbers.now }
    ensures { IsPart numbers.now from to result.now }
{
    &numbers[from..to]
}

/// Whether a number is above its bound, of the numbers from a place to below another. It goes through
/// all of them and branches nowhere, so that several are compared at a time.
fn any_above(numbers: &[u16], bounds: &[u32], from: usize, to: usize) -> bool
    requires numbers { to ≤ length numbers.now }
    requires bounds { to ≤ length bounds.now }
    ensures { result ≡ false → (n : ℕ) → from ≤ n → n < to → slice_index numbers.now n ≤ slice_index bounds.now n }
{
    let mut above = false;
    for at in from..to {
        above |= u32::from(numbers[at]) > bounds[at];
    }
    above
}

/// Puts a number into a list that is filled up with zeros to a length that it has room for.
fn put_high(high: &mut Vec<u32>, wires: usize, place: usize, times: u32)
    requires room { wires ≤ vec_capacity high.old }
    requires few { length high.old.items ≤ wires }
    requires place { place < wires }
    ensures room { wires ≤ vec_capacity high.new }
    ensures few { length high.new.items ≤ wires }
    ensures there { slice_index high.new.items place ≡ times }
    ensures others { (n : ℕ) → (n ≡ place → ⊥) → slice_index high.new.items n ≡ slice_index high.old.items n }
{
    let Ok(()) = high.resize(wires, 0) else {
        unreachable!()
    };
    high[place] = times;
}
