//! Tables whose values are all alike until one is set.
ghost use Rattle.std.specs.Prelude.{◌≡◌, ◌<◌, length, replicate, slice_get, slice_set, Some, IfOk, OnOk, OnErr};

use std::alloc::{AllocError, Global};
use std::marker::Model;

/// A value for each of so many places, one and the same until one of them is set. Memory is taken
/// when the first is set.
#[derive(Debug, Drop)]
pub(crate) struct LazyTable<T: Copy> {
    values: Option<Vec<T>>,
    count: u32,
    fill: T,
}

impl<T: Copy> Model for LazyTable<T> {
    ghost use Rattle.std.specs.Prelude.{List, length, ◌≡◌, option_map, IfSome};
    ghost use Rattle.rc_library.specs.LazyTables.{filled};

    ghost Value = { List T };

    ghost view = { λ t. filled t.count t.fill (option_map (λ values. values.items) t.values) };

    ghost invariant = { λ t. IfSome t.values (λ values. length values.items ≡ t.count) };
}

impl<T: Copy> LazyTable<T> {
    /// The same value at so many places.
    pub(crate) fn new(count: u32, fill: T) -> Self
        ensures { result ≡ replicate count fill }
    {
        LazyTable {
            values: None,
            count,
            fill,
        }
    }

    pub(crate) fn at(&self, place: u32) -> T
        requires { place < length self.now }
        ensures { slice_get self.now place ≡ Some result }
    {
        match &self.values {
            Some(values) => values[place as usize],
            None => self.fill,
        }
    }

    /// Sets the value at a place. The only error is want of memory.
    pub(crate) fn set(&mut self, alloc: Global, place: u32, value: T) -> Result<(), AllocError>
        requires { place < length self.old }
        ensures ok { OnOk result (self.new ≡ slice_set self.old place value) }
        ensures err { OnErr result (self.new ≡ self.old) }
    {
        if self.values.is_none() {
            self.values = Some(alike(alloc, self.count, self.fill)?);
        }
        if let Some(values) = &mut self.values {
            values[place as usize] = value;
        }
        Ok(())
    }
}

/// The same value so many times.
pub(crate) fn alike<T: Copy>(alloc: Global, count: u32, value: T) -> Result<Vec<T>, AllocError>
    ensures { IfOk result (λ values. values.items ≡ replicate count value) }
{
    let mut values = Vec::with_capacity(alloc, count as usize)?;
    for _ in 0..count {
        values.push(value)?;
    }
    Ok(values)
}
