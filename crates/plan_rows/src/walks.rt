//! Flat walks.
use crate::numbers::at;
use crate::priced::Priced;
use gr_base::Shape;
use pattern_route::pattern;
use std::alloc::{AllocError, Global};
use std::io;

/// Prints a flat walk.
pub(crate) fn tell<R: Print>(rt: &R, alloc: Global, numbers: &[u64]) -> io::Result<()> {
    let Some(shape) = Shape::new(at(numbers, 0), at(numbers, 1), 1) else {
        return Ok(());
    };
    let costs = Priced::but_one(shape, 0, numbers, 2);
    let (a, b) = (at(numbers, 5), at(numbers, 6));
    if a >= shape.cells() || b >= shape.cells() {
        return Ok(());
    }
    let mut walk = Vec::new(alloc);
    pattern(&costs, shape, a, b, &mut walk)?;
    println!(rt; "{:?}", walk.as_slice())
}

/// The sum of the lengths of so many walks from corner to corner of a square.
pub(crate) fn sum(alloc: Global, side: u32, count: u32) -> Result<u64, AllocError> {
    let Some(shape) = Shape::new(side, side, 1) else {
        return Ok(0);
    };
    let costs = Priced::steep(shape);
    let mut walk = Vec::new(alloc);
    let mut sum: u64 = 0;
    for _ in 0..count {
        pattern(&costs, shape, 0, shape.cells() - 1, &mut walk)?;
        sum = sum.wrapping_add(walk.len() as u64);
    }
    Ok(sum)
}
