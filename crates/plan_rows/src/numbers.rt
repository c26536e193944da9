//! The numbers of a line.
use std::alloc::{AllocError, Global};

/// The numbers that the words write.
pub(crate) fn numbers(alloc: Global, words: &str) -> Result<Vec<u64>, AllocError> {
    let mut numbers = Vec::new(alloc);
    for word in words.split_whitespace() {
        numbers.push(word.parse().unwrap_or(0))?;
    }
    Ok(numbers)
}

/// The number at a place, or 0.
pub(crate) fn great(numbers: &[u64], place: usize) -> u64 {
    numbers.get(place).copied().unwrap_or(0)
}

/// The number at a place, or 0 where it is beyond a word of 32 bits.
pub(crate) fn at(numbers: &[u64], place: usize) -> u32 {
    u32::try_from(great(numbers, place)).unwrap_or(0)
}

/// The numbers from a place on.
pub(crate) fn from(numbers: &[u64], place: usize) -> &[u64] {
    &numbers[place.min(numbers.len())..]
}
