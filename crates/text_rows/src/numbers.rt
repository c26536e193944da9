//! Numbers that are read of texts, and put into one.
use crate::tellings::{put_number_line, whole_in};
use gr_text::{Text, natural_of, whole_of};
use std::alloc::AllocError;

/// The whole number in a range that a text writes.
pub(crate) fn put_whole(rest: &str, told: &mut Text) -> Result<(), AllocError> {
    let (low, rest) = whole_in(rest);
    let (high, text) = whole_in(rest);
    match whole_of(text.as_bytes(), low, high) {
        Some(number) => put_number_line(number, told),
        None => told.put(b"none\n"),
    }
}

/// The number up to 64 that a text writes in at most 20 digits.
pub(crate) fn put_natural(text: &str, told: &mut Text) -> Result<(), AllocError> {
    match natural_of(text.as_bytes(), 20, 64) {
        Some(number) => put_number_line(number, told),
        None => told.put(b"none\n"),
    }
}

/// A word and two numbers, without a blank between these.
pub(crate) fn put_joined(numbers: &str, told: &mut Text) -> Result<(), AllocError> {
    let (first, rest) = whole_in(numbers);
    let (second, _) = whole_in(rest);
    told.put(b"wirelength ")?;
    told.put_number(first)?;
    put_number_line(second, told)
}
