//! Parts of what is told, and numbers in the words of a line.
ghost use Rattle.std.specs.Prelude.{◌<◌};

use gr_text::Text;
use itoa::Integer;
use std::alloc::{AllocError, Global};
use std::fmt::Display;

/// Puts a line at the end of the text.
pub(crate) fn put_line(line: &[u8], told: &mut Text) -> Result<(), AllocError> {
    told.put(line)?;
    told.put(b"\n")
}

/// Puts a line with a number at the end of the text.
pub(crate) fn put_number_line<I: Integer>(number: I, told: &mut Text) -> Result<(), AllocError> {
    told.put_number(number)?;
    told.put(b"\n")
}

/// Puts a line with an error at the end of the text.
pub(crate) fn put_error<E: Display>(
    alloc: Global,
    error: &E,
    told: &mut Text,
) -> Result<(), AllocError> {
    let text = format!(in alloc; "{error}")?;
    put_line(text.as_bytes(), told)
}

/// Puts whether all was done at the end of the text's last line.
pub(crate) fn put_end(whole: bool, told: &mut Text) -> Result<(), AllocError> {
    if whole {
        told.put(b"end\n")
    } else {
        told.put(b"a device failed\n")
    }
}

/// The number that a line begins with, or 0, and what follows it.
pub(crate) fn number_in(line: &str) -> (u64, &str) {
    let (number, rest) = line.split_once(' ').unwrap_or((line, ""));
    (number.parse::<u64>().unwrap_or(0), rest)
}

/// The size from 1 on that a line begins with, or 1, and what follows it.
pub(crate) fn size_in(line: &str) -> (u32, &str)
    ensures { 0 < result.0 }
{
    let (size, rest) = number_in(line);
    (u32::try_from(size).unwrap_or(1).max(1), rest)
}

/// The whole number that a line begins with, or 0, and what follows it.
pub(crate) fn whole_in(line: &str) -> (i64, &str) {
    let (number, rest) = line.split_once(' ').unwrap_or((line, ""));
    (number.parse::<i64>().unwrap_or(0), rest)
}
