//! The values that options have.
ghost use Rattle.std.specs.Prelude.{◌≡◌, map, IfSome};
ghost use Rattle.std.specs.List.{position};
ghost use Rattle.std.specs.Option.{option_map};
ghost use Rattle.std.specs.Str.{bytes_eq};
ghost use Rattle.word_reader.specs.Forms.{option_row, Number, Word};
ghost use Rattle.word_reader.specs.Kept.{option_seen, takes_seen, texts_seen, value_seen, values_seen, words_seen};
ghost use Rattle.word_reader.specs.Values.{choice_in, count_in, number_of, value_by, value_in, value_of, Count, IsTaken};

use crate::form::{OptionKind, OptionRow, ValueForm};
use crate::numbers::number_in;
use crate::sorted::Sorted;

/// The value of an option.
#[derive(Clone, Copy)]
pub(crate) enum Value<'w> {
    /// The option isn't given, and has no default.
    Absent,
    /// The word at this place of those that the option takes.
    Choice(usize),
    Count(u64),
    /// A name.
    Named(&'w str),
    /// The option is given, and takes no value.
    Present,
}

/// The number that an option has as its value.
pub(crate) fn number_of(option: OptionKind, sorted: &Sorted) -> Option<u64>
    ensures number { result ≡ number_of option (words_seen sorted.now) }
    ensures range { IfSome result (λ number. IsTaken (option_row option).takes (Count number)) }
{
    match value_of(option, sorted)? {
        Value::Count(number) => Some(number),
        Value::Absent | Value::Choice(_) | Value::Named(_) | Value::Present => None,
    }
}

/// The value of an option, if it is one that the option takes: what stands with it, else its
/// default.
pub(crate) fn value_of<'w>(option: OptionKind, sorted: &Sorted<'w>) -> Option<Value<'w>>
    ensures value { option_map value_seen result ≡ value_of option (words_seen sorted.now) }
    ensures range { IfSome result (λ value. IsTaken (option_row option).takes (value_seen value)) }
{
    value_by(option.row(), sorted.given(option))
}

fn value_by(row: OptionRow, given: Option<&str>) -> Option<Value<'_>>
    ensures value { option_map value_seen result ≡ value_by (option_seen row) (values_seen given.entry) }
    ensures range { IfSome result (λ value. IsTaken (option_seen row).takes (value_seen value)) }
{
    match given.or(row.default) {
        Some(word) => value_in(row.takes, word),
        None => Some(Value::Absent),
    }
}

/// The value that a word is, if it is one that is taken.
fn value_in(takes: ValueForm, word: &str) -> Option<Value<'_>>
    ensures value { option_map value_seen result ≡ value_in (takes_seen takes) word.now }
    ensures range { IfSome result (λ value. IsTaken (takes_seen takes) (value_seen value)) }
{
    match takes {
        ValueForm::Number { least, most } => count_in(least, most, word),
        ValueForm::Word(words) => choice_in(words, word),
        ValueForm::WordOrNumber { words, least, most } => {
            choice_in(words, word).or(count_in(least, most, word))
        }
        ValueForm::Name => Some(Value::Named(word)),
        ValueForm::Nothing => Some(Value::Present),
    }
}

/// The number that a word is, if it is from `least` to `most`.
fn count_in<'w>(least: u64, most: u64, word: &str) -> Option<Value<'w>>
    ensures value { option_map value_seen result ≡ count_in least most word.now }
    ensures range { IfSome result (λ value. IsTaken (Number least most) (value_seen value)) }
{
    let number = number_in(least, most, word)?;
    Some(Value::Count(number))
}

/// One of the words, if it is among them.
fn choice_in<'w>(words: &[&str], word: &str) -> Option<Value<'w>>
    ensures value { option_map value_seen result ≡ choice_in (texts_seen words.now) word.now }
    ensures range { IfSome result (λ value. IsTaken (Word (texts_seen words.now)) (value_seen value)) }
{
    let place = place_in(words, word)?;
    Some(Value::Choice(place))
}

/// The place of a word among those that may be chosen.
fn place_in(words: &[&str], word: &str) -> Option<usize>
    ensures { result ≡ position (bytes_eq word.now) (texts_seen words.now) }
{
    words.iter().position(|other| *other == word)
}
