//! What a word is taken for.
ghost use Rattle.std.specs.Prelude.{◌≡◌, [], if◌then◌else◌};
ghost use Rattle.word_reader.specs.Forms.{option_row, takes_value};
ghost use Rattle.word_reader.specs.Meanings.{meaning_of, is_positional, Awaits, Holds, Unknown};
ghost use Rattle.word_reader.specs.Kept.{meaning_seen};

use crate::form::{OptionKind, option_of};

/// What a word before the first `--` is taken for.
#[derive(Clone, Copy)]
pub(crate) enum Meaning<'w> {
    /// The word `--`: each word behind it is a positional.
    Divides,
    Positional,
    /// An option, with the next word as its value.
    Awaits(OptionKind),
    /// An option with its value, which stands behind `=`; it is empty where the option takes none.
    Holds(OptionKind, &'w str),
    /// A word that no order has.
    Unknown,
}

pub(crate) fn meaning_of(word: &str) -> Meaning<'_>
    ensures { meaning_seen result ≡ meaning_of word.now }
{
    if word == "--" {
        return Meaning::Divides;
    }
    if is_positional(word) {
        return Meaning::Positional;
    }
    match word.split_once('=') {
        Some((name, value)) => match option_of(name) {
            Some(option) => with_value(option, value),
            None => Meaning::Unknown,
        },
        None => match option_of(word) {
            Some(option) => by_itself(option),
            None => Meaning::Unknown,
        },
    }
}

/// An option with a value behind `=`.
fn with_value(option: OptionKind, value: &str) -> Meaning<'_>
    ensures { meaning_seen result ≡ (if takes_value (option_row option).takes then Holds option value.now else Unknown) }
{
    if option.takes_value() {
        Meaning::Holds(option, value)
    } else {
        Meaning::Unknown
    }
}

/// An option without one.
fn by_itself<'w>(option: OptionKind) -> Meaning<'w>
    ensures { meaning_seen result ≡ (if takes_value (option_row option).takes then Awaits option else Holds option []) }
{
    if option.takes_value() {
        Meaning::Awaits(option)
    } else {
        Meaning::Holds(option, "")
    }
}

fn is_positional(word: &str) -> bool
    ensures { result ≡ is_positional word.now }
{
    word == "-" || !word.starts_with('-')
}
