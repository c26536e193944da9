//! The words behind a command's, sorted.
ghost use Rattle.std.specs.Prelude.{◌≡◌, ◌<◌, map, length, string_bytes};
ghost use Rattle.word_reader.specs.Kept.{kept_values, values_seen, words_seen, Adds, Sets, SetsAt, Sorts, TakesWord};
ghost use Rattle.word_reader.specs.Orders.{positional};
ghost use Rattle.word_reader.specs.Sorting.{nothing};
ghost use Rattle.word_reader.specs.declared.sorted.Next.TheVariants.{Any};

use crate::form::{MOST_POSITIONALS, OPTION_COUNT, OptionKind};
use crate::meaning::{Meaning, meaning_of};
use arrayvec::ArrayVec;

/// Positionals, and the values of options.
#[derive(Drop)]
pub(crate) struct Sorted<'w> {
    pub positionals: ArrayVec<&'w str, MOST_POSITIONALS>,
    values: Values<'w>,
}

/// The value that stands with each option, if one does.
#[derive(Clone, Copy)]
struct Values<'w> {
    by_place: [Option<&'w str>; OPTION_COUNT],
}

/// What the next word is taken for.
#[derive(Clone, Copy)]
pub(crate) enum Next {
    /// What it means by itself.
    Any,
    /// The value of an option.
    Value(OptionKind),
    /// A positional, as each word behind `--`.
    Positional,
}

/// Sorts words, if they can be those of an order.
pub(crate) fn sort_words(words: &[String]) -> Option<Sorted<'_>>
    ensures { Sorts (map string_bytes words.now) result }
{
    let mut sorted = Sorted::new();
    let mut next = Next::Any;
    for word in words {
        next = sorted.take(next, word)?;
    }
    match next {
        Next::Any | Next::Positional => Some(sorted),
        Next::Value(_) => None,
    }
}

impl<'w> Sorted<'w> {
    fn new() -> Self
        ensures { words_seen result ≡ nothing }
    {
        Sorted {
            positionals: ArrayVec::new(),
            values: Values {
                by_place: [None; OPTION_COUNT],
            },
        }
    }

    /// Takes a word, and says what the one behind it is taken for.
    fn take(&mut self, next: Next, word: &'w str) -> Option<Next>
        ensures { TakesWord self.old next word.now result self.new }
    {
        match next {
            Next::Any => self.take_any(word),
            Next::Value(option) => {
                self.set(option, word)?;
                Some(Next::Any)
            }
            Next::Positional => {
                self.add(word)?;
                Some(Next::Positional)
            }
        }
    }

    /// Takes a word for what it means by itself.
    fn take_any(&mut self, word: &'w str) -> Option<Next>
        ensures { TakesWord self.old Any word.now result self.new }
    {
        match meaning_of(word) {
            Meaning::Divides => Some(Next::Positional),
            Meaning::Positional => {
                self.add(word)?;
                Some(Next::Any)
            }
            Meaning::Awaits(option) => Some(Next::Value(option)),
            Meaning::Holds(option, value) => {
                self.set(option, value)?;
                Some(Next::Any)
            }
            Meaning::Unknown => None,
        }
    }

    /// Adds a positional, if there is room for one.
    fn add(&mut self, word: &'w str) -> Option<()>
        ensures { Adds self.old word.now result self.new }
    {
        self.positionals.try_push(word).ok()
    }

    /// Sets the value of an option that has none.
    fn set(&mut self, option: OptionKind, value: &'w str) -> Option<()>
        ensures { Sets self.old option value.now result self.new }
    {
        if self.given(option).is_some() {
            return None;
        }
        set_at(&mut self.values.by_place, option, value);
        Some(())
    }

    /// The value that stands with an option, if one does.
    pub(crate) fn given(&self, option: OptionKind) -> Option<&'w str>
        ensures { values_seen result ≡ kept_values self.now option }
    {
        self.values.by_place[option.place()]
    }

    /// A positional, counted from 0.
    pub(crate) fn positional(&self, number: usize) -> &'w str
        requires { number < length (words_seen self.now).positionals }
        ensures { result.now ≡ positional (words_seen self.now) number }
    {
        self.positionals[number]
    }
}

fn set_at<'w>(by_place: &mut [Option<&'w str>; OPTION_COUNT], option: OptionKind, value: &'w str)
    ensures { SetsAt by_place.old option value.now by_place.new }
{
    by_place[option.place()] = Some(value);
}
