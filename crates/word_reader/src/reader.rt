//! The public call.
ghost use Rattle.std.specs.Prelude.{◌≡◌, map, string_bytes, IfOk, IfSome};
ghost use Rattle.std.specs.Option.{option_map};
ghost use Rattle.word_reader.specs.Forms.{has};
ghost use Rattle.word_reader.specs.Kept.{words_seen};
ghost use Rattle.word_reader.specs.Orders.{named, agrees, fills, fits, go_together, has_all, suits, named_order, order_by, order_of, order_with, AsksInRange, Answers};

use crate::error::WordError;
use crate::form::{Command, EVERY_OPTION, OptionKind, command_of};
use crate::order::{Order, order_as};
use crate::program::Program;
use crate::sorted::{Sorted, sort_words};

/// The order that the words behind a program's name give. The first is a command's, where the program
/// has several, and `Order` says which words come behind it: as many positionals as the command has,
/// and options of its own, each at most once and none beside one that it excludes.
///
/// Each word behind the first one that is exactly `--` is a positional, and that word is dropped.
/// Before it an option takes the next word as its value, whatever word that is, or holds it behind `=`;
/// one that takes no value stands alone. No other word begins with `-` but `-` itself. A number is one
/// to twenty decimal digits, and any word is a name. All other words are `Usage`.
pub fn read_words(program: Program, words: &[String]) -> Result<Order<'_>, WordError>
    ensures order { Answers (order_of program (map string_bytes words.now)) result }
    ensures range { IfOk result AsksInRange }
{
    match order_of(program, words) {
        Some(order) => Ok(order),
        None => Err(WordError::Usage),
    }
}

fn order_of(program: Program, words: &[String]) -> Option<Order<'_>>
    ensures order { option_map named result ≡ order_of program (map string_bytes words.now) }
    ensures range { IfSome result AsksInRange }
{
    match program {
        Program::Groute => named_order(words),
        Program::Grbound => order_with(Command::Bound, words),
    }
}

/// The order whose command the first word names.
#[tactic(auto, unfolding(crate::specs::Orders::named_order))]
fn named_order(words: &[String]) -> Option<Order<'_>>
    ensures order { option_map named result ≡ named_order (map string_bytes words.now) }
    ensures range { IfSome result AsksInRange }
{
    let (first, rest) = words.split_first()?;
    let command = command_of(first)?;
    order_with(command, rest)
}

/// The order of a command by the words that are all its own.
fn order_with(command: Command, words: &[String]) -> Option<Order<'_>>
    ensures order { option_map named result ≡ order_with command (map string_bytes words.now) }
    ensures range { IfSome result AsksInRange }
{
    let sorted = sort_words(words)?;
    order_by(command, &sorted)
}

/// The order of a command by the words behind its own, once they are sorted.
fn order_by<'w>(command: Command, sorted: &Sorted<'w>) -> Option<Order<'w>>
    ensures order { option_map named result ≡ order_by command (words_seen sorted.now) }
    ensures range { IfSome result AsksInRange }
{
    if fits(command, sorted) {
        order_as(command, sorted)
    } else {
        None
    }
}

/// Whether there are as many positionals as the command has, no option that it lacks, and none beside
/// one that it excludes.
fn fits(command: Command, sorted: &Sorted) -> bool
    ensures { result ≡ fits command (words_seen sorted.now) }
{
    fills(command, sorted) && has_all(command, sorted) && go_together(sorted)
}

fn fills(command: Command, sorted: &Sorted) -> bool
    ensures { result ≡ fills command (words_seen sorted.now) }
{
    sorted.positionals.len() == command.row().positionals
}

/// Whether each option that is given is one of the command's.
fn has_all(command: Command, sorted: &Sorted) -> bool
    ensures { result ≡ has_all command (words_seen sorted.now) }
{
    EVERY_OPTION
        .iter()
        .all(|option| suits(command, sorted, *option))
}

fn suits(command: Command, sorted: &Sorted, option: OptionKind) -> bool
    ensures { result ≡ suits command (words_seen sorted.now) option }
{
    command.has(option) || sorted.given(option).is_none()
}

/// Whether no option is given beside one that it excludes.
fn go_together(sorted: &Sorted) -> bool
    ensures { result ≡ go_together (words_seen sorted.now) }
{
    EVERY_OPTION.iter().all(|option| agrees(sorted, *option))
}

fn agrees(sorted: &Sorted, option: OptionKind) -> bool
    ensures { result ≡ agrees (words_seen sorted.now) option }
{
    match option.row().excludes {
        Some(other) => sorted.given(option).is_none() || sorted.given(other).is_none(),
        None => true,
    }
}
