//! The checks that readers of texts are made of; they rest on nothing but a source of tokens.
ghost use Rattle.std.specs.Prelude.{◌≡◌, ℕ, ◌≤◌, Some, None, false, Ok, IsTrue, IfOk, OnOk, ◌≤ℤ◌, if◌then◌else◌};
ghost use Rattle.gr_base.specs.Names.{is_token};
ghost use Rattle.gr_text.specs.Reading.{token, token_or_end, word, number, natural, check, given, end};
ghost use Rattle.gr_text.specs.Reads.{ReadsBy, Moves, Counts, Onward, word_if};

use crate::numbers::whole_of;
use crate::source::{Ends, ReadError, TokenSource};
use crate::tokens::TokenError;

/// Takes the next token into the hand. It is a fault where the text ends.
pub fn next_token<S: TokenSource, F: Copy>(
    source: &mut S,
    ends: Ends<F>,
) -> Result<(), ReadError<F>>
    ensures reads { ReadsBy S.tells S.place (token ends) (λ _. S.word source.new) result source.old source.new }
    ensures moves { Moves S.faults S.reaches S.stops S.origin result source.old source.new }
    ensures word { OnOk result (IsTrue (is_token (S.word source.new))) }
{
    match source.advance() {
        Ok(true) => Ok(()),
        Ok(false) => Err(ReadError::Fault {
            fault: ends.ended,
            token: source.number() + 1,
        }),
        Err(TokenError::TooLong { token }) => Err(ReadError::Fault {
            fault: ends.too_long,
            token,
        }),
        Err(TokenError::Failed) => Err(ReadError::Failed),
        Err(TokenError::NoMemory) => Err(ReadError::NoMemory),
    }
}

/// Takes the next token into the hand, where the text doesn't end, and says whether there was one.
pub fn next_token_or_end<S: TokenSource, F: Copy>(
    source: &mut S,
    ends: Ends<F>,
) -> Result<bool, ReadError<F>>
    ensures reads { ReadsBy S.tells S.place (token_or_end ends) (word_if (S.word source.new)) result
        source.old source.new }
    ensures moves { Moves S.faults S.reaches S.stops S.origin result source.old source.new }
    ensures word { IfOk result (λ more. IsTrue more → IsTrue (is_token (S.word source.new))) }
    ensures ended { result ≡ Ok false → IsTrue S.tells → S.ended source.new }
{
    match source.advance() {
        Ok(more) => Ok(more),
        Err(TokenError::TooLong { token }) => Err(ReadError::Fault {
            fault: ends.too_long,
            token,
        }),
        Err(TokenError::Failed) => Err(ReadError::Failed),
        Err(TokenError::NoMemory) => Err(ReadError::NoMemory),
    }
}

/// Refuses the token in hand, with this fault, where the check doesn't hold.
#[tactic(auto, unfolding(crate::specs::Reading::check))]
pub fn check<S: TokenSource, F: Copy>(source: &S, holds: bool, fault: F) -> Result<(), ReadError<F>>
    ensures reads { ReadsBy S.tells S.place (check holds fault) (λ _. tt) result source.now source.now }
    ensures faults { (count : ℕ) → Counts result count count }
    ensures onward { Onward S.reaches S.stops result source.now source.now }
    ensures holds { OnOk result (IsTrue holds) }
{
    if holds {
        Ok(())
    } else {
        Err(ReadError::Fault {
            fault,
            token: source.number(),
        })
    }
}

/// The value that the token in hand gives, or else this fault of that token.
pub fn given<S: TokenSource, F: Copy, T>(
    source: &S,
    value: Option<T>,
    fault: F,
) -> Result<T, ReadError<F>>
    ensures reads { ReadsBy S.tells S.place (given value fault) (λ v. v) result source.now source.now }
    ensures faults { (count : ℕ) → Counts result count count }
    ensures onward { Onward S.reaches S.stops result source.now source.now }
    ensures value { IfOk result (λ v. value ≡ Some v) }
{
    match value {
        Some(value) => Ok(value),
        None => Err(ReadError::Fault {
            fault,
            token: source.number(),
        }),
    }
}

/// Takes the next token, which has to be this word.
#[tactic(auto, unfolding(crate::specs::Reading::word, crate::specs::Reading::check))]
pub fn word<S: TokenSource, F: Copy>(
    source: &mut S,
    ends: Ends<F>,
    fault: F,
    text: &[u8],
) -> Result<(), ReadError<F>>
    ensures reads { ReadsBy S.tells S.place (word ends fault text.now) (λ _. tt) result source.old source.new }
    ensures moves { Moves S.faults S.reaches S.stops S.origin result source.old source.new }
{
    next_token(source, ends)?;
    check(source, source.word() == text, fault)
}

/// Takes the next token, which has to be a whole number from `low` to `high`.
#[tactic(auto, unfolding(crate::specs::Reading::number))]
pub fn number<S: TokenSource, F: Copy>(
    source: &mut S,
    ends: Ends<F>,
    fault: F,
    low: i64,
    high: i64,
) -> Result<i64, ReadError<F>>
    ensures reads { ReadsBy S.tells S.place (number ends fault low high) (λ n. n) result source.old source.new }
    ensures moves { Moves S.faults S.reaches S.stops S.origin result source.old source.new }
    ensures low { IfOk result (λ value. low ≤ℤ value) }
    ensures high { IfOk result (λ value. value ≤ℤ high) }
{
    next_token(source, ends)?;
    given(source, whole_of(source.word(), low, high), fault)
}

/// Takes the next token, which has to be a whole number from 0 to `most`.
#[tactic(auto, unfolding(crate::specs::Reading::natural))]
pub fn natural<S: TokenSource, F: Copy>(
    source: &mut S,
    ends: Ends<F>,
    fault: F,
    most: u32,
) -> Result<u32, ReadError<F>>
    ensures reads { ReadsBy S.tells S.place (natural ends fault most) (λ n. n) result source.old source.new }
    ensures moves { Moves S.faults S.reaches S.stops S.origin result source.old source.new }
    ensures most { IfOk result (λ n. n ≤ most) }
{
    let n = number(source, ends, fault, 0, i64::from(most))?;
    Ok(n as u32)
}

/// Sees that no further token is there.
#[tactic(auto, unfolding(crate::specs::Reading::end))]
pub fn end<S: TokenSource, F: Copy>(
    source: &mut S,
    ends: Ends<F>,
    trailing: F,
) -> Result<(), ReadError<F>>
    ensures reads { ReadsBy S.tells S.place (end ends trailing) (λ _. tt) result source.old source.new }
    ensures moves { Moves S.faults S.reaches S.stops S.origin result source.old source.new }
    ensures ended { OnOk result (IsTrue S.tells → S.ended source.new) }
{
    let more = next_token_or_end(source, ends)?;
    check(source, !more, trailing)
}
