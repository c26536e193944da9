//! Tokens, the words and numbers that are read of them, and how far a text is read ahead.
ghost use Rattle.std.specs.Prelude.{◌≡◌, ◌<◌, IsTrue};

use crate::given::shelf_of;
use crate::tellings::{number_in, put_end, put_error, put_number_line, size_in};
use gr_io::{Shelf, Slot};
use gr_text::{
    Ends, ReadError, Text, TokenReader, TokenSource, Tokens, next_token_or_end, number, word,
};
use std::alloc::{AllocError, Global};

/// What is read of a text.
#[derive(Clone, Copy)]
pub(crate) enum Reading {
    /// Each token.
    All,
    /// The next token, twice.
    Next,
    /// A word, a number, a token or the end, and a word.
    Steps,
    /// The first token, and how many bytes were not read then.
    Ahead,
}

/// The faults of a text that ends and of one that goes on, by number.
const ENDS: Ends<u8> = Ends {
    ended: 1,
    too_long: 13,
};

/// The most bytes of a text of which little is read, and of its pieces.
const MUCH: u32 = 1_000_000;

/// Puts what is read of the text that a line's words say.
pub(crate) fn put_reading(
    alloc: Global,
    reading: Reading,
    rest: &str,
    told: &mut Text,
) -> Result<(), AllocError> {
    let (piece, rest) = size_in(rest);
    let (limit, words) = number_in(rest);
    let text = text_of(alloc, words)?;
    put_text(alloc, reading, text.bytes(), piece, limit, told)
}

/// Puts how much is left of a long text once its first token was taken.
pub(crate) fn put_ahead(alloc: Global, rest: &str, told: &mut Text) -> Result<(), AllocError> {
    let size = number_in(rest).0 as usize;
    let mut text = b"grid".to_vec(alloc)?;
    text.resize(size, b' ')?;
    put_text(alloc, Reading::Ahead, &text, MUCH, u64::from(MUCH), told)
}

/// The text that words make.
fn text_of(alloc: Global, words: &str) -> Result<Text, AllocError> {
    let mut text = Text::new(alloc);
    for word in words.split_whitespace() {
        text.put(bytes_of(word))?;
    }
    Ok(text)
}

/// The bytes for which a word stands.
fn bytes_of(word: &str) -> &[u8] {
    match word {
        "CR" => b"\r",
        "LF" => b"\n",
        "TAB" => b"\t",
        "BLANK" => b" ",
        _ => word.as_bytes(),
    }
}

/// Puts what is read of a text.
fn put_text(
    alloc: Global,
    reading: Reading,
    text: &[u8],
    piece: u32,
    limit: u64,
    told: &mut Text,
) -> Result<(), AllocError>
    requires { 0 < piece }
{
    match shelf_of(alloc, Slot::Design, text, piece) {
        Some(mut shelf) => put_tokens(alloc, reading, &mut shelf, limit, told),
        None => told.put(b"no text\n"),
    }
}

fn put_tokens<S: Shelf>(
    alloc: Global,
    reading: Reading,
    shelf: &mut S,
    limit: u64,
    told: &mut Text,
) -> Result<(), AllocError>
    requires { IsTrue (S.reached shelf.old Slot.Design) }
{
    let mut tokens = Tokens::new(alloc, Slot::Design, limit)?;
    match reading {
        Reading::Next => put_twice(&mut tokens, shelf, told),
        Reading::Ahead => put_first(&mut tokens, shelf, told),
        _ => put_source(
            alloc,
            reading,
            &mut TokenReader {
                tokens: &mut tokens,
                shelf,
            },
            told,
        ),
    }
}

/// Puts the tokens that a source gives, or what is read by steps of a grammar.
fn put_source<S: TokenSource>(
    alloc: Global,
    reading: Reading,
    source: &mut S,
    told: &mut Text,
) -> Result<(), AllocError> {
    match reading {
        Reading::Steps => put_steps(alloc, source, told),
        _ => put_all(alloc, source, told),
    }
}

/// Puts each token with its number, and how the text ends.
fn put_all<S: TokenSource>(
    alloc: Global,
    source: &mut S,
    told: &mut Text,
) -> Result<(), AllocError> {
    for _ in 0..u64::MAX {
        match source.advance() {
            Ok(true) => put_token(source.number(), source.word(), told)?,
            Ok(false) => break,
            Err(error) => return put_error(alloc, &error, told),
        }
    }
    put_end(true, told)
}

/// Puts a token behind its number.
fn put_token(number: u64, text: &[u8], told: &mut Text) -> Result<(), AllocError> {
    told.put_number(number)?;
    told.put(b":")?;
    told.put(text)?;
    told.put(b" ")
}

/// Puts the next token, the one behind it, and whether a read failed.
fn put_twice<S: Shelf>(
    tokens: &mut Tokens,
    shelf: &mut S,
    told: &mut Text,
) -> Result<(), AllocError>
    requires { IsTrue (S.reached shelf.old tokens.old.slot) }
{
    put_next(tokens, shelf, told)?;
    put_next(tokens, shelf, told)?;
    if tokens.broken() {
        told.put(b"broken\n")
    } else {
        told.put(b"whole\n")
    }
}

/// Puts the next token.
fn put_next<S: Shelf>(tokens: &mut Tokens, shelf: &mut S, told: &mut Text) -> Result<(), AllocError>
    requires { IsTrue (S.reached shelf.old tokens.old.slot) }
    ensures { IsTrue (S.reached shelf.new tokens.new.slot) }
{
    match tokens.next(shelf) {
        Ok(Some(token)) => put_token(token.number, token.text.bytes(), told),
        Ok(None) => told.put(b"end "),
        Err(_) => told.put(b"failed "),
    }
}

/// Puts what is read by steps of a grammar, or the fault.
fn put_steps<S: TokenSource>(
    alloc: Global,
    source: &mut S,
    told: &mut Text,
) -> Result<(), AllocError> {
    match read_steps(source) {
        Ok((value, more)) => put_step(value, more, told)?,
        Err(error) => return put_error(alloc, &error, told),
    }
    match word(source, ENDS, 2, b"end") {
        Ok(()) => put_end(true, told),
        Err(error) => put_error(alloc, &error, told),
    }
}

/// A number behind the word "grid", and whether a token follows it.
fn read_steps<S: TokenSource>(source: &mut S) -> Result<(i64, bool), ReadError<u8>> {
    word(source, ENDS, 2, b"grid")?;
    let value = number(source, ENDS, 3, 0, 9)?;
    let more = next_token_or_end(source, ENDS)?;
    Ok((value, more))
}

fn put_step(value: i64, more: bool, told: &mut Text) -> Result<(), AllocError> {
    told.put_number(value)?;
    if more {
        told.put(b" token ")
    } else {
        told.put(b" end ")
    }
}

/// Puts how many bytes are not read once the first token was taken.
fn put_first<S: Shelf>(
    tokens: &mut Tokens,
    shelf: &mut S,
    told: &mut Text,
) -> Result<(), AllocError>
    requires slot { tokens.old.slot ≡ Slot.Design }
    requires reached { IsTrue (S.reached shelf.old Slot.Design) }
{
    match tokens.advance(shelf) {
        Ok(true) => put_left(shelf, told),
        _ => told.put(b"no token\n"),
    }
}

/// Puts how many bytes of the text are not read.
fn put_left<S: Shelf>(shelf: &mut S, told: &mut Text) -> Result<(), AllocError>
    requires { IsTrue (S.reached shelf.old Slot.Design) }
{
    let mut left: u64 = 0;
    let mut buf = [0; 4096];
    for _piece in 0..u64::MAX {
        match shelf.read(Slot::Design, &mut buf) {
            Ok(0) => break,
            Ok(count) => left = left.saturating_add(count as u64),
            Err(_) => return put_end(false, told),
        }
    }
    put_number_line(left, told)
}
