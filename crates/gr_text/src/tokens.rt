//! Cuts the text in a shelf's slot into tokens, piece by piece, and uses no byte beyond the length it may have.
ghost use Rattle.std.specs.Prelude.{◌≡◌, ℕ, ◌+◌, ◌-◌, ◌^◌, ◌<◌, ◌≤◌, ◌↔◌, false, true, not, List, [], ◌++◌, take, drop, length, nat_lt, IsTrue, IfOk, IfSome, OnOk, OnErr, is_err, Ok};
ghost use Rattle.std.specs.List.{position_or_len};
ghost use Rattle.gr_io.specs.Counts.{Rose};
ghost use Rattle.gr_io.specs.Shelves.{KeepsShelf};
ghost use Rattle.gr_io.specs.declared.shelf.Slot.{Slot};
ghost use Rattle.gr_base.specs.Names.{is_token};
ghost use Rattle.gr_text.specs.Tokens.{is_blank};
ghost use Rattle.gr_text.specs.Steps.{GoesOn, GivesNext, ReadsLittle, ReadsOn, Counted, Refills, LeavesRest, Seeks, SkipsTo, TakesOne, TakesToken};
ghost use Rattle.gr_text.specs.Streams.{Stream, Countable, new_stream, passed, grown, usable, SkipsAhead, GrowsAhead};

use crate::piece::{PIECE_BYTES, Piece};
use crate::scan::{word_end, word_start};
use gr_base::Name;
use gr_io::{Failed, Shelf, Slot};
use std::alloc::{AllocError, Global};
use std::marker::Model;
use thiserror::Error;

/// A token and its number. Tokens count from 1.
#[derive(Debug, Drop)]
pub struct Token {
    pub number: u64,
    pub text: Name,
}

/// Why no further token was given.
#[derive(Clone, Copy, Debug, PartialEq, Eq, Error)]
pub enum TokenError {
    #[error("a read failed")]
    Failed,
    /// The text is longer than the limit, and no further token is followed by a blank within it.
    #[error("the text is too long, at token {token}")]
    TooLong { token: u64 },
    #[error("out of memory")]
    NoMemory,
}

/// The tokens of the text in a slot, read piece by piece.
#[derive(Drop)]
pub struct Tokens {
    piece: Piece,
    /// The token in hand, as far as it lies in earlier pieces.
    carried: Vec<u8>,
    number: u64,
    /// The token in hand, as far as it lies in this piece.
    from: usize,
    to: usize,
    /// How many more bytes may be used. It isn't beside `number`: the two would be read as one pair
    /// right after one of them was written, which waits for that write.
    room: u64,
    slot: Slot,
    broken: bool,
    alloc: Global,
}

impl Model for Tokens {
    ghost use Rattle.std.specs.Prelude.{ℕ, ◌≡◌, ◌++◌, slice_range};
    ghost use Rattle.gr_text.specs.Streams.{Stream, Holds};

    ghost Value = { Stream };

    ghost view = { λ t. record {
      slot = t.slot;
      number = t.number;
      word = t.carried.items ++ slice_range t.piece.taken t.from t.to;
      pending = t.piece.ahead;
      room = t.room;
      broken = t.broken;
    } };

    ghost invariant = { λ t. Holds t.carried.items t.piece.taken t.from t.to t.number t.room };
}

impl Tokens {
    /// The bytes ahead that may be used.
    fn usable(&self) -> &[u8]
        ensures value { result.now ≡ take self.now.room self.now.pending }
        ensures few { length self.now.pending ≤ 65536 }
    {
        let ahead = self.piece.ahead();
        let most = self.room.min(ahead.len() as u64) as usize;
        &ahead[..most]
    }

    fn pass(&mut self, count: usize)
        requires room { count ≤ self.old.room }
        requires ahead { count ≤ length self.old.pending }
        ensures passed { self.new ≡ passed count self.old }
        ensures countable { Countable self.new.number self.new.room }
    {
        self.piece.take(count);
        self.room -= count as u64;
    }

    /// Lets go of the token in hand.
    fn forget(&mut self)
        ensures { self.new ≡ record self.old { word = [] } }
    {
        self.carried.clear();
        self.to = self.from;
    }

    /// Begins the token in hand with the next bytes.
    fn begin(&mut self, count: usize)
        requires empty { self.old.word ≡ [] }
        requires room { count ≤ self.old.room }
        requires ahead { count ≤ length self.old.pending }
        ensures { self.new ≡ grown count self.old }
    {
        self.from = self.piece.at();
        self.piece.take(count);
        self.to = self.piece.at();
        self.room -= count as u64;
    }

    /// Adds the next bytes to the token in hand. An error leaves all as it was.
    fn grow(&mut self, count: usize) -> Result<(), AllocError>
        requires room { count ≤ self.old.room }
        requires ahead { count ≤ length self.old.pending }
        ensures grown { OnOk result (self.new ≡ grown count self.old) }
        ensures unchanged { OnErr result (self.new ≡ self.old) }
    {
        self.carried
            .extend_from_slice(self.piece.taken(self.from, self.to))?;
        self.to = self.from;
        self.carried
            .extend_from_slice(&self.piece.ahead()[..count])?;
        self.piece.take(count);
        self.room -= count as u64;
        Ok(())
    }

    fn is_empty(&self) -> bool
        ensures { IsTrue result ↔ (self.now.word ≡ []) }
    {
        self.carried.is_empty() && self.from == self.to
    }

    /// Takes the blanks ahead, and says whether another byte follows them.
    fn skip_blanks(&mut self) -> bool
        ensures skipped { SkipsAhead self.old result self.new }
        ensures countable { Countable self.new.number self.new.room }
    {
        let usable = self.usable();
        let count = word_start(usable);
        let more = count < usable.len();
        self.pass(count);
        more
    }

    /// Takes the bytes ahead up to a blank into the hand, and says whether there was a blank.
    fn take_part(&mut self) -> Result<bool, AllocError>
        ensures grown { IfOk result (λ closed. GrowsAhead self.old closed self.new) }
        ensures slot { self.new.slot ≡ self.old.slot }
        ensures few { length self.new.pending ≤ 65536 }
    {
        let usable = self.usable();
        let count = word_end(usable);
        let closed = count < usable.len();
        if self.is_empty() {
            self.begin(count);
        } else {
            self.grow(count)?;
        }
        Ok(closed)
    }

    /// Reads on where no usable byte is ahead, and says whether the text goes on.
    fn more<S: Shelf>(&mut self, shelf: &mut S) -> Result<bool, TokenError>
        requires reached { IsTrue (S.reached shelf.old self.old.slot) }
        requires spent { 0 < length self.old.pending → self.old.room ≡ 0 }
        ensures refilled { Refills self.old result self.new }
        ensures few { OnErr result (length self.new.pending ≤ 65536) }
        ensures slot { self.new.slot ≡ self.old.slot }
        ensures left { IsTrue S.tells →
            LeavesRest result self.new.pending (S.left shelf.old self.old.slot) (S.left shelf.new self.old.slot) }
        ensures faults { Counted result (S.faults shelf.old) (S.faults shelf.new) }
        ensures shelf { KeepsShelf S.misses S.reached S.held shelf.old shelf.new }
    {
        if !self.piece.ahead().is_empty() {
            return Err(TokenError::TooLong {
                token: self.number + 1,
            });
        }
        self.carried
            .extend_from_slice(self.piece.taken(self.from, self.to))?;
        self.from = 0;
        self.to = 0;
        if self.piece.fill(shelf, self.slot)? {
            Ok(true)
        } else {
            self.room = 0;
            Ok(false)
        }
    }

    /// Goes to the next token's first byte, and says whether there is one.
    fn seek<S: Shelf>(&mut self, shelf: &mut S) -> Result<bool, TokenError>
        requires reached { IsTrue (S.reached shelf.old self.old.slot) }
        ensures sought { Seeks self.old result self.new }
        ensures few { OnErr result (length self.new.pending ≤ 65536) }
        ensures slot { self.new.slot ≡ self.old.slot }
        ensures skipped { IsTrue S.tells → SkipsTo result
            self.old.room (self.old.pending ++ S.left shelf.old self.old.slot)
            self.new.room (self.new.pending ++ S.left shelf.new self.old.slot) }
        ensures faults { Counted result (S.faults shelf.old) (S.faults shelf.new) }
        ensures shelf { KeepsShelf S.misses S.reached S.held shelf.old shelf.new }
    {
        self.forget();
        'blanks: while !self.skip_blanks() {
            if !self.more(shelf)? {
                return Ok(false);
            }
        }
        Ok(true)
    }

    /// Takes the token whose first byte is ahead, and the blank behind it.
    fn take_word<S: Shelf>(&mut self, shelf: &mut S) -> Result<(), TokenError>
        requires reached { IsTrue (S.reached shelf.old self.old.slot) }
        requires empty { self.old.word ≡ [] }
        requires solid { 0 < position_or_len is_blank (usable self.old) }
        requires countable { Countable self.old.number self.old.room }
        ensures counted { TakesOne self.old result self.new }
        ensures slot { self.new.slot ≡ self.old.slot }
        ensures token { IsTrue S.tells → TakesToken self.old.room self.old.number
            (self.old.pending ++ S.left shelf.old self.old.slot) result self.new (S.left shelf.new self.old.slot) }
        ensures faults { Counted result (S.faults shelf.old) (S.faults shelf.new) }
        ensures shelf { KeepsShelf S.misses S.reached S.held shelf.old shelf.new }
        ensures word { OnOk result (IsTrue (is_token self.new.word)) }
    {
        'parts: while !self.take_part()? {
            if !self.more(shelf)? {
                self.count();
                return Ok(());
            }
        }
        self.pass(1);
        self.count();
        Ok(())
    }

    /// Counts the token in hand.
    fn count(&mut self)
        requires { Countable (self.old.number + 1) self.old.room }
        ensures { self.new ≡ record self.old { number = self.old.number + 1 } }
    {
        self.number += 1;
    }

    /// Takes the next token into the hand.
    fn find<S: Shelf>(&mut self, shelf: &mut S) -> Result<bool, TokenError>
        requires reached { IsTrue (S.reached shelf.old self.old.slot) }
        ensures token { IsTrue S.tells → GoesOn self.old (S.left shelf.old) result self.new (S.left shelf.new) }
        ensures little { IsTrue S.tells → result ≡ Ok true →
            ReadsLittle self.old (S.left shelf.old) self.new.word self.new (S.left shelf.new) }
        ensures on { IsTrue S.tells → ReadsOn (self.old.pending ++ S.left shelf.old self.old.slot) result
            self.new.pending (S.left shelf.new self.old.slot) }
        ensures slot { self.new.slot ≡ self.old.slot }
        ensures faults { Counted result (S.faults shelf.old) (S.faults shelf.new) }
        ensures shelf { KeepsShelf S.misses S.reached S.held shelf.old shelf.new }
        ensures word { IfOk result (λ more. IsTrue more → IsTrue (is_token self.new.word)) }
        ensures ended { result ≡ Ok false → IsTrue S.tells → S.left shelf.new self.old.slot ≡ [] }
    {
        let more = self.seek(shelf)?;
        if !more {
            return Ok(false);
        }
        self.take_word(shelf)?;
        Ok(true)
    }

    /// The tokens of the text in a slot, of which at most `limit` bytes are read as tokens. The
    /// only error is want of memory.
    pub fn new(alloc: Global, slot: Slot, limit: u64) -> Result<Self, AllocError>
        ensures { IfOk result (λ tokens. tokens ≡ new_stream slot limit) }
    {
        Ok(Tokens {
            piece: Piece::new(alloc, PIECE_BYTES)?,
            carried: Vec::new(alloc),
            number: 0,
            from: 0,
            to: 0,
            room: limit,
            slot,
            broken: false,
            alloc,
        })
    }

    /// Takes the next token into the hand, and says whether there was one: `false` exactly at the
    /// text's end. Nothing is copied but a token that crosses pieces.
    ///
    /// # Errors
    /// `Failed` where a read failed; `TooLong` exactly where the text is longer than the limit and
    /// no further token is followed by a blank within it; `NoMemory`.
    pub fn advance<S: Shelf>(&mut self, shelf: &mut S) -> Result<bool, TokenError>
        requires reached { IsTrue (S.reached shelf.old self.old.slot) }
        ensures token { IsTrue S.tells → GoesOn self.old (S.left shelf.old) result self.new (S.left shelf.new) }
        ensures little { IsTrue S.tells → result ≡ Ok true →
            ReadsLittle self.old (S.left shelf.old) self.new.word self.new (S.left shelf.new) }
        ensures on { IsTrue S.tells → ReadsOn (self.old.pending ++ S.left shelf.old self.old.slot) result
            self.new.pending (S.left shelf.new self.old.slot) }
        ensures broken { self.new.broken ≡ is_err result }
        ensures slot { self.new.slot ≡ self.old.slot }
        ensures faults { Counted result (S.faults shelf.old) (S.faults shelf.new) }
        ensures shelf { KeepsShelf S.misses S.reached S.held shelf.old shelf.new }
        ensures word { IfOk result (λ more. IsTrue more → IsTrue (is_token self.new.word)) }
        ensures ended { result ≡ Ok false → IsTrue S.tells → S.left shelf.new self.old.slot ≡ [] }
    {
        let found = self.find(shelf);
        self.broken = found.is_err();
        found
    }

    /// The next token, or None exactly at the text's end. The number of the last token plus 1 is
    /// the token of `TooLong`.
    ///
    /// # Errors
    /// As `advance`.
    pub fn next<S: Shelf>(&mut self, shelf: &mut S) -> Result<Option<Token>, TokenError>
        requires reached { IsTrue (S.reached shelf.old self.old.slot) }
        ensures token { IsTrue S.tells → GivesNext self.old (S.left shelf.old) result self.new (S.left shelf.new) }
        ensures little { IsTrue S.tells → IfOk result (λ given. IfSome given (λ token.
            ReadsLittle self.old (S.left shelf.old) token.text self.new (S.left shelf.new))) }
        ensures broken { self.new.broken ≡ is_err result }
        ensures slot { self.new.slot ≡ self.old.slot }
        ensures faults { Counted result (S.faults shelf.old) (S.faults shelf.new) }
        ensures shelf { KeepsShelf S.misses S.reached S.held shelf.old shelf.new }
    {
        let found = self.advance(shelf)?;
        if !found {
            return Ok(None);
        }
        let Ok(text) = Name::from_bytes(self.alloc, self.word()) else {
            self.broken = true;
            return Err(TokenError::NoMemory);
        };
        Ok(Some(Token {
            number: self.number,
            text,
        }))
    }

    /// The token in hand.
    pub fn word(&self) -> &[u8]
        ensures { result.now ≡ self.now.word }
    {
        if self.carried.is_empty() {
            self.piece.taken(self.from, self.to)
        } else {
            &self.carried
        }
    }

    /// How many tokens were given. Tokens count from 1, so this is the number of the one in hand.
    pub fn number(&self) -> u64
        ensures number { result ≡ self.now.number }
        ensures room { result < 2 ^ 64 - 1 }
    {
        self.number
    }

    /// Whether the last call answered with an error.
    pub fn broken(&self) -> bool
        ensures { result ≡ self.now.broken }
    {
        self.broken
    }
}

impl From<AllocError> for TokenError {
    ghost use Rattle.std.specs.Prelude.{◌≡◌};
    ghost use Rattle.gr_text.specs.declared.tokens.TokenError.TheVariants.{NoMemory};

    ghost from_gives = { λ _ e. e ≡ NoMemory };

    fn from(_error: AllocError) -> Self {
        TokenError::NoMemory
    }
}

impl From<Failed> for TokenError {
    ghost use Rattle.std.specs.Prelude.{◌≡◌};
    ghost use Rattle.gr_text.specs.declared.tokens.TokenError.TheVariants.{Failed};

    ghost from_gives = { λ _ e. e ≡ Failed };

    fn from(_error: Failed) -> Self {
        TokenError::Failed
    }
}
