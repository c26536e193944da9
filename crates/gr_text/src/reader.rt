//! Joins the tokens of a slot with the shelf that holds the text, so that readers see one source of tokens.
ghost use Rattle.std.specs.Prelude.{IsTrue};

use crate::source::TokenSource;
use crate::tokens::{TokenError, Tokens};
use gr_io::Shelf;

/// The tokens of a slot's text, together with the shelf that holds it.
#[derive(Drop)]
pub struct TokenReader<'t, 's, S: Shelf> {
    pub tokens: &'t mut Tokens,
    pub shelf: &'s mut S,
    ghost reached: { IsTrue (S.reached shelf.now tokens.now.slot) },
}

impl<'t, 's, S: Shelf> TokenSource for TokenReader<'t, 's, S> {
    ghost use Rattle.std.specs.Prelude.{◌≡◌, [], IsTrue};
    ghost use Rattle.gr_text.specs.Streams.{place_of};
    ghost use Rattle.gr_text.specs.Unread.{HasRead, IsReadTo};

    ghost tells = { S.tells };

    ghost faults = { λ r. S.faults r.shelf.now };

    ghost place = { λ r. place_of r.tokens.now (S.left r.shelf.now r.tokens.now.slot) };

    ghost word = { λ r. r.tokens.now.word };

    ghost origin = { λ r. record {
      reference = r.shelf.ghost_name;
      slot = r.tokens.now.slot;
      misses = S.misses r.shelf.now;
      held = S.held r.shelf.now;
    } };

    ghost ended = { λ r. S.left r.shelf.now r.tokens.now.slot ≡ [] };

    ghost reaches = { λ r bytes. IsTrue S.tells →
        HasRead bytes r.tokens.now.number r.tokens.now.pending (S.left r.shelf.now r.tokens.now.slot) };

    ghost stops = { λ r bytes token. IsTrue S.tells →
        IsReadTo bytes token (S.left r.shelf.now r.tokens.now.slot) };

    fn advance(&mut self) -> Result<bool, TokenError> {
        self.tokens.advance(self.shelf)
    }

    fn word(&self) -> &[u8] {
        self.tokens.word()
    }

    fn number(&self) -> u64 {
        self.tokens.number()
    }
}
