//! What a reader may ask of a source of tokens, and why reading ends without a value.
ghost use Rattle.std.specs.Prelude.{◌≡◌, ℕ, ◌+◌, ◌-◌, ◌^◌, ◌<◌, Bool, false, List, IsTrue, IfOk, Ok};
ghost use Rattle.gr_base.specs.Names.{is_token};
ghost use Rattle.gr_text.specs.Origins.{Origin};
ghost use Rattle.gr_text.specs.Tokens.{Place};
ghost use Rattle.gr_text.specs.Steps.{Advances, Counted, Steps};

use crate::tokens::TokenError;
use std::alloc::AllocError;
use std::fmt::Display;
use thiserror::Error;

/// The faults of a text that ends where a token is due, and of one that goes on past its limit.
#[derive(Clone, Copy, Debug, PartialEq, Eq)]
pub struct Ends<F> {
    pub ended: F,
    pub too_long: F,
}

/// Why a reader gave no value.
#[derive(Clone, Copy, Debug, PartialEq, Eq, Error)]
#[error_bound(F: Display)]
pub enum ReadError<F> {
    /// The text is at fault, at this token. Tokens count from 1.
    #[error("{fault}, at token {token}")]
    Fault { fault: F, token: u64 },
    #[error("a read failed")]
    Failed,
    #[error("out of memory")]
    NoMemory,
}

impl<F> From<AllocError> for ReadError<F> {
    ghost use Rattle.std.specs.Prelude.{◌≡◌};
    ghost use Rattle.gr_text.specs.declared.source.ReadError.TheVariants.{NoMemory};

    ghost from_gives = { λ _ e. e ≡ NoMemory };

    fn from(_error: AllocError) -> Self {
        ReadError::NoMemory
    }
}

/// A text's tokens, one after another.
pub trait TokenSource {
    /// Whether `place` tells the tokens. Where it is false it claims nothing.
    ghost tells: { Bool };

    /// How many reads have failed.
    ghost faults: { Self → ℕ };

    /// How many tokens were read, and those that are left.
    ghost place: { Self → Place };

    /// The token in hand.
    ghost word: { Self → List ℕ };

    /// Where the tokens come from, which no call changes.
    ghost origin: { Self → Origin };

    /// The text was read to its end.
    ghost ended: { Self → Type 0 };

    /// Of a text of these bytes little more is read than the tokens so far.
    ghost reaches: { Self → List ℕ → Type 0 };

    /// Of a text of these bytes little more is read than the tokens up to the one of this number.
    ghost stops: { Self → List ℕ → ℕ → Type 0 };

    /// Takes the next token into the hand, and says whether there was one.
    fn advance(&mut self) -> Result<bool, TokenError>
        ensures token { IsTrue tells → Advances (place self.old) result (word self.new) (place self.new) }
        ensures faults { Counted result (faults self.old) (faults self.new) }
        ensures origin { origin self.new ≡ origin self.old }
        ensures word { IfOk result (λ more. IsTrue more → IsTrue (is_token (word self.new))) }
        ensures ended { result ≡ Ok false → IsTrue tells → ended self.new }
        ensures onward { (bytes : List ℕ) → reaches self.old bytes →
            Steps result (reaches self.new bytes) (stops self.new bytes) };

    /// The token in hand.
    fn word(&self) -> &[u8]
        ensures { result.now ≡ word self.now };

    /// The number of the token in hand. Tokens count from 1.
    fn number(&self) -> u64
        ensures number { IsTrue tells → result ≡ (place self.now).number }
        ensures room { result < 2 ^ 64 - 1 }

        // A fault may name this token or the one that is due.
        ensures here { (bytes : List ℕ) → reaches self.now bytes → stops self.now bytes result }
        ensures due { (bytes : List ℕ) → reaches self.now bytes → stops self.now bytes (result + 1) };
}
