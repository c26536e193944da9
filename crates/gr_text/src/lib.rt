//! Texts of tokens: reading them piece by piece from a shelf, the checks that every reader is made
//! of, whole numbers, and texts to be written.
#![tactic(auto)]

mod numbers;
mod piece;
mod reader;
mod reading;
mod scan;
mod source;
mod text;
mod tokens;

pub use numbers::{is_whole, natural_of, whole, whole_of};
pub use reader::TokenReader;
pub use reading::{check, end, given, natural, next_token, next_token_or_end, number, word};
pub use source::{Ends, ReadError, TokenSource};
pub use text::Text;
pub use tokens::{Token, TokenError, Tokens};
