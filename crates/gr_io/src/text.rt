//! The texts that a shelf in memory holds, and how one is found by its name.
ghost use Rattle.std.specs.Prelude.{◌≡◌, IfOk, bytes_eq, position};

use std::alloc::{AllocError, Global};
use std::marker::Model;

/// A text that is held under a name.
#[derive(Drop)]
pub(crate) struct NamedText {
    name: Vec<u8>,
    bytes: Vec<u8>,
}

impl Model for NamedText {
    ghost use Rattle.gr_io.specs.Texts.{HeldText};

    ghost Value = { HeldText };

    ghost view = { λ t. record { name = t.name.items; bytes = t.bytes.items } };
}

impl NamedText {
    pub(crate) fn new(alloc: Global, name: &str, bytes: &[u8]) -> Result<Self, AllocError>
        ensures { IfOk result (λ text. text ≡ record { name = name.now; bytes = bytes.now }) }
    {
        Ok(NamedText {
            name: Vec::from_slice(alloc, name.as_bytes())?,
            bytes: Vec::from_slice(alloc, bytes)?,
        })
    }

    pub(crate) fn is_named(&self, name: &str) -> bool
        ensures { result ≡ bytes_eq self.now.name name.now }
    {
        self.name.as_slice() == name.as_bytes()
    }

    pub(crate) fn bytes(&self) -> &[u8]
        ensures { result.now ≡ self.now.bytes }
    {
        &self.bytes
    }
}

/// The number of the first text of a name.
pub(crate) fn number_of(texts: &[NamedText], name: &str) -> Option<usize>
    ensures { result ≡ position (λ t. bytes_eq t.name name.now) texts.now }
{
    texts.iter().position(|text| text.is_named(name))
}
