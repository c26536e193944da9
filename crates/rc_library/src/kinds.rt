//! The kinds of buffers of a library.
ghost use Rattle.std.specs.Prelude.{◌≡◌, ◌<◌, List, [], ◌∷◌, ◌++◌, length, slice_get, Some, false, true, OnOk, OnErr};
ghost use Rattle.gr_base.specs.Names.{is_token};
ghost use Rattle.rc_library.specs.Limits.{most_kinds};
ghost use Rattle.rc_library.specs.Libraries.{IsKind, AreKinds};
ghost use Rattle.rc_library.specs.Items.{has_kind};

use crate::parts::NamedKind;
use std::alloc::{AllocError, Global};
use std::marker::Model;

/// At most 32 kinds of buffers, no two of one name.
#[derive(Debug, Drop)]
pub(crate) struct Kinds {
    named: Vec<NamedKind>,
}

impl Model for Kinds {
    ghost use Rattle.std.specs.Prelude.{List};
    ghost use Rattle.rc_library.specs.Libraries.{AreKinds};
    ghost use Rattle.rc_library.specs.declared.parts.NamedKind.{NamedKind};

    ghost Value = { List NamedKind };

    ghost view = { λ k. k.named.items };

    ghost invariant = { λ k. AreKinds k.named.items };
}

impl Kinds {
    /// No kind, which takes no memory.
    pub(crate) fn new(alloc: Global) -> Self
        ensures { result ≡ [] }
    {
        Kinds {
            named: Vec::new(alloc),
        }
    }

    pub(crate) fn len(&self) -> u32
        ensures len { result ≡ length self.now }
        ensures kinds { AreKinds self.now }
    {
        self.named.len() as u32
    }

    pub(crate) fn at(&self, kind: u32) -> &NamedKind
        requires { kind < length self.now }
        ensures kind { slice_get self.now kind ≡ Some result.now }
        ensures kinds { AreKinds self.now }
    {
        &self.named[kind as usize]
    }

    /// Whether a kind has the name.
    pub(crate) fn has(&self, name: &[u8]) -> bool
        ensures { result ≡ has_kind self.now name.now }
    {
        self.named.iter().any(|kind| kind.name.bytes() == name)
    }

    /// Adds a kind behind the others. The only error is want of memory.
    pub(crate) fn push(&mut self, kind: NamedKind) -> Result<(), AllocError>
        requires room { length self.old < most_kinds }
        requires fresh { has_kind self.old kind.name ≡ false }
        requires token { is_token kind.name ≡ true }
        requires fits { IsKind kind.kind }
        ensures ok { OnOk result (self.new ≡ self.old ++ kind ∷ []) }
        ensures err { OnErr result (self.new ≡ self.old) }
        ensures kinds { AreKinds self.new }
    {
        self.named.push(kind)?;
        Ok(())
    }
}
