//! The rule of the counting word, and the steps that keep it.
ghost use Rattle.book_front.specs.Rule.{Kept};
ghost use Rattle.book_front.specs.Views.{first_keeper, with_pass, new_pass, with_role, nobody, some_entry, without_role, role_of, with_ended};
ghost use Rattle.book_state.specs.declared.entry.Entry.{Entry};
ghost use Rattle.book_front.specs.Steps.{Appends, Looks, Finishes};

use crate::view::View;
use atomic_table::{Join, Play, Split, TableRule};
use std::marker::{Brand, PhantomData};

/// The rule: one seat has the keeper's role and has seen the whole history, and the word counts it.
pub(crate) struct Counted;

impl TableRule<(), View, ()> for Counted {
    ghost holds = { λ key s. Kept s.words s.views };

    ghost first = { λ key. first_keeper };
}

/// The keeper gives out a number.
pub(crate) struct NewPass;

impl Split<View> for NewPass {
    ghost left = { with_pass };

    ghost right = { new_pass };
}

/// A pass takes the keeper's role.
pub(crate) struct TakeRole;

impl Join<View> for TakeRole {
    ghost both = { with_role };

    ghost spent = { nobody };
}

/// Which entry a step adds. Each call picks it.
pub(crate) trait Said {
    ghost entry: { Entry };
}

impl Said for Brand {
    ghost entry = { some_entry };
}

/// A step by which a pass that has the keeper's role adds an entry.
pub(crate) struct Append<E: Said> {
    of: PhantomData<E>,
}

impl<E: Said> Play<(), View> for Append<E> {
    ghost then = { λ step me found after. Appends E.entry me after };
}

/// A pass gives the keeper's role back.
pub(crate) struct GiveRole;

impl Split<View> for GiveRole {
    ghost left = { without_role };

    ghost right = { role_of };
}

/// A step by which a pass looks at the word.
pub(crate) struct Look;

impl Play<(), View> for Look {
    ghost then = { λ step me found after. Looks me found after };
}

/// A pass ends, and the keeper remembers what it knew.
pub(crate) struct EndPass;

impl Join<View> for EndPass {
    ghost both = { with_ended };

    ghost spent = { nobody };
}

/// A step by which the keeper looks at the word when passes have ended.
pub(crate) struct Finish;

impl Play<(), View> for Finish {
    ghost then = { λ step me found after. Finishes me found after };
}
