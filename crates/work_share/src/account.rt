//! What is known of a deque, and how it changes.
use crossbeam_deque::protocol::{Join, Outcome, Protocol, Split};
use std::collections::LinkedList;

/// What a pass knows of a deque: how many of its 1024 parts it holds, what was put in, what was
/// taken through this pass, and whether there is no other pass with a part. No value of it is made.
pub struct Account {
    pub parts: u64,
    pub put: LinkedList<u32>,
    pub taken: LinkedList<u32>,
    pub alone: bool,
}

/// The rule of each deque: what was put in is what was taken and what it holds.
pub struct Balance;

impl Protocol<u32, Account> for Balance {
    ghost use Rattle.work_share.specs.Accounts.{founder, stranger, Balanced};

    ghost holds = { Balanced };

    ghost first = { founder };

    ghost guest = { stranger };
}

/// A part is cut off, for another pass.
pub(crate) struct Cut;

impl Split<Account> for Cut {
    ghost use Rattle.work_share.specs.Accounts.{lessened, part_of};

    ghost left = { lessened };

    ghost right = { part_of };
}

/// Two accounts are put together.
pub(crate) struct Gather;

impl Join<Account> for Gather {
    ghost use Rattle.work_share.specs.Accounts.{gathered, stranger};

    ghost both = { gathered };

    ghost spent = { stranger };
}

/// Nets are put in.
pub(crate) struct Puts;

impl Outcome<u32, Account> for Puts {
    ghost use Rattle.work_share.specs.Accounts.{HasPut};

    ghost then = { HasPut };
}

/// Nets are taken, or none is there.
pub(crate) struct Takes;

impl Outcome<u32, Account> for Takes {
    ghost use Rattle.work_share.specs.Accounts.{HasTaken, WasEmpty};

    ghost then = { HasTaken };

    ghost empty = { WasEmpty };
}
