//! The rounds of a history, counted entry by entry.
ghost use Rattle.std.specs.Prelude.{◌≡◌, ◌++◌, ◌∷◌, [], List, false, cond, OnOk, IsTrue};
ghost use Rattle.book_state.specs.Entries.{is_mark};
ghost use Rattle.book_state.specs.declared.entry.Entry.{Entry as AnEntry};
ghost use Rattle.round_trace.specs.Counts.{ended_lines, IsCountOf, HasRoom};
ghost use Rattle.round_trace.specs.Traces.{is_claimed_reply};

use crate::done::{RoundDone, put_round};
use book_state::{Call, Entry, Reply};
use gr_text::Text;
use std::alloc::{AllocError, Global};

/// What a first part of a history says of its rounds: the lines of those that have ended, how many marks
/// there are, and how many claims behind the last one were answered Claimed, and how many Full.
#[derive(Drop)]
pub(crate) struct RoundsSoFar {
    pub lines: Text,
    pub marks: u64,
    nets: u64,
    full: u64,
}

impl RoundsSoFar {
    pub(crate) fn new(alloc: Global) -> RoundsSoFar
        ensures { IsCountOf [] result }
    {
        RoundsSoFar {
            lines: Text::new(alloc),
            marks: 0,
            nets: 0,
            full: 0,
        }
    }

    /// Counts the next entry. At an error the count means nothing.
    pub(crate) fn take(&mut self, entry: &Entry) -> Result<(), AllocError>
        requires { HasRoom self.old }
        ensures { OnOk result ((before : List AnEntry) → IsCountOf before self.old → IsCountOf (before ++ entry.now ∷ []) self.new) }
    {
        if is_mark(entry) {
            self.end_round(entry.reply)
        } else {
            self.count(entry.reply);
            Ok(())
        }
    }

    /// A mark ends the round.
    fn end_round(&mut self, reply: Reply) -> Result<(), AllocError>
        requires { HasRoom self.old }
        ensures { OnOk result ((before : List AnEntry) → (e : AnEntry) → IsTrue (is_mark e) → e.reply ≡ reply →
            IsCountOf before self.old → IsCountOf (before ++ e ∷ []) self.new) }
    {
        put_ended(&mut self.lines, reply, self.marks, self.nets, self.full)?;
        self.marks += 1;
        self.nets = 0;
        self.full = 0;
        Ok(())
    }

    /// Counts the reply of a call that isn't a mark.
    fn count(&mut self, reply: Reply)
        requires { HasRoom self.old }
        ensures { (before : List AnEntry) → (e : AnEntry) → is_mark e ≡ false → e.reply ≡ reply →
            IsCountOf before self.old → IsCountOf (before ++ e ∷ []) self.new }
    {
        self.nets += one_if(is_claimed(reply));
        self.full += one_if(reply.is_full());
    }
}

/// Puts the line of a round that ended with a mark of this reply. At an error a first part of it may have
/// been added.
fn put_ended(
    lines: &mut Text,
    reply: Reply,
    round: u64,
    nets: u64,
    full: u64,
) -> Result<(), AllocError>
    ensures { OnOk result (lines.new ≡ lines.old ++ ended_lines reply round nets full) }
{
    let Reply::Marked { overflow } = reply else {
        return Ok(());
    };
    let done = RoundDone {
        round,
        overflow,
        nets,
        full,
    };
    put_round(lines, done)
}

/// Whether a tree was booked.
fn is_claimed(reply: Reply) -> bool
    ensures { result ≡ is_claimed_reply reply }
{
    matches!(reply, Reply::Claimed)
}

/// Whether an entry is a mark's.
fn is_mark(entry: &Entry) -> bool
    ensures { result ≡ is_mark entry.now }
{
    matches!(entry.call, Call::Mark)
}

/// 1 where it is so, else 0.
fn one_if(so: bool) -> u64
    ensures { result ≡ cond so 1 0 }
{
    if so { 1 } else { 0 }
}
