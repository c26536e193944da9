//! Runs of calls side by side, whose threads one thread makes.
ghost use Rattle.std.specs.Prelude.{◌≡◌, ◌+◌, ◌<◌, ◌^◌, length};
ghost use Rattle.std.specs.Fork.{AcceptsEach, ChangesEach};
ghost use Rattle.beside_calls.specs.Runs.{AreReady, AreDone};
ghost use denote.Param.Send.{IsSync, IsSend};

use crate::run::call_run;
use std::thread::{Threads, join_mut};

/// Calls `f(at, &mut items[at])` at each place. The places are cut into at most so many runs, whose
/// lengths differ by at most one. Each run has a thread of its own where one can be made, but the first
/// is done by this one.
///
/// `for_each_mut` halves the places, and has each thread make the one for half of its part. Threads that
/// two threads make at one moment are often put on one processor, and stay there while another idles;
/// those that one thread makes one after another seldom are.
pub fn for_each_beside<R: Threads + Sync, T: Send, F: Fn(usize, &mut T) + Sync>(
    rt: &R,
    items: &mut [T],
    threads: usize,
    f: &F,
)
    requires threads { 0 < threads }
    requires accepts { AcceptsEach F.Fn f.now items.old }
    ensures { ChangesEach F.Fn f.now items.old items.new }
{
    call_all(rt, f, threads, items);
}

/// Makes the calls at the first items, by at most so many threads with this one.
#[cycle(beside)]
fn call_all<R: Threads + Sync, T: Send, F: Fn(usize, &mut T) + Sync>(
    rt: &R,
    f: &F,
    threads: usize,
    items: &mut [T],
)
    requires threads { 0 < threads }
    requires ready { AreReady F.Fn f.now 0 items.old }
    ensures { AreDone F.Fn f.now 0 items.old items.new }
{
    let count = items.len();
    if threads == 1 || count < 2 {
        call_run(f, 0, items);
        return;
    }
    let first = count - count.div_ceil(threads);
    let (others, own) = items.split_at_mut(first);
    call_beside(rt, f, threads, first, own, others);
}

/// Makes the calls of the last run in a new thread, and the others from this one.
#[cycle(beside)]
fn call_beside<R: Threads + Sync, T: Send, F: Fn(usize, &mut T) + Sync>(
    rt: &R,
    f: &F,
    threads: usize,
    first: usize,
    own: &mut [T],
    others: &mut [T],
)
    requires threads { 1 < threads }
    requires room { first + length own.old < 2 ^ 64 }
    requires own { AreReady F.Fn f.now first own.old }
    requires others { AreReady F.Fn f.now 0 others.old }
    ensures own { AreDone F.Fn f.now first own.old own.new }
    ensures others { AreDone F.Fn f.now 0 others.old others.new }
{
    let left = threads - 1;
    let mut apart = ||
        requires { IsSync F.row × IsSend T.row × (first + length own.now < 2 ^ 64) ×
            AreReady F.Fn f.now first own.now }
        ensures { AreDone F.Fn f.entry.now first own.entry.now own.exit.now }
    { call_run(f, first, own) };
    let mut here = ||
        requires { IsSync R.row × IsSync F.row × IsSend T.row × (0 < left) ×
            AreReady F.Fn f.now 0 others.now }
        ensures { AreDone F.Fn f.entry.now 0 others.entry.now others.exit.now }
    { call_all(rt, f, left, others) };
    join_mut(rt, &mut apart, &mut here);
}
