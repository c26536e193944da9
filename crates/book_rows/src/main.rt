//! Rows of the book and the shared book, which it prints: calls of a book for one thread; a few calls
//! of a shared one by one thread, two each by two threads, and many by four threads. Of threads it
//! prints only what is so whatever the order in which their calls come.
//!
//! With words it makes calls for timing from outside: `book_rows copies COUNT` copies a tree of 20
//! nodes so often; `book_rows claims THREADS COUNT` has each thread claim and release a net with
//! such a tree so often; `book_rows syncs THREADS COUNT` does the same, and each thread follows the
//! book with a replica after each 64 of them. It then prints how many nodes or entries there came to
//! be, so that the work can't be left out.
#![tactic(auto)]

mod alone;
mod calls;
mod claims;
mod closing;
mod crowd;
mod designs;
mod games;
mod heard;
mod orders;
mod replay;
mod rows;
mod single;
mod steps;
mod turns;

use crate::games::Claims;
use crate::orders::{Order, carry_out};
use std::env::Env;
use std::{env, io};

/// The number that a word writes, or 1.
fn number(word: Option<String>) -> u32 {
    match word {
        Some(word) => word.as_str().parse().unwrap_or(1),
        None => 1,
    }
}

/// What the words ask for.
fn order<R: Env + AllocGlobal>(rt: &R) -> io::Result<Order> {
    let mut words = env::args(rt)?.skip(1);
    let Some(kind) = words.next() else {
        return Ok(Order::Rows);
    };
    if kind.as_str() == "copies" {
        return Ok(Order::Copies(number(words.next())));
    }
    Ok(Order::Claims(Claims {
        threads: number(words.next()),
        count: number(words.next()),
        every: if kind.as_str() == "syncs" {
            Some(64)
        } else {
            None
        },
    }))
}

fn main(rt: HostRuntime) -> io::Result<()> {
    let order = order(&rt)?;
    carry_out(&rt, rt.alloc(), order)
}
