//! What threads call of a shared book.
ghost use Rattle.std.specs.Prelude.{◌≤◌};

use crate::steps::{Step, Which};

/// A game, of which is printed what is so in whatever order the calls come.
#[derive(Clone, Copy)]
pub(crate) enum Game {
    /// The one claims a and marks, the other claims b and releases it.
    Pair,
    /// Each claims and releases both nets in turn, and sometimes marks.
    Crowd,
}

impl Game {
    /// How many calls each thread makes.
    pub(crate) fn turns(self) -> u32 {
        match self {
            Game::Pair => 2,
            Game::Crowd => 10_000,
        }
    }

    /// The call of a thread's turn.
    pub(crate) fn step(self, number: u32, turn: u32) -> Step {
        match self {
            Game::Pair => pair(number, turn),
            Game::Crowd => crowd(turn),
        }
    }
}

fn pair(number: u32, turn: u32) -> Step {
    let net = if number == 0 { Which::A } else { Which::B };
    if turn == 0 {
        Step::Claim(net, Some(0))
    } else if number == 0 {
        Step::Mark
    } else {
        Step::Release(net)
    }
}

fn crowd(turn: u32) -> Step {
    let net = if turn / 2 % 2 == 0 {
        Which::A
    } else {
        Which::B
    };
    if turn % 101 == 100 {
        Step::Mark
    } else if turn % 2 == 0 {
        Step::Claim(net, Some(0))
    } else {
        Step::Release(net)
    }
}

/// How often each of some threads claims and releases a net, for timing.
#[derive(Clone, Copy)]
pub(crate) struct Claims {
    pub(crate) threads: u32,
    pub(crate) count: u32,
    /// After how many of them the thread follows the book with a replica, if it does.
    pub(crate) every: Option<u32>,
}

/// What the threads are started for.
#[derive(Clone, Copy)]
pub(crate) enum Task {
    Play(Game),
    Time(Claims),
}

impl Task {
    /// How many threads there are.
    pub(crate) fn threads(self) -> u32
        ensures some { 1 ≤ result }
        ensures few { result ≤ 64 }
    {
        match self {
            Task::Play(Game::Pair) => 2,
            Task::Play(Game::Crowd) => 4,
            Task::Time(claims) => claims.threads.clamp(1, 4),
        }
    }
}
