//! Which entries of a history are whose.
ghost use Rattle.std.specs.Prelude.{◌≡◌, [], ◌∷◌, ◌++◌, map, IfOk, OnOk};
ghost use Rattle.std.specs.List.{range_with_len};
ghost use Rattle.run_histories.specs.Hands.{log_of, empty_log, with_place};

use book_state::History;
use std::alloc::{AllocError, Global};
use std::marker::Model;

/// The number under which the marks stand in a history.
pub const MARKER: u32 = 0;

/// Places in a history, counted from 0 and rising.
#[derive(Debug, Drop)]
pub struct Places {
    places: Vec<u64>,
}

/// The places in a history of the entries of the caller with this number.
#[derive(Debug, Drop)]
pub struct HandLog {
    pub number: u32,
    pub places: Places,
}

impl Model for Places {
    ghost use Rattle.std.specs.Prelude.{ℕ, List};

    ghost Value = { List ℕ };

    ghost view = { λ p. p.places.items };
}

impl Places {
    fn new(alloc: Global) -> Places
        ensures { result ≡ [] }
    {
        Places {
            places: Vec::new(alloc),
        }
    }

    /// The only error is want of memory.
    fn push(&mut self, place: u64) -> Result<(), AllocError>
        ensures { OnOk result (self.new ≡ self.old ++ place ∷ []) }
    {
        self.places.push(place)?;
        Ok(())
    }

    /// The places, from the least on.
    pub fn as_slice(&self) -> &[u64]
        ensures { result.now ≡ self.now }
    {
        &self.places
    }
}

/// The logs of the callers whose numbers are below this. The only error is want of memory.
pub fn hands_of(alloc: Global, history: &History, callers: u32) -> Result<Vec<HandLog>, AllocError>
    ensures { IfOk result (λ hands. hands.items ≡ map (log_of history.now) (range_with_len 0 callers)) }
{
    let mut hands = no_logs(alloc, callers)?;
    for place in 0..history.len() {
        let number = history.entry(place).number;
        if number < callers {
            note(&mut hands[number as usize], place)?;
        }
    }
    Ok(hands)
}

/// The logs of the callers whose numbers are below this, without places.
fn no_logs(alloc: Global, callers: u32) -> Result<Vec<HandLog>, AllocError>
    ensures { IfOk result (λ hands. hands.items ≡ map empty_log (range_with_len 0 callers)) }
{
    let mut hands = Vec::new(alloc);
    for number in 0..callers {
        hands.push(HandLog {
            number,
            places: Places::new(alloc),
        })?;
    }
    Ok(hands)
}

/// Puts a place behind those of a log. The only error is want of memory.
fn note(log: &mut HandLog, place: u64) -> Result<(), AllocError>
    ensures { OnOk result (log.new ≡ with_place log.old place) }
{
    log.places.push(place)?;
    Ok(())
}
