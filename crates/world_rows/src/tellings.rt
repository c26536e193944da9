//! What is told of steps.
use book_state::{History, Reply};
use gr_text::Text;
use round_core::{Phase, World};
use std::alloc::AllocError;

/// The reply of the entry at a place, if there is one.
pub(crate) fn put_reply(told: &mut Text, history: &History, place: u64) -> Result<(), AllocError> {
    if place >= history.len() {
        return Ok(());
    }
    match history.entry(place).reply {
        Reply::Claimed => told.put(b" Claimed"),
        Reply::Taken => told.put(b" Taken"),
        Reply::Full { demand, .. } => {
            told.put(b" Full ")?;
            told.put_number(demand)
        }
        Reply::Released => told.put(b" Released"),
        Reply::NotBooked => told.put(b" NotBooked"),
        Reply::Marked { overflow } => {
            told.put(b" Marked ")?;
            told.put_number(overflow)
        }
    }
}

pub(crate) fn put_phase(told: &mut Text, phase: Phase) -> Result<(), AllocError> {
    match phase {
        Phase::Idle => told.put(b" Idle"),
        Phase::Holding { net } => {
            told.put(b" Holding ")?;
            told.put_number(net)
        }
        Phase::Trying { net, tries, .. } => {
            told.put(b" Trying ")?;
            told.put_number(net)?;
            told.put(b" ")?;
            told.put_number(tries)
        }
        Phase::Ended => told.put(b" Ended"),
    }
}

/// The round, and how many nets are left in it.
pub(crate) fn put_end(told: &mut Text, world: &World<'_>) -> Result<(), AllocError> {
    told.put(b"round ")?;
    told.put_number(world.round())?;
    told.put(b" left ")?;
    told.put_number(world.left())?;
    told.put(b"\n")
}
