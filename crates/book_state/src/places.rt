//! Where the claims of the booked nets stand in a history.
ghost use Rattle.std.specs.Prelude.{◌≡◌, ◌+◌, ◌^◌, ◌<◌, ◌≤◌, length, replicate, take, slice_set, Some, None, IfOk};
ghost use Rattle.std.specs.Option.{option_copied};
ghost use Rattle.book_state.specs.Books.{nets_of, IsLegal};
ghost use Rattle.book_state.specs.PlaceStore.{told};
ghost use Rattle.book_state.specs.Replicas.{tree_at_place, place_of, ArePlaces};

use crate::entry::{Call, Reply};
use crate::history::History;
use gr_base::RouteTree;
use grid_demand::Capacity;
use std::alloc::{AllocError, Global};
use std::marker::Model;

/// Where the claims of the booked nets stand in a history, by net, in 8 bytes a net: for a booked net
/// the length of the history's first part that ends with its claim, for another net 0.
#[derive(Debug, Drop)]
pub(crate) struct Places {
    fronts: Vec<u64>,
}

impl Model for Places {
    ghost use Rattle.std.specs.Prelude.{ℕ, List, Option, map};

    ghost Value = { List (Option ℕ) };

    ghost use Rattle.book_state.specs.PlaceStore.{told};

    ghost view = { λ p. map told p.fronts.items };
}

impl Places {
    /// No net is booked. The only error is want of memory.
    pub(crate) fn none(alloc: Global, nets: u32) -> Result<Places, AllocError>
        ensures { IfOk result (λ places. places ≡ replicate nets None) }
    {
        Ok(Places {
            fronts: vec![in alloc; 0; nets as usize]?,
        })
    }

    /// How many nets there are.
    pub(crate) fn nets(&self) -> usize
        ensures { result ≡ length self.now }
    {
        self.fronts.len()
    }

    /// The place of the claim by which a net is booked. None where it isn't booked.
    pub(crate) fn get(&self, net: usize) -> Option<u64>
        ensures { result ≡ place_of self.now net }
    {
        self.fronts.get(net)?.checked_sub(1)
    }

    /// The length of the history's first part that ends with that claim. 0 where it isn't booked.
    pub(crate) fn front(&self, net: usize) -> u64
        requires { net < length self.now }
        ensures { told result ≡ place_of self.now net }
    {
        self.fronts[net]
    }

    /// Notes that a net is booked by the claim at a place.
    pub(crate) fn set(&mut self, net: u32, place: u64)
        requires net { net < length self.old }
        requires place { place < 2 ^ 62 }
        ensures { self.new ≡ slice_set self.old net (Some place) }
    {
        self.fronts[net as usize] = place + 1;
    }

    /// Notes that a net isn't booked.
    pub(crate) fn clear(&mut self, net: u32)
        requires { net < length self.old }
        ensures { self.new ≡ slice_set self.old net None }
    {
        self.fronts[net as usize] = 0;
    }
}

/// The places of the claims of the booked nets after the first `front` entries of a legal history. The
/// only error is want of memory.
pub(crate) fn places_at(
    capacity: &Capacity,
    history: &History,
    nets: u32,
    front: u64,
) -> Result<Places, AllocError>
    requires legal { IsLegal capacity.now history.now }
    requires nets { nets ≡ nets_of capacity.now }
    requires front { front ≤ length history.now }
    ensures nets { IfOk result (λ places. length places ≡ nets) }
    ensures places { IfOk result (λ places. ArePlaces (take front history.now) places) }
{
    let mut places = Places::none(history.alloc(), nets)?;
    for place in 0..front {
        note_place(capacity, history, place, &mut places);
    }
    Ok(places)
}

/// Notes what the entry at a place books or frees.
fn note_place(capacity: &Capacity, history: &History, place: u64, places: &mut Places)
    requires legal { IsLegal capacity.now history.now }
    requires place { place < length history.now }
    requires nets { length places.old ≡ nets_of capacity.now }
    requires places { ArePlaces (take place history.now) places.old }
    ensures nets { length places.new ≡ length places.old }
    ensures places { ArePlaces (take (place + 1) history.now) places.new }
{
    let entry = history.entry(place);
    match &entry.call {
        Call::Claim(claim) => match entry.reply {
            Reply::Claimed => places.set(claim.net, place),
            _ => {}
        },
        Call::Release { net } => match entry.reply {
            Reply::Released => places.clear(*net),
            _ => {}
        },
        Call::Mark => {}
    }
}

/// The tree of the claim by which a net is booked, where the claims stand at these places.
pub(crate) fn tree_by_place<'a>(
    history: &'a History,
    places: &Places,
    net: usize,
) -> Option<&'a RouteTree>
    ensures { option_copied result ≡ tree_at_place history.now (place_of places.now net) }
{
    let place = places.get(net)?;
    tree_of_claim(history, place)
}

/// The tree of the claim at a place.
fn tree_of_claim(history: &History, place: u64) -> Option<&RouteTree>
    ensures { option_copied result ≡ tree_at_place history.now (Some place) }
{
    if place >= history.len() {
        return None;
    }
    match &history.entry(place).call {
        Call::Claim(claim) => Some(&claim.tree),
        Call::Release { .. } | Call::Mark => None,
    }
}
