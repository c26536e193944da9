//! The end of a share.
ghost use Rattle.std.specs.Prelude.{◌≡◌, ◌+◌, ◌<◌, ℕ, Bool, [], length, map, sum_by, count_by, slice_index_or, All, IfOk, OnOk};
ghost use Rattle.crossbeam_deque.specs.Handles.{worker_deque, worker_view, worker_flavor};
ghost use Rattle.work_share.specs.EndStore.{end_of};
ghost use Rattle.work_share.specs.Endings.{IsParted, AreOf, AreJoined, AreRowsOf, IsFifo, HasPart, HasOwnParts, IsWhole};
ghost use Rattle.work_share.specs.Endings.{HaveGathered, HaveRest, IsMoved};
ghost use Rattle.work_share.specs.Owners.{stock_of};

use crate::account::{Gather, Takes};
use crate::deque::{Owner, Pass};
use crate::hand::Hand;
use std::alloc::{AllocError, Global};
use std::marker::Model;

/// What is left of a share: what each hand took, and the nets that no hand took.
#[derive(Debug, Drop)]
pub struct ShareEnd {
    taken: Vec<Vec<u32>>,
    rest: Vec<u32>,
}

impl Model for ShareEnd {
    ghost use Rattle.work_share.specs.Views.{EndView};

    ghost Value = { EndView };

    ghost use Rattle.work_share.specs.EndStore.{seen};

    ghost view = { seen };
}

impl ShareEnd {
    pub(crate) fn new(taken: Vec<Vec<u32>>, rest: Vec<u32>) -> ShareEnd
        ensures { result ≡ end_of taken.items rest.items }
    {
        ShareEnd { taken, rest }
    }

    /// The nets that a hand took, in order.
    pub fn taken(&self, hand: u32) -> &[u32]
        requires { hand < length self.now.taken }
        ensures { result.now ≡ slice_index_or self.now.taken hand [] }
    {
        &self.taken[hand as usize]
    }

    /// The nets that no hand took.
    pub fn rest(&self) -> &[u32]
        ensures { result.now ≡ self.now.rest }
    {
        &self.rest
    }
}

/// What hands were made of, hand by hand.
#[derive(Drop)]
pub(crate) struct Parted {
    pub owners: Vec<Owner>,
    pub rows: Vec<Vec<Pass>>,
    pub taken: Vec<Vec<u32>>,
}

/// Takes hands apart.
pub(crate) fn part(hands: Vec<Hand>) -> Result<Parted, AllocError>
    ensures { IfOk result (λ parts. IsParted hands.items parts) }
{
    let alloc = *hands.allocator();
    let mut owners = Vec::with_capacity(alloc, hands.len())?;
    let mut rows = Vec::with_capacity(alloc, hands.len())?;
    let mut taken = Vec::with_capacity(alloc, hands.len())?;
    let mut rest = hands.into_iter();
    while let Some(hand) = rest.next() {
        let parts = hand.into_parts();
        owners.push(parts.own)?;
        rows.push(parts.passes)?;
        taken.push(parts.taken)?;
    }
    Ok(Parted {
        owners,
        rows,
        taken,
    })
}

/// The owners come to know what was taken through all passes, and have all parts.
pub(crate) fn gather(owners: &mut Vec<Owner>, rows: Vec<Vec<Pass>>)
    requires few { length owners.old.items < 1025 }
    requires fifo { All IsFifo owners.old.items }
    requires parts { All (HasOwnParts (length owners.old.items)) owners.old.items }
    requires rows { AreRowsOf (map worker_deque owners.old.items) rows.items }
    ensures same { map stock_of owners.new.items ≡ map stock_of owners.old.items }
    ensures fifo { All IsFifo owners.new.items }
    ensures whole { All IsWhole owners.new.items }
    ensures taken { HaveGathered owners.old.items rows.items owners.new.items }
{
    let mut rest = rows.into_iter();
    while let Some(row) = rest.next() {
        gather_row(owners, row);
    }
}

/// Each owner comes to know what was taken through the pass of its deque.
fn gather_row(owners: &mut Vec<Owner>, row: Vec<Pass>)
    requires row { AreOf (map worker_deque owners.old.items) row.items }
    requires parts { All HasPart owners.old.items }
    ensures { AreJoined owners.old.items row.items owners.new.items }
{
    let mut rest = row.into_iter();
    let mut place = 0;
    while let Some(pass) = rest.next() {
        owners[place].absorb::<Gather>(pass);
        place += 1;
    }
}

/// The nets that are left in deques that nobody else knows.
pub(crate) fn rest_of(alloc: Global, owners: Vec<Owner>) -> Result<Vec<u32>, AllocError>
    requires fifo { All IsFifo owners.items }
    requires whole { All IsWhole owners.items }
    ensures { IfOk result (λ rest. HaveRest owners.items rest.items) }
{
    let mut nets = Vec::new(alloc);
    let mut rest = owners.into_iter();
    while let Some(owner) = rest.next() {
        empty(owner, &mut nets)?;
    }
    Ok(nets)
}

/// Moves the nets of a deque that nobody else knows.
fn empty(owner: Owner, nets: &mut Vec<u32>) -> Result<(), AllocError>
    requires fifo { IsFifo owner }
    requires whole { IsWhole owner }
    ensures { OnOk result (IsMoved owner nets.old.items nets.new.items) }
{
    let mut owner = owner;
    while let Some(net) = owner.pop_as::<Takes>() {
        nets.push(net)?;
    }
    Ok(())
}
