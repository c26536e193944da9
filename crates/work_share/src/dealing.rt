//! The sharing of nets.
ghost use Rattle.std.specs.Prelude.{◌≡◌, ◌+◌, ◌≤◌, ◌<◌, [], ◌∷◌, ◌==◌, if◌then◌else◌, length, map, take, All, IfOk, OnOk};
ghost use Rattle.crossbeam_deque.specs.Handles.{SameWorker, stealer_deque, stealer_flavor, worker_deque, worker_flavor, worker_view};
ghost use Rattle.work_share.specs.Accounts.{lessened, with_put};
ghost use Rattle.work_share.specs.Dealt.{deals};
ghost use Rattle.work_share.specs.HandStore.{known_by, IsBare};
ghost use Rattle.work_share.specs.Owners.{stock_of, put_by, row_known, no_cuts, cuts_after, IsFresh, IsCut, AreCut, IsRow, AreRows};
ghost use Rattle.work_share.specs.Views.{AreNewHands, IsDealt, share_of};

use crate::account::{Cut, Puts};
use crate::deque::{Owner, Pass, Thief, owner};
use crate::hand::{Hand, HandParts};
use crate::shared::Share;
use std::alloc::{AllocError, Global};

/// Shares nets out to hands, of which there are from 1 to 16. The net at place i goes into the deque
/// of the hand i modulo `workers`. Each hand has room for all nets. The only error is want of memory.
pub fn share(alloc: Global, nets: &[u32], workers: u32) -> Result<(Share, Vec<Hand>), AllocError>
    requires some { 1 ≤ workers }
    requires few { workers ≤ 16 }
    ensures { IfOk result (λ dealt. IsDealt nets.now workers dealt.0 dealt.1.items) }
{
    let mut owners = owners(alloc, nets.len(), workers)?;
    deal(&mut owners, nets)?;
    let thieves = thieves(alloc, &owners)?;
    let rows = rows(alloc, &mut owners, &thieves)?;
    let hands = hands(alloc, owners, rows, nets)?;
    let nets = Vec::from_slice(alloc, nets)?;
    Ok((Share { nets, thieves }, hands))
}

/// Empty deques, with room for this many nets in all.
fn owners(alloc: Global, nets: usize, workers: u32) -> Result<Vec<Owner>, AllocError>
    requires { 1 ≤ workers }
    ensures count { IfOk result (λ owners. length owners.items ≡ workers) }
    ensures fresh { IfOk result (λ owners. All IsFresh owners.items) }
{
    let room = nets.div_ceil(workers as usize);
    let mut owners = Vec::with_capacity(alloc, workers as usize)?;
    for _ in 0..workers {
        owners.push(owner(alloc, room)?)?;
    }
    Ok(owners)
}

/// Puts the nets into the deques in turn.
fn deal(owners: &mut Vec<Owner>, nets: &[u32]) -> Result<(), AllocError>
    requires some { 0 < length owners.old.items }
    requires fresh { All IsFresh owners.old.items }
    ensures count { OnOk result (length owners.new.items ≡ length owners.old.items) }
    ensures cut { OnOk result (AreCut no_cuts owners.new.items) }
    ensures put { OnOk result (map put_by owners.new.items ≡ deals (length owners.old.items) nets.now) }
{
    for place in 0..nets.len() {
        let hand = place % owners.len();
        put(&mut owners[hand], nets[place])?;
    }
    Ok(())
}

/// Puts a net into a deque that nobody else knows.
fn put(owner: &mut Owner, net: u32) -> Result<(), AllocError>
    requires { (worker_view owner.old).parts ≡ 1024 }
    ensures same { SameWorker owner.old owner.new }
    ensures put { OnOk result (worker_view owner.new ≡ with_put (worker_view owner.old) (net ∷ [])) }
{
    if owner.push_as::<Puts>(net).is_err() {
        return Err(AllocError);
    }
    Ok(())
}

/// What others need to take from each deque.
fn thieves(alloc: Global, owners: &Vec<Owner>) -> Result<Vec<Thief>, AllocError>
    requires { AreCut no_cuts owners.now.items }
    ensures fifo { IfOk result (λ thieves. All (λ thief. stealer_flavor thief ≡ 0) thieves.items) }
    ensures deques { IfOk result (λ thieves. map stealer_deque thieves.items ≡ map worker_deque owners.now.items) }
{
    let mut thieves = Vec::with_capacity(alloc, owners.len())?;
    for place in 0..owners.len() {
        thieves.push(owners[place].stealer()?)?;
    }
    Ok(thieves)
}

/// The passes of each hand.
fn rows(
    alloc: Global,
    owners: &mut Vec<Owner>,
    thieves: &Vec<Thief>,
) -> Result<Vec<Vec<Pass>>, AllocError>
    requires few { length owners.old.items ≤ 16 }
    requires cut { AreCut no_cuts owners.old.items }
    requires thieves { map stealer_deque thieves.now.items ≡ map worker_deque owners.old.items }
    ensures same { OnOk result (map stock_of owners.new.items ≡ map stock_of owners.old.items) }
    ensures cut { OnOk result (AreCut (cuts_after (length owners.new.items)) owners.new.items) }
    ensures rows { IfOk result (λ rows. AreRows (map stock_of owners.old.items) rows.items) }
{
    let mut rows = Vec::with_capacity(alloc, owners.len())?;
    for number in 0..owners.len() {
        rows.push(row(alloc, owners, thieves, number)?)?;
    }
    Ok(rows)
}

/// The passes of one hand, by deque.
fn row(
    alloc: Global,
    owners: &mut Vec<Owner>,
    thieves: &Vec<Thief>,
    number: usize,
) -> Result<Vec<Pass>, AllocError>
    requires number { number < 16 }
    requires cut { AreCut (cuts_after number) owners.old.items }
    requires thieves { map stealer_deque thieves.now.items ≡ map worker_deque owners.old.items }
    ensures same { OnOk result (map stock_of owners.new.items ≡ map stock_of owners.old.items) }
    ensures cut { OnOk result (AreCut (cuts_after (number + 1)) owners.new.items) }
    ensures row { IfOk result (λ row. IsRow number (map stock_of owners.old.items) row.items) }
{
    let mut passes = Vec::with_capacity(alloc, owners.len())?;
    for place in 0..owners.len() {
        passes.push(pass(&mut owners[place], &thieves[place], place == number))?;
    }
    Ok(passes)
}

/// A hand's pass of a deque: of its own that of a stranger, of another's one with a part.
fn pass(owner: &mut Owner, thief: &Thief, home: bool) -> Pass
    requires thief { stealer_deque thief.now ≡ worker_deque owner.old }
    requires parts { 1 < (worker_view owner.old).parts }
    ensures same { SameWorker owner.old owner.new }
    ensures owner { worker_view owner.new ≡ (if home then worker_view owner.old else lessened (worker_view owner.old)) }
    ensures known { known_by result ≡ row_known home (stock_of owner.old) }
    ensures bare { IsBare result }
{
    if home {
        thief.pass()
    } else {
        owner.another::<Cut>()
    }
}

/// The hands with these deques and passes.
fn hands(
    alloc: Global,
    owners: Vec<Owner>,
    rows: Vec<Vec<Pass>>,
    nets: &[u32],
) -> Result<Vec<Hand>, AllocError>
    requires few { length owners.items ≤ 16 }
    requires cut { AreCut (cuts_after (length owners.items)) owners.items }
    requires rows { AreRows (map stock_of owners.items) rows.items }
    requires put { map put_by owners.items ≡ deals (length owners.items) nets.now }
    ensures { IfOk result (λ hands. AreNewHands (share_of nets.now (map worker_deque owners.items)) hands.items) }
{
    let mut hands = Vec::with_capacity(alloc, owners.len())?;
    let mut rows = rows.into_iter();
    let mut owners = owners.into_iter();
    let mut number = 0;
    while let Some(own) = owners.next() {
        let Some(passes) = rows.next() else {
            unreachable!()
        };
        let taken = Vec::with_capacity(alloc, nets.len())?;
        hands.push(Hand::new(number, HandParts { own, passes, taken }))?;
        number += 1;
    }
    Ok(hands)
}
