//! Workers and their hands.
ghost use Rattle.std.specs.Prelude.{◌≡◌, map, length, All, IfOk, Ok};

use crate::team::Member;
use crate::worker::Worker;
use std::alloc::{AllocError, Global};
use track_book::BookName;
use work_share::Hand;

/// The workers with their hands, in order. The only error is want of memory.
pub(crate) fn members_of<N: BookName>(
    alloc: Global,
    workers: Vec<Worker<N>>,
    hands: Vec<Hand>,
) -> Result<Vec<Member<N>>, AllocError>
    requires { length hands.items ≡ length workers.items }
    ensures workers { IfOk result (λ members. map (λ m. m.worker) members.items ≡ workers.items) }
    ensures hands { IfOk result (λ members. map (λ m. m.hand) members.items ≡ hands.items) }
{
    let mut members = Vec::with_capacity(alloc, workers.len())?;
    let mut hands = hands.into_iter();
    let mut rest = workers.into_iter();
    while let Some(worker) = rest.next() {
        let Some(hand) = hands.next() else {
            unreachable!()
        };
        members.push_reserved(Member {
            worker,
            hand,
            done: Ok(()),
        });
    }
    Ok(members)
}

/// The workers and the hands of members, each in order. The error is want of memory, here or at one of
/// the members.
pub(crate) fn parted<N: BookName>(
    alloc: Global,
    members: Vec<Member<N>>,
) -> Result<(Vec<Worker<N>>, Vec<Hand>), AllocError>
    ensures workers { IfOk result (λ parts. parts.0.items ≡ map (λ m. m.worker) members.items) }
    ensures hands { IfOk result (λ parts. parts.1.items ≡ map (λ m. m.hand) members.items) }
    ensures done { IfOk result (λ parts. All (λ m. m.done ≡ Ok tt) members.items) }
{
    let mut workers = Vec::with_capacity(alloc, members.len())?;
    let mut hands = Vec::with_capacity(alloc, members.len())?;
    let mut rest = members.into_iter();
    while let Some(member) = rest.next() {
        let Member { worker, hand, done } = member;
        done?;
        workers.push_reserved(worker);
        hands.push_reserved(hand);
    }
    Ok((workers, hands))
}
