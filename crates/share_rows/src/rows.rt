//! Takes by one thread.
ghost use Rattle.std.specs.Prelude.{◌≡◌, ◌<◌, length};
ghost use Rattle.work_share.specs.Views.{IsHandOf, AreHandsOf};

use std::alloc::Global;
use std::io;
use work_share::{Hand, Share, ShareEnd, share};

/// One hand takes all nets in their order.
pub(crate) fn alone<R: Print>(rt: &R, alloc: Global) -> io::Result<()> {
    println!(rt; "one hand")?;
    let (share, mut hands) = share(alloc, &[7, 3, 3, 9, 1], 1)?;
    takes(rt, &share, &mut hands, 0, 6)?;
    ends(rt, share.end(hands)?, 1)
}

/// The second of two hands takes from its own deque and then from the first's, and leaves a rest.
pub(crate) fn pair<R: Print>(rt: &R, alloc: Global) -> io::Result<()> {
    println!(rt; "two hands")?;
    let (share, mut hands) = share(alloc, &[10, 11, 12, 13, 14, 15, 16], 2)?;
    takes(rt, &share, &mut hands, 1, 5)?;
    takes(rt, &share, &mut hands, 0, 1)?;
    ends(rt, share.end(hands)?, 2)
}

/// The first of two hands takes all nets.
pub(crate) fn first<R: Print>(rt: &R, alloc: Global) -> io::Result<()> {
    println!(rt; "the first of two hands")?;
    let (share, mut hands) = share(alloc, &[5, 7], 2)?;
    takes(rt, &share, &mut hands, 0, 3)?;
    ends(rt, share.end(hands)?, 2)
}

/// Three hands of no nets.
pub(crate) fn none<R: Print>(rt: &R, alloc: Global) -> io::Result<()> {
    println!(rt; "no nets")?;
    let (share, mut hands) = share(alloc, &[], 3)?;
    takes(rt, &share, &mut hands, 2, 1)?;
    ends(rt, share.end(hands)?, 3)
}

/// Prints what a hand takes in so many takes.
fn takes<R: Print>(
    rt: &R,
    share: &Share,
    hands: &mut Vec<Hand>,
    hand: u32,
    count: u32,
) -> io::Result<()>
    requires hands { AreHandsOf share.now hands.old.items }
    requires hand { hand < length hands.old.items }
    ensures { AreHandsOf share.now hands.new.items }
{
    for _ in 0..count {
        take(rt, share, &mut hands[hand as usize])?;
    }
    Ok(())
}

fn take<R: Print>(rt: &R, share: &Share, hand: &mut Hand) -> io::Result<()>
    requires { IsHandOf share.now hand.old }
    ensures of { IsHandOf share.now hand.new }
    ensures number { hand.new.number ≡ hand.old.number }
{
    let taken = share.take(hand);
    println!(rt; "hand {} takes {taken:?}", hand.number())
}

/// Prints what each hand took, and the rest.
fn ends<R: Print>(rt: &R, end: ShareEnd, hands: u32) -> io::Result<()>
    requires { hands ≡ length end.taken }
{
    for hand in 0..hands {
        println!(rt; "hand {hand} took {:?}", end.taken(hand))?;
    }
    println!(rt; "the rest is {:?}", end.rest())
}
