//! Takes by four threads.
ghost use Rattle.std.specs.Prelude.{◌≡◌, ◌<◌, length};
ghost use Rattle.work_share.specs.Views.{IsHandOf, AreHandsOf};

use std::alloc::{AllocError, Global};
use std::io;
use std::thread::{Threads, for_each_mut};
use work_share::{Hand, Share, ShareEnd, share};

/// How many threads there are.
const CROWD: u32 = 4;

/// How many nets are shared.
const NETS: u32 = 10_000;

/// Prints whether four hands, each in a thread of its own, take each net once.
pub(crate) fn show<R: Threads + Print + Sync>(rt: &R, alloc: Global) -> io::Result<()> {
    println!(rt; "four hands")?;
    let nets = nets(alloc)?;
    let (share, mut hands) = share(alloc, &nets, CROWD)?;
    take_all(rt, &share, &mut hands);
    let end = share.end(hands)?;
    let once = are_once(alloc, &end)?;
    println!(rt; "each net is taken once: {once}")?;
    println!(rt; "the rest is {:?}", end.rest())
}

/// The numbers of all nets.
fn nets(alloc: Global) -> Result<Vec<u32>, AllocError> {
    let mut nets = Vec::with_capacity(alloc, NETS as usize)?;
    for net in 0..NETS {
        nets.push(net)?;
    }
    Ok(nets)
}

/// Each hand takes until it finds none.
fn take_all<R: Threads + Sync>(rt: &R, share: &Share, hands: &mut Vec<Hand>)
    requires { AreHandsOf share.now hands.old.items }
    ensures { AreHandsOf share.now hands.new.items }
{
    for_each_mut(
        rt,
        hands.as_mut_slice(),
        CROWD as usize,
        &|_, hand: &mut Hand|
            requires { IsHandOf share.now hand.now }
            ensures { IsHandOf share.entry.now hand.exit.now × (hand.exit.now.number ≡ hand.entry.now.number) }
        { drain(share, hand) },
    );
}

fn drain(share: &Share, hand: &mut Hand)
    requires { IsHandOf share.now hand.old }
    ensures of { IsHandOf share.now hand.new }
    ensures number { hand.new.number ≡ hand.old.number }
{
    for _ in 0..=NETS {
        if share.take(hand).is_none() {
            break;
        }
    }
}

/// Whether each net is among those that the hands took, once.
fn are_once(alloc: Global, end: &ShareEnd) -> Result<bool, AllocError>
    requires { length end.now.taken ≡ 4 }
{
    let mut times = vec![in alloc; 0u8; NETS as usize]?;
    for hand in 0..CROWD {
        count(&mut times, end.taken(hand));
    }
    Ok(times.iter().all(|&n| n == 1))
}

/// Counts nets.
fn count(times: &mut Vec<u8>, nets: &[u32]) {
    for net in nets {
        if let Some(n) = times.get_mut(*net as usize) {
            *n = n.saturating_add(1);
        }
    }
}
