//! What was shared, and the taking of it.
ghost use Rattle.std.specs.Prelude.{◌≡◌, ◌≤◌, ◌<◌, ◌≢◌, ◌++◌, ℕ, length, slice_get, IfOk, IfSome, IfNone};
ghost use Rattle.std.specs.Option.{option_to_list};
ghost use Rattle.work_share.specs.Views.{IsHandOf, AreHandsOf, IsDone, IsEnded, times};
ghost use Rattle.work_share.specs.HandSteps.{HasMore, IsDoneFrom};

use crate::deque::Thief;
use crate::ending::{Parted, ShareEnd, gather, part, rest_of};
use crate::hand::Hand;
use std::alloc::AllocError;
use std::marker::Model;

/// Nets that are shared out to hands.
#[derive(Drop)]
pub struct Share {
    pub(crate) nets: Vec<u32>,
    pub(crate) thieves: Vec<Thief>,
}

impl Model for Share {
    ghost use Rattle.work_share.specs.Views.{ShareView};

    ghost Value = { ShareView };

    ghost use Rattle.work_share.specs.ShareStore.{seen, KeepsShare};

    ghost view = { seen };

    ghost invariant = { KeepsShare };
}

impl Share {
    /// Takes a net for a hand of this share: the first of its own deque, or else the first of another's.
    /// Where another hand was quicker it tries that deque again, at most as often as there were nets
    /// shared. It takes no memory and waits for nobody. With one worker, it gives the nets in their
    /// order.
    pub fn take(&self, hand: &mut Hand) -> Option<u32>
        requires { IsHandOf self.now hand.old }
        ensures hand { IsHandOf self.now hand.new }
        ensures number { hand.new.number ≡ hand.old.number }
        ensures taken { hand.new.taken ≡ hand.old.taken ++ option_to_list result }
        ensures among { IfSome result (λ net. 0 < times net self.now.nets) }
        ensures order { self.now.workers ≡ 1 → result ≡ slice_get self.now.nets (length hand.old.taken) }
        ensures none { IfNone result (IsDone self.now hand.old hand.new) }
    {
        if let Some(net) = hand.take_own() {
            return Some(net);
        }
        let own = hand.number() as usize;
        if let Some(net) = self.take_from(hand, own + 1, self.thieves.len()) {
            return Some(net);
        }
        self.take_from(hand, 0, own)
    }

    /// Takes the first net of a deque, of those from a place on to below another.
    fn take_from(&self, hand: &mut Hand, from: usize, to: usize) -> Option<u32>
        requires hand { IsHandOf self.now hand.old }
        requires order { from ≤ to }
        requires to { to ≤ self.now.workers }
        requires other { (at : ℕ) → from ≤ at → at < to → at ≢ hand.old.number }
        ensures taken { IfSome result (λ net. HasMore self.now hand.old net hand.new) }
        ensures some { IfSome result (λ _. from < to) }
        ensures none { IfNone result (IsDoneFrom from to self.now hand.old hand.new) }
    {
        for place in from..to {
            if let Some(net) = hand.steal(&self.thieves[place], place, self.nets.len()) {
                return Some(net);
            }
        }
        None
    }

    /// Ends the share. The hands are all of its hands, by number. The only error is want of memory, and
    /// gives the share up.
    pub fn end(self, hands: Vec<Hand>) -> Result<ShareEnd, AllocError>
        requires { AreHandsOf self hands.items }
        ensures { IfOk result (λ end. IsEnded self hands.items end) }
    {
        let Share { nets, thieves } = self;
        drop((nets, thieves));
        let alloc = *hands.allocator();
        let Parted {
            mut owners,
            rows,
            taken,
        } = part(hands)?;
        gather(&mut owners, rows);
        let rest = rest_of(alloc, owners)?;
        Ok(ShareEnd::new(taken, rest))
    }
}
