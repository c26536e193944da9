//! Hands, which take the nets that were shared.
ghost use Rattle.std.specs.Prelude.{◌≡◌, ◌≢◌, ◌<◌, ◌≤◌, ℕ, [], length, slice_get, All, IfSome, IfNone, true, vec_len};
ghost use Rattle.std.specs.Vec.{vec_capacity};
ghost use Rattle.crossbeam_deque.specs.Handles.{stealer_deque, stealer_flavor, worker_flavor, worker_deque, worker_view};
ghost use Rattle.work_share.specs.Accounts.{WasEmpty};
ghost use Rattle.work_share.specs.HandStore.{hand_of, known_by, known_of, IsBare, IsHand, next_own, put_length};
ghost use Rattle.work_share.specs.HandSteps.{TakesOwn, TakesFrom, FindsNone};
ghost use Rattle.work_share.specs.Views.{Known, ShareView, IsHandOf, times};

use crate::account::Takes;
use crate::deque::{Owner, Pass, Thief, steal};
use std::marker::Model;

/// What one thread takes. It has a deque of its own, and a pass of each other's.
#[derive(Drop)]
pub struct Hand {
    number: u32,
    own: Owner,
    passes: Vec<Pass>,
    taken: Vec<u32>,
}

impl Model for Hand {
    ghost use Rattle.work_share.specs.Views.{HandView};

    ghost Value = { HandView };

    ghost use Rattle.work_share.specs.HandStore.{seen, KeepsHand};

    ghost view = { seen };

    ghost invariant = { KeepsHand };
}

/// What a hand is made of.
#[derive(Drop)]
pub(crate) struct HandParts {
    pub own: Owner,
    pub passes: Vec<Pass>,
    pub taken: Vec<u32>,
}

impl Hand {
    /// A hand that has taken nothing, with room for all nets. The passes are by deque; that of its own
    /// deque is a stranger's.
    pub(crate) fn new(number: u32, parts: HandParts) -> Hand
        requires hand { IsHand (hand_of number parts) }
        requires fifo { worker_flavor parts.own ≡ 0 }
        requires bare { All IsBare parts.passes.items }
        requires room { put_length (hand_of number parts) ≤ vec_capacity parts.taken }
        ensures { result ≡ hand_of number parts }
    {
        let HandParts { own, passes, taken } = parts;
        Hand {
            number,
            own,
            passes,
            taken,
        }
    }

    /// The hand's place among the hands, from 0.
    pub fn number(&self) -> u32
        ensures { result ≡ self.now.number }
    {
        self.number
    }

    /// The nets that it has taken, in order. It took no net more often than that was shared.
    pub fn taken(&self) -> &[u32]
        ensures taken { result.now ≡ self.now.taken }
        ensures among { (s : ShareView) → IsHandOf s self.now → (net : ℕ) →
            times net self.now.taken ≤ times net s.nets }
    {
        &self.taken
    }

    /// Takes the first net of its own deque.
    pub(crate) fn take_own(&mut self) -> Option<u32>
        ensures taken { IfSome result (λ net. TakesOwn self.old net self.new) }
        ensures kept { IfNone result (self.new ≡ self.old) }
        ensures none { IfNone result (WasEmpty self.old.own.account) }
        ensures order { length self.old.others ≡ 1 → result ≡ next_own self.old }
    {
        let net = self.own.pop_as::<Takes>()?;
        self.taken.push_reserved(net);
        Some(net)
    }

    /// Takes the first net of another's deque. Where another hand was quicker it tries again, at most
    /// so many times.
    pub(crate) fn steal(&mut self, thief: &Thief, place: usize, tries: usize) -> Option<u32>
        requires fifo { stealer_flavor thief.now ≡ 0 }
        requires place { place < length self.old.others }
        requires other { place ≢ self.old.number }
        requires deque { (k : Known) → slice_get self.old.others place ≡ Some k → k.deque ≡ stealer_deque thief.now }
        ensures taken { IfSome result (λ net. TakesFrom place self.old net self.new) }
        ensures none { IfNone result (FindsNone place tries self.old self.new) }
    {
        let net = steal(thief, &mut self.passes[place], tries)?;
        self.taken.push_reserved(net);
        Some(net)
    }

    /// What the hand was made of, and what it took.
    pub(crate) fn into_parts(self) -> HandParts
        ensures hand { IsHand self }
        ensures is { hand_of self.number result ≡ self }
        ensures fifo { worker_flavor result.own ≡ 0 }
        ensures bare { All IsBare result.passes.items }
    {
        HandParts {
            own: self.own,
            passes: self.passes,
            taken: self.taken,
        }
    }
}
