//! Deques under their rule.
ghost use Rattle.std.specs.Prelude.{◌≡◌, ◌+◌, ◌<◌, ◌⊎◌, [], ◌∷◌, IfOk, IfSome, IfNone};
ghost use Rattle.crossbeam_deque.specs.Handles.{view, taken, IsPassOf, SamePass, stealer_deque, stealer_flavor, worker_flavor, worker_view};
ghost use Rattle.work_share.specs.Accounts.{founder, HasTaken, WasEmpty};

use crate::account::{Account, Balance, Takes};
use crossbeam_deque::{Steal, Stealer, Worker};
use std::alloc::{AllocError, Global};

/// The end of a deque at which nets are put in. Its owner takes the first.
pub(crate) type Owner = Worker<u32, Global, Account, Balance>;

/// The end at which others take the first.
pub(crate) type Thief = Stealer<u32, Global, Account, Balance>;

/// What one of those others knows of a deque.
pub(crate) type Pass = crossbeam_deque::Pass<u32, Account>;

/// An empty deque with room for this many nets.
pub(crate) fn owner(alloc: Global, room: usize) -> Result<Owner, AllocError>
    ensures fifo { IfOk result (λ o. worker_flavor o ≡ 0) }
    ensures account { IfOk result (λ o. worker_view o ≡ founder) }
{
    Owner::fifo_as(alloc, room)
}

/// Takes the first net of a deque. Where another was quicker it tries again, at most so many times.
pub(crate) fn steal(thief: &Thief, pass: &mut Pass, tries: usize) -> Option<u32>
    requires fifo { stealer_flavor thief.now ≡ 0 }
    requires pass { IsPassOf (stealer_deque thief.now) pass.old }
    requires part { 0 < (view pass.old).parts }
    ensures same { SamePass pass.old pass.new }
    ensures taken { IfSome result (λ net. HasTaken (view pass.old) (net ∷ []) (view pass.new)) }
    ensures kept { IfNone result (view pass.new ≡ view pass.old) }
    ensures none { IfNone result (WasEmpty (view pass.old) ⊎ (taken pass.old + tries < taken pass.new)) }
{
    for _ in 0..=tries {
        match thief.steal_as::<Takes>(pass) {
            Steal::Success(net) => return Some(net),
            Steal::Empty => return None,
            Steal::Retry => {}
        }
    }
    None
}
