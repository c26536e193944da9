//! The pair of least key.
ghost use Rattle.std.specs.Prelude.{◌≡◌, ℕ, Option};
ghost use Rattle.std.specs.List.{filter_map};
ghost use Rattle.maze_route.specs.Buckets.{pair_in, Keeps};
ghost use Rattle.maze_route.specs.Renewed.{IsRenewed, IsRenewable, IsTakenOut};

use crate::bucket::{BLOCK, least_key, own_bucket, spread};
use crate::heads::Heads;
use crate::slot::Slot;

/// Answers the least key, and makes the bucket that has it one of this key alone: the first full bucket
/// is one, or it is spread by its least key.
pub(crate) fn renew(
    slots: &mut Vec<Slot>,
    heads: &mut Heads,
    last: u64,
    bucket: usize,
    first: u32,
) -> u64
    requires { IsRenewable slots.old.items heads.old last bucket first }
    ensures renewed { (free : Option ℕ) → Keeps slots.old.items heads.old free last →
        IsRenewed slots.new.items heads.new free result }
    ensures pairs { filter_map pair_in slots.new.items ≡ filter_map pair_in slots.old.items }
{
    if bucket < BLOCK as usize {
        return last - last % BLOCK + bucket as u64;
    }
    let least = least_key(slots, first);
    heads.set(bucket, None);
    spread(slots, heads, least, Some(first));
    least
}

/// Takes the first pair out of the last key's bucket.
#[inline(always)]
pub(crate) fn take_first(
    slots: &mut Vec<Slot>,
    heads: &mut Heads,
    free: &mut Option<u32>,
    last: u64,
) -> Slot
    requires { IsRenewed slots.old.items heads.old free.old last }
    ensures { IsTakenOut slots.old.items slots.new.items heads.new free.new last result }
{
    let own = own_bucket(last);
    let place = heads.at(own).unwrap();
    let slot = slots[place as usize];
    heads.set(own, slot.next);
    slots[place as usize] = Slot {
        next: *free,
        taken: false,
        ..slot
    };
    *free = Some(place);
    slot
}
