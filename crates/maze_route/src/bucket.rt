//! Buckets of pairs by their keys.
ghost use Rattle.std.specs.Prelude.{◌≡◌, ℕ, ◌%◌, ◌<◌, List, Option, None};
ghost use Rattle.maze_route.specs.Buckets.{IsBucket, BeginsChain, IsLeastKey};
ghost use Rattle.maze_route.specs.Spreading.{IsSpreading, IsSpread};

use crate::heads::Heads;
use crate::slot::Slot;

/// How many keys a block has. Each key of the last key's block has a bucket of its own.
pub(crate) const BLOCK: u64 = 1024;

/// The bucket of a key. Behind those of the last key's block there is one for each number of low bits
/// that can hold all those in which the numbers of two blocks differ.
#[inline(always)]
pub(crate) fn bucket_of(last: u64, key: u64) -> usize
    ensures bucket { IsBucket last key result }
    ensures few { result < 1078 }
{
    let bits = 64 - (last / BLOCK ^ key / BLOCK).leading_zeros() as usize;
    if bits == 0 {
        own_bucket(key)
    } else {
        BLOCK as usize - 1 + bits
    }
}

/// The bucket of a key as long as the last key is of its block.
#[inline(always)]
pub(crate) fn own_bucket(key: u64) -> usize
    ensures own { result ≡ key % 1024 }
    ensures few { result < 1024 }
{
    (key % BLOCK) as usize
}

/// The least key of the pairs of a chain, from its first place.
pub(crate) fn least_key(slots: &[Slot], first: u32) -> u64
    requires { BeginsChain slots.now first }
    ensures { IsLeastKey slots.now first result }
{
    let start = slots[first as usize];
    let mut least = start.key;
    let mut at = start.next;
    while let Some(place) = at {
        let slot = slots[place as usize];
        least = least.min(slot.key);
        at = slot.next;
    }
    least
}

/// Links the pairs of a chain into their buckets by a new last key.
pub(crate) fn spread(slots: &mut Vec<Slot>, heads: &mut Heads, last: u64, first: Option<u32>)
    requires { IsSpread slots.old.items heads.old first last }
    ensures { (free : Option ℕ) (bucket : ℕ) (pairs : List (ℕ × ℕ)) →
        IsSpreading slots.old.items heads.old free first last bucket pairs →
        IsSpreading slots.new.items heads.new free None last bucket pairs }
{
    let mut at = first;
    while let Some(place) = at {
        let slot = slots[place as usize];
        let bucket = bucket_of(last, slot.key);
        slots[place as usize] = Slot {
            next: heads.at(bucket),
            ..slot
        };
        heads.set(bucket, Some(place));
        at = slot.next;
    }
}
