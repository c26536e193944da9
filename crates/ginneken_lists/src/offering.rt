//! Buffers over the pairs of a list.
ghost use Rattle.std.specs.Prelude.{◌≡◌, ◌+◌, ◌*◌, ◌<◌, ◌≤◌, ◌^◌, ℕ, List, Some, length, All, Contains, OnOk};
ghost use Rattle.std.specs.Vec.{vec_len, vec_capacity};
ghost use Rattle.rc_library.specs.Libraries.{IsLibrary};
ghost use Rattle.ginneken_lists.specs.Candidates.{Chosen, best_driven, offers};
ghost use Rattle.ginneken_lists.specs.Pairs.{candidates, IsList, IsInRange};
ghost use Rattle.ginneken_lists.specs.StoredPairs.{pairs_of, stored_candidate};
ghost use Rattle.ginneken_lists.specs.Offering.{offered, with_all};
ghost use Rattle.ginneken_lists.specs.Trails.{trail_of, Keeps};
ghost use Rattle.ginneken_lists.specs.TrailStore.{AreChoices};

use crate::choice::Choice;
use crate::insertion::insert;
use crate::steps::Steps;
use crate::stored::{Stored, driving_delay, read};
use rc_library::Library;
use std::alloc::AllocError;
use std::sync::ledger::Ledger;

/// The pair that a resistance drives best: of greatest time at the input, and of these of least
/// load. It goes through the loads from the greatest down, and ends where all times that are left
/// are worse even at the least load.
pub(crate) fn best_driven<L: Ledger>(pairs: &[Stored], r: u32, steps: &mut Steps<L>) -> Stored
    requires list { IsList (pairs_of pairs.now) }
    requires range { All IsInRange (pairs_of pairs.now) }
    ensures best { (trail : List Chosen) → best_driven r (candidates trail (pairs_of pairs.now))
        ≡ Some (stored_candidate trail result) }
    ensures one { Contains pairs.now result }
    ensures steps { steps.new ≤ steps.old + length pairs.now + 1 }
    ensures counted { steps.old < steps.new }
{
    let least = driving_delay(r, read(pairs, 0, steps).load);
    let last = pairs.len() - 1;
    let mut best = read(pairs, last, steps);
    let mut most = best.driven_time(r);
    for at in (0..last).rev() {
        let pair = read(pairs, at, steps);
        if most.is_later(pair.time.less(least)) {
            return best;
        }
        let time = pair.driven_time(r);
        if most.is_later(time) {
            continue;
        }
        best = pair;
        most = time;
    }
    best
}

/// Replaces what was found by what each kind of buffers gives over the pair that it drives best, with
/// that pair's mark. The only error is want of memory.
pub(crate) fn find_offers<L: Ledger>(
    found: &mut Vec<Stored>,
    pairs: &[Stored],
    library: &Library,
    steps: &mut Steps<L>,
) -> Result<(), AllocError>
    requires list { IsList (pairs_of pairs.now) }
    requires range { All IsInRange (pairs_of pairs.now) }
    ensures offers { OnOk result ((trail : List Chosen) (node : ℕ) →
        offers library.now node (candidates trail (pairs_of pairs.now)) ≡ offered trail node 0 found.new.items) }
    ensures marks { OnOk result ((most : ℕ) → All (λ pair. pair.mark ≤ most) pairs.now
        → All (λ pair. pair.mark ≤ most) found.new.items) }
    ensures kinds { OnOk result (length found.new.items ≡ length library.now.kinds) }
    ensures steps { steps.new ≤ steps.old + length library.now.kinds * (length pairs.now + 1) }
    ensures library { IsLibrary library.now }
{
    found.clear();
    for number in 0..library.kinds() {
        let kind = library.kind(number);
        found.push(best_driven(pairs, kind.r, steps).behind(kind))?;
    }
    Ok(())
}

/// Offers what was found of each kind of buffers to a list, in the order of the kinds.
pub(crate) fn offer_each<L: Ledger>(
    pairs: &mut Vec<Stored>,
    found: &[Stored],
    node: u32,
    choices: &mut Vec<Choice>,
    steps: &mut Steps<L>,
)
    requires list { IsList (pairs_of pairs.old.items) }
    requires room { vec_len pairs.old + length found.now ≤ vec_capacity pairs.old }
    requires choice_room { vec_len choices.old + length found.now ≤ vec_capacity choices.old }
    requires kinds { length found.now < 2 ^ 32 }
    requires choices { AreChoices choices.old.items }
    requires marks { All (λ pair. pair.mark ≤ length choices.old.items) pairs.old.items }
    requires found_marks { All (λ pair. pair.mark ≤ length choices.old.items) found.now }
    ensures pairs { candidates (trail_of choices.new.items) (pairs_of pairs.new.items)
        ≡ with_all (candidates (trail_of choices.old.items) (pairs_of pairs.old.items))
        (offered (trail_of choices.old.items) node 0 found.now) }
    ensures choices { AreChoices choices.new.items }
    ensures kept { Keeps (trail_of choices.old.items) (trail_of choices.new.items) }
    ensures marks { All (λ pair. pair.mark ≤ length choices.new.items) pairs.new.items }
    ensures list { IsList (pairs_of pairs.new.items) }
    ensures short { length pairs.new.items ≤ length pairs.old.items + length found.now }
    ensures steps { steps.new ≤ steps.old + length found.now * (2 * (length pairs.old.items + length found.now)) }
{
    for kind in 0..found.len() as u32 {
        insert(pairs, found[kind as usize], node, kind, choices, steps);
    }
}
