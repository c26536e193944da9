//! Lists where two branches meet.
ghost use Rattle.std.specs.Prelude.{◌≡◌, ◌+◌, ◌-◌, ◌*◌, ◌<◌, ◌≤◌, ◌^◌, [], length, All};
ghost use Rattle.std.specs.Vec.{vec_len, vec_capacity};
ghost use Rattle.ginneken_lists.specs.Candidates.{all_joined};
ghost use Rattle.ginneken_lists.specs.Pairs.{candidates, IsList};
ghost use Rattle.ginneken_lists.specs.StoredPairs.{pairs_of};
ghost use Rattle.ginneken_lists.specs.Trails.{trail_of, Keeps};
ghost use Rattle.ginneken_lists.specs.TrailStore.{AreChoices};

use crate::choice::Choice;
use crate::steps::Steps;
use crate::stored::{Stored, read};
use crate::trail::push_both;
use std::sync::ledger::Ledger;

/// Joins the pairs of two branches, for which there is room. It goes along both at once: the two pairs
/// in hand are joined, and it goes on in the list whose time is the lesser, or in both. What the pair
/// of lesser time gives with the later ones of the other list has a greater load, and no later time.
pub(crate) fn merge<L: Ledger>(
    left: &[Stored],
    right: &[Stored],
    merged: &mut Vec<Stored>,
    choices: &mut Vec<Choice>,
    steps: &mut Steps<L>,
)
    requires left { IsList (pairs_of left.now) }
    requires right { IsList (pairs_of right.now) }
    requires left_loads { All (λ pair. pair.load ≤ 2 ^ 60) left.now }
    requires right_loads { All (λ pair. pair.load ≤ 2 ^ 60) right.now }
    requires left_marks { All (λ pair. pair.mark ≤ length (trail_of choices.old.items)) left.now }
    requires right_marks { All (λ pair. pair.mark ≤ length (trail_of choices.old.items)) right.now }
    requires none { merged.old.items ≡ [] }
    requires room { length left.now + length right.now ≤ vec_capacity merged.old }
    requires choices { AreChoices choices.old.items }
    requires choice_room { vec_len choices.old + (length left.now + length right.now) ≤ vec_capacity choices.old }
    ensures joined { candidates (trail_of choices.new.items) (pairs_of merged.new.items)
        ≡ all_joined (candidates (trail_of choices.old.items) (pairs_of left.now))
        (candidates (trail_of choices.old.items) (pairs_of right.now)) }
    ensures choices { AreChoices choices.new.items }
    ensures kept { Keeps (trail_of choices.old.items) (trail_of choices.new.items) }
    ensures marks { All (λ pair. pair.mark ≤ length (trail_of choices.new.items)) merged.new.items }
    ensures some { 0 < length merged.new.items }
    ensures short { length merged.new.items + 1 ≤ length left.now + length right.now }
    ensures steps { steps.new ≤ steps.old + 2 * (length left.now + length right.now) }
{
    let mut before = 0;
    let mut beside = 0;
    while before < left.len() {
        if beside == right.len() {
            return;
        }
        let first = read(left, before, steps);
        let second = read(right, beside, steps);
        let mark = push_both(choices, first.mark, second.mark);
        merged.push_reserved(first.joined(second, mark));
        if first.time.is_later(second.time) {
            beside += 1;
            continue;
        }
        before += 1;
        if second.time.is_later(first.time) {
            continue;
        }
        beside += 1;
    }
}
