//! One more pair among others.
ghost use Rattle.std.specs.Prelude.{◌≡◌, ◌+◌, ◌*◌, ◌<◌, ◌≤◌, ℕ, ◌++◌, List, Some, length, take, drop, All};
ghost use Rattle.std.specs.Vec.{vec_len, vec_capacity};
ghost use Rattle.ginneken_lists.specs.Candidates.{Chosen, with_one};
ghost use Rattle.ginneken_lists.specs.Pairs.{candidates, seen_of, IsList};
ghost use Rattle.ginneken_lists.specs.StoredPairs.{pair_of, pairs_of, stored_candidate};
ghost use Rattle.ginneken_lists.specs.Offering.{buffer_over, place_of, without_served};
ghost use Rattle.ginneken_lists.specs.Trails.{trail_of, Keeps};
ghost use Rattle.ginneken_lists.specs.TrailStore.{AreChoices};

use crate::choice::Choice;
use crate::steps::Steps;
use crate::stored::{Stored, read};
use crate::trail::push_buffer;
use std::sync::ledger::Ledger;

/// Offers one more pair to others, with the mark of a buffer of a kind at a node over what the pair's
/// own mark names. It comes behind those of smaller load, unless one of these or the next serves as
/// well, and then nothing changes; those that it serves as well as are taken out.
pub(crate) fn insert<L: Ledger>(
    pairs: &mut Vec<Stored>,
    pair: Stored,
    node: u32,
    kind: u32,
    choices: &mut Vec<Choice>,
    steps: &mut Steps<L>,
)
    requires list { IsList (pairs_of pairs.old.items) }
    requires room { vec_len pairs.old < vec_capacity pairs.old }
    requires choice_room { vec_len choices.old < vec_capacity choices.old }
    requires choices { AreChoices choices.old.items }
    requires marks { All (λ other. other.mark ≤ length choices.old.items) pairs.old.items }
    requires mark { pair.mark ≤ length choices.old.items }
    ensures pairs { candidates (trail_of choices.new.items) (pairs_of pairs.new.items)
        ≡ with_one (buffer_over (trail_of choices.old.items) node kind pair)
        (candidates (trail_of choices.old.items) (pairs_of pairs.old.items)) }
    ensures choices { AreChoices choices.new.items }
    ensures kept { Keeps (trail_of choices.old.items) (trail_of choices.new.items) }
    ensures marks { All (λ other. other.mark ≤ length choices.new.items) pairs.new.items }
    ensures list { IsList (pairs_of pairs.new.items) }
    ensures len { vec_len pairs.new ≤ vec_len pairs.old + 1 }
    ensures room { vec_capacity pairs.old ≤ vec_capacity pairs.new }
    ensures choice_len { vec_len choices.new ≤ vec_len choices.old + 1 }
    ensures choice_room { vec_capacity choices.old ≤ vec_capacity choices.new }
    ensures steps { steps.new ≤ steps.old + 2 * length pairs.old.items }
{
    let Some(at) = place(pairs, pair, steps) else {
        return;
    };
    let mark = push_buffer(choices, node, kind, pair.mark);
    put(pairs, at, pair.marked(mark), steps);
}

/// Puts one more pair at its place among others, and takes out those that it serves as well as.
fn put<L: Ledger>(pairs: &mut Vec<Stored>, at: usize, pair: Stored, steps: &mut Steps<L>)
    requires list { IsList (pairs_of pairs.old.items) }
    requires room { vec_len pairs.old < vec_capacity pairs.old }
    requires place { place_of (seen_of (pair_of pair)) 0 pairs.old.items ≡ Some at }
    ensures pairs { (trail : List Chosen) → candidates trail (pairs_of pairs.new.items)
        ≡ with_one (stored_candidate trail pair) (candidates trail (pairs_of pairs.old.items)) }
    ensures marks { (most : ℕ) → pair.mark ≤ most → All (λ other. other.mark ≤ most) pairs.old.items
        → All (λ other. other.mark ≤ most) pairs.new.items }
    ensures list { IsList (pairs_of pairs.new.items) }
    ensures len { vec_len pairs.new ≤ vec_len pairs.old + 1 }
    ensures room { vec_capacity pairs.old ≤ vec_capacity pairs.new }
    ensures steps { steps.new ≤ steps.old + length pairs.old.items }
{
    remove_served(pairs, at, pair, steps);
    let inserted = pairs.insert(at, pair);
    prove!(inserted.is_ok());
}

/// The place of one more pair; none where one of those before it or the next serves as well.
fn place<L: Ledger>(pairs: &[Stored], pair: Stored, steps: &mut Steps<L>) -> Option<usize>
    ensures place { result ≡ place_of (seen_of (pair_of pair)) 0 pairs.now }
    ensures steps { steps.new ≤ steps.old + length pairs.now }
{
    for at in 0..pairs.len() {
        let other = read(pairs, at, steps);
        if other.serves(pair) {
            return None;
        }
        if other.load >= pair.load {
            return Some(at);
        }
    }
    Some(pairs.len())
}

/// Takes out the pairs from a place on that a pair serves as well as: these stand there first.
fn remove_served<L: Ledger>(pairs: &mut Vec<Stored>, at: usize, pair: Stored, steps: &mut Steps<L>)
    requires at { at ≤ length pairs.old.items }
    requires list { IsList (pairs_of pairs.old.items) }
    requires behind { All (λ other. pair.load ≤ other.load) (drop at pairs.old.items) }
    ensures pairs { pairs.new.items ≡ take at pairs.old.items ++ without_served pair (drop at pairs.old.items) }
    ensures len { vec_len pairs.new ≤ vec_len pairs.old }
    ensures room { vec_capacity pairs.new ≡ vec_capacity pairs.old }
    ensures steps { steps.new ≤ steps.old + length pairs.old.items }
{
    while at < pairs.len() {
        if !pair.serves(read(pairs, at, steps)) {
            return;
        }
        pairs.remove(at);
    }
}
