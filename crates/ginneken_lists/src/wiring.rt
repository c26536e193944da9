//! Lists along edges.
ghost use Rattle.std.specs.Prelude.{◌≡◌, ◌+◌, ◌<◌, ◌≤◌, ℕ, List, length, map, All};
ghost use Rattle.rc_library.specs.Libraries.{IsWire};
ghost use Rattle.ginneken_lists.specs.Candidates.{Chosen, all_along};
ghost use Rattle.ginneken_lists.specs.Pairs.{candidates, IsList, IsInRange};
ghost use Rattle.ginneken_lists.specs.StoredPairs.{pairs_of};

use crate::steps::Steps;
use crate::stored::{Stored, read};
use rc_library::Wire;
use std::sync::ledger::Ledger;

/// Takes pairs to the upper end of an edge. Loads go on rising there, so a pair is kept where its
/// time is later than that of the last one that was kept.
pub(crate) fn wire<L: Ledger>(pairs: &mut Vec<Stored>, wire: Wire, steps: &mut Steps<L>)
    requires list { IsList (pairs_of pairs.old.items) }
    requires range { All IsInRange (pairs_of pairs.old.items) }
    requires wire { IsWire wire }
    ensures along { (trail : List Chosen) → candidates trail (pairs_of pairs.new.items)
        ≡ all_along wire (candidates trail (pairs_of pairs.old.items)) }
    ensures marks { (most : ℕ) → All (λ pair. pair.mark ≤ most) pairs.old.items
        → All (λ pair. pair.mark ≤ most) pairs.new.items }
    ensures some { 0 < length pairs.new.items }
    ensures short { length pairs.new.items ≤ length pairs.old.items }
    ensures steps { steps.new ≡ steps.old + length pairs.old.items }
{
    let mut last = read(pairs, 0, steps).along(wire);
    pairs[0] = last;
    let mut kept = 1;
    for at in 1..pairs.len() {
        let pair = read(pairs, at, steps).along(wire);
        if pair.time.is_later(last.time) {
            pairs[kept] = pair;
            kept += 1;
            last = pair;
        }
    }
    pairs.truncate(kept);
}
