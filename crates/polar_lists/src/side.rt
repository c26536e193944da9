//! The list for one signal, which may lack.
ghost use Rattle.std.specs.Prelude.{◌≡◌, ◌+◌, ◌-◌, ◌*◌, ◌≤◌, ◌<◌, ◌^◌, [], ◌∷◌, ℕ, List, Some, length, All, Contains, IfOk, IfSome, option_map};
ghost use Rattle.rc_library.specs.Libraries.{IsWire, IsKind};
ghost use Rattle.ginneken_lists.specs.Candidates.{Chosen, all_along, all_joined, best_driven, with_buffer};
ghost use Rattle.ginneken_lists.specs.Pairs.{candidate_of, buffer_of, candidates as candidates_of, AreMarked, IsInRange};
ghost use Rattle.ginneken_lists.specs.Trails.{Keeps};
ghost use Rattle.polar_lists.specs.BothLists.{all_in, all_offers, with_some, AreOffersMarked};
ghost use Rattle.ginneken_lists.specs.Offering.{with_all};

use ginneken_lists::{ListPool, Offer, OptionList, Pair, Steps, Trail};
use rc_library::{Kind, Wire};
use std::alloc::{AllocError, Global};
use std::sync::ledger::Ledger;

/// The list at the upper end of an edge.
pub(crate) fn along<L: Ledger>(
    side: Option<OptionList>,
    wire: Wire,
    steps: &mut Steps<L>,
) -> Option<OptionList>
    requires range { All IsInRange (all_in side) }
    requires wire { IsWire wire }
    ensures along { (trail : List Chosen) → candidates_of trail (all_in result)
        ≡ all_along wire (candidates_of trail (all_in side)) }
    ensures marks { (trail : List Chosen) → AreMarked trail (all_in side) → AreMarked trail (all_in result) }
    ensures short { length (all_in result) ≤ length (all_in side) }
    ensures steps { steps.new ≤ steps.old + length (all_in side) }
{
    let mut list = side?;
    list.wire(wire, steps);
    Some(list)
}

/// The list where two branches meet. None where a branch lacks one; the pool keeps the memory of the
/// other's. The only error is want of memory.
pub(crate) fn joined<L: Ledger>(
    alloc: Global,
    own: Option<OptionList>,
    upper: Option<OptionList>,
    trail: &mut Trail,
    pool: &mut ListPool,
    steps: &mut Steps<L>,
) -> Result<Option<OptionList>, AllocError>
    requires own_range { All IsInRange (all_in own) }
    requires range { All IsInRange (all_in upper) }
    requires own_marks { AreMarked trail.old (all_in own) }
    requires marks { AreMarked trail.old (all_in upper) }
    ensures joined { IfOk result (λ joined. candidates_of trail.new (all_in joined)
        ≡ all_joined (candidates_of trail.old (all_in own)) (candidates_of trail.old (all_in upper))) }
    ensures marks { IfOk result (λ joined. AreMarked trail.new (all_in joined)) }
    ensures kept { Keeps trail.old trail.new }
    ensures short { IfOk result (λ joined.
        length (all_in joined) - 1 ≤ length (all_in own) - 1 + (length (all_in upper) - 1)) }
    ensures steps { steps.new ≤ steps.old + 2 * (length (all_in own) + length (all_in upper)) }
{
    let Some(own) = own else {
        give_up(upper, pool);
        return Ok(None);
    };
    let Some(upper) = upper else {
        own.give_up(pool);
        return Ok(None);
    };
    let joined = OptionList::merge(alloc, own, upper, trail, pool, steps)?;
    Ok(Some(joined))
}

/// Gives a list up, if there is one.
pub(crate) fn give_up(side: Option<OptionList>, pool: &mut ListPool) {
    if let Some(list) = side {
        list.give_up(pool);
    }
}

/// A buffer of a kind over the pair that it drives best. None without a list.
pub(crate) fn buffered<L: Ledger>(
    side: &Option<OptionList>,
    kind: Kind,
    steps: &mut Steps<L>,
) -> Option<Offer>
    requires range { All IsInRange (all_in side.now) }
    requires kind { IsKind kind }
    ensures buffered { (trail : List Chosen) (node number : ℕ) →
        with_buffer node number (candidates_of trail (all_in side.now)) kind
        ≡ option_map (buffer_of trail node number) result }
    ensures mark { (most : ℕ) → All (λ pair. pair.mark ≤ most) (all_in side.now)
        → IfSome result (λ pair. pair.mark ≤ most) }
    ensures steps { steps.new ≤ steps.old + length (all_in side.now) + 1 }
{
    match side {
        None => None,
        Some(list) => Some(list.buffered(kind, steps)),
    }
}

/// The list with one offer more, if there is one. The only error is want of memory.
fn add<L: Ledger>(
    alloc: Global,
    side: Option<OptionList>,
    node: u32,
    kind: u32,
    offer: &Option<Offer>,
    trail: &mut Trail,
    pool: &mut ListPool,
    steps: &mut Steps<L>,
) -> Result<Option<OptionList>, AllocError>
    requires marks { AreMarked trail.old (all_in side) }
    requires mark { IfSome offer.now (λ pair. pair.mark ≤ length trail.old) }
    ensures added { IfOk result (λ new. candidates_of trail.new (all_in new)
        ≡ with_some (option_map (buffer_of trail.old node kind) offer.now) (candidates_of trail.old (all_in side))) }
    ensures marks { IfOk result (λ new. AreMarked trail.new (all_in new)) }
    ensures kept { Keeps trail.old trail.new }
    ensures short { IfOk result (λ new. length (all_in new) ≤ length (all_in side) + 1) }
    ensures steps { steps.new ≤ steps.old + 2 * length (all_in side) }
{
    let Some(offer) = offer else {
        return Ok(side);
    };
    let Some(mut list) = side else {
        let list = OptionList::of_offer(alloc, node, kind, offer, trail, pool)?;
        return Ok(Some(list));
    };
    list.add(node, kind, offer, trail, steps)?;
    Ok(Some(list))
}

/// The list with what is offered, in the order of the kinds. The only error is want of memory.
pub(crate) fn with_offers<L: Ledger>(
    alloc: Global,
    mut side: Option<OptionList>,
    offers: &[Option<Offer>],
    node: u32,
    trail: &mut Trail,
    pool: &mut ListPool,
    steps: &mut Steps<L>,
) -> Result<Option<OptionList>, AllocError>
    requires kinds { length offers.now < 2 ^ 32 }
    requires marks { AreMarked trail.old (all_in side) }
    requires offer_marks { AreOffersMarked (length trail.old) offers.now }
    ensures added { IfOk result (λ new. candidates_of trail.new (all_in new)
        ≡ with_all (candidates_of trail.old (all_in side)) (all_offers trail.old node offers.now)) }
    ensures marks { IfOk result (λ new. AreMarked trail.new (all_in new)) }
    ensures kept { Keeps trail.old trail.new }
    ensures short { IfOk result (λ new. length (all_in new) ≤ length (all_in side) + length offers.now) }
    ensures steps { steps.new ≤ steps.old
        + length offers.now * (2 * (length (all_in side) + length offers.now)) }
{
    for kind in 0..offers.len() as u32 {
        side = add(
            alloc,
            side,
            node,
            kind,
            &offers[kind as usize],
            trail,
            pool,
            steps,
        )?;
    }
    Ok(side)
}

/// The pair that a resistance drives best. None without a list, whose memory the pool keeps.
pub(crate) fn best_driven<L: Ledger>(
    side: Option<OptionList>,
    r: u32,
    pool: &mut ListPool,
    steps: &mut Steps<L>,
) -> Option<Pair>
    requires { All IsInRange (all_in side) }
    ensures best { (trail : List Chosen) → best_driven r (candidates_of trail (all_in side))
        ≡ option_map (candidate_of trail) result }
    ensures one { IfSome result (Contains (all_in side)) }
    ensures steps { steps.new ≤ steps.old + length (all_in side) + 1 }
{
    let list = side?;
    let best = list.best_driven(r, steps);
    list.give_up(pool);
    Some(best)
}
