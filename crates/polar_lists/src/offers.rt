//! What is offered at a node for both signals.
ghost use Rattle.std.specs.Prelude.{◌≡◌, ◌+◌, ◌*◌, ◌^◌, ◌<◌, ◌≤◌, ℕ, Bool, List, length, All, Some, IfOk, OnOk, if◌then◌else◌};
ghost use Rattle.rc_library.specs.Libraries.{IsLibrary};
ghost use Rattle.ginneken_lists.specs.Candidates.{Chosen, with_kind};
ghost use Rattle.ginneken_lists.specs.Pairs.{candidates as candidates_of, IsInRange};
ghost use Rattle.ginneken_lists.specs.Offering.{with_all};
ghost use Rattle.ginneken_lists.specs.Thinning.{AreRising};
ghost use Rattle.ginneken_lists.specs.Trails.{Keeps};
ghost use Rattle.buffer_plan.specs.Picked.{sites_of};
ghost use Rattle.polar_lists.specs.Polarity.{is_inverter};
ghost use Rattle.polar_lists.specs.Signals.{both_above};
ghost use Rattle.polar_lists.specs.BothLists.{all_in, side, candidates_by, AreBothMarked, AreBothInRange, AreShort, offer_at, all_offers, AreOffersMarked, most_offer_steps};

use crate::side;
use crate::sides::Sides;
use elmore_delay::Loading;
use ginneken_lists::{ListPool, Offer, OptionList, Steps, Trail};
use rc_library::Library;
use std::alloc::{AllocError, Global};
use std::sync::ledger::Ledger;

/// Memory for what each kind makes at a node, for the plain and for the inverted signal.
#[derive(Debug, Drop)]
pub(crate) struct Offers {
    plain: Vec<Option<Offer>>,
    inverse: Vec<Option<Offer>>,
}

impl Offers {
    /// No memory yet.
    pub(crate) fn new(alloc: Global) -> Offers {
        Offers {
            plain: Vec::new(alloc),
            inverse: Vec::new(alloc),
        }
    }
}

/// The lists above a node: where a buffer may stand there, also with an offer of each kind. What the
/// kinds make comes from the lists as they are before: an inverter takes it from the other signal's.
/// The only error is want of memory.
pub(crate) fn offer<L: Ledger>(
    alloc: Global,
    library: &Library,
    loading: &Loading,
    node: u32,
    sides: Sides,
    offers: &mut Offers,
    trail: &mut Trail,
    pool: &mut ListPool,
    steps: &mut Steps<L>,
) -> Result<Sides, AllocError>
    requires library { loading.now.library ≡ library.now }
    requires node { node < length loading.now.tree.nodes }
    requires range { AreBothInRange sides }
    requires rising { (inverted : Bool) → AreRising (candidates_by trail.old sides inverted) }
    requires marks { AreBothMarked trail.old sides }
    ensures above { IfOk result (λ new. (inverted : Bool) → candidates_by trail.new new inverted
        ≡ both_above (sites_of loading.now) node (candidates_by trail.old sides) inverted) }
    ensures marks { IfOk result (AreBothMarked trail.new) }
    ensures kept { Keeps trail.old trail.new }
    ensures short { IfOk result (λ new. (inverted : Bool) →
        length (side new inverted) ≤ length (side sides inverted) + length library.now.kinds) }
    ensures steps { (most : ℕ) → AreShort most sides
        → steps.new ≤ steps.old + most_offer_steps (length library.now.kinds) most }
{
    if !loading.free(node) {
        return Ok(sides);
    }
    make(
        &mut offers.plain,
        &sides.plain,
        &sides.inverse,
        library,
        steps,
    )?;
    make(
        &mut offers.inverse,
        &sides.inverse,
        &sides.plain,
        library,
        steps,
    )?;
    add(
        alloc,
        node,
        sides,
        &offers.plain,
        &offers.inverse,
        trail,
        pool,
        steps,
    )
}

/// Adds what was made for each signal to its list.
fn add<L: Ledger>(
    alloc: Global,
    node: u32,
    sides: Sides,
    plain: &[Option<Offer>],
    inverse: &[Option<Offer>],
    trail: &mut Trail,
    pool: &mut ListPool,
    steps: &mut Steps<L>,
) -> Result<Sides, AllocError>
    requires kinds { length plain.now < 2 ^ 32 }
    requires inverse_kinds { length inverse.now < 2 ^ 32 }
    requires marks { AreBothMarked trail.old sides }
    requires plain_marks { AreOffersMarked (length trail.old) plain.now }
    requires inverse_marks { AreOffersMarked (length trail.old) inverse.now }
    ensures added { IfOk result (λ new. (inverted : Bool) → candidates_by trail.new new inverted
        ≡ with_all (candidates_by trail.old sides inverted)
        (all_offers trail.old node (if inverted then inverse.now else plain.now))) }
    ensures marks { IfOk result (AreBothMarked trail.new) }
    ensures kept { Keeps trail.old trail.new }
    ensures short { IfOk result (λ new. (inverted : Bool) → length (side new inverted)
        ≤ length (side sides inverted) + length (if inverted then inverse.now else plain.now)) }
    ensures steps { (most kinds : ℕ) → AreShort most sides → length plain.now ≤ kinds → length inverse.now ≤ kinds
        → steps.new ≤ steps.old + 4 * (kinds * (most + kinds)) }
{
    let plain = side::with_offers(alloc, sides.plain, plain, node, trail, pool, steps)?;
    let inverse = side::with_offers(alloc, sides.inverse, inverse, node, trail, pool, steps)?;
    Ok(Sides { plain, inverse })
}

/// Replaces what was found by what each kind makes for a signal, whose own list and whose inverse's
/// these are. The only error is want of memory.
fn make<L: Ledger>(
    found: &mut Vec<Option<Offer>>,
    own: &Option<OptionList>,
    other: &Option<OptionList>,
    library: &Library,
    steps: &mut Steps<L>,
) -> Result<(), AllocError>
    requires own { All IsInRange (all_in own.now) }
    requires other { All IsInRange (all_in other.now) }
    ensures made { OnOk result ((trail : List Chosen) (node number : ℕ) → number < length library.now.kinds →
        offer_at trail node found.new.items number ≡ with_kind library.now node
        (if is_inverter library.now (Some number) then candidates_of trail (all_in other.now)
        else candidates_of trail (all_in own.now)) number) }
    ensures kinds { OnOk result (length found.new.items ≡ length library.now.kinds) }
    ensures marks { OnOk result ((most : ℕ) → All (λ pair. pair.mark ≤ most) (all_in own.now)
        → All (λ pair. pair.mark ≤ most) (all_in other.now) → AreOffersMarked most found.new.items) }
    ensures steps { (most : ℕ) → length (all_in own.now) ≤ most → length (all_in other.now) ≤ most
        → steps.new ≤ steps.old + length library.now.kinds * (most + 1) }
    ensures library { IsLibrary library.now }
{
    found.clear();
    for number in 0..library.kinds() {
        let below = if library.inverts(number) { other } else { own };
        found.push(side::buffered(below, library.kind(number), steps))?;
    }
    Ok(())
}
