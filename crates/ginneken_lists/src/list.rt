//! Lists of pairs.
ghost use Rattle.std.specs.Prelude.{◌≡◌, ℕ, ◌+◌, ◌*◌, ◌<◌, ◌≤◌, ◌^◌, [], ◌∷◌, List, length, slice_get, Some, All, IfOk, OnOk, OnErr, IfSome, Contains};
ghost use Rattle.rc_library.specs.Libraries.{IsWire, IsKind, IsLibrary};
ghost use Rattle.ginneken_lists.specs.Candidates.{Chosen, all_along, all_joined, best_driven, with_buffer, with_one, with_offers};
ghost use Rattle.ginneken_lists.specs.Pairs.{candidate_of, buffer_of, candidates, AreMarked, IsList, IsTime, IsInRange};
ghost use Rattle.ginneken_lists.specs.Trails.{Keeps};

use crate::offer::Offer;
use crate::pair::Pair;
use crate::pool::ListPool;
use crate::steps::Steps;
use crate::stored::{Stored, read};
use crate::trail::Trail;
use crate::{offering, wiring};
use rc_library::{Kind, Library, Wire};
use std::alloc::{AllocError, Global};
use std::marker::Model;
use std::sync::ledger::Ledger;

/// The pairs that are kept at a point of a tree. Loads and times rise from each to the next. The
/// operations are for loads of at most 2^60 femtofarads and times from -2^110 to 2^110 half
/// femtoseconds.
#[derive(Debug, Drop)]
pub struct OptionList {
    pairs: Vec<Stored>,
}

impl Model for OptionList {
    ghost use Rattle.std.specs.Prelude.{List};
    ghost use Rattle.ginneken_lists.specs.declared.pair.Pair.{Pair};
    ghost use Rattle.ginneken_lists.specs.StoredPairs.{pairs_of};
    ghost use Rattle.ginneken_lists.specs.ListStore.{IsStored};

    ghost Value = { List Pair };

    ghost view = { λ list. pairs_of list.pairs.items };

    ghost invariant = { IsStored };
}

impl OptionList {
    /// The list of one pair without buffers. The only error is want of memory.
    pub fn leaf(
        alloc: Global,
        load: u64,
        time: Option<i128>,
        pool: &mut ListPool,
    ) -> Result<OptionList, AllocError>
        requires { IfSome time IsTime }
        ensures { IfOk result (λ list. list ≡ record { load = load; time = time; mark = 0 } ∷ []) }
    {
        let mut pairs = pool.empty(alloc, 1)?;
        pairs.push_reserved(Stored::new(load, time, 0));
        Ok(OptionList { pairs })
    }

    /// Gives the list up. The pool keeps its memory for others where it has room, and takes none.
    pub fn give_up(self, pool: &mut ListPool) {
        pool.keep(self.pairs);
    }

    /// How many pairs it has.
    pub fn len(&self) -> usize
        ensures len { result ≡ length self.now }
        ensures list { IsList self.now }
    {
        self.pairs.len()
    }

    /// The pair at a place. It is the one way to read a pair, and counts one step.
    pub fn pair<L: Ledger>(&self, at: usize, steps: &mut Steps<L>) -> Pair
        requires { at < length self.now }
        ensures pair { slice_get self.now at ≡ Some result }
        ensures steps { steps.new ≡ steps.old + 1 }
        ensures list { IsList self.now }
    {
        read(&self.pairs, at, steps).pair()
    }

    /// The pair that a resistance in ohms drives best: of greatest time at the input of what drives
    /// it, and of these of least load.
    pub fn best_driven<L: Ledger>(&self, r: u32, steps: &mut Steps<L>) -> Pair
        requires { All IsInRange self.now }
        ensures best { (trail : List Chosen) → best_driven r (candidates trail self.now)
            ≡ Some (candidate_of trail result) }
        ensures one { Contains self.now result }
        ensures steps { steps.new ≤ steps.old + length self.now + 1 }
        ensures counted { steps.old < steps.new }
        ensures list { IsList self.now }
    {
        offering::best_driven(&self.pairs, r, steps).pair()
    }

    /// Takes the list from the lower to the upper end of an edge. It takes no memory, and reads each
    /// pair once.
    pub fn wire<L: Ledger>(&mut self, wire: Wire, steps: &mut Steps<L>)
        requires range { All IsInRange self.old }
        requires wire { IsWire wire }
        ensures along { (trail : List Chosen) → candidates trail self.new ≡ all_along wire (candidates trail self.old) }
        ensures marks { (trail : List Chosen) → AreMarked trail self.old → AreMarked trail self.new }
        ensures short { length self.new ≤ length self.old }
        ensures steps { steps.new ≡ steps.old + length self.old }
        ensures list { IsList self.new }
    {
        wiring::wire(&mut self.pairs, wire, steps);
    }

    /// Offers a buffer of each kind at a node, over the pair that the kind drives best. On an error,
    /// which is want of memory, the list and the trail stay as they are.
    pub fn offer<L: Ledger>(
        &mut self,
        node: u32,
        library: &Library,
        trail: &mut Trail,
        pool: &mut ListPool,
        steps: &mut Steps<L>,
    ) -> Result<(), AllocError>
        requires range { All IsInRange self.old }
        requires marks { AreMarked trail.old self.old }
        ensures offered { OnOk result (candidates trail.new self.new
            ≡ with_offers library.now node (candidates trail.old self.old)) }
        ensures err { OnErr result (self.new ≡ self.old) }
        ensures err_trail { OnErr result (trail.new ≡ trail.old) }
        ensures kept { Keeps trail.old trail.new }
        ensures marks { AreMarked trail.new self.new }
        ensures short { length self.new ≤ length self.old + length library.now.kinds }
        ensures steps { steps.new ≤ steps.old
            + 3 * (length library.now.kinds * (length self.old + length library.now.kinds)) }
        ensures list { IsList self.new }
    {
        offering::find_offers(&mut pool.offers, &self.pairs, library, steps)?;
        self.pairs.reserve(pool.offers.len())?;
        trail.offer_each(node, &mut self.pairs, &pool.offers, steps)?;
        Ok(())
    }

    /// A buffer of a kind over the pair that it drives best.
    pub fn buffered<L: Ledger>(&self, kind: Kind, steps: &mut Steps<L>) -> Offer
        requires range { All IsInRange self.now }
        requires kind { IsKind kind }
        ensures buffered { (trail : List Chosen) (node number : ℕ) →
            with_buffer node number (candidates trail self.now) kind ≡ Some (buffer_of trail node number result) }
        ensures mark { (most : ℕ) → All (λ pair. pair.mark ≤ most) self.now → result.mark ≤ most }
        ensures steps { steps.new ≤ steps.old + length self.now + 1 }
        ensures list { IsList self.now }
    {
        Offer {
            pair: offering::best_driven(&self.pairs, kind.r, steps).behind(kind),
        }
    }

    /// The list of one buffer of a kind at a node. On an error, which is want of memory, the trail stays
    /// as it is.
    pub fn of_offer(
        alloc: Global,
        node: u32,
        kind: u32,
        offer: &Offer,
        trail: &mut Trail,
        pool: &mut ListPool,
    ) -> Result<OptionList, AllocError>
        requires mark { offer.now.mark ≤ length trail.old }
        ensures one { IfOk result (λ list. candidates trail.new list ≡ buffer_of trail.old node kind offer.now ∷ []) }
        ensures marks { IfOk result (AreMarked trail.new) }
        ensures err_trail { OnErr result (trail.new ≡ trail.old) }
        ensures kept { Keeps trail.old trail.new }
    {
        let mut pairs = pool.empty(alloc, 1)?;
        let mark = trail.buffer(node, kind, offer.pair.mark)?;
        pairs.push_reserved(offer.pair.marked(mark));
        Ok(OptionList { pairs })
    }

    /// Offers one buffer of a kind at a node. On an error, which is want of memory, the list and the
    /// trail stay as they are.
    pub fn add<L: Ledger>(
        &mut self,
        node: u32,
        kind: u32,
        offer: &Offer,
        trail: &mut Trail,
        steps: &mut Steps<L>,
    ) -> Result<(), AllocError>
        requires marks { AreMarked trail.old self.old }
        requires mark { offer.now.mark ≤ length trail.old }
        ensures added { OnOk result (candidates trail.new self.new
            ≡ with_one (buffer_of trail.old node kind offer.now) (candidates trail.old self.old)) }
        ensures err { OnErr result (self.new ≡ self.old) }
        ensures err_trail { OnErr result (trail.new ≡ trail.old) }
        ensures kept { Keeps trail.old trail.new }
        ensures marks { AreMarked trail.new self.new }
        ensures short { length self.new ≤ length self.old + 1 }
        ensures steps { steps.new ≤ steps.old + 2 * length self.old }
        ensures list { IsList self.new }
    {
        self.pairs.reserve(1)?;
        trail.offer(node, kind, &mut self.pairs, offer.pair, steps)?;
        Ok(())
    }

    /// Joins the lists of two branches. On an error, which is want of memory, both lists are given up,
    /// and the trail stays as it is.
    pub fn merge<L: Ledger>(
        alloc: Global,
        left: OptionList,
        right: OptionList,
        trail: &mut Trail,
        pool: &mut ListPool,
        steps: &mut Steps<L>,
    ) -> Result<OptionList, AllocError>
        requires left_range { All IsInRange left }
        requires right_range { All IsInRange right }
        requires left_marks { AreMarked trail.old left }
        requires right_marks { AreMarked trail.old right }
        ensures joined { IfOk result (λ merged. candidates trail.new merged
            ≡ all_joined (candidates trail.old left) (candidates trail.old right)) }
        ensures marks { IfOk result (AreMarked trail.new) }
        ensures short { IfOk result (λ merged. length merged + 1 ≤ length left + length right) }
        ensures err_trail { OnErr result (trail.new ≡ trail.old) }
        ensures kept { Keeps trail.old trail.new }
        ensures steps { steps.new ≤ steps.old + 2 * (length left + length right) }
    {
        let mut pairs = pool.empty(alloc, left.pairs.len() + right.pairs.len())?;
        trail.merge(&left.pairs, &right.pairs, &mut pairs, steps)?;
        left.give_up(pool);
        right.give_up(pool);
        Ok(OptionList { pairs })
    }
}
