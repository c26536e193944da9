//! Trails: the choices that the marks of pairs name.
ghost use Rattle.std.specs.Prelude.{◌≡◌, ◌+◌, ◌*◌, ◌<◌, ◌≤◌, ◌^◌, [], length, OnOk, OnErr, IfOk, All};
ghost use Rattle.std.specs.Vec.{vec_len, vec_capacity};
ghost use Rattle.ginneken_lists.specs.Candidates.{Buffered, both, all_joined, with_one};
ghost use Rattle.ginneken_lists.specs.Pairs.{candidates, IsList};
ghost use Rattle.ginneken_lists.specs.StoredPairs.{pairs_of};
ghost use Rattle.ginneken_lists.specs.Offering.{buffer_over, offered, with_all};
ghost use Rattle.ginneken_lists.specs.Trails.{chosen_of, chosen_by, trail_of, HasBuffer, IsBelow, Keeps};
ghost use Rattle.ginneken_lists.specs.TrailStore.{AreChoices};

use crate::choice::Choice;
use crate::insertion::insert;
use crate::merging::merge;
use crate::offering::offer_each;
use crate::steps::Steps;
use crate::stored::Stored;
use std::alloc::{AllocError, Global};
use std::marker::Model;
use std::sync::ledger::Ledger;

/// The choices of buffers that marks name. Mark 0 names no buffer, and each other mark a choice
/// whose marks are lower.
#[derive(Debug, Drop)]
pub struct Trail {
    choices: Vec<Choice>,
}

impl Model for Trail {
    ghost use Rattle.std.specs.Prelude.{List};
    ghost use Rattle.ginneken_lists.specs.Candidates.{Chosen};
    ghost use Rattle.ginneken_lists.specs.Trails.{trail_of};
    ghost use Rattle.ginneken_lists.specs.ChosenCode.{trail_code};
    ghost use Rattle.ginneken_lists.specs.TrailStore.{AreChoices};

    ghost Value = { List Chosen };

    ghost coded = { trail_code };

    ghost view = { λ trail. trail_of trail.choices.items };

    ghost invariant = { λ trail. AreChoices trail.choices.items };
}

impl Trail {
    /// A trail of no choices, which takes no memory.
    pub fn new(alloc: Global) -> Trail
        ensures { result ≡ [] }
    {
        Trail {
            choices: Vec::new(alloc),
        }
    }

    /// Forgets all choices. The memory is kept for others.
    pub fn clear(&mut self)
        ensures { self.new ≡ [] }
    {
        self.choices.clear();
    }

    /// The choice that a mark names: none for mark 0 alone. Its marks are lower.
    pub fn choice(&self, mark: u64) -> Choice
        requires { mark ≤ length self.now }
        ensures choice { chosen_by self.now result ≡ chosen_of self.now mark }
        ensures some { 0 < mark → HasBuffer result }
        ensures lower { IsBelow mark result }
    {
        if mark == 0 {
            return Choice::Empty;
        }
        self.choices[mark as usize - 1]
    }

    /// Joins the pairs of two branches in a list that has none yet, with a mark for each two that have
    /// buffers. On an error, which is want of memory, the trail stays as it is.
    pub(crate) fn merge<L: Ledger>(
        &mut self,
        left: &[Stored],
        right: &[Stored],
        merged: &mut Vec<Stored>,
        steps: &mut Steps<L>,
    ) -> Result<(), AllocError>
        requires left { IsList (pairs_of left.now) }
        requires right { IsList (pairs_of right.now) }
        requires left_loads { All (λ pair. pair.load ≤ 2 ^ 60) left.now }
        requires right_loads { All (λ pair. pair.load ≤ 2 ^ 60) right.now }
        requires left_marks { All (λ pair. pair.mark ≤ length self.old) left.now }
        requires right_marks { All (λ pair. pair.mark ≤ length self.old) right.now }
        requires none { merged.old.items ≡ [] }
        requires room { length left.now + length right.now ≤ vec_capacity merged.old }
        ensures joined { OnOk result (candidates self.new (pairs_of merged.new.items)
            ≡ all_joined (candidates self.old (pairs_of left.now)) (candidates self.old (pairs_of right.now))) }
        ensures err { OnErr result (self.new ≡ self.old) }
        ensures kept { Keeps self.old self.new }
        ensures marks { OnOk result (All (λ pair. pair.mark ≤ length self.new) merged.new.items) }
        ensures some { OnOk result (0 < length merged.new.items) }
        ensures short { OnOk result (length merged.new.items + 1 ≤ length left.now + length right.now) }
        ensures steps { steps.new ≤ steps.old + 2 * (length left.now + length right.now) }
    {
        self.choices.reserve(left.len() + right.len())?;
        merge(left, right, merged, &mut self.choices, steps);
        Ok(())
    }

    /// Offers what was found of each kind of buffers at a node to a list, in the order of the kinds,
    /// with a mark for each buffer that is kept. On an error, which is want of memory, nothing changes.
    pub(crate) fn offer_each<L: Ledger>(
        &mut self,
        node: u32,
        pairs: &mut Vec<Stored>,
        found: &[Stored],
        steps: &mut Steps<L>,
    ) -> Result<(), AllocError>
        requires list { IsList (pairs_of pairs.old.items) }
        requires room { vec_len pairs.old + length found.now ≤ vec_capacity pairs.old }
        requires kinds { length found.now < 2 ^ 32 }
        requires marks { All (λ pair. pair.mark ≤ length self.old) pairs.old.items }
        requires found_marks { All (λ pair. pair.mark ≤ length self.old) found.now }
        ensures pairs { OnOk result (candidates self.new (pairs_of pairs.new.items)
            ≡ with_all (candidates self.old (pairs_of pairs.old.items)) (offered self.old node 0 found.now)) }
        ensures err { OnErr result (self.new ≡ self.old) }
        ensures err_pairs { OnErr result (pairs.new.items ≡ pairs.old.items) }
        ensures kept { Keeps self.old self.new }
        ensures marks { All (λ pair. pair.mark ≤ length self.new) pairs.new.items }
        ensures list { IsList (pairs_of pairs.new.items) }
        ensures short { length pairs.new.items ≤ length pairs.old.items + length found.now }
        ensures steps { steps.new ≤ steps.old
            + length found.now * (2 * (length pairs.old.items + length found.now)) }
    {
        self.choices.reserve(found.len())?;
        offer_each(pairs, found, node, &mut self.choices, steps);
        Ok(())
    }

    /// Offers a buffer of a kind at a node to a list, with a mark if it is kept. On an error, which is
    /// want of memory, nothing changes.
    pub(crate) fn offer<L: Ledger>(
        &mut self,
        node: u32,
        kind: u32,
        pairs: &mut Vec<Stored>,
        pair: Stored,
        steps: &mut Steps<L>,
    ) -> Result<(), AllocError>
        requires list { IsList (pairs_of pairs.old.items) }
        requires room { vec_len pairs.old < vec_capacity pairs.old }
        requires marks { All (λ other. other.mark ≤ length self.old) pairs.old.items }
        requires mark { pair.mark ≤ length self.old }
        ensures pairs { OnOk result (candidates self.new (pairs_of pairs.new.items)
            ≡ with_one (buffer_over self.old node kind pair) (candidates self.old (pairs_of pairs.old.items))) }
        ensures err { OnErr result (self.new ≡ self.old) }
        ensures err_pairs { OnErr result (pairs.new.items ≡ pairs.old.items) }
        ensures kept { Keeps self.old self.new }
        ensures marks { All (λ other. other.mark ≤ length self.new) pairs.new.items }
        ensures list { IsList (pairs_of pairs.new.items) }
        ensures short { vec_len pairs.new ≤ vec_len pairs.old + 1 }
        ensures steps { steps.new ≤ steps.old + 2 * length pairs.old.items }
    {
        self.choices.reserve(1)?;
        insert(pairs, pair, node, kind, &mut self.choices, steps);
        Ok(())
    }

    /// The mark of a buffer of a kind at a node over what a mark names. On an error, which is want of
    /// memory, nothing changes.
    pub(crate) fn buffer(&mut self, node: u32, kind: u32, below: u64) -> Result<u64, AllocError>
        requires below { below ≤ length self.old }
        ensures buffer { IfOk result (λ mark. chosen_of self.new mark
            ≡ Buffered node kind (chosen_of self.old below)) }
        ensures mark { IfOk result (λ mark. mark ≤ length self.new) }
        ensures err { OnErr result (self.new ≡ self.old) }
        ensures kept { Keeps self.old self.new }
    {
        self.choices.reserve(1)?;
        Ok(push_buffer(&mut self.choices, node, kind, below))
    }
}

/// The mark of what two marks name on two branches, where a branch without buffers adds nothing. There
/// is room for a choice.
pub(crate) fn push_both(choices: &mut Vec<Choice>, left: u64, right: u64) -> u64
    requires room { vec_len choices.old < vec_capacity choices.old }
    requires choices { AreChoices choices.old.items }
    requires left { left ≤ length (trail_of choices.old.items) }
    requires right { right ≤ length (trail_of choices.old.items) }
    ensures both { chosen_of (trail_of choices.new.items) result
        ≡ both (chosen_of (trail_of choices.old.items) left) (chosen_of (trail_of choices.old.items) right) }
    ensures mark { result ≤ length (trail_of choices.new.items) }
    ensures choices { AreChoices choices.new.items }
    ensures kept { Keeps (trail_of choices.old.items) (trail_of choices.new.items) }
    ensures len { vec_len choices.new ≤ vec_len choices.old + 1 }
    ensures capacity { vec_capacity choices.new ≡ vec_capacity choices.old }
{
    if left == 0 {
        return right;
    }
    if right == 0 {
        return left;
    }
    choices.push_reserved(Choice::Both { left, right });
    choices.len() as u64
}

/// One choice more, for which there is room: a buffer of a kind at a node over what a mark names. It
/// gives the choice's mark.
pub(crate) fn push_buffer(choices: &mut Vec<Choice>, node: u32, kind: u32, below: u64) -> u64
    requires room { vec_len choices.old < vec_capacity choices.old }
    requires choices { AreChoices choices.old.items }
    requires below { below ≤ length choices.old.items }
    ensures buffer { chosen_of (trail_of choices.new.items) result
        ≡ Buffered node kind (chosen_of (trail_of choices.old.items) below) }
    ensures mark { result ≡ length choices.new.items }
    ensures choices { AreChoices choices.new.items }
    ensures kept { Keeps (trail_of choices.old.items) (trail_of choices.new.items) }
    ensures len { vec_len choices.new ≡ vec_len choices.old + 1 }
    ensures capacity { vec_capacity choices.new ≡ vec_capacity choices.old }
{
    choices.push_reserved(Choice::Buffer { node, kind, below });
    choices.len() as u64
}
