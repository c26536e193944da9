//! The adjustments and the end of the text.
ghost use Rattle.std.specs.Prelude.{◌≡◌, ℕ, ◌<◌, ◌≤◌, [], IsTrue, IfOk, IfSome, OnOk};
ghost use Rattle.gr_text.specs.Reads.{ReadsBy, Moves, Counts, Onward};
ghost use Rattle.gr_text.specs.Reading.{several};
ghost use Rattle.gr_base.specs.Limits.{most_adjustments};
ghost use Rattle.gr_base.specs.Grid.{cells_of, has_edge, is_wire};
ghost use Rattle.gr_base.specs.Designs.{IsAdjustment};
ghost use Rattle.ispd_reader.specs.Adjustments.{place, wire_between, adjustment, adjustment_count, counted_adjustments, adjustments};

use crate::fault::DesignFault;
use crate::steps::{ENDS, layer_in};
use gr_base::{Adjustment, Design, Edge, MOST_ADJUSTMENTS, MOST_CAPACITY, MOST_ID, Shape, Way};
use gr_text::{ReadError, TokenSource, check, end, given, natural, next_token_or_end, whole_of};

/// Takes a place of the grid, and gives its cell.
#[tactic(auto, unfolding(crate::specs::Adjustments::place))]
fn place<S: TokenSource>(source: &mut S, shape: Shape) -> Result<u32, ReadError<DesignFault>>
    ensures reads { ReadsBy S.tells S.place (place shape) (λ cell. cell) result source.old source.new }
    ensures moves { Moves S.faults S.reaches S.stops S.origin result source.old source.new }
    ensures cell { IfOk result (λ cell. cell < cells_of shape) }
{
    let column = natural(source, ENDS, DesignFault::Number, MOST_ID)?;
    check(source, column < shape.columns(), DesignFault::Adjust)?;
    let row = natural(source, ENDS, DesignFault::Number, MOST_ID)?;
    check(source, row < shape.rows(), DesignFault::Adjust)?;
    let layer = layer_in(source, shape, DesignFault::Adjust)?;
    Ok(shape.cell_of(column, row, layer))
}

/// The edge between two cells, if they are neighbours on one layer.
fn wire_between(shape: Shape, from: u32, to: u32) -> Option<Edge>
    requires from { from < cells_of shape }
    requires to { to < cells_of shape }
    ensures edge { result ≡ wire_between shape from to }
    ensures has { IfSome result (λ edge. IsTrue (has_edge shape edge)) }
    ensures wire { IfSome result (λ edge. IsTrue (is_wire edge)) }
{
    let edge = shape.edge_between(from, to)?;
    match edge.way {
        Way::East | Way::North => Some(edge),
        Way::Up => None,
    }
}

/// Takes an adjustment.
#[tactic(auto, unfolding(crate::specs::Adjustments::adjustment))]
fn adjustment<S: TokenSource>(
    source: &mut S,
    shape: Shape,
) -> Result<Adjustment, ReadError<DesignFault>>
    ensures reads { ReadsBy S.tells S.place (adjustment shape) (λ adjustment. adjustment) result source.old source.new }
    ensures moves { Moves S.faults S.reaches S.stops S.origin result source.old source.new }
    ensures adjustment { IfOk result (IsAdjustment shape) }
{
    let from = place(source, shape)?;
    let to = place(source, shape)?;
    let edge = given(source, wire_between(shape, from, to), DesignFault::Adjust)?;
    let capacity = natural(source, ENDS, DesignFault::Number, MOST_CAPACITY)?;
    Ok(Adjustment { edge, capacity })
}

/// The number of adjustments, which is the token in hand.
#[tactic(auto, unfolding(crate::specs::Adjustments::adjustment_count))]
fn adjustment_count<S: TokenSource>(source: &S) -> Result<u32, ReadError<DesignFault>>
    ensures reads { ReadsBy S.tells S.place (adjustment_count (S.word source.now))
        (λ count. count) result source.now source.now }
    ensures faults { (count : ℕ) → Counts result count count }
    ensures onward { Onward S.reaches S.stops result source.now source.now }
    ensures most { IfOk result (λ count. count ≤ most_adjustments) }
{
    let count = given(
        source,
        whole_of(source.word(), 0, i64::from(MOST_ADJUSTMENTS)),
        DesignFault::Number,
    )?;
    Ok(count as u32)
}

/// Adds so many adjustments to a design without adjustments.
fn several_adjustments<S: TokenSource>(
    source: &mut S,
    design: &mut Design,
    count: u32,
) -> Result<(), ReadError<DesignFault>>
    requires none { design.old.adjustments ≡ [] }
    requires most { count ≤ most_adjustments }
    ensures reads { ReadsBy S.tells S.place (several (λ _. adjustment design.old.frame.shape) count [])
        (λ _. design.new.adjustments) result source.old source.new }
    ensures moves { Moves S.faults S.reaches S.stops S.origin result source.old source.new }
    ensures frame { design.new.frame ≡ design.old.frame }
    ensures nets { design.new.nets ≡ design.old.nets }
{
    let shape = design.frame().shape;
    for _ in 0..count {
        let adjustment = adjustment(source, shape)?;
        let Ok(()) = design.push_adjustment(adjustment) else {
            return Err(ReadError::NoMemory);
        };
    }
    Ok(())
}

/// Reads the adjustments, whose number is in hand, into a design without adjustments.
#[tactic(auto, unfolding(crate::specs::Adjustments::counted_adjustments))]
fn counted_adjustments<S: TokenSource>(
    source: &mut S,
    design: &mut Design,
) -> Result<(), ReadError<DesignFault>>
    requires { design.old.adjustments ≡ [] }
    ensures reads { ReadsBy S.tells S.place (counted_adjustments design.old.frame.shape (S.word source.old))
        (λ _. design.new.adjustments) result source.old source.new }
    ensures moves { Moves S.faults S.reaches S.stops S.origin result source.old source.new }
    ensures frame { design.new.frame ≡ design.old.frame }
    ensures nets { design.new.nets ≡ design.old.nets }
    ensures ended { OnOk result (IsTrue S.tells → S.ended source.new) }
{
    let count = adjustment_count(source)?;
    several_adjustments(source, design, count)?;
    end(source, ENDS, DesignFault::Trailing)
}

/// Reads the adjustments, of which there may be none, into a design without adjustments.
#[tactic(auto, unfolding(crate::specs::Adjustments::adjustments))]
pub(crate) fn adjustments<S: TokenSource>(
    source: &mut S,
    design: &mut Design,
) -> Result<(), ReadError<DesignFault>>
    requires { design.old.adjustments ≡ [] }
    ensures reads { ReadsBy S.tells S.place (adjustments design.old.frame.shape)
        (λ _. design.new.adjustments) result source.old source.new }
    ensures moves { Moves S.faults S.reaches S.stops S.origin result source.old source.new }
    ensures frame { design.new.frame ≡ design.old.frame }
    ensures nets { design.new.nets ≡ design.old.nets }
    ensures ended { OnOk result (IsTrue S.tells → S.ended source.new) }
{
    if next_token_or_end(source, ENDS)? {
        counted_adjustments(source, design)
    } else {
        Ok(())
    }
}
