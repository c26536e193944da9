//! Reading a solution's text.
ghost use Rattle.std.specs.Prelude.{◌≡◌, ℕ, ◌≤◌, true, false, List, [], IsTrue, IfOk, OnOk, Ok, Err};
ghost use Rattle.gr_base.specs.declared.grid.Edge.{Edge};
ghost use Rattle.gr_io.specs.Counts.{Rose};
ghost use Rattle.gr_io.specs.declared.shelf.Slot.{Slot};
ghost use Rattle.gr_text.specs.Reads.{Moves, Counts, Says, Onward, AtFault};
ghost use Rattle.gr_text.specs.Unread.{IsReadTo};
ghost use Rattle.solution_text.specs.Cover.{cover};
ghost use Rattle.solution_text.specs.Grammar.{Progress, start};
ghost use Rattle.route_reader.specs.Solutions.{IsOf, edges_by};
ghost use Rattle.route_reader.specs.SolutionText.{solution_of, solution_at};
ghost use Rattle.route_reader.specs.Gathered.{Fits, Gathers, Takes, rest_says};

use crate::gathering::{Gathering, Position, Refusal};
use crate::solution::Solution;
use gr_base::{Design, MOST_BYTES};
use gr_io::{Shelf, Slot};
use gr_text::{Ends, ReadError, TokenReader, TokenSource, Tokens, next_token_or_end};
use solution_text::SolutionFault;
use std::alloc::Global;

/// Why no solution was read.
pub type SolutionError = ReadError<SolutionFault>;

const ENDS: Ends<SolutionFault> = Ends {
    ended: SolutionFault::Ended,
    too_long: SolutionFault::TooLong,
};

/// Takes the next token, where the text doesn't end, and says whether there was one.
fn take_token<S: TokenSource>(
    source: &mut S,
    design: &Design,
    gathering: &mut Gathering,
) -> Result<bool, ReadError<SolutionFault>>
    requires fits { Fits design.now gathering.old }
    ensures takes { (s : Progress) → Gathers design.now s gathering.old →
        Takes design.now s S.tells (S.place source.old) (S.place source.new) gathering.new result }
    ensures moves { Moves S.faults S.reaches S.stops S.origin result source.old source.new }
    ensures ended { result ≡ Ok false → IsTrue S.tells → S.ended source.new }
{
    if !next_token_or_end(source, ENDS)? {
        return Ok(false);
    }
    match gathering.take(design, source.word()) {
        Ok(()) => Ok(true),
        Err(Refusal::Fault(fault)) => Err(ReadError::Fault {
            fault,
            token: source.number(),
        }),
        Err(Refusal::NoMemory) => Err(ReadError::NoMemory),
    }
}

/// The solution, where the text ends between two records.
fn finish<S: TokenSource>(
    source: &S,
    design: &Design,
    gathering: Gathering,
) -> Result<Solution, ReadError<SolutionFault>>
    requires fits { Fits design.now gathering }
    ensures says { (s : Progress) → Gathers design.now s gathering → IsTrue S.tells →
        Says (rest_says design.now s false (S.place source.now)) result }
    ensures of { IfOk result (IsOf design.now) }
    ensures faults { (count : ℕ) → Counts result count count }
    ensures onward { Onward S.reaches S.stops result source.now source.now }
{
    let Position::Between = gathering.position else {
        return Err(ReadError::Fault {
            fault: SolutionFault::Ended,
            token: source.number() + 1,
        });
    };
    let shape = design.frame().shape;
    Ok(Solution::new(shape, gathering.runs, gathering.stretches))
}

/// Reads a whole solution.
fn solution<S: TokenSource>(
    alloc: Global,
    source: &mut S,
    design: &Design,
) -> Result<Solution, ReadError<SolutionFault>>
    ensures says { IsTrue S.tells → Says (solution_at design.now start (S.place source.old)) result }
    ensures of { IfOk result (IsOf design.now) }
    ensures moves { Moves S.faults S.reaches S.stops S.origin result source.old source.new }
    ensures ended { OnOk result (IsTrue S.tells → S.ended source.new) }
{
    let Ok(mut gathering) = Gathering::new(alloc, design.nets()) else {
        return Err(ReadError::NoMemory);
    };
    for _ in 0..u64::MAX {
        if !take_token(source, design, &mut gathering)? {
            return finish(source, design, gathering);
        }
    }
    // No text has so many tokens.
    Err(ReadError::NoMemory)
}

/// Reads the solution that was reached on the shelf, from its next byte to its end: the routes that
/// any router wrote for the design. Nets may come in any order, and segments may overlap, go
/// backward or be empty.
///
/// # Errors
/// `Fault` with the first fault of the text, exactly where it has one and no read failed; `Failed`
/// where a read failed; `NoMemory`.
pub fn read_solution<S: Shelf>(
    alloc: Global,
    shelf: &mut S,
    design: &Design,
) -> Result<Solution, SolutionError>
    requires reached { IsTrue (S.reached shelf.old Slot.Solution) }

    // Where the shelf tells the bytes, the answer is the solution that they say, or their first fault.
    ensures says { IsTrue S.tells → Says (solution_of design.now (S.left shelf.old Slot.Solution)) result }
    ensures covers { IfOk result (λ solution. IsTrue S.tells → (net : ℕ) → (e : Edge) →
        edges_by solution net e ≡ cover design.now (S.left shelf.old Slot.Solution) net e) }
    ensures whole_text { OnOk result (IsTrue S.tells → S.left shelf.new Slot.Solution ≡ []) }

    // At a fault little is read behind the token that it names.
    ensures rest_unread { IsTrue S.tells → AtFault result (λ token.
        IsReadTo (S.left shelf.old Slot.Solution) token (S.left shelf.new Slot.Solution)) }

    // Whatever the shelf tells, a solution is one for the design.
    ensures of { IfOk result (IsOf design.now) }

    ensures failed { result ≡ Err ReadError.Failed → Rose (S.faults shelf.old) (S.faults shelf.new) }
    ensures quiet { (result ≡ Err ReadError.Failed → ⊥) → S.faults shelf.new ≡ S.faults shelf.old }
    ensures faults_kept { S.faults shelf.old ≤ S.faults shelf.new }
    ensures misses { S.misses shelf.new ≡ S.misses shelf.old }
    ensures held { (slot : Slot) → (name : List ℕ) → S.held shelf.new slot name ≡ S.held shelf.old slot name }
{
    let mut tokens = Tokens::new(alloc, Slot::Solution, MOST_BYTES)?;
    let mut reader = TokenReader {
        tokens: &mut tokens,
        shelf,
    };
    solution(alloc, &mut reader, design)
}
