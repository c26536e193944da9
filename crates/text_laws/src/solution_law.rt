//! The laws of solution texts, each the clause of a function; they rest on what `route_reader` says a text means.
ghost use Rattle.text_laws.specs.EarlySolutionFaults.{SolutionFaultsAreDecidedEarly, TokensDecideSolutions};

/// Does nothing. Its clauses are laws of a solution's text: its first fault and that fault's token are
/// decided by the design and by the tokens up to it, and what it says by all its tokens.
pub fn first_solution_faults_are_decided_early()
    ensures decided { SolutionFaultsAreDecidedEarly }
    ensures tokens { TokensDecideSolutions }
{}
