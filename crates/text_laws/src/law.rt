//! The laws of design texts, each the clause of a function; they rest on what `ispd_reader` says a text means.
ghost use Rattle.text_laws.specs.EarlyFaults.{FaultsAreDecidedEarly, TokensDecideDesigns};

/// Does nothing. Its clauses are laws of a design text: its first fault and that fault's token are
/// decided by the tokens up to it, and what it says by all its tokens.
pub fn first_faults_are_decided_early()
    ensures decided { FaultsAreDecidedEarly }
    ensures tokens { TokensDecideDesigns }
{}
