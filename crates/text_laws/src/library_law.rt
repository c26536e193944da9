//! The laws of library texts, each the clause of a function; they rest on what `rc_library` says a text means.
ghost use Rattle.text_laws.specs.EarlyLibraryFaults.{LibraryFaultsAreDecidedEarly, TokensDecideLibraries};
ghost use Rattle.text_laws.specs.LibraryItems.{ItemsEndWithTheirTokens};

/// Does nothing. Its clauses are laws of a library text: its first fault and that fault's token are
/// decided by the design and by the tokens up to it, what it says by all its tokens, and the number of
/// items that may be read makes no difference where it is greater than that of the tokens.
pub fn first_library_faults_are_decided_early()
    ensures decided { LibraryFaultsAreDecidedEarly }
    ensures tokens { TokensDecideLibraries }
    ensures items { ItemsEndWithTheirTokens }
{}
