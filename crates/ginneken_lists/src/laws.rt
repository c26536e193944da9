//! What thinning does, in the words of the field.
ghost use Rattle.std.specs.Prelude.{◌≡◌, List, None};
ghost use Rattle.ginneken_lists.specs.Candidates.{Candidate, thinned, leaf, all_joined};
ghost use Rattle.ginneken_lists.specs.Thinning.{AreRising, IsThinned};

/// Thinned candidates rise in load and time, each is one of those that were thinned and the first of
/// those that are equal to it in load and time, and each of these is served as well by one that is
/// kept. The function itself does nothing.
pub fn thinning()
    ensures { (all : List Candidate) → IsThinned (thinned all) all }
{}

/// Candidates that rise are those that thinning keeps, and a branch without load, sinks and buffers
/// adds nothing to them. The function itself does nothing.
pub fn thinning_again()
    ensures thinned { (all : List Candidate) → AreRising all → thinned all ≡ all }
    ensures joined { (all : List Candidate) → AreRising all
        → all_joined (leaf (record { load = 0; time = None })) all ≡ all }
{}
