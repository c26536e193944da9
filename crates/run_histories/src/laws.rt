//! The laws of histories to which several workers add.
ghost use Rattle.std.specs.Prelude.{◌≡◌, ℕ, List, [], IsTrue};
ghost use Rattle.book_state.specs.Cuts.{AtMarks};
ghost use Rattle.book_state.specs.Entries.{AtEach, is_mark, calls_of};
ghost use Rattle.book_state.specs.declared.entry.Entry.{Entry};
ghost use Rattle.gr_base.specs.Designs.{DesignView};
ghost use Rattle.run_histories.specs.GivenRoutes.{given_claims, open_nets};
ghost use Rattle.run_histories.specs.RunHistories.{Setting, AreAttempts, AreGranted, routed_nets};
ghost use Rattle.run_histories.specs.Standing.{Stands};
ghost use Rattle.run_histories.specs.TurnWords.{AreTurnsOf};

/// Where in each round every net that is due is attempted once, by one worker, each attempt is a turn:
/// its release is answered `Released`, and its last claim `Claimed`, however the entries of the workers
/// interleave. So at each mark exactly the routed nets are booked, each by a tree that routes it. The
/// function itself does nothing.
pub fn attempts_are_turns()
    ensures granted { (t : Setting) → (h : List Entry) → AreAttempts t h → AreGranted h }
    ensures turns { (t : Setting) → (h : List Entry) → AreAttempts t h →
        AtMarks (λ s. (number : ℕ) → AreTurnsOf s.round (calls_of number s.segment)) h }
    ensures stands { (t : Setting) → (h : List Entry) → AreAttempts t h →
        AtEach (λ before e. IsTrue (is_mark e) → Stands t.design before) h }
{}

/// Where no trees are given, the rounds begin with an empty history, and all routed nets are open. The
/// function itself does nothing.
pub fn nothing_given_opens_all()
    ensures claims { (d : DesignView) → given_claims d [] ≡ [] }
    ensures nets { (d : DesignView) → open_nets d [] ≡ routed_nets d }
{}
