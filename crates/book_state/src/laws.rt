//! The laws of replies and bookings.
ghost use Rattle.std.specs.Prelude.{◌≡◌, ℕ, List, [], ◌∷◌, ◌++◌, take, Some, None, IsSome, IsTrue, ◌↔◌};
ghost use Rattle.gr_base.specs.declared.grid.Edge.{Edge};
ghost use Rattle.grid_demand.specs.Tables.{CapacityView};
ghost use Rattle.book_state.specs.Books.{booked, demand, is_victim, reply_to_claim, IsLegal};
ghost use Rattle.book_state.specs.Cuts.{cut, cut_after};
ghost use Rattle.book_state.specs.declared.entry.Call.TheVariants.{Claim as Claims, Release, Mark};
ghost use Rattle.book_state.specs.declared.entry.Claim.{Claim};
ghost use Rattle.book_state.specs.declared.entry.Entry.{Entry};
ghost use Rattle.book_state.specs.declared.entry.Reply.TheVariants.{Claimed, Taken, Full, Released};

/// What holds of replies and bookings of all histories: a claim is `Taken` exactly where its net is
/// booked, and never `Full` without a slack; `Claimed` books the tree and `Released` frees the net;
/// a mark changes neither bookings nor demand; a victim is booked; the first part of a legal history
/// is legal. The function itself does nothing.
pub fn replies_make_bookings()
    ensures taken { (c : CapacityView) → (h : List Entry) → (claim : Claim) →
        (reply_to_claim c h claim ≡ Taken) ↔ IsSome (booked h claim.net) }
    ensures no_bound { (c : CapacityView) → (h : List Entry) → (claim : Claim) → claim.slack ≡ None →
        (e : Edge) → (n : ℕ) → reply_to_claim c h claim ≡ Full e n → ⊥ }
    ensures claimed { (h : List Entry) → (e : Entry) → (claim : Claim) → e.call ≡ Claims claim → e.reply ≡ Claimed →
        booked (h ++ e ∷ []) claim.net ≡ Some claim.tree }
    ensures released { (h : List Entry) → (e : Entry) → (net : ℕ) → e.call ≡ Release net → e.reply ≡ Released →
        booked (h ++ e ∷ []) net ≡ None }
    ensures mark { (h : List Entry) → (e : Entry) → (net : ℕ) → e.call ≡ Mark →
        booked (h ++ e ∷ []) net ≡ booked h net }
    ensures mark_demand { (c : CapacityView) → (h : List Entry) → (e : Entry) → (edge : Edge) → e.call ≡ Mark →
        demand c (h ++ e ∷ []) edge ≡ demand c h edge }
    ensures victim { (c : CapacityView) → (h : List Entry) → (net : ℕ) →
        IsTrue (is_victim c h net) → IsSome (booked h net) }
    ensures legal { (c : CapacityView) → (h : List Entry) → (n : ℕ) → IsLegal c h → IsLegal c (take n h) }
    ensures cut_push { (h : List Entry) → (e : Entry) → cut (h ++ e ∷ []) ≡ cut_after (cut h) e }
{}
