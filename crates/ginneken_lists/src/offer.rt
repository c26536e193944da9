//! Buffers that are offered one by one.
use crate::stored::Stored;
use std::marker::Model;

/// A buffer of a kind over the pair of a list that it drives best, with that pair's mark.
#[derive(Debug, Drop)]
pub struct Offer {
    pub(crate) pair: Stored,
}

impl Model for Offer {
    ghost use Rattle.ginneken_lists.specs.declared.pair.Pair.{Pair};
    ghost use Rattle.ginneken_lists.specs.StoredPairs.{pair_of};

    ghost Value = { Pair };

    ghost view = { λ offer. pair_of offer.pair };
}
