//! What rounds are asked for.
ghost use Rattle.std.proofs.Props.{props};
ghost use Rattle.run_histories.specs.GivenRoutes.{AreGivenRoutes};
ghost use Rattle.word_reader.specs.Orders.{AreInRange};

use gr_base::{Design, Routes};
use word_reader::Options;

/// Rounds that are asked for: of a design, from given trees, by options.
#[derive(Clone, Copy)]
pub(crate) struct Request<'a> {
    pub design: &'a Design,
    pub given: &'a Routes,
    pub options: Options,
    ghost fits: { AreGivenRoutes design.now given.now },
    ghost range: { AreInRange options } by { Prim.hlevel props },
}
