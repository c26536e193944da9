//! The straight runs of a net's edges as callers get them: a list that they can read but not change.
ghost use Rattle.std.specs.Prelude.{◌≡◌};

use solution_text::Run;
use std::marker::Model;

/// The maximal straight runs of a net's edges.
#[derive(Debug, Drop)]
pub struct Straight {
    pub(crate) runs: Vec<Run>,
}

impl Model for Straight {
    ghost use Rattle.std.specs.Prelude.{List};
    ghost use Rattle.solution_text.specs.declared.run.Run.{Run as RunView};

    ghost Value = { List RunView };

    ghost view = { λ straight. straight.runs.items };
}

impl Straight {
    /// The runs, each once: East runs first, then North, then Up, and within a way rising by the
    /// number of the cell in which they begin.
    pub fn runs(&self) -> &[Run]
        ensures { result.now ≡ self.now }
    {
        &self.runs
    }
}
