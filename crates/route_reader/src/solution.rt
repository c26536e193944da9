//! Keeps the routes that were read: the runs of all nets in one list, and where in it each net's own stand.
ghost use Rattle.std.specs.Prelude.{◌≡◌, ◌<◌, length, map, All};
ghost use Rattle.route_reader.specs.Solutions.{runs_at, IsRun, IsSolution};
ghost use Rattle.route_reader.specs.SolutionStore.{runs_between, IsStretch};

use gr_base::Shape;
use solution_text::Run;
use std::marker::Model;

/// From where to where a net's runs stand in the list of all runs.
#[derive(Clone, Copy, Debug, PartialEq, Eq)]
pub(crate) struct Stretch {
    pub(crate) start: usize,
    pub(crate) end: usize,
}

/// The routes of a solution's text: each net's runs, in the order of the text.
#[derive(Debug, Drop)]
pub struct Solution {
    shape: Shape,
    runs: Vec<Run>,
    stretches: Vec<Stretch>,
}

impl Model for Solution {
    ghost use Rattle.std.specs.Prelude.{map};
    ghost use Rattle.route_reader.specs.Solutions.{SolutionView};
    ghost use Rattle.route_reader.specs.SolutionStore.{runs_between, Keeps};

    ghost Value = { SolutionView };

    ghost view = { λ s. record {
      shape = s.shape;
      runs = map (runs_between s.runs.items) s.stretches.items;
    } };

    ghost invariant = { λ s. Keeps s.shape s.runs.items s.stretches.items };
}

impl Solution {
    /// The solution whose runs these are, those of each net between the ends of its stretch.
    pub(crate) fn new(shape: Shape, runs: Vec<Run>, stretches: Vec<Stretch>) -> Self
        requires stretches { All (IsStretch (length runs.items)) stretches.items }
        requires runs { All (IsRun shape) runs.items }
        ensures { result ≡ record { shape = shape; runs = map (runs_between runs.items) stretches.items } }
    {
        Solution {
            shape,
            runs,
            stretches,
        }
    }

    /// The runs of a net's segments, in the order of the text. There are none for a net without a
    /// record.
    pub fn runs(&self, net: u32) -> &[Run]
        requires { net < length self.now.runs }
        ensures runs { result.now ≡ runs_at self.now net }
        ensures each { All (IsRun self.now.shape) result.now }
        ensures all { IsSolution self.now }
    {
        let stretch = self.stretches[net as usize];
        &self.runs[stretch.start..stretch.end]
    }
}
