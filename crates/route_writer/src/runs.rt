//! Puts the lines of runs behind a text in memory, in the order in which the runs are given.
ghost use Rattle.std.specs.Prelude.{◌≡◌, ◌++◌, All, OnOk};
ghost use Rattle.std.specs.List.{flat_map};
ghost use Rattle.solution_text.specs.WrittenText.{segment_line};
ghost use Rattle.straight_runs.specs.Ends.{LiesInside};

use crate::text::put_segment;
use gr_base::Design;
use gr_text::Text;
use solution_text::Run;
use std::alloc::AllocError;

/// Puts the line of each run behind the text.
pub fn put_runs(text: &mut Text, design: &Design, runs: &[Run]) -> Result<(), AllocError>
    requires { All (LiesInside design.now.frame.shape) runs.now }
    ensures { OnOk result (text.new ≡ text.old ++ flat_map (segment_line design.now.frame) runs.now) }
{
    for run in runs {
        put_segment(text, design, *run)?;
    }
    Ok(())
}
