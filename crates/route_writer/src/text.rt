//! The parts of a written text.
ghost use Rattle.std.specs.Prelude.{◌≡◌, ◌<◌, ◌++◌, OnOk};
ghost use Rattle.gr_base.specs.Grid.{cells_of};
ghost use Rattle.solution_text.specs.WrittenText.{segment_line};

use gr_base::Design;
use gr_text::Text;
use solution_text::{Run, put_point};
use std::alloc::AllocError;

/// Puts the line of a run behind the text: the centres of its ends.
pub fn put_segment(text: &mut Text, design: &Design, run: Run) -> Result<(), AllocError>
    requires from { run.from < cells_of design.now.frame.shape }
    requires to { run.to < cells_of design.now.frame.shape }
    ensures { OnOk result (text.new ≡ text.old ++ segment_line design.now.frame run) }
{
    put_point(text, design.centre(run.from))?;
    text.put(b"-")?;
    put_point(text, design.centre(run.to))?;
    text.put(b"\n")
}
