//! Puts a net's record behind a text in memory; it touches no sink.
ghost use Rattle.std.specs.Prelude.{◌≡◌, ◌++◌, [], OnOk, codes};
ghost use Rattle.std.specs.Fmt.{decimal};
ghost use Rattle.std.specs.List.{flat_map};
ghost use Rattle.gr_base.specs.Trees.{edges_of};
ghost use Rattle.solution_text.specs.Runs.{runs_of};
ghost use Rattle.solution_text.specs.WrittenText.{segment_line, record_text};
ghost use Rattle.route_writer.specs.RouteTexts.{heading_text};

use crate::edges::gather_edges;
use crate::runs::put_runs;
use gr_base::{Design, Edge, Net, RouteTree};
use gr_text::Text;
use solution_text::Run;
use std::alloc::{AllocError, Global};
use straight_runs::gather_runs;

/// What a record is gathered in: the text so far, and room that each net uses anew.
#[derive(Drop)]
pub struct Draft {
    pub text: Text,
    pub edges: Vec<Edge>,
    pub lows: Vec<u32>,
    pub runs: Vec<Run>,
}

impl Draft {
    /// An empty text. It takes no memory.
    pub fn new(alloc: Global) -> Draft
        ensures { result.text ≡ [] }
    {
        Draft {
            text: Text::new(alloc),
            edges: Vec::new(alloc),
            lows: Vec::new(alloc),
            runs: Vec::new(alloc),
        }
    }

    /// Puts the record of a net with this tree behind the text.
    pub fn put_record(
        &mut self,
        design: &Design,
        net: &Net,
        tree: &RouteTree,
    ) -> Result<(), AllocError>
        requires { tree.now.shape ≡ design.now.frame.shape }
        ensures { OnOk result
            (self.new.text ≡ self.old.text ++ record_text design.now.frame net.now (edges_of tree.now)) }
    {
        put_heading(&mut self.text, net)?;
        self.put_segments(design, tree)?;
        self.text.put(b"!\n")
    }

    /// Puts the lines of the maximal straight runs of a tree's edges behind the text.
    fn put_segments(&mut self, design: &Design, tree: &RouteTree) -> Result<(), AllocError>
        requires { tree.now.shape ≡ design.now.frame.shape }
        ensures { OnOk result (self.new.text ≡ self.old.text ++
            flat_map (segment_line design.now.frame) (runs_of design.now.frame.shape (edges_of tree.now))) }
    {
        gather_edges(&mut self.edges, tree)?;
        gather_runs(
            &mut self.runs,
            &mut self.lows,
            design.frame().shape,
            &self.edges,
        )?;
        put_runs(&mut self.text, design, &self.runs)?;
        Ok(())
    }
}

/// Puts the line of a net's name and id behind the text.
fn put_heading(text: &mut Text, net: &Net) -> Result<(), AllocError>
    ensures { OnOk result (text.new ≡ text.old ++ heading_text net.now) }
{
    text.put_number_line(net.name.bytes(), u128::from(net.id))
}
