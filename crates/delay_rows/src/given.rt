//! The texts of a row, and what they say.
ghost use Rattle.std.specs.Prelude.{◌≡◌, length, IsTrue, IfOk};
ghost use Rattle.gr_base.specs.Designs.{is_routed};
ghost use Rattle.gr_base.specs.Plans.{IsRouteOfNet};
ghost use Rattle.gr_io.specs.Texts.{is_reached};
ghost use Rattle.rc_library.specs.Libraries.{IsLibraryOf};

use crate::{buffered, lists, nodes};
use anyhow::bail;
use gr_base::{Design, RouteTree};
use gr_io::{MemoryShelf, Shelf, Slot};
use gr_text::Text;
use ispd_reader::read_design;
use rc_library::{Library, read_library};
use route_evaluator::tree_of;
use route_reader::read_solution;
use std::alloc::Global;

/// What a line asks for.
#[derive(Clone, Copy)]
pub(crate) enum Asked<'a> {
    /// The text of buffers at these cells.
    Buffers(&'a str),
    Nodes,
    /// The lists after these steps.
    Lists(&'a str),
}

/// The texts of a design, of its routes and of a library.
#[derive(Debug, Drop)]
pub(crate) struct Given {
    pub design: String,
    pub route: String,
    pub library: String,
}

impl Given {
    /// Empty texts.
    pub(crate) fn none(alloc: Global) -> Given {
        Given {
            design: String::new(alloc),
            route: String::new(alloc),
            library: String::new(alloc),
        }
    }

    /// The text that is asked for.
    pub(crate) fn told(&self, alloc: Global, asked: Asked<'_>) -> anyhow::Result<Text> {
        let design = self.design(alloc)?;
        self.told_of(alloc, &design, asked)
    }

    fn told_of(&self, alloc: Global, design: &Design, asked: Asked<'_>) -> anyhow::Result<Text>
        requires one { length design.now.nets ≡ 1 }
        requires routed { IsTrue (is_routed design.now 0) }
    {
        let library = self.library(alloc, design)?;
        self.told_with(alloc, design, &library, asked)
    }

    fn told_with(
        &self,
        alloc: Global,
        design: &Design,
        library: &Library,
        asked: Asked<'_>,
    ) -> anyhow::Result<Text>
        requires one { length design.now.nets ≡ 1 }
        requires routed { IsTrue (is_routed design.now 0) }
        requires library { IsLibraryOf design.now library.now }
    {
        let tree = self.tree(alloc, design)?;
        let told = match asked {
            Asked::Buffers(words) => buffered::told(alloc, design, library, tree, words)?,
            Asked::Nodes => nodes::told(alloc, design, library, &tree)?,
            Asked::Lists(words) => lists::told(alloc, library, words)?,
        };
        Ok(told)
    }

    /// The design, which has one net, and that routed.
    fn design(&self, alloc: Global) -> anyhow::Result<Design>
        ensures one { IfOk result (λ design. length design.nets ≡ 1) }
        ensures routed { IfOk result (λ design. IsTrue (is_routed design 0)) }
    {
        let mut shelf = reached(alloc, Slot::Design, &self.design)?;
        let design = read_design(alloc, &mut shelf)?;
        if design.nets() != 1 {
            bail!("the design has not one net");
        }
        if !design.routed(0) {
            bail!("the net is not routed");
        }
        Ok(design)
    }

    /// The library, read for the design.
    fn library(&self, alloc: Global, design: &Design) -> anyhow::Result<Library>
        ensures { IfOk result (IsLibraryOf design.now) }
    {
        let mut shelf = reached(alloc, Slot::Library, &self.library)?;
        let library = read_library(alloc, &mut shelf, design)?;
        Ok(library)
    }

    /// The tree of the net's edges.
    fn tree(&self, alloc: Global, design: &Design) -> anyhow::Result<RouteTree>
        requires { IsTrue (is_routed design.now 0) }
        ensures { IfOk result (IsRouteOfNet design.now 0) }
    {
        let mut shelf = reached(alloc, Slot::Solution, &self.route)?;
        let solution = read_solution(alloc, &mut shelf, design)?;
        let tree = tree_of(alloc, design, &solution, 0)?;
        Ok(tree)
    }
}

/// A shelf on which this text was reached.
fn reached(alloc: Global, slot: Slot, text: &str) -> anyhow::Result<MemoryShelf>
    ensures { IfOk result (λ shelf. IsTrue (is_reached shelf slot)) }
{
    let mut shelf = MemoryShelf::new(alloc, Vec::new(alloc));
    shelf.hold(alloc, "text", text.as_bytes())?;
    shelf.reach(alloc, slot, "text")?;
    Ok(shelf)
}
