//! How runs come into the chains of the cells in which they begin, and a cell's pieces out of them.
ghost use Rattle.std.specs.Prelude.{◌≡◌, ℕ, ◌<◌, ◌++◌, List, [], map, length, All, None, IfOk, OnOk};
ghost use Rattle.gr_base.specs.Grid.{cells_of, place_at};
ghost use Rattle.straight_runs.specs.Ends.{LiesInside};
ghost use Rattle.panel_text.specs.Chains.{AreInGrid, HaveChains, with_run, with_runs};
ghost use Rattle.panel_text.specs.PanelPieces.{piece_at};
ghost use Rattle.panel_text.specs.Places.{tile_of_cell};

use crate::starts::{Start, Starts};
use gr_base::{Shape, Way};
use solution_text::Run;
use std::alloc::{AllocError, Global};
use track_panels::Piece;

/// The most runs that can be numbered.
const MOST_RUNS: usize = 4_294_967_295;

impl Starts {
    /// No run begins in any cell of the grid. The only error is want of memory.
    pub(crate) fn new(alloc: Global, shape: Shape) -> Result<Starts, AllocError>
        ensures grid { IfOk result (AreInGrid shape) }
        ensures chains { IfOk result (HaveChains (λ cell. [])) }
    {
        Ok(Starts {
            firsts: vec![in alloc; None; shape.cells() as usize]?,
            runs: Vec::new(alloc),
        })
    }

    /// Puts a net's run at the head of the chain of its cell. The only error is want of memory.
    fn add(&mut self, shape: Shape, net: u32, run: Run) -> Result<(), AllocError>
        requires grid { AreInGrid shape self.old }
        requires run { LiesInside shape run }
        ensures grid { OnOk result (AreInGrid shape self.new) }
        ensures chains { OnOk result ((chains : ℕ → List (ℕ × ℕ)) →
            HaveChains chains self.old → HaveChains (with_run net run chains) self.new) }
    {
        let number = self.runs.len();
        if number >= MOST_RUNS {
            return Err(AllocError);
        }
        let cell = run.from as usize;
        let next = self.firsts[cell];
        self.runs.push(Start {
            net,
            to: run.to,
            next,
        })?;
        self.firsts[cell] = Some(number as u32);
        Ok(())
    }

    /// Puts a net's runs into the chains, one after the other. The only error is want of memory.
    pub(crate) fn add_all(&mut self, shape: Shape, net: u32, runs: &[Run]) -> Result<(), AllocError>
        requires grid { AreInGrid shape self.old }
        requires runs { All (LiesInside shape) runs.now }
        ensures grid { OnOk result (AreInGrid shape self.new) }
        ensures chains { OnOk result ((chains : ℕ → List (ℕ × ℕ)) →
            HaveChains chains self.old → HaveChains (with_runs net runs.now chains) self.new) }
    {
        for run in runs {
            self.add(shape, net, *run)?;
        }
        Ok(())
    }

    /// Adds the pieces of the runs that begin in a cell, which is at this tile of its panel. The only
    /// error is want of memory.
    pub(crate) fn push_pieces(
        &self,
        pieces: &mut Vec<Piece>,
        shape: Shape,
        way: Way,
        cell: u32,
        tile: u32,
    ) -> Result<(), AllocError>
        requires grid { AreInGrid shape self.now }
        requires cell { cell < cells_of shape }
        ensures { OnOk result ((chains : ℕ → List (ℕ × ℕ)) → HaveChains chains self.now →
            pieces.new.items ≡ pieces.old.items ++ map (piece_at shape way tile) (chains cell)) }
    {
        let mut at = self.firsts[cell as usize];
        while let Some(number) = at {
            let run = self.runs[number as usize];
            pieces.push(Piece {
                net: run.net,
                low: tile,
                high: tile_of(shape, way, run.to),
            })?;
            at = run.next;
        }
        Ok(())
    }
}

/// The tile of a cell in its row for East, in its column for North.
fn tile_of(shape: Shape, way: Way, cell: u32) -> u32
    requires { cell < cells_of shape }
    ensures { result ≡ tile_of_cell way (place_at shape cell) }
{
    let place = shape.place_of(cell);
    match way {
        Way::East => place.x,
        Way::North => place.y,
        Way::Up => place.layer,
    }
}
