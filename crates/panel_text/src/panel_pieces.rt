//! The pieces of a panel.
ghost use Rattle.std.specs.Prelude.{◌≡◌, ℕ, ◌<◌, List, OnOk};
ghost use Rattle.gr_base.specs.Grid.{cells_of};
ghost use Rattle.panel_text.specs.Chains.{AreInGrid, HaveChains};
ghost use Rattle.panel_text.specs.PanelPieces.{pieces_along};
ghost use Rattle.panel_text.specs.Places.{IsPlace, cell_in, lines_along, tiles_along};

use crate::place::PanelPlace;
use crate::starts::Starts;
use gr_base::{Shape, Way};
use std::alloc::AllocError;
use track_panels::Piece;

/// How many rows or columns each layer has for runs that go this way.
pub(crate) fn lines(shape: Shape, way: Way) -> u32
    ensures { result ≡ lines_along shape way }
{
    match way {
        Way::East => shape.rows(),
        Way::North => shape.columns(),
        Way::Up => 0,
    }
}

/// How many tiles each of them has.
fn tiles(shape: Shape, way: Way) -> u32
    ensures { result ≡ tiles_along shape way }
{
    match way {
        Way::East => shape.columns(),
        Way::North => shape.rows(),
        Way::Up => 0,
    }
}

/// The cell at a tile of a panel.
fn cell(shape: Shape, place: PanelPlace, tile: u32) -> u32
    requires place { IsPlace shape place }
    requires tile { tile < tiles_along shape place.way }
    ensures number { result ≡ cell_in shape place tile }
    ensures inside { result < cells_of shape }
{
    match place.way {
        Way::East => shape.cell_of(tile, place.line, place.layer),
        Way::North => shape.cell_of(place.line, tile, place.layer),
        Way::Up => shape.cell_of(place.line, place.line, tile),
    }
}

/// Replaces the list by the pieces of a panel, by their low ends and then by net. `starts` are the runs
/// that go along it. The only error is want of memory.
pub(crate) fn gather_pieces(
    pieces: &mut Vec<Piece>,
    starts: &Starts,
    shape: Shape,
    place: PanelPlace,
) -> Result<(), AllocError>
    requires grid { AreInGrid shape starts.now }
    requires place { IsPlace shape place }
    ensures { OnOk result ((chains : ℕ → List (ℕ × ℕ)) → HaveChains chains starts.now →
        pieces.new.items ≡ pieces_along shape place chains) }
{
    pieces.clear();
    for tile in 0..tiles(shape, place.way) {
        let cell = cell(shape, place, tile);
        starts.push_pieces(pieces, shape, place.way, cell, tile)?;
    }
    Ok(())
}
