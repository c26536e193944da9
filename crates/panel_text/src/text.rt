//! The text of all panels.
ghost use Rattle.std.specs.Prelude.{◌≡◌, ℕ, ◌+◌, ◌*◌, ◌^◌, ◌<◌, ◌≤◌, ◌∷◌, [], IfOk, OnOk};
ghost use Rattle.route_reader.specs.Solutions.{IsOf, edges_by};
ghost use Rattle.panel_text.specs.Gathered.{AreOfSome};
ghost use Rattle.panel_text.specs.Places.{IsPlace, places_along, places_on};
ghost use Rattle.panel_text.specs.Texts.{panels_text};
ghost use Rattle.panel_text.specs.Told.{IsWithin, Tell, told_text};

use crate::gathered::gather;
use crate::lines::{put_panel_line, put_pieces};
use crate::panel_pieces::{gather_pieces, lines};
use crate::place::PanelPlace;
use crate::starts::Starts;
use crate::told::Told;
use gr_base::{Design, Way};
use gr_text::Text;
use route_reader::Solution;
use std::alloc::{AllocError, Global};
use track_panels::{Piece, panel};

/// The most pieces of a panel.
const MOST_PIECES: usize = 2_147_483_647;

/// The panels of a solution: a line `panels` with the number of those that have a piece, a line
/// `tracks` with the sum of their tracks, and for each of them, those of rows before those of columns
/// and rising by layer and by row or column, a line with the number of its tracks and the least tile
/// that as many pieces cover, and a line for each piece: the net's id, the tiles of its ends, and its
/// track. The only error is want of memory.
pub fn panels(alloc: Global, design: &Design, solution: &Solution) -> Result<Text, AllocError>
    requires { IsOf design.now solution.now }
    ensures { IfOk result (λ text. text ≡ panels_text design.now (edges_by solution.now)) }
{
    let runs = gather(alloc, design, solution)?;
    let mut told = Told {
        lines: Text::new(alloc),
        panels: 0,
        tracks: 0,
    };
    put_way(&mut told, alloc, design, &runs.east, Way::East)?;
    put_way(&mut told, alloc, design, &runs.north, Way::North)?;
    whole_text(alloc, &told)
}

/// The numbers of panels and of tracks, and the panels' lines.
fn whole_text(alloc: Global, told: &Told) -> Result<Text, AllocError>
    ensures { IfOk result (λ text. text ≡ told_text told.now) }
{
    let mut text = Text::new(alloc);
    text.put(b"panels ")?;
    text.put_number(told.panels)?;
    text.put(b"\ntracks ")?;
    text.put_number(told.tracks)?;
    text.put(b"\n")?;
    text.put(told.lines.bytes())?;
    Ok(text)
}

/// Tells the panels of all layers for runs that go this way.
fn put_way(
    told: &mut Told,
    alloc: Global,
    design: &Design,
    starts: &Starts,
    way: Way,
) -> Result<(), AllocError>
    requires starts { AreOfSome design.now way starts.now }
    requires room { IsWithin (2 ^ 28) told.old }
    ensures told { OnOk result (Tell design.now way starts.now (places_along design.now.frame.shape way)
        told.old told.new) }
    ensures room { OnOk result ((count : ℕ) → IsWithin count told.old → IsWithin (count + 16 * 2 ^ 23) told.new) }
{
    let mut pieces = Vec::new(alloc);
    for layer in 0..design.frame().shape.layers() {
        put_layer(told, &mut pieces, alloc, design, starts, way, layer)?;
    }
    Ok(())
}

/// Tells the panels of a layer for runs that go this way. `pieces` is room that is used anew.
fn put_layer(
    told: &mut Told,
    pieces: &mut Vec<Piece>,
    alloc: Global,
    design: &Design,
    starts: &Starts,
    way: Way,
    layer: u32,
) -> Result<(), AllocError>
    requires starts { AreOfSome design.now way starts.now }
    requires layer { layer < design.now.frame.shape.layers }
    requires room { IsWithin (2 ^ 29) told.old }
    ensures told { OnOk result (Tell design.now way starts.now (places_on design.now.frame.shape way layer)
        told.old told.new) }
    ensures room { OnOk result ((count : ℕ) → IsWithin count told.old → IsWithin (count + 2 ^ 23) told.new) }
{
    for line in 0..lines(design.frame().shape, way) {
        put_panel(
            told,
            pieces,
            alloc,
            design,
            starts,
            PanelPlace { way, layer, line },
        )?;
    }
    Ok(())
}

/// Tells a panel, if it has a piece. `pieces` is room that is used anew.
fn put_panel(
    told: &mut Told,
    pieces: &mut Vec<Piece>,
    alloc: Global,
    design: &Design,
    starts: &Starts,
    place: PanelPlace,
) -> Result<(), AllocError>
    requires starts { AreOfSome design.now place.way starts.now }
    requires place { IsPlace design.now.frame.shape place }
    requires room { IsWithin (2 ^ 30) told.old }
    ensures told { OnOk result (Tell design.now place.way starts.now (place ∷ []) told.old told.new) }
    ensures room { OnOk result ((count : ℕ) → IsWithin count told.old → IsWithin (count + 1) told.new) }
{
    gather_pieces(pieces, starts, design.frame().shape, place)?;
    if pieces.is_empty() {
        return Ok(());
    }
    if pieces.len() > MOST_PIECES {
        return Err(AllocError);
    }
    let panel = panel(alloc, pieces)?;
    put_panel_line(&mut told.lines, place, panel.tracks(), panel.point())?;
    put_pieces(&mut told.lines, design, pieces, &panel)?;
    told.panels += 1;
    told.tracks += u64::from(panel.tracks());
    Ok(())
}
