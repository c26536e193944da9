//! The lines of a panel.
ghost use Rattle.std.specs.Prelude.{◌≡◌, ◌<◌, ◌^◌, ◌++◌, length, All, OnOk};
ghost use Rattle.std.specs.List.{flat_map, zip};
ghost use Rattle.panel_text.specs.Texts.{letter, panel_line, piece_line};

use crate::place::PanelPlace;
use gr_base::{Design, Way};
use gr_text::Text;
use std::alloc::AllocError;
use track_panels::{Panel, Piece};

/// Runs in rows are horizontal, and runs in columns vertical.
fn letter(way: Way) -> &'static [u8]
    ensures { result.now ≡ letter way }
{
    match way {
        Way::East => b"h",
        Way::North => b"v",
        Way::Up => b"",
    }
}

/// Puts the line of a panel at the end of the text: how many tracks it has, and the tile that shows it.
pub(crate) fn put_panel_line(
    text: &mut Text,
    place: PanelPlace,
    tracks: u32,
    point: u32,
) -> Result<(), AllocError>
    requires { place.layer < 16 }
    ensures { OnOk result (text.new ≡ text.old ++ panel_line place tracks point) }
{
    text.put(b"panel ")?;
    text.put(letter(place.way))?;
    text.put(b" ")?;
    text.put_number(place.layer + 1)?;
    text.put(b" ")?;
    text.put_number(place.line)?;
    text.put(b" tracks ")?;
    text.put_number(tracks)?;
    text.put(b" at ")?;
    text.put_number(point)?;
    text.put(b"\n")
}

/// Puts the line of each piece with its track at the end of the text.
pub(crate) fn put_pieces(
    text: &mut Text,
    design: &Design,
    pieces: &[Piece],
    panel: &Panel,
) -> Result<(), AllocError>
    requires few { length pieces.now < 2 ^ 31 }
    requires nets { All (λ piece. piece.net < length design.now.nets) pieces.now }
    requires numbers { length panel.now.numbers ≡ length pieces.now }
    requires tracks { All (λ track. track < 2 ^ 31) panel.now.numbers }
    ensures { OnOk result (text.new ≡ text.old ++
        flat_map (piece_line design.now) (zip pieces.now panel.now.numbers)) }
{
    for at in 0..pieces.len() {
        put_piece(text, design, pieces[at], panel.track(at as u32))?;
    }
    Ok(())
}

/// Puts the line of a piece with its track at the end of the text.
fn put_piece(text: &mut Text, design: &Design, piece: Piece, track: u32) -> Result<(), AllocError>
    requires net { piece.net < length design.now.nets }
    requires track { track < 2 ^ 31 }
    ensures { OnOk result (text.new ≡ text.old ++ piece_line design.now (piece, track)) }
{
    text.put_number(design.net(piece.net).id)?;
    text.put(b" ")?;
    text.put_number(piece.low)?;
    text.put(b" ")?;
    text.put_number(piece.high)?;
    text.put(b" ")?;
    text.put_number(track + 1)?;
    text.put(b"\n")
}
