//! Tracks for the pieces of a panel from the left edge on.
ghost use Rattle.std.specs.Prelude.{IfOk};
ghost use Rattle.track_panels.specs.Pieces.{ArePieces};
ghost use Rattle.track_panels.specs.Numberings.{IsPanel};

use crate::numbered::Panel;
use crate::open_tracks::OpenTracks;
use crate::piece::Piece;
use std::alloc::{AllocError, Global};

/// The left-edge numbering of a panel's pieces: each piece gets the least track whose pieces so far all
/// end below its low end. The pieces are at least one and fewer than 2^31, and go by rising low ends;
/// each one's low end is below its high end, which is below 8,388,608, the most cells of a grid. Pieces
/// with a common tile have different tracks, and no such numbering uses fewer. The time is n log n for
/// n pieces. The only error is want of memory. From Hashimoto and Stevens, 1971.
pub fn panel(alloc: Global, pieces: &[Piece]) -> Result<Panel, AllocError>
    requires { ArePieces pieces.now }
    ensures { IfOk result (IsPanel pieces.now) }
{
    let mut tracks = OpenTracks::new(alloc);
    let mut numbers = Vec::with_capacity(alloc, pieces.len())?;
    for piece in pieces {
        let track = tracks.place(*piece)?;
        numbers.push(track)?;
    }
    Ok(Panel {
        numbers,
        tracks: tracks.opened,
        point: tracks.point,
    })
}
