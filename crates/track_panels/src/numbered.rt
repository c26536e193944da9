//! The numbering of a panel's pieces.
ghost use Rattle.std.specs.Prelude.{◌≡◌, ◌<◌, length, slice_get, Some};

use std::marker::Model;

/// The tracks of a panel's pieces.
#[derive(Debug, Drop)]
pub struct Panel {
    pub(crate) numbers: Vec<u32>,
    pub(crate) tracks: u32,
    pub(crate) point: u32,
}

impl Model for Panel {
    ghost use Rattle.track_panels.specs.Panels.{PanelView};

    ghost Value = { PanelView };

    ghost view = { λ p. record { numbers = p.numbers.items; tracks = p.tracks; point = p.point } };
}

impl Panel {
    /// How many tracks there are: the fewest for these pieces. They are numbered from 0.
    pub fn tracks(&self) -> u32
        ensures { result ≡ self.now.tracks }
    {
        self.tracks
    }

    /// The track of the piece at a place.
    pub fn track(&self, at: u32) -> u32
        requires { at < length self.now.numbers }
        ensures { slice_get self.now.numbers at ≡ Some result }
    {
        self.numbers[at as usize]
    }

    /// The least tile that as many pieces cover as there are tracks.
    pub fn point(&self) -> u32
        ensures { result ≡ self.now.point }
    {
        self.point
    }
}
