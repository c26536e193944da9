//! The bounds of a design.
ghost use Rattle.std.specs.Prelude.{◌≡◌};

use crate::wall::MeasuredWall;
use std::marker::Model;

/// What no router can do better on a design: figures that total overflow and wirelength are at least,
/// and the walls that show it.
#[derive(Debug, Drop)]
pub struct Bounds {
    pub(crate) overflow: u128,
    pub(crate) wirelength: u128,
    pub(crate) usable_wirelength: u128,
    pub(crate) columns: u64,
    pub(crate) rows: u64,
    pub(crate) boxes: u64,
    pub(crate) fullest: Vec<MeasuredWall>,
}

impl Model for Bounds {
    ghost use Rattle.cut_bounds.specs.Bounds.{BoundsView};
    ghost use Rattle.cut_bounds.specs.BoundsStore.{seen};

    ghost Value = { BoundsView };

    ghost view = { seen };
}

impl Bounds {
    /// What total overflow is at least.
    pub fn overflow(&self) -> u128
        ensures { result ≡ self.now.overflow }
    {
        self.overflow
    }

    /// What wirelength along usable edges is at least.
    pub fn usable_wirelength(&self) -> u128
        ensures { result ≡ self.now.usable_wirelength }
    {
        self.usable_wirelength
    }
}
