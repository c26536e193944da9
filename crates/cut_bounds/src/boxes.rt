//! The boxes of a side, which is a power of two: they part the tiles.
ghost use Rattle.std.specs.Prelude.{◌≡◌, ◌<◌};
ghost use Rattle.cut_bounds.specs.Boxes.{across_of};

use gr_base::Shape;

/// The boxes of side 2^level at multiples of it, cut at the chip's side. They are numbered by row and
/// then by column.
#[derive(Clone, Copy, Debug)]
pub(crate) struct Boxes {
    pub shape: Shape,
    pub level: u32,
    /// How many boxes a row has.
    pub across: u32,
    pub ghost few: { level < 24 },
    pub ghost wide: { across ≡ across_of shape level },
}
