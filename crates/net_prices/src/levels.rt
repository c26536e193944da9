//! Levels of cells.
ghost use Rattle.std.specs.Prelude.{◌≡◌, ◌<◌, length};
ghost use Rattle.gr_base.specs.Grid.{cells_of};
ghost use Rattle.net_prices.specs.Arcs.{level_at};

use gr_base::Shape;

/// The levels of a grid's cells: their labels, but at most a bound.
#[derive(Clone, Copy)]
pub(crate) struct Levels<'a> {
    pub(crate) shape: Shape,
    pub(crate) labels: &'a [u32],
    pub(crate) bound: u32,
    pub(crate) ghost long: { length labels.now ≡ cells_of shape },
}

impl Levels<'_> {
    /// The level of a cell.
    pub(crate) fn at(&self, cell: u32) -> u32
        requires { cell < cells_of self.now.shape }
        ensures { result ≡ level_at self.now.labels.now self.now.bound cell }
    {
        self.labels[cell as usize].min(self.bound)
    }
}
