//! Grids with their layers taken as one.
ghost use Rattle.std.specs.Prelude.{◌≡◌, ◌<◌, All, IsTrue, map, OnOk};
ghost use Rattle.gr_base.specs.Grid.{cells_of, edge_at, has_edge, high_of, is_wire};
ghost use Rattle.net_prices.specs.Folds.{folded, tile_of, IsFoldOf};

use gr_base::{Edge, Shape};
use std::alloc::AllocError;

/// A grid, and the one for which arcs are kept: the same, or that of its columns and rows with one layer.
///
/// Where vias cost nothing, one layer gives the same bounds, and has as many times fewer cells.
#[derive(Clone, Copy, Debug, PartialEq, Eq)]
pub(crate) struct Fold {
    pub shape: Shape,
    pub small: Shape,
    pub flat: bool,
    pub ghost fits: { IsFoldOf flat shape small },
}

/// A grid with its layers as one, where that is asked for, else as it is.
pub(crate) fn fold_of(shape: Shape, flat: bool) -> Fold
    ensures { result.shape ≡ shape }
{
    if flat {
        if let Some(small) = Shape::new(shape.columns(), shape.rows(), 1) {
            return Fold {
                shape,
                small,
                flat: true,
            };
        }
    }
    Fold {
        shape,
        small: shape,
        flat: false,
    }
}

impl Fold {
    /// Where a cell stands.
    pub(crate) fn cell(self, cell: u32) -> u32
        requires { cell < cells_of self.shape }
        ensures cell { result ≡ folded self.flat self.shape cell }
    {
        if self.flat {
            let place = self.shape.place_of(cell);
            self.shape.cell_of(place.x, place.y, 0)
        } else {
            cell
        }
    }

    /// Where a wire edge stands, with the layers as one.
    pub(crate) fn edge(self, e: Edge) -> Edge
        requires edge { IsTrue (has_edge self.shape e) }
        requires wire { IsTrue (is_wire e) }
        requires flat { IsTrue self.flat }
        ensures edge { result ≡ edge_at (tile_of self.shape e.low) e.way }
        ensures inside { IsTrue (has_edge self.small result) }
    {
        Edge {
            low: self.cell(e.low),
            way: e.way,
        }
    }
}

/// Puts in where pins stand, in the place of what was there. The only error is want of memory.
pub(crate) fn fold_pins(folds: &mut Vec<u32>, fold: Fold, pins: &[u32]) -> Result<(), AllocError>
    requires { All (λ pin. pin < cells_of fold.shape) pins.now }
    ensures { OnOk result (folds.new.items ≡ map (folded fold.flat fold.shape) pins.now) }
{
    folds.clear();
    for pin in pins {
        folds.push(fold.cell(*pin))?;
    }
    Ok(())
}
