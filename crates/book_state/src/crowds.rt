//! Where the wire edges with more demand than capacity are.
ghost use Rattle.std.specs.Prelude.{◌≡◌, ℕ, ◌+◌, ◌*◌, ◌<◌, ◌≤◌, false, length, slice_index_or, IfOk, IsTrue};
ghost use Rattle.gr_base.specs.Grid.{cells_of};
ghost use Rattle.grid_demand.specs.LoadSums.{LoadsView};
ghost use Rattle.grid_demand.specs.Overfull.{AreOverfull};
ghost use Rattle.grid_demand.specs.Tables.{CapacityView};
ghost use Rattle.maze_route.specs.Windows.{IsWindow};
ghost use Rattle.book_state.specs.Crowds.{AreTiles, AreColumns, IsCalm, AreCrowds};

use gr_base::{Shape, Way};
use grid_demand::Overfull;
use maze_route::Window;
use std::alloc::{AllocError, Global};

/// The wire edges with more demand than capacity, as tables: of edges, and of tiles, so that a box of
/// tiles without such an edge is told row by row.
#[derive(Debug, Drop)]
pub(crate) struct Crowds {
    over: Overfull,
    shape: Shape,
    /// By tile, one more than the last column at or before it in its row in which such an edge begins
    /// on some layer, or 0 where there is none.
    last: Vec<u32>,
}

impl Crowds {
    /// The tables of loads, made of that of edges. The only error is want of memory.
    pub(crate) fn of(alloc: Global, shape: Shape, over: Overfull) -> Result<Crowds, AllocError>
        requires { length over.table ≡ 2 * cells_of shape }
        ensures { (c : CapacityView) (l : LoadsView) → c.shape ≡ shape → AreOverfull c l over →
            IfOk result (AreCrowds c l) }
    {
        let tiles = crowded_tiles(alloc, shape, &over)?;
        let last = last_columns(alloc, shape, &tiles)?;
        Ok(Crowds { over, shape, last })
    }

    /// The table of edges.
    pub(crate) fn over(&self) -> &Overfull
        ensures { result.now ≡ self.now.over }
    {
        &self.over
    }

    /// The table of edges, by value.
    pub(crate) fn into_over(self) -> Overfull
        ensures { result ≡ self.over }
    {
        self.over
    }

    /// Whether such an edge begins in a box. It is false only where none does.
    pub(crate) fn meets(&self, window: Window) -> bool
        requires window { IsWindow self.now.shape window }
        requires long { length self.now.last.items ≡ self.now.shape.columns * self.now.shape.rows }
        ensures { (c : CapacityView) (l : LoadsView) → AreCrowds c l self.now → result ≡ false →
            IsCalm self.now.shape self.now.over.table window }
    {
        for y in window.y0..window.y1 + 1 {
            let tile = self.shape.cell_of(window.x1, y, 0);
            if self.last[tile as usize] > window.x0 {
                return true;
            }
        }
        false
    }
}

/// By tile, whether an edge with more demand than capacity begins in it on some layer. The only error
/// is want of memory.
fn crowded_tiles(alloc: Global, shape: Shape, over: &Overfull) -> Result<Vec<bool>, AllocError>
    requires { length over.now.table ≡ 2 * cells_of shape }
    ensures long { IfOk result (λ tiles. length tiles.items ≡ shape.columns * shape.rows) }
    ensures tiles { IfOk result (λ tiles. AreTiles shape over.now.table tiles.items) }
{
    let mut tiles = vec![in alloc; false; shape.stride(Way::Up) as usize]?;
    for at in 0..over.len() {
        let place = shape.place_of(over.edge(at).low);
        let tile = shape.cell_of(place.x, place.y, 0);
        tiles[tile as usize] = true;
    }
    Ok(tiles)
}

/// By tile, one more than the last column at or before it in its row for which the table of tiles says
/// so, or 0 where there is none. The only error is want of memory.
fn last_columns(alloc: Global, shape: Shape, tiles: &[bool]) -> Result<Vec<u32>, AllocError>
    requires { length tiles.now ≡ shape.columns * shape.rows }
    ensures long { IfOk result (λ last. length last.items ≡ shape.columns * shape.rows) }
    ensures columns { IfOk result (λ last. AreColumns shape.columns tiles.now last.items) }
{
    let mut last = Vec::with_capacity(alloc, tiles.len())?;
    let mut column = 0;
    let mut told = 0;
    for crowded in tiles {
        if *crowded {
            told = column + 1;
        }
        last.push_reserved(told);
        column += 1;
        if column == shape.columns() {
            column = 0;
            told = 0;
        }
    }
    Ok(last)
}
