//! Designs of rows of tiles, and trees along them.
ghost use Rattle.std.specs.Prelude.{◌≡◌, ◌+◌, ◌<◌, ◌∷◌, [], IfOk, OnOk, IsTrue};
ghost use Rattle.gr_base.specs.Designs.{IsFrame};
ghost use Rattle.gr_base.specs.Names.{is_token};
ghost use Rattle.book_rows.specs.Rows.{IsLine, HasNets, IsPlayed};

use crate::rows::Row;
use gr_base::{Cells, Design, Frame, Layer, Name, Net, RouteTree, Shape};
use std::alloc::{AllocError, Global};

fn frame(row: Row) -> Frame
    ensures frame { IsFrame result }
    ensures line { IsLine row.tiles result.shape }
{
    let wires = Layer {
        vertical: 0,
        horizontal: row.room,
        width: 1,
        spacing: 1,
        via: 1,
    };
    Frame {
        shape: Shape {
            columns: row.tiles,
            rows: 1,
            layers: 1,
        },
        layers: [wires; 16],
        lower_x: 0,
        lower_y: 0,
        tile_width: 10,
        tile_height: 10,
    }
}

/// The net with this id, whose name is a letter, from cell 0 to another.
fn net(alloc: Global, id: u32, last: u32) -> Result<Net, AllocError>
    requires { id < 26 }
    ensures name { IfOk result (λ n. IsTrue (is_token n.name)) }
    ensures id { IfOk result (λ n. n.id ≡ id) }
    ensures width { IfOk result (λ n. n.width ≡ 1) }
    ensures pins { IfOk result (λ n. n.pins ≡ 0 ∷ last ∷ []) }
{
    let name = Name::from_bytes(alloc, &[b'a' + id as u8])?;
    let mut pins = Cells::new(alloc);
    pins.push(0)?;
    pins.push(last)?;
    Ok(Net {
        name,
        id,
        width: 1,
        pins,
    })
}

/// The design of a row.
pub(crate) fn design(alloc: Global, row: Row) -> Result<Design, AllocError>
    ensures { IfOk result IsPlayed }
{
    let mut design = Design::new(alloc, frame(row))?;
    for id in 0..row.nets {
        push(alloc, &mut design, id, row.tiles - 1)?;
    }
    Ok(design)
}

/// Adds the net with the next id, from cell 0 to the last.
fn push(alloc: Global, design: &mut Design, id: u32, last: u32) -> Result<(), AllocError>
    requires id { id < 26 }
    requires design { HasNets (last + 1) id design.old }
    ensures { OnOk result (HasNets (last + 1) (id + 1) design.new) }
{
    let Ok(()) = design.push_net(net(alloc, id, last)?) else {
        return Err(AllocError);
    };
    Ok(())
}

/// The tree along a row.
pub(crate) fn along(alloc: Global, shape: Shape) -> Result<RouteTree, AllocError>
    requires rows { shape.rows ≡ 1 }
    requires layers { shape.layers ≡ 1 }
    ensures { IfOk result (λ tree. tree.shape ≡ shape) }
{
    let mut tree = RouteTree::start(alloc, shape, 0)?;
    for cell in 1..shape.columns() {
        tree.attach(&[cell, cell - 1])?;
    }
    Ok(tree)
}
