//! The middles of tiles, written.
ghost use Rattle.std.specs.Prelude.{◌≡◌, ◌<◌, IfOk};
ghost use Rattle.design_maker.specs.Ranges.{IsMade};
ghost use Rattle.design_maker.specs.Texts.{middle_of, AreMiddles};

use crate::made::{MOST_SIDE, Made};
use gr_text::Text;
use std::alloc::{AllocError, Global};
use std::cmp::max;

/// The width and the height of a tile.
const TILE: u32 = 10;

/// The coordinates of the middles of the columns and of the rows of tiles, each written once, since
/// pins have them again and again.
pub(crate) fn write_middles(alloc: Global, made: Made) -> Result<Vec<Text>, AllocError>
    requires { IsMade made }
    ensures { IfOk result (λ middles. AreMiddles made middles.items) }
{
    let mut middles = Vec::new(alloc);
    let tiles = max(made.columns, made.rows);
    for tile in 0..tiles {
        let mut middle = Text::new(alloc);
        middle.put_number(middle_of(tile))?;
        middles.push(middle)?;
    }
    Ok(middles)
}

/// The coordinate of the middle of a column or row of tiles.
fn middle_of(tile: u32) -> u32
    requires { tile < MOST_SIDE }
    ensures { result ≡ middle_of tile }
{
    TILE * tile + TILE / 2
}
