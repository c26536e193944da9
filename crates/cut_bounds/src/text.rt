//! The text of the bounds of a design.
ghost use Rattle.std.specs.Prelude.{◌≡◌, ◌++◌, IfOk, OnOk};
ghost use Rattle.cut_bounds.specs.Bounds.{bounds_text, taken_text, wall_line, wall_text};
ghost use Rattle.cut_bounds.specs.declared.wall.Wall.TheVariants.{Box};
ghost use Rattle.std.specs.List.{flat_map};
ghost use Rattle.gr_text.specs.Lines.{number_line};

use crate::figures::Bounds;
use crate::wall::{MeasuredWall, TileBox, Wall};
use gr_text::Text;
use std::alloc::{AllocError, Global};

/// The lines `overflow at least`, `wirelength at least`, `usable wirelength at least`, further ones, then
/// `column cuts`, `row cuts` and `boxes`, each with its number, and a line for each of the fullest walls:
/// its word and numbers, what is needed of it and what it holds. The only error is want of memory.
pub fn bounds_text(alloc: Global, bounds: &Bounds, further: &[u8]) -> Result<Text, AllocError>
    ensures { IfOk result (λ text. text ≡ bounds_text bounds.now further.now) }
{
    let mut text = Text::new(alloc);
    text.put_number_line(b"overflow at least", bounds.overflow)?;
    text.put_number_line(b"wirelength at least", bounds.wirelength)?;
    text.put_number_line(b"usable wirelength at least", bounds.usable_wirelength)?;
    text.put(further)?;
    put_taken(&mut text, bounds)?;
    put_walls(&mut text, &bounds.fullest)?;
    Ok(text)
}

/// Puts at the end of the text how many walls of each kind are taken.
fn put_taken(text: &mut Text, bounds: &Bounds) -> Result<(), AllocError>
    ensures { OnOk result (text.new ≡ text.old ++ taken_text bounds.now) }
{
    text.put_number_line(b"column cuts", u128::from(bounds.columns))?;
    text.put_number_line(b"row cuts", u128::from(bounds.rows))?;
    text.put_number_line(b"boxes", u128::from(bounds.boxes))?;
    Ok(())
}

/// Puts the lines of these walls at the end of the text.
fn put_walls(text: &mut Text, walls: &[MeasuredWall]) -> Result<(), AllocError>
    ensures { OnOk result (text.new ≡ text.old ++ flat_map wall_line walls.now) }
{
    for wall in walls {
        put_wall_line(text, *wall)?;
    }
    Ok(())
}

fn put_wall_line(text: &mut Text, wall: MeasuredWall) -> Result<(), AllocError>
    ensures { OnOk result (text.new ≡ text.old ++ wall_line wall) }
{
    put_wall(text, wall.wall)?;
    text.put(b" needs ")?;
    text.put_number(wall.needs)?;
    text.put(b" holds ")?;
    text.put_number(wall.holds)?;
    text.put(b"\n")
}

/// Puts a wall's word and its numbers at the end of the text.
fn put_wall(text: &mut Text, wall: Wall) -> Result<(), AllocError>
    ensures { OnOk result (text.new ≡ text.old ++ wall_text wall) }
{
    match wall {
        Wall::Column(x) => {
            text.put(b"column ")?;
            text.put_number(x)
        }
        Wall::Row(y) => {
            text.put(b"row ")?;
            text.put_number(y)
        }
        Wall::Box(tiles) => put_box(text, tiles),
    }
}

fn put_box(text: &mut Text, tiles: TileBox) -> Result<(), AllocError>
    ensures { OnOk result (text.new ≡ text.old ++ wall_text (Box tiles)) }
{
    text.put(b"box ")?;
    text.put_number(tiles.x0)?;
    text.put(b" ")?;
    text.put_number(tiles.y0)?;
    text.put(b" ")?;
    text.put_number(tiles.x1)?;
    text.put(b" ")?;
    text.put_number(tiles.y1)
}
