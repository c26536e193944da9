//! The lines of the nets.
ghost use Rattle.std.specs.Prelude.{◌≡◌, ◌<◌, ◌≤◌, ◌++◌, map, length, OnOk, IfOk};
ghost use Rattle.design_maker.specs.Ranges.{IsMade};
ghost use Rattle.design_maker.specs.Draws.{each};
ghost use Rattle.design_maker.specs.Nets.{pins_for, pin, net};
ghost use Rattle.design_maker.specs.Texts.{written_middles, AreMiddles, pin_line, heading_line, net_lines, line, lines_text};

use crate::draws::Draws;
use crate::made::Made;
use gr_text::Text;
use std::alloc::AllocError;
use std::cmp::min;

/// A tile of the grid.
#[derive(Clone, Copy)]
pub(crate) struct Tile {
    pub column: u32,
    pub row: u32,
}

/// The last of each so many nets has `MANY_PINS` pins.
const TURN: u32 = 10;

/// How many pins the last net of each turn has.
const MANY_PINS: u32 = 12;

/// A pin lies fewer columns and fewer rows than this past the tile where its net starts.
const REACH: u32 = 8;

/// Draws a net and puts its lines at the end of the text. The answer is how many pins it has.
/// `middles` are the middles of the tiles, written.
pub(crate) fn put_net(
    text: &mut Text,
    made: Made,
    middles: &[Text],
    number: u32,
    draws: &mut Draws,
) -> Result<u32, AllocError>
    requires made { IsMade made }
    requires middles { AreMiddles made middles.now }
    ensures text { OnOk result (text.new ≡ text.old ++ lines_text (net_lines (net made number draws.old.state).0)) }
    ensures draws { OnOk result (draws.new.state ≡ (net made number draws.old.state).1) }
    ensures pins { IfOk result (λ pins. pins ≡ length (net made number draws.old.state).0.pins) }
    ensures few { IfOk result (λ pins. pins ≤ 12) }
{
    let more = draws.draw(2);
    let column = draws.draw(made.columns);
    let row = draws.draw(made.rows);
    let pins = pins_for(number, more);
    put_heading(text, number, pins)?;
    put_pins(text, made, middles, Tile { column, row }, pins, draws)?;
    Ok(pins)
}

/// How many pins the net of a number has; `more` is what was drawn for it.
fn pins_for(number: u32, more: u32) -> u32
    requires { more < 2 }
    ensures pins { result ≡ pins_for number more }
    ensures few { result ≤ 12 }
{
    if number % TURN == TURN - 1 {
        MANY_PINS
    } else {
        2 + more
    }
}

/// Puts the line of a net's name, id, number of pins and width at the end of the text.
fn put_heading(text: &mut Text, number: u32, pins: u32) -> Result<(), AllocError>
    ensures { OnOk result (text.new ≡ text.old ++ line (heading_line number pins)) }
{
    text.put(b"n")?;
    text.put_number(number)?;
    text.put(b" ")?;
    text.put_number(number)?;
    text.put(b" ")?;
    text.put_number(pins)?;
    text.put(b" 1\n")?;
    Ok(())
}

/// Draws the pins of a net that starts at a tile, and puts a line for each at the end of the text.
fn put_pins(
    text: &mut Text,
    made: Made,
    middles: &[Text],
    start: Tile,
    count: u32,
    draws: &mut Draws,
) -> Result<(), AllocError>
    requires made { IsMade made }
    requires middles { AreMiddles made middles.now }
    requires column { start.column < made.columns }
    requires row { start.row < made.rows }
    ensures text { OnOk result
        (text.new ≡ text.old ++ lines_text (map pin_line (each (λ _. pin made start) 0 count draws.old.state).0)) }
    ensures draws { OnOk result (draws.new.state ≡ (each (λ _. pin made start) 0 count draws.old.state).1) }
{
    for _ in 0..count {
        let tile = draw_pin(made, start, draws);
        put_pin(text, middles, tile)?;
    }
    Ok(())
}

/// Draws the tile of a pin of a net that starts at a tile.
fn draw_pin(made: Made, start: Tile, draws: &mut Draws) -> Tile
    requires made { IsMade made }
    requires column { start.column < made.columns }
    requires row { start.row < made.rows }
    ensures drawn { (result, draws.new.state) ≡ pin made start draws.old.state }
    ensures column { result.column < made.columns }
    ensures row { result.row < made.rows }
{
    let right = draws.draw(REACH);
    let up = draws.draw(REACH);
    Tile {
        column: min(made.columns - 1, start.column + right),
        row: min(made.rows - 1, start.row + up),
    }
}

/// Puts the line of a pin at the end of the text.
fn put_pin(text: &mut Text, middles: &[Text], tile: Tile) -> Result<(), AllocError>
    requires middles { middles.now ≡ written_middles (length middles.now) }
    requires column { tile.column < length middles.now }
    requires row { tile.row < length middles.now }
    ensures { OnOk result (text.new ≡ text.old ++ line (pin_line tile)) }
{
    text.put(middles[tile.column as usize].bytes())?;
    text.put(b" ")?;
    text.put(middles[tile.row as usize].bytes())?;
    text.put(b" 1\n")?;
    Ok(())
}
