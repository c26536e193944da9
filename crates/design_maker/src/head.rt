//! The lines that stand before the nets.
ghost use Rattle.std.specs.Prelude.{◌≡◌, ◌++◌, ◌∷◌, [], OnOk, codes};
ghost use Rattle.std.specs.Fmt.{decimal};
ghost use Rattle.std.specs.List.{flat_map};
ghost use Rattle.design_maker.specs.Texts.{alternating, layer_words, spaced, line, lines_text, grid_line, layer_lines, last_head_lines, head_lines};

use crate::made::Made;
use gr_text::Text;
use std::alloc::AllocError;

/// The capacity of a layer in its own direction.
const CAPACITY: u32 = 20;

/// Puts the lines before the nets at the end of the text.
pub(crate) fn put_head(text: &mut Text, made: Made) -> Result<(), AllocError>
    ensures { OnOk result (text.new ≡ text.old ++ lines_text (head_lines made)) }
{
    put_grid(text, made)?;
    put_layers(text, made.layers)?;
    put_last(text, made.nets)?;
    Ok(())
}

/// Puts the line of the grid at the end of the text.
fn put_grid(text: &mut Text, made: Made) -> Result<(), AllocError>
    ensures { OnOk result (text.new ≡ text.old ++ line (grid_line made)) }
{
    text.put(b"grid ")?;
    text.put_number(made.columns)?;
    text.put(b" ")?;
    text.put_number(made.rows)?;
    text.put(b" ")?;
    text.put_number(made.layers)?;
    text.put(b"\n")?;
    Ok(())
}

/// Puts the lines of the layers' capacities, widths and spacings at the end of the text.
fn put_layers(text: &mut Text, layers: u32) -> Result<(), AllocError>
    ensures { OnOk result (text.new ≡ text.old ++ lines_text (layer_lines layers)) }
{
    put_layer_line(text, b"vertical capacity", layers, 0, CAPACITY)?;
    put_layer_line(text, b"horizontal capacity", layers, CAPACITY, 0)?;
    put_layer_line(text, b"minimum width", layers, 1, 1)?;
    put_layer_line(text, b"minimum spacing", layers, 1, 1)?;
    put_layer_line(text, b"via spacing", layers, 1, 1)?;
    Ok(())
}

/// Puts a line of words and a number for each layer at the end of the text: one on the odd layers,
/// counted from 1, and one on the even ones.
fn put_layer_line(
    text: &mut Text,
    words: &[u8],
    layers: u32,
    odd: u32,
    even: u32,
) -> Result<(), AllocError>
    ensures { OnOk result (text.new ≡
        text.old ++ (words.now ++ flat_map spaced (layer_words (alternating odd even) layers) ++ codes "\n")) }
{
    text.put(words)?;
    for layer in 0..layers {
        text.put(b" ")?;
        text.put_number(alternating(odd, even, layer + 1))?;
    }
    text.put(b"\n")?;
    Ok(())
}

/// The number of a layer, counted from 1.
fn alternating(odd: u32, even: u32, layer: u32) -> u32
    ensures { result ≡ alternating odd even layer }
{
    if layer % 2 == 1 { odd } else { even }
}

/// Puts the lines of the tiles and of the number of nets at the end of the text.
fn put_last(text: &mut Text, nets: u32) -> Result<(), AllocError>
    ensures { OnOk result (text.new ≡ text.old ++ lines_text (last_head_lines nets)) }
{
    text.put(b"0 0 10 10\nnum net ")?;
    text.put_number(nets)?;
    text.put(b"\n")?;
    Ok(())
}
