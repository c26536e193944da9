//! The text as a whole.
ghost use Rattle.std.specs.Prelude.{◌≡◌, ◌++◌, IfOk, OnOk};
ghost use Rattle.design_maker.specs.Ranges.{IsMade};
ghost use Rattle.design_maker.specs.Texts.{text_of, line, last_line};
ghost use Rattle.design_maker.specs.Designs.{IsAccepted};

use crate::draws::Draws;
use crate::head::put_head;
use crate::made::Made;
use crate::middles::write_middles;
use crate::nets::put_net;
use gr_text::Text;
use std::alloc::{AllocError, Global};

/// The text of a made design: a grid of tiles of 10 by 10 from the origin on, on whose odd layers,
/// counted from 1, wires of capacity 20 run along the rows, and on whose even layers along the
/// columns; and nets of two or three pins, every tenth of twelve, each with pins on the first layer
/// that lie near one another. The only error is want of memory.
pub fn made_text(alloc: Global, made: Made) -> Result<Text, AllocError>
    requires { IsMade made }
    ensures text { IfOk result (λ text. text ≡ text_of made) }
    ensures accepted { IsAccepted made }
{
    let middles = write_middles(alloc, made)?;
    let mut text = Text::new(alloc);
    let mut draws = Draws::of(made.seed);
    put_head(&mut text, made)?;
    for net in 0..made.nets {
        put_net(&mut text, made, &middles, net, &mut draws)?;
    }
    put_end(&mut text)?;
    Ok(text)
}

/// Puts the last line, that of the number of adjustments, at the end of the text.
pub(crate) fn put_end(text: &mut Text) -> Result<(), AllocError>
    ensures { OnOk result (text.new ≡ text.old ++ line last_line) }
{
    text.put(b"0\n")
}
