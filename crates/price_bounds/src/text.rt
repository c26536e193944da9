//! The lines of bounds by prices.
ghost use Rattle.std.specs.Prelude.{◌≡◌, IfOk};
ghost use Rattle.price_bounds.specs.Texts.{prices_text};

use crate::bounding::PriceBounds;
use gr_text::Text;
use std::alloc::{AllocError, Global};

/// The lines `overflow by prices at least`, `usable wirelength without overflow at least` and `usable
/// wirelength and overflow at least`, each with its number. The only error is want of memory.
pub fn prices_text(alloc: Global, bounds: PriceBounds) -> Result<Text, AllocError>
    ensures { IfOk result (λ text. text ≡ prices_text bounds.overflow bounds.length bounds.both) }
{
    let mut text = Text::new(alloc);
    text.put_number_line(b"overflow by prices at least", bounds.overflow)?;
    text.put_number_line(
        b"usable wirelength without overflow at least",
        bounds.length,
    )?;
    text.put_number_line(b"usable wirelength and overflow at least", bounds.both)?;
    Ok(text)
}
