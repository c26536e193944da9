//! The points of a written text.
ghost use Rattle.std.specs.Prelude.{◌≡◌, ◌++◌, OnOk};
ghost use Rattle.solution_text.specs.WrittenText.{point_text};

use gr_base::Point;
use gr_text::Text;
use std::alloc::AllocError;

/// Puts a point at the end of the text, as `(x,y,layer)`. The only error is want of memory, and may leave
/// a first part of it.
pub fn put_point(text: &mut Text, point: Point) -> Result<(), AllocError>
    ensures { OnOk result (text.new ≡ text.old ++ point_text point) }
{
    text.put(b"(")?;
    text.put_number(point.x)?;
    text.put(b",")?;
    text.put_number(point.y)?;
    text.put(b",")?;
    text.put_number(point.layer)?;
    text.put(b")")
}
