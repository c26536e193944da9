//! The texts of a verdict.
ghost use Rattle.std.specs.Prelude.{◌≡◌, ◌<◌, length, All, IfOk};
ghost use Rattle.report_text.specs.Texts.{report_text, unjoined_text};

use crate::lines::put_net_line;
use gr_base::Design;
use gr_text::Text;
use route_evaluator::Verdict;
use std::alloc::{AllocError, Global};

/// The measures of routes, a line each: `routed`, `overflow`, `maximum`, `wirelength` and `vias`,
/// each with its number. The only error is want of memory.
pub fn report(alloc: Global, verdict: &Verdict) -> Result<Text, AllocError>
    ensures { let v = verdict.now in
        IfOk result (λ text. text ≡ report_text v.routed v.total v.max v.wirelength v.vias) }
{
    let mut text = Text::new(alloc);
    text.put_number_line(b"routed", u128::from(verdict.routed))?;
    text.put_number_line(b"overflow", verdict.total)?;
    text.put_number_line(b"maximum", u128::from(verdict.max))?;
    text.put_number_line(b"wirelength", verdict.wirelength)?;
    text.put_number_line(b"vias", verdict.vias)?;
    Ok(text)
}

/// The nets whose pins aren't joined: a line `unjoined` with their number, and a line for each of
/// them with its name and id, in the verdict's order. The only error is want of memory.
pub fn unjoined(alloc: Global, design: &Design, verdict: &Verdict) -> Result<Text, AllocError>
    requires nets { All (λ net. net < length design.now.nets) verdict.now.unjoined }
    ensures { IfOk result (λ text. text ≡ unjoined_text design.now.nets verdict.now.unjoined) }
{
    let nets = verdict.unjoined.as_slice();
    let mut text = Text::new(alloc);
    text.put_number_line(b"unjoined", nets.len() as u128)?;
    for net in nets {
        put_net_line(&mut text, design.net(*net))?;
    }
    Ok(text)
}
