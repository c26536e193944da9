//! What each round did, where it is asked for.
ghost use Rattle.std.specs.Prelude.{◌≡◌, ◌++◌, OnOk};
ghost use Rattle.router_top.specs.Tracing.{rounds_told};

use book_state::History;
use gr_text::Text;
use round_trace::trace_text;
use std::alloc::{AllocError, Global};

/// Puts what each round of a history did, where it is asked for. At an error a first part of it may have
/// been added.
pub(crate) fn put_rounds(
    alloc: Global,
    text: &mut Text,
    trace: bool,
    history: &History,
) -> Result<(), AllocError>
    ensures { OnOk result (text.new ≡ text.old ++ rounds_told trace history.now) }
{
    if !trace {
        return Ok(());
    }
    let rounds = trace_text(alloc, history)?;
    text.put(rounds.bytes())
}
