//! Steps that several items are read by.
ghost use Rattle.std.specs.Prelude.{◌≡◌, ◌<◌, IfOk, length};
ghost use Rattle.gr_base.specs.Designs.{pins_at};
ghost use Rattle.gr_text.specs.Reads.{ReadsBy, Moves};
ghost use Rattle.rc_library.specs.Libraries.{IsWire, IsKind, IsSinking};
ghost use Rattle.rc_library.specs.Items.{wire, sinking, kind, net, pin};

use crate::fault::LibraryFault;
use crate::limits::{MOST_CAPACITANCE, MOST_RESISTANCE, MOST_TIME};
use crate::parts::{Kind, Sinking, Wire};
use gr_base::{Design, MOST_ID, MOST_PINS};
use gr_text::{Ends, ReadError, TokenSource, check, given, natural, number};

pub(crate) const ENDS: Ends<LibraryFault> = Ends {
    ended: LibraryFault::Ended,
    too_long: LibraryFault::TooLong,
};

/// Takes a resistance and a capacitance.
#[tactic(auto, unfolding(crate::specs::Items::wire))]
pub(crate) fn wire<S: TokenSource>(source: &mut S) -> Result<Wire, ReadError<LibraryFault>>
    ensures reads { ReadsBy S.tells S.place wire (λ wire. wire) result source.old source.new }
    ensures moves { Moves S.faults S.reaches S.stops S.origin result source.old source.new }
    ensures fits { IfOk result IsWire }
{
    let r = natural(source, ENDS, LibraryFault::Number, MOST_RESISTANCE)?;
    let c = natural(source, ENDS, LibraryFault::Number, MOST_CAPACITANCE)?;
    Ok(Wire { r, c })
}

/// Takes a sink's capacitance and time.
#[tactic(auto, unfolding(crate::specs::Items::sinking))]
pub(crate) fn sinking<S: TokenSource>(source: &mut S) -> Result<Sinking, ReadError<LibraryFault>>
    ensures reads { ReadsBy S.tells S.place sinking (λ sink. sink) result source.old source.new }
    ensures moves { Moves S.faults S.reaches S.stops S.origin result source.old source.new }
    ensures fits { IfOk result IsSinking }
{
    let c = natural(source, ENDS, LibraryFault::Number, MOST_CAPACITANCE)?;
    let time = number(source, ENDS, LibraryFault::Number, -MOST_TIME, MOST_TIME)?;
    Ok(Sinking { c, time })
}

/// Takes a kind's capacitance, resistance and delay.
#[tactic(auto, unfolding(crate::specs::Items::kind))]
pub(crate) fn kind<S: TokenSource>(source: &mut S) -> Result<Kind, ReadError<LibraryFault>>
    ensures reads { ReadsBy S.tells S.place kind (λ kind. kind) result source.old source.new }
    ensures moves { Moves S.faults S.reaches S.stops S.origin result source.old source.new }
    ensures fits { IfOk result IsKind }
{
    let c = natural(source, ENDS, LibraryFault::Number, MOST_CAPACITANCE)?;
    let r = natural(source, ENDS, LibraryFault::Number, MOST_RESISTANCE)?;
    let delay = number(source, ENDS, LibraryFault::Number, 0, MOST_TIME)?;
    Ok(Kind { c, r, delay })
}

/// Takes the id of a net, and gives the net's number.
#[tactic(auto, unfolding(crate::specs::Items::net))]
pub(crate) fn net<S: TokenSource>(
    source: &mut S,
    design: &Design,
) -> Result<u32, ReadError<LibraryFault>>
    ensures reads { ReadsBy S.tells S.place (net design.now) (λ net. net) result source.old source.new }
    ensures moves { Moves S.faults S.reaches S.stops S.origin result source.old source.new }
    ensures below { IfOk result (λ net. net < length design.now.nets) }
{
    let id = natural(source, ENDS, LibraryFault::Number, MOST_ID)?;
    given(source, design.net_of_id(id), LibraryFault::UnknownId)
}

/// Takes the number of a net's pin that isn't its driver, which is pin 0.
#[tactic(auto, unfolding(crate::specs::Items::pin))]
pub(crate) fn pin<S: TokenSource>(
    source: &mut S,
    design: &Design,
    net: u32,
) -> Result<u32, ReadError<LibraryFault>>
    requires { net < length design.now.nets }
    ensures reads { ReadsBy S.tells S.place (pin design.now net) (λ pin. pin) result source.old source.new }
    ensures moves { Moves S.faults S.reaches S.stops S.origin result source.old source.new }
    ensures below { IfOk result (λ pin. pin < length (pins_at design.now net)) }
{
    let pin = natural(source, ENDS, LibraryFault::Number, MOST_PINS)?;
    let pins = design.net(net).pins.as_slice().len();
    check(source, 1 <= pin && (pin as usize) < pins, LibraryFault::Pin)?;
    Ok(pin)
}
