//! The nets and their pins.
ghost use Rattle.std.specs.Prelude.{◌≡◌, ℕ, ◌+◌, ◌*◌, ◌<◌, ◌≤◌, List, [], All, Some, None, length, IsTrue, IfOk};
ghost use Rattle.gr_text.specs.Reads.{ReadsBy, Moves};
ghost use Rattle.gr_text.specs.Reading.{token, several};
ghost use Rattle.gr_base.specs.Limits.{most_nets, most_pins, most_id, most_width};
ghost use Rattle.gr_base.specs.Names.{is_token};
ghost use Rattle.gr_base.specs.Grid.{cells_of};
ghost use Rattle.gr_base.specs.Designs.{IsNet, net_with_id, pins_of};
ghost use Rattle.ispd_reader.specs.Faults.{ends};
ghost use Rattle.ispd_reader.specs.Nets.{coordinate, pin, net_id, pin_count, net, net_count, nets};

use crate::fault::DesignFault;
use crate::steps::{ENDS, layer_in, words};
use gr_base::{
    Cells, Design, MOST_COORDINATE, MOST_ID, MOST_NETS, MOST_PINS, MOST_WIDTH, Name, Net,
};
use gr_text::{ReadError, TokenSource, check, given, natural, next_token, number};
use std::alloc::Global;

/// Takes a coordinate of a pin.
#[tactic(auto, unfolding(crate::specs::Nets::coordinate))]
fn coordinate<S: TokenSource>(source: &mut S) -> Result<i64, ReadError<DesignFault>>
    ensures reads { ReadsBy S.tells S.place coordinate (λ at. at) result source.old source.new }
    ensures moves { Moves S.faults S.reaches S.stops S.origin result source.old source.new }
{
    number(
        source,
        ENDS,
        DesignFault::Number,
        -MOST_COORDINATE,
        MOST_COORDINATE,
    )
}

/// Takes a pin, and gives its cell.
#[tactic(auto, unfolding(crate::specs::Nets::pin))]
fn pin<S: TokenSource>(source: &mut S, design: &Design) -> Result<u32, ReadError<DesignFault>>
    ensures reads { ReadsBy S.tells S.place (pin design.now.frame) (λ pin. pin) result source.old source.new }
    ensures moves { Moves S.faults S.reaches S.stops S.origin result source.old source.new }
    ensures cell { IfOk result (λ pin. pin < cells_of design.now.frame.shape) }
{
    let x = coordinate(source)?;
    let column = given(source, design.tile_x(x), DesignFault::PinOutside)?;
    let y = coordinate(source)?;
    let row = given(source, design.tile_y(y), DesignFault::PinOutside)?;
    let shape = design.frame().shape;
    let layer = layer_in(source, shape, DesignFault::PinLayer)?;
    Ok(shape.cell_of(column, row, layer))
}

/// Takes so many pins.
fn pins<S: TokenSource>(
    alloc: Global,
    source: &mut S,
    design: &Design,
    count: u32,
) -> Result<Cells, ReadError<DesignFault>>
    ensures reads { ReadsBy S.tells S.place (several (λ _. pin design.now.frame) count [])
        (λ pins. pins) result source.old source.new }
    ensures moves { Moves S.faults S.reaches S.stops S.origin result source.old source.new }
    ensures count { IfOk result (λ pins. length pins ≡ count) }
    ensures cells { IfOk result (All (λ pin. pin < cells_of design.now.frame.shape)) }
{
    let mut pins = Cells::new(alloc);
    for _ in 0..count {
        let pin = pin(source, design)?;
        let Ok(()) = pins.push(pin) else {
            return Err(ReadError::NoMemory);
        };
    }
    Ok(pins)
}

/// Takes a net's name.
fn name<S: TokenSource>(alloc: Global, source: &mut S) -> Result<Name, ReadError<DesignFault>>
    ensures reads { ReadsBy S.tells S.place (token ends) (λ name. name) result source.old source.new }
    ensures moves { Moves S.faults S.reaches S.stops S.origin result source.old source.new }
    ensures token { IfOk result (λ name. IsTrue (is_token name)) }
{
    next_token(source, ENDS)?;
    let Ok(name) = Name::from_bytes(alloc, source.word()) else {
        return Err(ReadError::NoMemory);
    };
    Ok(name)
}

/// Takes a net's id, which no net of the design has.
#[tactic(auto, unfolding(crate::specs::Nets::net_id))]
fn net_id<S: TokenSource>(source: &mut S, design: &Design) -> Result<u32, ReadError<DesignFault>>
    ensures reads { ReadsBy S.tells S.place (net_id design.now.nets) (λ id. id) result source.old source.new }
    ensures moves { Moves S.faults S.reaches S.stops S.origin result source.old source.new }
    ensures most { IfOk result (λ id. id ≤ most_id) }
    ensures fresh { IfOk result (λ id. net_with_id design.now id ≡ None) }
{
    let id = natural(source, ENDS, DesignFault::Number, MOST_ID)?;
    check(
        source,
        design.net_of_id(id).is_none(),
        DesignFault::RepeatedId,
    )?;
    Ok(id)
}

/// Takes the number of a net's pins, where the nets before it have `before` pins.
#[tactic(auto, unfolding(crate::specs::Nets::pin_count))]
fn pin_count<S: TokenSource>(source: &mut S, before: u32) -> Result<u32, ReadError<DesignFault>>
    requires { before ≤ most_pins }
    ensures reads { ReadsBy S.tells S.place (pin_count before) (λ count. count) result source.old source.new }
    ensures moves { Moves S.faults S.reaches S.stops S.origin result source.old source.new }
    ensures some { IfOk result (λ count. 0 < count) }
    ensures most { IfOk result (λ count. before + count ≤ most_pins) }
{
    let count = natural(source, ENDS, DesignFault::Number, MOST_PINS)?;
    check(
        source,
        0 < count && before + count <= MOST_PINS,
        DesignFault::Pins,
    )?;
    Ok(count)
}

/// Takes a net, where the design's nets have `before` pins.
#[tactic(auto, unfolding(crate::specs::Nets::net))]
fn net<S: TokenSource>(
    alloc: Global,
    source: &mut S,
    design: &Design,
    before: u32,
) -> Result<Net, ReadError<DesignFault>>
    requires pins { before ≡ pins_of design.now.nets }
    requires most { before ≤ most_pins }
    ensures reads { ReadsBy S.tells S.place (net design.now.frame design.now.nets)
        (λ net. net) result source.old source.new }
    ensures moves { Moves S.faults S.reaches S.stops S.origin result source.old source.new }
    ensures net { IfOk result (IsNet design.now.frame.shape) }
    ensures fresh { IfOk result (λ net. net_with_id design.now net.id ≡ None) }
    ensures pins { IfOk result (λ net. before + length net.pins ≤ most_pins) }
{
    let name = name(alloc, source)?;
    let id = net_id(source, design)?;
    let count = pin_count(source, before)?;
    let width = natural(source, ENDS, DesignFault::Number, MOST_WIDTH)?;
    let pins = pins(alloc, source, design, count)?;
    Ok(Net {
        name,
        id,
        width,
        pins,
    })
}

/// Takes the words before the nets and how many nets there are.
#[tactic(auto, unfolding(crate::specs::Nets::net_count))]
fn net_count<S: TokenSource>(source: &mut S) -> Result<u32, ReadError<DesignFault>>
    ensures reads { ReadsBy S.tells S.place net_count (λ count. count) result source.old source.new }
    ensures moves { Moves S.faults S.reaches S.stops S.origin result source.old source.new }
    ensures most { IfOk result (λ count. count ≤ most_nets) }
{
    words(source, b"num", b"net")?;
    natural(source, ENDS, DesignFault::Number, MOST_NETS)
}

/// Adds so many nets to a design without nets.
fn counted_nets<S: TokenSource>(
    alloc: Global,
    source: &mut S,
    design: &mut Design,
    count: u32,
) -> Result<(), ReadError<DesignFault>>
    requires none { design.old.nets ≡ [] }
    requires most { count ≤ most_nets }
    ensures reads { ReadsBy S.tells S.place (several (net design.old.frame) count [])
        (λ _. design.new.nets) result source.old source.new }
    ensures moves { Moves S.faults S.reaches S.stops S.origin result source.old source.new }
    ensures frame { design.new.frame ≡ design.old.frame }
    ensures adjustments { design.new.adjustments ≡ design.old.adjustments }
{
    let mut pins = 0;
    for _ in 0..count {
        let net = net(alloc, source, design, pins)?;
        pins += net.pins.as_slice().len() as u32;
        let Ok(()) = design.push_net(net) else {
            return Err(ReadError::NoMemory);
        };
    }
    Ok(())
}

/// Reads the nets into a design without nets.
#[tactic(auto, unfolding(crate::specs::Nets::nets))]
pub(crate) fn nets<S: TokenSource>(
    alloc: Global,
    source: &mut S,
    design: &mut Design,
) -> Result<(), ReadError<DesignFault>>
    requires { design.old.nets ≡ [] }
    ensures reads { ReadsBy S.tells S.place (nets design.old.frame)
        (λ _. design.new.nets) result source.old source.new }
    ensures moves { Moves S.faults S.reaches S.stops S.origin result source.old source.new }
    ensures frame { design.new.frame ≡ design.old.frame }
    ensures adjustments { design.new.adjustments ≡ design.old.adjustments }
{
    let count = net_count(source)?;
    counted_nets(alloc, source, design, count)
}
