//! The items of a library text: each is taken behind its word.
ghost use Rattle.std.specs.Prelude.{◌≡◌, ◌<◌, ◌≤◌, true, false, IfOk, OnOk, length};
ghost use Rattle.gr_base.specs.Names.{is_token};
ghost use Rattle.gr_text.specs.Reads.{ReadsBy, Moves};
ghost use Rattle.rc_library.specs.Gathered.{IsOf, IsLike};
ghost use Rattle.rc_library.specs.Keywords.{since};
ghost use Rattle.rc_library.specs.Items.{layer, wire_item, via_item, driver_item, sink_item, has_kind, kind_name, kind_item, block_item, drive_item, pin_item, flip_item, item};

use crate::fault::LibraryFault;
use crate::gathered::Gathered;
use crate::keyword::Keyword;
use crate::kinds::Kinds;
use crate::limits::{MOST_KINDS, MOST_RESISTANCE};
use crate::parts::NamedKind;
use crate::steps::{ENDS, kind, net, pin, sinking, wire};
use gr_base::{Design, MOST_ID, Name};
use gr_text::{ReadError, TokenSource, check, natural, next_token};
use std::alloc::Global;

/// Takes the number of a layer whose wire isn't given yet. Layers count from 1 in the text, and from
/// 0 in the answer.
#[tactic(auto, unfolding(crate::specs::Items::layer))]
fn layer<S: TokenSource>(
    source: &mut S,
    gathered: &Gathered,
) -> Result<u32, ReadError<LibraryFault>>
    ensures reads { ReadsBy S.tells S.place (layer gathered.now.wires) (λ layer. layer) result source.old source.new }
    ensures moves { Moves S.faults S.reaches S.stops S.origin result source.old source.new }
    ensures below { IfOk result (λ layer. layer < length gathered.now.wires) }
{
    let layer = natural(source, ENDS, LibraryFault::Number, MOST_ID)?;
    check(source, gathered.waits_for_wire(layer), LibraryFault::Layer)?;
    Ok(layer - 1)
}

/// Takes the wire of a layer.
#[tactic(auto, unfolding(crate::specs::Items::wire_item))]
fn wire_item<S: TokenSource>(
    source: &mut S,
    gathered: &mut Gathered,
) -> Result<(), ReadError<LibraryFault>>
    ensures reads { ReadsBy S.tells S.place (wire_item gathered.old) (λ _. gathered.new) result
        source.old source.new }
    ensures moves { Moves S.faults S.reaches S.stops S.origin result source.old source.new }
    ensures like { OnOk result (IsLike gathered.old gathered.new) }
{
    let layer = layer(source, gathered)?;
    let wire = wire(source)?;
    gathered.set_wire(layer, wire);
    Ok(())
}

/// Takes the via.
#[tactic(auto, unfolding(crate::specs::Items::via_item))]
fn via_item<S: TokenSource>(
    source: &mut S,
    gathered: &mut Gathered,
) -> Result<(), ReadError<LibraryFault>>
    ensures reads { ReadsBy S.tells S.place (via_item gathered.old) (λ _. gathered.new) result
        source.old source.new }
    ensures moves { Moves S.faults S.reaches S.stops S.origin result source.old source.new }
    ensures like { OnOk result (IsLike gathered.old gathered.new) }
{
    check(source, !gathered.has_via(), LibraryFault::Word)?;
    let via = wire(source)?;
    gathered.set_via(via);
    Ok(())
}

/// Takes the driver of all nets that have none of their own.
#[tactic(auto, unfolding(crate::specs::Items::driver_item))]
fn driver_item<S: TokenSource>(
    source: &mut S,
    gathered: &mut Gathered,
) -> Result<(), ReadError<LibraryFault>>
    ensures reads { ReadsBy S.tells S.place (driver_item gathered.old) (λ _. gathered.new) result
        source.old source.new }
    ensures moves { Moves S.faults S.reaches S.stops S.origin result source.old source.new }
    ensures like { OnOk result (IsLike gathered.old gathered.new) }
{
    check(source, !gathered.has_driver(), LibraryFault::Word)?;
    let driver = natural(source, ENDS, LibraryFault::Number, MOST_RESISTANCE)?;
    gathered.set_driver(driver);
    Ok(())
}

/// Takes what all pins are as sinks that are none of their own.
#[tactic(auto, unfolding(crate::specs::Items::sink_item))]
fn sink_item<S: TokenSource>(
    source: &mut S,
    gathered: &mut Gathered,
) -> Result<(), ReadError<LibraryFault>>
    ensures reads { ReadsBy S.tells S.place (sink_item gathered.old) (λ _. gathered.new) result
        source.old source.new }
    ensures moves { Moves S.faults S.reaches S.stops S.origin result source.old source.new }
    ensures like { OnOk result (IsLike gathered.old gathered.new) }
{
    check(source, !gathered.has_sink(), LibraryFault::Word)?;
    let sink = sinking(source)?;
    gathered.set_sink(sink);
    Ok(())
}

/// Takes the name of a kind, which no kind before it has.
#[tactic(auto, unfolding(crate::specs::Items::kind_name))]
fn kind_name<S: TokenSource>(
    alloc: Global,
    source: &mut S,
    kinds: &Kinds,
) -> Result<Name, ReadError<LibraryFault>>
    ensures reads { ReadsBy S.tells S.place (kind_name kinds.now) (λ name. name) result source.old source.new }
    ensures moves { Moves S.faults S.reaches S.stops S.origin result source.old source.new }
    ensures fresh { IfOk result (λ name. has_kind kinds.now name ≡ false) }
    ensures token { IfOk result (λ name. is_token name ≡ true) }
{
    next_token(source, ENDS)?;
    let fresh = !kinds.has(source.word());
    check(source, fresh, LibraryFault::RepeatedKind)?;
    let Ok(name) = Name::from_bytes(alloc, source.word()) else {
        return Err(ReadError::NoMemory);
    };
    Ok(name)
}

/// Takes a kind of buffers, which inverts or doesn't.
#[tactic(auto, unfolding(crate::specs::Items::kind_item))]
fn kind_item<S: TokenSource>(
    alloc: Global,
    source: &mut S,
    gathered: &mut Gathered,
    inverts: bool,
) -> Result<(), ReadError<LibraryFault>>
    requires version { inverts ≡ true → 3 ≤ gathered.old.version }
    ensures reads { ReadsBy S.tells S.place (kind_item inverts gathered.old) (λ _. gathered.new) result
        source.old source.new }
    ensures moves { Moves S.faults S.reaches S.stops S.origin result source.old source.new }
    ensures like { OnOk result (IsLike gathered.old gathered.new) }
{
    let room = gathered.kinds().len() < MOST_KINDS;
    check(source, room, LibraryFault::TooMany)?;
    let name = kind_name(alloc, source, gathered.kinds())?;
    let kind = kind(source)?;
    let Ok(()) = gathered.push_kind(NamedKind {
        name,
        kind,
        inverts,
    }) else {
        return Err(ReadError::NoMemory);
    };
    Ok(())
}

/// Takes a blocked tile.
#[tactic(auto, unfolding(crate::specs::Items::block_item))]
fn block_item<S: TokenSource>(
    alloc: Global,
    source: &mut S,
    design: &Design,
    gathered: &mut Gathered,
) -> Result<(), ReadError<LibraryFault>>
    requires of { IsOf design.now gathered.old }
    requires version { 2 ≤ gathered.old.version }
    ensures reads { ReadsBy S.tells S.place (block_item design.now gathered.old) (λ _. gathered.new) result
        source.old source.new }
    ensures moves { Moves S.faults S.reaches S.stops S.origin result source.old source.new }
    ensures like { OnOk result (IsLike gathered.old gathered.new) }
{
    let shape = design.frame().shape;
    let column = natural(source, ENDS, LibraryFault::Number, MOST_ID)?;
    check(source, column < shape.columns(), LibraryFault::Tile)?;
    let row = natural(source, ENDS, LibraryFault::Number, MOST_ID)?;
    check(source, row < shape.rows(), LibraryFault::Tile)?;
    let Ok(()) = gathered.block(alloc, column, row) else {
        return Err(ReadError::NoMemory);
    };
    Ok(())
}

/// Takes a net's own driver.
#[tactic(auto, unfolding(crate::specs::Items::drive_item))]
fn drive_item<S: TokenSource>(
    alloc: Global,
    source: &mut S,
    design: &Design,
    gathered: &mut Gathered,
) -> Result<(), ReadError<LibraryFault>>
    requires of { IsOf design.now gathered.old }
    requires version { 2 ≤ gathered.old.version }
    ensures reads { ReadsBy S.tells S.place (drive_item design.now gathered.old) (λ _. gathered.new) result
        source.old source.new }
    ensures moves { Moves S.faults S.reaches S.stops S.origin result source.old source.new }
    ensures like { OnOk result (IsLike gathered.old gathered.new) }
{
    let net = net(source, design)?;
    let r = natural(source, ENDS, LibraryFault::Number, MOST_RESISTANCE)?;
    let Ok(()) = gathered.set_driver_of(alloc, net, r) else {
        return Err(ReadError::NoMemory);
    };
    Ok(())
}

/// Takes what a net's pin is as a sink of its own.
#[tactic(auto, unfolding(crate::specs::Items::pin_item))]
fn pin_item<S: TokenSource>(
    alloc: Global,
    source: &mut S,
    design: &Design,
    gathered: &mut Gathered,
) -> Result<(), ReadError<LibraryFault>>
    requires of { IsOf design.now gathered.old }
    requires version { 2 ≤ gathered.old.version }
    ensures reads { ReadsBy S.tells S.place (pin_item design.now gathered.old) (λ _. gathered.new) result
        source.old source.new }
    ensures moves { Moves S.faults S.reaches S.stops S.origin result source.old source.new }
    ensures like { OnOk result (IsLike gathered.old gathered.new) }
{
    let net = net(source, design)?;
    let pin = pin(source, design, net)?;
    let sink = sinking(source)?;
    let Ok(()) = gathered.set_sink_of(alloc, net, pin, sink) else {
        return Err(ReadError::NoMemory);
    };
    Ok(())
}

/// Takes a net's pin that wants the inverted signal.
#[tactic(auto, unfolding(crate::specs::Items::flip_item))]
fn flip_item<S: TokenSource>(
    alloc: Global,
    source: &mut S,
    design: &Design,
    gathered: &mut Gathered,
) -> Result<(), ReadError<LibraryFault>>
    requires of { IsOf design.now gathered.old }
    requires version { 3 ≤ gathered.old.version }
    ensures reads { ReadsBy S.tells S.place (flip_item design.now gathered.old) (λ _. gathered.new) result
        source.old source.new }
    ensures moves { Moves S.faults S.reaches S.stops S.origin result source.old source.new }
    ensures like { OnOk result (IsLike gathered.old gathered.new) }
{
    let net = net(source, design)?;
    let pin = pin(source, design, net)?;
    let Ok(()) = gathered.flip(alloc, net, pin) else {
        return Err(ReadError::NoMemory);
    };
    Ok(())
}

/// Takes an item behind its word.
pub(crate) fn item<S: TokenSource>(
    alloc: Global,
    source: &mut S,
    design: &Design,
    gathered: &mut Gathered,
    keyword: Keyword,
) -> Result<(), ReadError<LibraryFault>>
    requires of { IsOf design.now gathered.old }
    requires since { since keyword ≤ gathered.old.version }
    ensures reads { ReadsBy S.tells S.place (item design.now keyword gathered.old) (λ _. gathered.new) result
        source.old source.new }
    ensures moves { Moves S.faults S.reaches S.stops S.origin result source.old source.new }
    ensures like { OnOk result (IsLike gathered.old gathered.new) }
{
    match keyword {
        Keyword::Wire => wire_item(source, gathered),
        Keyword::Via => via_item(source, gathered),
        Keyword::Driver => driver_item(source, gathered),
        Keyword::Sink => sink_item(source, gathered),
        Keyword::Kind => kind_item(alloc, source, gathered, false),
        Keyword::Inverter => kind_item(alloc, source, gathered, true),
        Keyword::Block => block_item(alloc, source, design, gathered),
        Keyword::Drive => drive_item(alloc, source, design, gathered),
        Keyword::Pin => pin_item(alloc, source, design, gathered),
        Keyword::Flip => flip_item(alloc, source, design, gathered),
        Keyword::End => Ok(()),
    }
}
