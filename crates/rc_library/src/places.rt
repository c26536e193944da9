//! What a library says of single tiles, nets and pins.
ghost use Rattle.std.specs.Prelude.{◌≡◌, ◌+◌, ◌<◌, ◌≤◌, ◌*◌, length, false, None, IfOk, IfSome, OnOk, OnErr, slice_index_or};
ghost use Rattle.rc_library.specs.Limits.{most_resistance};
ghost use Rattle.rc_library.specs.Libraries.{HasPin, IsSinking, firsts_of, pin_number};
ghost use Rattle.rc_library.specs.Gathered.{ArePlaces, no_places, with_block, with_driver_of, with_sink_of, with_flip};

use crate::lazy_table::LazyTable;
use crate::parts::Sinking;
use gr_base::Design;
use std::alloc::{AllocError, Global};
use std::marker::Model;

/// The blocked tiles, the drivers of single nets, and the sinks and wishes of single pins. The pins
/// of all nets are counted one after another; `firsts` has the number of each net's first pin, and
/// behind them the number of all pins.
#[derive(Debug, Drop)]
pub(crate) struct PlaceNotes {
    columns: u32,
    rows: u32,
    firsts: Vec<u32>,
    blocked: LazyTable<bool>,
    drivers: LazyTable<Option<u32>>,
    sinks: LazyTable<Option<Sinking>>,
    flips: LazyTable<bool>,
}

impl Model for PlaceNotes {
    ghost use Rattle.rc_library.specs.Gathered as gathered;

    ghost Value = { gathered.PlaceNotes };

    ghost use Rattle.rc_library.specs.PlacesStore.{seen, Keeps};

    ghost view = { seen };

    ghost invariant = { Keeps };
}

impl PlaceNotes {
    /// Nothing is said of any place of the design.
    pub(crate) fn new(alloc: Global, design: &Design) -> Result<Self, AllocError>
        ensures { IfOk result (λ places. places ≡ no_places design.now) }
    {
        let shape = design.frame().shape;
        let columns = shape.columns();
        let rows = shape.rows();
        let nets = design.nets();
        let firsts = first_pins(alloc, design)?;
        let pins = firsts[nets as usize];
        Ok(PlaceNotes {
            columns,
            rows,
            firsts,
            blocked: LazyTable::new(columns * rows, false),
            drivers: LazyTable::new(nets, None),
            sinks: LazyTable::new(pins, None),
            flips: LazyTable::new(pins, false),
        })
    }

    pub(crate) fn blocked(&self, x: u32, y: u32) -> bool
        requires column { x < self.now.sizes.columns }
        requires row { y < self.now.sizes.rows }
        ensures { result ≡ slice_index_or self.now.blocked (y * self.now.sizes.columns + x) false }
    {
        self.blocked.at(y * self.columns + x)
    }

    pub(crate) fn driver_of(&self, net: u32) -> Option<u32>
        requires { net < length self.now.drivers }
        ensures driver { result ≡ slice_index_or self.now.drivers net None }
        ensures fits { IfSome result (λ r. r ≤ most_resistance) }
    {
        self.drivers.at(net)
    }

    pub(crate) fn sink_of(&self, net: u32, pin: u32) -> Option<Sinking>
        requires net { net < length self.now.drivers }
        requires pin { HasPin self.now.sizes net pin }
        ensures sink { result ≡ slice_index_or self.now.sinks (pin_number self.now.sizes net pin) None }
        ensures fits { IfSome result IsSinking }
    {
        self.sinks.at(self.pin_number(net, pin))
    }

    pub(crate) fn flipped(&self, net: u32, pin: u32) -> bool
        requires net { net < length self.now.drivers }
        requires pin { HasPin self.now.sizes net pin }
        ensures { result ≡ slice_index_or self.now.flips (pin_number self.now.sizes net pin) false }
    {
        self.flips.at(self.pin_number(net, pin))
    }

    /// Blocks a tile.
    pub(crate) fn block(&mut self, alloc: Global, x: u32, y: u32) -> Result<(), AllocError>
        requires column { x < self.old.sizes.columns }
        requires row { y < self.old.sizes.rows }
        ensures ok { OnOk result (self.new ≡ with_block x y self.old) }
        ensures err { OnErr result (self.new ≡ self.old) }
    {
        self.blocked.set(alloc, y * self.columns + x, true)
    }

    /// Gives a net a driver of its own.
    pub(crate) fn set_driver_of(
        &mut self,
        alloc: Global,
        net: u32,
        r: u32,
    ) -> Result<(), AllocError>
        requires net { net < length self.old.drivers }
        requires fits { r ≤ most_resistance }
        ensures ok { OnOk result (self.new ≡ with_driver_of net r self.old) }
        ensures err { OnErr result (self.new ≡ self.old) }
    {
        self.drivers.set(alloc, net, Some(r))
    }

    /// Makes a net's pin a sink of its own.
    pub(crate) fn set_sink_of(
        &mut self,
        alloc: Global,
        net: u32,
        pin: u32,
        sink: Sinking,
    ) -> Result<(), AllocError>
        requires net { net < length self.old.drivers }
        requires pin { HasPin self.old.sizes net pin }
        requires fits { IsSinking sink }
        ensures ok { OnOk result (self.new ≡ with_sink_of net pin sink self.old) }
        ensures err { OnErr result (self.new ≡ self.old) }
    {
        let number = self.pin_number(net, pin);
        self.sinks.set(alloc, number, Some(sink))
    }

    /// Has a net's pin want the inverted signal.
    pub(crate) fn flip(&mut self, alloc: Global, net: u32, pin: u32) -> Result<(), AllocError>
        requires net { net < length self.old.drivers }
        requires pin { HasPin self.old.sizes net pin }
        ensures ok { OnOk result (self.new ≡ with_flip net pin self.old) }
        ensures err { OnErr result (self.new ≡ self.old) }
    {
        let number = self.pin_number(net, pin);
        self.flips.set(alloc, number, true)
    }

    /// The number of a net's pin among the pins of all nets.
    fn pin_number(&self, net: u32, pin: u32) -> u32
        requires net { net < length self.now.drivers }
        requires pin { HasPin self.now.sizes net pin }
        ensures number { result ≡ pin_number self.now.sizes net pin }
        ensures sink { result < length self.now.sinks }
        ensures flip { result < length self.now.flips }
        ensures places { ArePlaces self.now }
    {
        self.firsts[net as usize] + pin
    }
}

/// The number of each net's first pin, and behind them the number of all pins.
fn first_pins(alloc: Global, design: &Design) -> Result<Vec<u32>, AllocError>
    ensures { IfOk result (λ firsts. firsts.items ≡ firsts_of design.now.nets) }
{
    let mut firsts = Vec::new(alloc);
    let mut pins = 0;
    for net in 0..design.nets() {
        firsts.push(pins)?;
        pins += design.net(net).pins.as_slice().len() as u32;
    }
    firsts.push(pins)?;
    Ok(firsts)
}
