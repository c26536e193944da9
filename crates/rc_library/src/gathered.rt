//! What is gathered of a library's text, item by item.
ghost use Rattle.std.specs.Prelude.{◌≡◌, ◌<◌, ◌≤◌, length, is_some, false, true, Some, None, option_map, IfOk, IfSome, OnOk};
ghost use Rattle.gr_base.specs.Names.{is_token};
ghost use Rattle.rc_library.specs.Limits.{most_resistance, most_kinds};
ghost use Rattle.rc_library.specs.Libraries.{HasPin, IsWire, IsKind, IsSinking, IsLibrary};
ghost use Rattle.rc_library.specs.Gathered.{IsOf, nothing, all_given, finished, with_wire, with_kind, with_places, with_block, with_driver_of, with_sink_of, with_flip};
ghost use Rattle.rc_library.specs.Items.{has_kind, waits_for_wire};

use crate::kinds::Kinds;
use crate::lazy_table::alike;
use crate::library::Library;
use crate::parts::{NamedKind, Sinking, Wire};
use crate::places::PlaceNotes;
use gr_base::Design;
use std::alloc::{AllocError, Global};
use std::marker::Model;

/// What a text has said so far.
#[derive(Debug, Drop)]
pub(crate) struct Gathered {
    version: u32,
    via: Option<Wire>,
    driver: Option<u32>,
    sink: Option<Sinking>,
    /// By layer.
    wires: Vec<Option<Wire>>,
    kinds: Kinds,
    places: PlaceNotes,
}

impl Model for Gathered {
    ghost use Rattle.rc_library.specs.Gathered as gathered;

    ghost Value = { gathered.Gathered };

    ghost use Rattle.rc_library.specs.GatheredStore.{seen, Keeps};

    ghost view = { seen };

    ghost invariant = { Keeps };
}

impl Gathered {
    /// Nothing but the version of the text, 1 to 3.
    pub(crate) fn new(alloc: Global, design: &Design, version: u32) -> Result<Self, AllocError>
        requires least { 1 ≤ version }
        requires greatest { version ≤ 3 }
        ensures nothing { IfOk result (λ gathered. gathered ≡ nothing design.now version) }
        ensures of { IfOk result (IsOf design.now) }
    {
        let layers = design.frame().shape.layers();
        Ok(Gathered {
            version,
            via: None,
            driver: None,
            sink: None,
            wires: alike(alloc, layers, None)?,
            kinds: Kinds::new(alloc),
            places: PlaceNotes::new(alloc, design)?,
        })
    }

    pub(crate) fn version(&self) -> u32
        ensures { result ≡ self.now.version }
    {
        self.version
    }

    /// Whether there is a layer of this number, counted from 1, and it has no wire.
    pub(crate) fn waits_for_wire(&self, layer: u32) -> bool
        ensures { result ≡ waits_for_wire self.now.wires layer }
    {
        1 <= layer && layer as usize <= self.wires.len() && self.wires[layer as usize - 1].is_none()
    }

    pub(crate) fn has_via(&self) -> bool
        ensures { result ≡ is_some self.now.via }
    {
        self.via.is_some()
    }

    pub(crate) fn has_driver(&self) -> bool
        ensures { result ≡ is_some self.now.driver }
    {
        self.driver.is_some()
    }

    pub(crate) fn has_sink(&self) -> bool
        ensures { result ≡ is_some self.now.sink }
    {
        self.sink.is_some()
    }

    pub(crate) fn kinds(&self) -> &Kinds
        ensures { result.now ≡ self.now.kinds }
    {
        &self.kinds
    }

    pub(crate) fn set_wire(&mut self, layer: u32, wire: Wire)
        requires layer { layer < length self.old.wires }
        requires fits { IsWire wire }
        ensures { self.new ≡ with_wire layer wire self.old }
    {
        self.wires[layer as usize] = Some(wire);
    }

    pub(crate) fn set_via(&mut self, via: Wire)
        requires { IsWire via }
        ensures { self.new ≡ record self.old { via = Some via } }
    {
        self.via = Some(via);
    }

    pub(crate) fn set_driver(&mut self, driver: u32)
        requires { driver ≤ most_resistance }
        ensures { self.new ≡ record self.old { driver = Some driver } }
    {
        self.driver = Some(driver);
    }

    pub(crate) fn set_sink(&mut self, sink: Sinking)
        requires { IsSinking sink }
        ensures { self.new ≡ record self.old { sink = Some sink } }
    {
        self.sink = Some(sink);
    }

    pub(crate) fn push_kind(&mut self, kind: NamedKind) -> Result<(), AllocError>
        requires version { kind.inverts ≡ true → 3 ≤ self.old.version }
        requires room { length self.old.kinds < most_kinds }
        requires fresh { has_kind self.old.kinds kind.name ≡ false }
        requires token { is_token kind.name ≡ true }
        requires fits { IsKind kind.kind }
        ensures { OnOk result (self.new ≡ with_kind kind self.old) }
    {
        self.kinds.push(kind)?;
        Ok(())
    }

    /// Blocks a tile.
    pub(crate) fn block(&mut self, alloc: Global, x: u32, y: u32) -> Result<(), AllocError>
        requires version { 2 ≤ self.old.version }
        requires column { x < self.old.places.sizes.columns }
        requires row { y < self.old.places.sizes.rows }
        ensures { OnOk result (self.new ≡ with_places (with_block x y self.old.places) self.old) }
    {
        self.places.block(alloc, x, y)
    }

    /// Gives a net a driver of its own.
    pub(crate) fn set_driver_of(
        &mut self,
        alloc: Global,
        net: u32,
        r: u32,
    ) -> Result<(), AllocError>
        requires version { 2 ≤ self.old.version }
        requires net { net < length self.old.places.drivers }
        requires fits { r ≤ most_resistance }
        ensures { OnOk result (self.new ≡ with_places (with_driver_of net r self.old.places) self.old) }
    {
        self.places.set_driver_of(alloc, net, r)
    }

    /// Makes a net's pin a sink of its own.
    pub(crate) fn set_sink_of(
        &mut self,
        alloc: Global,
        net: u32,
        pin: u32,
        sink: Sinking,
    ) -> Result<(), AllocError>
        requires version { 2 ≤ self.old.version }
        requires net { net < length self.old.places.drivers }
        requires pin { HasPin self.old.places.sizes net pin }
        requires fits { IsSinking sink }
        ensures { OnOk result (self.new ≡ with_places (with_sink_of net pin sink self.old.places) self.old) }
    {
        self.places.set_sink_of(alloc, net, pin, sink)
    }

    /// Has a net's pin want the inverted signal.
    pub(crate) fn flip(&mut self, alloc: Global, net: u32, pin: u32) -> Result<(), AllocError>
        requires version { 3 ≤ self.old.version }
        requires net { net < length self.old.places.drivers }
        requires pin { HasPin self.old.places.sizes net pin }
        ensures { OnOk result (self.new ≡ with_places (with_flip net pin self.old.places) self.old) }
    {
        self.places.flip(alloc, net, pin)
    }
    /// The library, where every layer has its wire, and the via, the driver and the sink are given.
    pub(crate) fn finish(self, alloc: Global) -> Result<Option<Library>, AllocError>
        ensures library { IfOk result (λ library. library ≡ finished self) }
        ensures fits { IfOk result (λ library. IfSome library IsLibrary) }
    {
        let Some(wires) = all_given(alloc, &self.wires)? else {
            return Ok(None);
        };
        let Some(via) = self.via else {
            return Ok(None);
        };
        let Some(driver) = self.driver else {
            return Ok(None);
        };
        let Some(sink) = self.sink else {
            return Ok(None);
        };
        Ok(Some(Library {
            version: self.version,
            driver,
            via,
            sink,
            wires,
            kinds: self.kinds,
            places: self.places,
        }))
    }
}

/// The wires of all layers, if each is given.
fn all_given(alloc: Global, wires: &[Option<Wire>]) -> Result<Option<Vec<Wire>>, AllocError>
    ensures { IfOk result (λ given. option_map (λ wires. wires.items) given ≡ all_given wires.now) }
{
    let mut given = Vec::with_capacity(alloc, wires.len())?;
    for wire in wires {
        let Some(wire) = *wire else {
            return Ok(None);
        };
        given.push(wire)?;
    }
    Ok(Some(given))
}
