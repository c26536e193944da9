//! Libraries that were read for a design.
ghost use Rattle.std.specs.Prelude.{◌≡◌, ◌<◌, ◌≤◌, length, slice_get, Some};
ghost use Rattle.rc_library.specs.Limits.{most_resistance};
ghost use Rattle.rc_library.specs.Libraries.{kind_of, name_of, inverts_at, blocked_at, driver_of, sink_of, is_flipped, HasPin, IsWire, IsKind, IsSinking, IsLibrary};

use crate::kinds::Kinds;
use crate::parts::{Kind, Sinking, Wire};
use crate::places::PlaceNotes;
use gr_base::Name;
use std::marker::Model;

/// A library, read for one design: its layers, tiles, nets and pins are the design's, each counted
/// from 0.
#[derive(Debug, Drop)]
pub struct Library {
    pub(crate) version: u32,
    pub(crate) driver: u32,
    pub(crate) via: Wire,
    pub(crate) sink: Sinking,
    pub(crate) wires: Vec<Wire>,
    pub(crate) kinds: Kinds,
    pub(crate) places: PlaceNotes,
}

impl Model for Library {
    ghost use Rattle.rc_library.specs.Libraries.{LibraryView};

    ghost Value = { LibraryView };

    ghost use Rattle.rc_library.specs.LibraryStore.{seen, Keeps};

    ghost view = { seen };

    ghost invariant = { Keeps };
}

impl Library {
    /// The version of its text, 1 to 3.
    pub fn version(&self) -> u32
        ensures version { result ≡ self.now.version }
        ensures library { IsLibrary self.now }
    {
        self.version
    }

    /// A step from tile to tile on a layer.
    pub fn wire(&self, layer: u32) -> Wire
        requires { layer < length self.now.wires }
        ensures wire { slice_get self.now.wires layer ≡ Some result }
        ensures fits { IsWire result }
        ensures library { IsLibrary self.now }
    {
        self.wires[layer as usize]
    }

    /// A step between two layers.
    pub fn via(&self) -> Wire
        ensures via { result ≡ self.now.via }
        ensures fits { IsWire result }
        ensures library { IsLibrary self.now }
    {
        self.via
    }

    /// The resistance in ohms of a net's driver, where the text has none for the net.
    pub fn driver(&self) -> u32
        ensures driver { result ≡ self.now.driver }
        ensures fits { result ≤ most_resistance }
        ensures library { IsLibrary self.now }
    {
        self.driver
    }

    /// A sink, where the text has none for the pin.
    pub fn sink(&self) -> Sinking
        ensures sink { result ≡ self.now.sink }
        ensures fits { IsSinking result }
        ensures library { IsLibrary self.now }
    {
        self.sink
    }

    /// How many kinds of buffers there are, at most 32.
    pub fn kinds(&self) -> u32
        ensures kinds { result ≡ length self.now.kinds }
        ensures library { IsLibrary self.now }
    {
        self.kinds.len()
    }

    /// The kind with a number.
    pub fn kind(&self, kind: u32) -> Kind
        requires { kind < length self.now.kinds }
        ensures kind { kind_of self.now kind ≡ Some result }
        ensures fits { IsKind result }
        ensures library { IsLibrary self.now }
    {
        self.kinds.at(kind).kind
    }

    /// The name of the kind with a number.
    pub fn name(&self, kind: u32) -> &Name
        requires { kind < length self.now.kinds }
        ensures name { name_of self.now kind ≡ Some result.now }
        ensures library { IsLibrary self.now }
    {
        &self.kinds.at(kind).name
    }

    /// Whether a kind inverts the signal.
    pub fn inverts(&self, kind: u32) -> bool
        requires { kind < length self.now.kinds }
        ensures inverts { inverts_at self.now kind ≡ Some result }
        ensures library { IsLibrary self.now }
    {
        self.kinds.at(kind).inverts
    }

    /// Whether no buffer may stand in the tile of a column and a row.
    pub fn blocked(&self, x: u32, y: u32) -> bool
        requires column { x < self.now.sizes.columns }
        requires row { y < self.now.sizes.rows }
        ensures blocked { result ≡ blocked_at self.now x y }
        ensures library { IsLibrary self.now }
    {
        self.places.blocked(x, y)
    }

    /// The resistance in ohms of a net's driver.
    pub fn driver_of(&self, net: u32) -> u32
        requires { net < length self.now.drivers }
        ensures driver { result ≡ driver_of self.now net }
        ensures fits { result ≤ most_resistance }
        ensures library { IsLibrary self.now }
    {
        self.places.driver_of(net).unwrap_or(self.driver)
    }

    /// The capacitance and the time of a net's pin as a sink.
    pub fn sink_of(&self, net: u32, pin: u32) -> Sinking
        requires net { net < length self.now.drivers }
        requires pin { HasPin self.now.sizes net pin }
        ensures sink { result ≡ sink_of self.now net pin }
        ensures fits { IsSinking result }
        ensures library { IsLibrary self.now }
    {
        self.places.sink_of(net, pin).unwrap_or(self.sink)
    }

    /// Whether a net's pin wants the inverted signal.
    pub fn flipped(&self, net: u32, pin: u32) -> bool
        requires net { net < length self.now.drivers }
        requires pin { HasPin self.now.sizes net pin }
        ensures flipped { result ≡ is_flipped self.now net pin }
        ensures library { IsLibrary self.now }
    {
        self.places.flipped(net, pin)
    }
}
