//! Designs: a frame, nets and adjustments.
ghost use Rattle.std.specs.Prelude.{◌≡◌, ℕ, ◌+◌, ◌<◌, ◌≤◌, ◌++◌, ◌∷◌, [], ℤ, length, slice_get, Some, None, IfOk, IfErr, OnOk, OnErr};
ghost use Rattle.gr_base.specs.Limits.{most_nets, most_pins, most_adjustments};
ghost use Rattle.gr_base.specs.Grid.{cells_of};
ghost use Rattle.gr_base.specs.Designs.{IsFrame, IsNet, IsAdjustment, IsDesign, with_net, with_adjustment, net_with_id, pins_of, is_routed, tile_of, centre_of};

use crate::chip::{middle, tile_at};
use crate::frame::{Adjustment, Frame, Net, Point};
use crate::ids::Ids;
use crate::limits::MOST_ROUTED_PINS;
use std::alloc::{AllocError, Global};
use std::marker::Model;

/// A net that was not added, for want of memory.
#[derive(Debug, Drop)]
pub struct NetRefused {
    pub net: Net,
}

/// A design: its frame, its nets and its adjustments, each in the order of the text.
#[derive(Debug, Drop)]
pub struct Design {
    frame: Frame,
    nets: Vec<Net>,
    ids: Ids,
    adjustments: Vec<Adjustment>,
}

impl Design {
    /// A design without nets and adjustments. The only error is want of memory.
    pub fn new(alloc: Global, frame: Frame) -> Result<Self, AllocError>
        requires { IsFrame frame }
        ensures { IfOk result (λ d. d ≡ record { frame = frame; nets = []; adjustments = [] }) }
    {
        Ok(Design {
            frame,
            nets: Vec::new(alloc),
            ids: Ids::new(alloc),
            adjustments: Vec::new(alloc),
        })
    }

    /// Adds a net behind the others. The net comes back only for want of memory.
    pub fn push_net(&mut self, net: Net) -> Result<(), NetRefused>
        requires net { IsNet self.old.frame.shape net }
        requires fresh { net_with_id self.old net.id ≡ None }
        requires room { length self.old.nets < most_nets }
        requires pins { pins_of self.old.nets + length net.pins ≤ most_pins }
        ensures ok { OnOk result (self.new ≡ with_net net self.old) }
        ensures err { OnErr result (self.new ≡ self.old) }
        ensures back { IfErr result (λ refused. refused.net ≡ net) }
    {
        if self.nets.reserve(1).is_err() {
            return Err(NetRefused { net });
        }
        let Ok(()) = self.ids.push(net.id) else {
            return Err(NetRefused { net });
        };
        self.nets.push_reserved(net);
        Ok(())
    }

    /// Adds an adjustment behind the others. The only error is want of memory.
    pub fn push_adjustment(&mut self, adjustment: Adjustment) -> Result<(), AllocError>
        requires adjustment { IsAdjustment self.old.frame.shape adjustment }
        requires room { length self.old.adjustments < most_adjustments }
        ensures ok { OnOk result (self.new ≡ with_adjustment adjustment self.old) }
        ensures err { OnErr result (self.new ≡ self.old) }
    {
        self.adjustments.push(adjustment)?;
        Ok(())
    }

    /// The grid, its layers, and where its tiles lie.
    pub fn frame(&self) -> &Frame
        ensures frame { result.now ≡ self.now.frame }
        ensures design { IsDesign self.now }
    {
        &self.frame
    }

    /// How many nets there are.
    pub fn nets(&self) -> u32
        ensures nets { result ≡ length self.now.nets }
        ensures design { IsDesign self.now }
    {
        self.nets.len() as u32
    }

    /// The net with a number, which counts from 0 in the order of the text.
    pub fn net(&self, net: u32) -> &Net
        requires { net < length self.now.nets }
        ensures net { slice_get self.now.nets net ≡ Some result.now }
        ensures design { IsDesign self.now }
    {
        &self.nets[net as usize]
    }

    /// How many adjustments there are.
    pub fn adjustments(&self) -> u32
        ensures adjustments { result ≡ length self.now.adjustments }
        ensures design { IsDesign self.now }
    {
        self.adjustments.len() as u32
    }

    /// The adjustment at a place, which counts from 0 in the order of the text.
    pub fn adjustment(&self, at: u32) -> Adjustment
        requires { at < length self.now.adjustments }
        ensures adjustment { slice_get self.now.adjustments at ≡ Some result }
        ensures design { IsDesign self.now }
    {
        self.adjustments[at as usize]
    }

    /// The number of the net with an id. None exactly where no net has it.
    pub fn net_of_id(&self, id: u32) -> Option<u32>
        ensures { result ≡ net_with_id self.now id }
    {
        self.ids.place_of(id)
    }

    /// Whether a net is routed: whether it has 1 to 1,000 pins.
    pub fn routed(&self, net: u32) -> bool
        requires { net < length self.now.nets }
        ensures { result ≡ is_routed self.now net }
    {
        let pins = self.net(net).pins.as_slice().len();
        0 < pins && pins <= MOST_ROUTED_PINS as usize
    }

    /// The column of a coordinate, which on the upper border is the last one. None exactly outside
    /// the chip.
    pub fn tile_x(&self, x: i64) -> Option<u32>
        ensures { result ≡ tile_of self.now.frame.lower_x self.now.frame.tile_width self.now.frame.shape.columns x }
    {
        let frame = self.frame();
        tile_at(frame.lower_x, frame.tile_width, frame.shape.columns(), x)
    }

    /// The row of a coordinate, which on the upper border is the last one. None exactly outside the
    /// chip.
    pub fn tile_y(&self, y: i64) -> Option<u32>
        ensures { result ≡ tile_of self.now.frame.lower_y self.now.frame.tile_height self.now.frame.shape.rows y }
    {
        let frame = self.frame();
        tile_at(frame.lower_y, frame.tile_height, frame.shape.rows(), y)
    }

    /// The centre of a cell, with halves rounded down.
    pub fn centre(&self, cell: u32) -> Point
        requires { cell < cells_of self.now.frame.shape }
        ensures { result ≡ centre_of self.now.frame cell }
    {
        let frame = self.frame();
        let place = frame.shape.place_of(cell);
        Point {
            x: middle(frame.lower_x, frame.tile_width, place.x),
            y: middle(frame.lower_y, frame.tile_height, place.y),
            layer: place.layer + 1,
        }
    }
}

impl Model for Design {
    ghost use Rattle.gr_base.specs.Designs.{DesignView};

    ghost Value = { DesignView };

    ghost use Rattle.gr_base.specs.DesignStore.{seen, Keeps};

    ghost view = { seen };

    ghost invariant = { Keeps };
}
