//! The routed nets as walls see them: what each needs of an edge at least, and the tiles of its pins.
ghost use Rattle.std.specs.Prelude.{◌≡◌, ◌*◌, ◌≤◌, ◌<◌, ◌++◌, ◌∷◌, [], map, All, IfOk, OnOk, IsTrue};
ghost use Rattle.gr_base.specs.Designs.{IsFrame, IsLayer, is_routed, layers_of};
ghost use Rattle.gr_base.specs.Grid.{cells_of};
ghost use Rattle.gr_base.specs.Limits.{most_width};
ghost use Rattle.wall_laws.specs.Walls.{least_on, taken_on as taken_by};
ghost use Rattle.cut_bounds.specs.NetTiles.{placed_net, placed_nets, placed_in, tile_in, AreWhole};

use crate::axis::Tile;
use gr_base::{Design, Frame, Layer, Shape};
use std::alloc::{AllocError, Global};

/// What a net needs of an edge that it takes at least, and how many pins it has.
#[derive(Clone, Copy, Debug)]
pub(crate) struct NetNeed {
    pub need: u32,
    pub pins: u32,
}

/// The routed nets, and the tiles of their pins one after another.
#[derive(Drop)]
pub(crate) struct NetTiles {
    pub net_needs: Vec<NetNeed>,
    pub tiles: Vec<Tile>,
}

impl NetTiles {
    /// The routed nets of a design. The only error is want of memory.
    pub(crate) fn of(alloc: Global, design: &Design) -> Result<NetTiles, AllocError>
        ensures placed { IfOk result (λ nets. placed_in nets ≡ placed_nets design.now) }
        ensures whole { IfOk result AreWhole }
    {
        let mut nets = NetTiles {
            net_needs: Vec::new(alloc),
            tiles: Vec::new(alloc),
        };
        for net in 0..design.nets() {
            if !design.routed(net) {
                continue;
            }
            nets.add(design, net)?;
        }
        Ok(nets)
    }

    /// Puts a net behind the others. The only error is want of memory.
    fn add(&mut self, design: &Design, number: u32) -> Result<(), AllocError>
        requires net { IsTrue (is_routed design.now number) }
        requires whole { AreWhole self.old }
        ensures whole { OnOk result (AreWhole self.new) }
        ensures placed { OnOk result (placed_in self.new ≡ placed_in self.old ++ placed_net design.now number ∷ []) }
    {
        let frame = design.frame();
        let net = design.net(number);
        let need = least_need(frame, net.width);
        let pins = net.pins.as_slice();
        self.net_needs.push(NetNeed {
            need,
            pins: pins.len() as u32,
        })?;
        push_tiles(&mut self.tiles, frame.shape, pins)?;
        Ok(())
    }
}

/// Puts the tiles of pins behind the others. The only error is want of memory.
fn push_tiles(tiles: &mut Vec<Tile>, shape: Shape, pins: &[u32]) -> Result<(), AllocError>
    requires { All (λ pin. pin < cells_of shape) pins.now }
    ensures { OnOk result (tiles.new.items ≡ tiles.old.items ++ map (tile_in shape) pins.now) }
{
    for pin in pins {
        let place = shape.place_of(*pin);
        tiles.push(Tile {
            x: place.x,
            y: place.y,
        })?;
    }
    Ok(())
}

/// The least that a net of a width takes of a wire edge, over the layers of the grid.
fn least_need(frame: &Frame, width: u32) -> u32
    requires frame { IsFrame frame.now }
    requires width { width ≤ most_width }
    ensures least { result ≡ least_on width (layers_of frame.now) }
    ensures most { result ≤ 2 * most_width }
{
    let mut least = taken_on(width, &frame.layers[0]);
    for at in 1..frame.shape.layers() {
        least = least.min(taken_on(width, &frame.layers[at as usize]));
    }
    least
}

/// What a net of a width takes of the wire edges on a layer.
fn taken_on(width: u32, layer: &Layer) -> u32
    requires layer { IsLayer layer.now }
    requires width { width ≤ most_width }
    ensures taken { result ≡ taken_by width layer.now }
    ensures most { result ≤ 2 * most_width }
{
    width.max(layer.width) + layer.spacing
}
