//! What the pins of all nets ask for.
ghost use Rattle.std.specs.Prelude.{◌≡◌, ◌^◌, ◌<◌, ◌≤◌, length, IfOk, IsTrue};
ghost use Rattle.gr_base.specs.Designs.{is_routed};
ghost use Rattle.wall_laws.specs.Spans.{least_length, least_usable_length, least_usable_wirelength, least_wirelength};

use crate::net_spans::{least_usable_vias, least_vias, least_wires};
use gr_base::Design;
use std::alloc::{AllocError, Global};

/// What no wirelength of edge sets is below that join the routed nets.
#[derive(Clone, Copy, Debug, PartialEq, Eq)]
pub struct WireBounds {
    /// By the pins' boxes, tiles and layers.
    pub wirelength: u128,
    /// Along usable edges alone: with the vias that unusable ways force.
    pub usable: u128,
}

/// Likewise of one net.
#[derive(Clone, Copy)]
struct NetBounds {
    wirelength: u64,
    usable: u64,
}

/// The bounds of a design's wirelength, where a via edge counts as `via_cost` wire edges, at most 1,000.
/// A pass over the nets, which sorts each net's pins. The only error is want of memory.
pub fn wire_bounds(alloc: Global, design: &Design, via_cost: u32) -> Result<WireBounds, AllocError>
    requires { via_cost ≤ 1000 }
    ensures wirelength { IfOk result (λ bounds. bounds.wirelength ≡ least_wirelength design.now via_cost) }
    ensures usable { IfOk result (λ bounds. bounds.usable ≡ least_usable_wirelength design.now via_cost) }
{
    let mut numbers = Vec::new(alloc);
    let mut bounds = WireBounds {
        wirelength: 0,
        usable: 0,
    };
    for net in 0..design.nets() {
        if !design.routed(net) {
            continue;
        }
        let one = net_bounds(design, net, via_cost, &mut numbers)?;
        bounds.wirelength += u128::from(one.wirelength);
        bounds.usable += u128::from(one.usable);
    }
    Ok(bounds)
}

/// The bounds of a routed net's wirelength. The only error is want of memory.
fn net_bounds(
    design: &Design,
    net: u32,
    via_cost: u32,
    numbers: &mut Vec<u32>,
) -> Result<NetBounds, AllocError>
    requires net { net < length design.now.nets }
    requires routed { IsTrue (is_routed design.now net) }
    requires via_cost { via_cost ≤ 1000 }
    ensures wirelength { IfOk result (λ bounds. bounds.wirelength ≡ least_length design.now via_cost net) }
    ensures usable { IfOk result (λ bounds. bounds.usable ≡ least_usable_length design.now via_cost net) }
    ensures fits { IfOk result (λ bounds. (bounds.wirelength < 2 ^ 64) × (bounds.usable < 2 ^ 64)) }
{
    let frame = design.frame();
    let pins = design.net(net).pins.as_slice();
    let wires = least_wires(frame.shape, pins, numbers)?;
    let vias = least_vias(frame.shape, pins, numbers)?;
    let usable_vias = least_usable_vias(frame, pins, numbers)?;
    Ok(NetBounds {
        wirelength: wires + u64::from(via_cost) * u64::from(vias),
        usable: wires + u64::from(via_cost) * usable_vias,
    })
}
