//! The nets of round 0.
ghost use Rattle.std.specs.Prelude.{◌≡◌, ◌<◌, ◌≤◌, length, IfOk};
ghost use Rattle.gr_base.specs.Limits.{most_nets};
ghost use Rattle.run_histories.specs.GivenRoutes.{is_open, open_nets as nets_open};
ghost use Rattle.run_histories.specs.RunHistories.{routed_nets as nets_routed};

use gr_base::{Design, Routes};
use std::alloc::{AllocError, Global};

/// The routed nets of a design, in its order. The only error is want of memory.
pub fn routed_nets(alloc: Global, design: &Design) -> Result<Vec<u32>, AllocError>
    ensures nets { IfOk result (λ nets. nets.items ≡ nets_routed design.now) }
    ensures few { length design.now.nets ≤ most_nets }
{
    let mut nets = Vec::new(alloc);
    for net in 0..design.nets() {
        if design.routed(net) {
            nets.push(net)?;
        }
    }
    Ok(nets)
}

/// The routed nets of a design to which no tree is given, in its order. The only error is want of memory.
pub fn open_nets(alloc: Global, design: &Design, given: &Routes) -> Result<Vec<u32>, AllocError>
    ensures nets { IfOk result (λ nets. nets.items ≡ nets_open design.now given.now) }
    ensures few { length design.now.nets ≤ most_nets }
{
    let mut nets = Vec::new(alloc);
    for net in 0..design.nets() {
        if is_open(design, given, net) {
            nets.push(net)?;
        }
    }
    Ok(nets)
}

/// Whether a net is routed and no tree is given to it.
fn is_open(design: &Design, given: &Routes, net: u32) -> bool
    requires { net < length design.now.nets }
    ensures { result ≡ is_open design.now given.now net }
{
    design.routed(net) && given.get(net).is_none()
}
