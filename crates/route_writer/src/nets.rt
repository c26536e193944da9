//! The records of nets, one after another.
ghost use Rattle.std.specs.Prelude.{◌≡◌, ◌<◌, ◌≤◌, ◌++◌, length, OnOk};
ghost use Rattle.straight_runs.specs.Routed.{HaveTrees};
ghost use Rattle.route_writer.specs.RouteTexts.{net_text, nets_text};

use crate::record::Draft;
use gr_base::{Design, Routes};
use std::alloc::AllocError;

/// Puts the record of a net behind the text, if the net is routed. The only error is want of memory.
pub(crate) fn put_net(
    draft: &mut Draft,
    design: &Design,
    routes: &Routes,
    net: u32,
) -> Result<(), AllocError>
    requires routed { HaveTrees design.now routes.now }
    requires net { net < length design.now.nets }
    ensures { OnOk result (draft.new.text ≡ draft.old.text ++ net_text design.now routes.now net) }
{
    if !design.routed(net) {
        return Ok(());
    }
    let tree = routes.get(net).unwrap();
    draft.put_record(design, design.net(net), tree)?;
    Ok(())
}

/// Puts the records of the routed nets from the first number on, below the last, behind the text. The
/// only error is want of memory.
pub(crate) fn put_nets(
    draft: &mut Draft,
    design: &Design,
    routes: &Routes,
    first: u32,
    last: u32,
) -> Result<(), AllocError>
    requires routed { HaveTrees design.now routes.now }
    requires range { first ≤ last }
    requires last { last ≤ length design.now.nets }
    ensures { OnOk result
        (draft.new.text ≡ draft.old.text ++ nets_text design.now routes.now first last) }
{
    for net in first..last {
        put_net(draft, design, routes, net)?;
    }
    Ok(())
}
