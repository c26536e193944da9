//! Where buffers may stand, and which signal sinks want.
ghost use Rattle.std.specs.Prelude.{◌<◌, length};
ghost use Rattle.gr_base.specs.Plans.{IsRouteOfNet};
ghost use Rattle.rc_library.specs.Libraries.{IsLibraryOf};

use elmore_delay::{Loading, Wants};
use gr_base::{Design, NodeIndex, RouteTree};
use gr_text::Text;
use rc_library::Library;
use std::alloc::{AllocError, Global};

/// A line for each node, by number.
pub(crate) fn told(
    alloc: Global,
    design: &Design,
    library: &Library,
    tree: &RouteTree,
) -> Result<Text, AllocError>
    requires library { IsLibraryOf design.now library.now }
    requires net { 0 < length design.now.nets }
    requires tree { IsRouteOfNet design.now 0 tree.now }
{
    let mut index = NodeIndex::new(alloc, tree.shape().cells())?;
    let loading = Loading::of(alloc, library, design, 0, tree, &mut index)?;
    let mut told = Text::new(alloc);
    for node in 0..tree.len() {
        put_node(&mut told, loading.free(node), loading.wants(node))?;
    }
    Ok(told)
}

/// Puts a node's line at the end of the text.
fn put_node(told: &mut Text, free: bool, wants: Wants) -> Result<(), AllocError> {
    if free {
        told.put(b"free ")?;
    } else {
        told.put(b"shut ")?;
    }
    match wants {
        Wants::Any => told.put(b"any\n"),
        Wants::Plain => told.put(b"plain\n"),
        Wants::Inverse => told.put(b"inverse\n"),
        Wants::Both => told.put(b"both\n"),
    }
}
