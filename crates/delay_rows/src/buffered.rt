//! The text of buffers, and delays with them.
ghost use Rattle.std.specs.Prelude.{◌≡◌, ◌<◌, length, IfOk};
ghost use Rattle.gr_base.specs.Plans.{IsRouteOfNet};
ghost use Rattle.rc_library.specs.Libraries.{IsLibraryOf};
ghost use Rattle.elmore_delay.specs.Placements.{NamesKinds};
ghost use Rattle.report_text.specs.BufferTexts.{IsPlanFor};

use elmore_delay::{Loading, Placement, Plan, Plans, delay_to, required};
use gr_base::{Design, NodeIndex, RouteTree, Routes};
use gr_text::Text;
use rc_library::Library;
use report_text::buffers;
use std::alloc::{AllocError, Global};

/// A plan, and the delay to the tree's last node with it.
#[derive(Drop)]
struct Planned {
    plan: Plan,
    delay: i128,
}

/// The text of buffers at the cells that these words name, and a line with the delay to the last
/// node.
pub(crate) fn told(
    alloc: Global,
    design: &Design,
    library: &Library,
    tree: RouteTree,
    words: &str,
) -> Result<Text, AllocError>
    requires library { IsLibraryOf design.now library.now }
    requires nets { length design.now.nets ≡ 1 }
    requires tree { IsRouteOfNet design.now 0 tree }
{
    let planned = plan_of(alloc, design, library, &tree, words)?;
    let delay = planned.delay;
    let mut told = text_of(alloc, design, library, tree, planned.plan)?;
    put_delay(&mut told, delay)?;
    Ok(told)
}

/// Puts the line of the delay at the end of the text.
fn put_delay(told: &mut Text, delay: i128) -> Result<(), AllocError> {
    told.put(b"delay ")?;
    told.put_number(delay)?;
    told.put(b"\n")
}

/// The plan of buffers at these cells.
fn plan_of(
    alloc: Global,
    design: &Design,
    library: &Library,
    tree: &RouteTree,
    words: &str,
) -> Result<Planned, AllocError>
    requires library { IsLibraryOf design.now library.now }
    requires net { 0 < length design.now.nets }
    requires tree { IsRouteOfNet design.now 0 tree.now }
    ensures { IfOk result (λ planned. IsPlanFor design.now library.now tree.now planned.plan) }
{
    let placement = placed(alloc, library, tree, words)?;
    let mut index = NodeIndex::new(alloc, tree.shape().cells())?;
    let loading = Loading::of(alloc, library, design, 0, tree, &mut index)?;
    let required = required(alloc, tree, &loading, &placement)?;
    let delay = delay_to(tree, &loading, &placement, tree.len() - 1);
    Ok(Planned {
        plan: Plan {
            placement,
            required,
        },
        delay,
    })
}

/// Buffers of the library's first kind at the nodes of these cells, but for node 0.
fn placed(
    alloc: Global,
    library: &Library,
    tree: &RouteTree,
    words: &str,
) -> Result<Placement, AllocError>
    ensures nodes { IfOk result (λ placement. length placement ≡ length tree.now.nodes) }
    ensures kinds { IfOk result (NamesKinds library.now) }
{
    let mut placement = Placement::none(alloc, tree.len())?;
    for word in words.split_whitespace() {
        let Some(node) = tree.node_at(word.parse().unwrap_or(0)) else {
            continue;
        };
        if node > 0 && library.kinds() > 0 {
            placement.set(node, Some(0));
        }
    }
    Ok(placement)
}

/// The text of the buffers of a design of one net.
fn text_of(
    alloc: Global,
    design: &Design,
    library: &Library,
    tree: RouteTree,
    plan: Plan,
) -> Result<Text, AllocError>
    requires nets { length design.now.nets ≡ 1 }
    requires plan { IsPlanFor design.now library.now tree plan }
{
    let mut routes = Routes::new(alloc, 1)?;
    routes.set(0, tree);
    let mut plans = Plans::new(alloc, 1)?;
    plans.set(0, plan);
    buffers(alloc, design, library, &routes, &plans)
}
