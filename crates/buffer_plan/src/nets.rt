//! The plans of all routed nets.
ghost use Rattle.std.specs.Prelude.{◌≡◌, ◌+◌, ◌<◌, ◌≤◌, false, length, map, Ok, Some, None, IsTrue, IsErr, IfOk, IfSome, All};
ghost use Rattle.gr_base.specs.Designs.{is_routed};
ghost use Rattle.gr_base.specs.Grid.{cells_of};
ghost use Rattle.gr_base.specs.Plans.{IsRouteOfNet};
ghost use Rattle.gr_base.specs.Trees.{tree_at};
ghost use Rattle.rc_library.specs.Libraries.{IsLibraryOf};
ghost use Rattle.buffer_plan.specs.Nets.{HaveTrees};
ghost use Rattle.buffer_plan.specs.Plans.{AreRoutesOf, ArePlans};
ghost use Rattle.buffer_plan.specs.Rules.{IsRuled, IsByRule, AreByRule, AreAllByRule};

use crate::loaded::Loaded;
use crate::net_planner::NetPlanner;
use crate::planner::Planner;
use crate::routed_nets::RoutedNets;
use elmore_delay::{Loading, Plan, Plans};
use ginneken_lists::Steps;
use gr_base::{Design, NodeIndex, RouteTree, Routes};
use rc_library::Library;
use std::alloc::{AllocError, Global};
use std::marker::Brand;
use std::sync::ledger::{Blank, Ledger};
use std::thread::{Threads, for_each_chunk_mut};

/// A net's plan, or none where the net isn't routed or its planner's rule gives it none; an error where it
/// isn't made, for want of memory.
type Planned = Result<Option<Plan>, AllocError>;

/// The plans of exactly the routed nets: for each the picked placement of buffers in its tree, with
/// which the required time at the driver is the greatest, and that time. The nets are parted into
/// blocks, at most one for each worker, which are planned side by side. The only error is want of
/// memory.
pub fn plan_all<R: Threads + Sync>(
    rt: &R,
    alloc: Global,
    design: &Design,
    library: &Library,
    routes: &Routes,
    workers: u32,
) -> Result<Plans, AllocError>
    requires library { IsLibraryOf design.now library.now }
    requires routes { AreRoutesOf design.now routes.now }
    requires workers { 0 < workers }
    ensures { IfOk result (ArePlans design.now library.now routes.now) }
{
    let nets = RoutedNets {
        design,
        library,
        routes,
    };
    plan_all_by::<Planner, R>(rt, alloc, &nets, workers)
}

/// The plans of all nets by a planner's rule, in at most so many blocks side by side. The only error is
/// want of memory.
pub fn plan_all_by<P: NetPlanner + Sync, R: Threads + Sync>(
    rt: &R,
    alloc: Global,
    nets: &RoutedNets<'_>,
    workers: u32,
) -> Result<Plans, AllocError>
    requires trees { HaveTrees nets.now }
    requires workers { 0 < workers }
    ensures { IfOk result (AreAllByRule P.rule nets.now.design.now nets.now.library.now nets.now.routes.now) }
{
    let mut planned = none_planned(alloc, nets.design.nets())?;
    plan_blocks::<P, R>(rt, alloc, nets, workers, &mut planned);
    gather(alloc, planned)
}

/// No plans yet for so many nets.
fn none_planned(alloc: Global, nets: u32) -> Result<Vec<Planned>, AllocError>
    ensures long { IfOk result (λ planned. length planned.items ≡ nets) }
    ensures none { IfOk result (λ planned. All IsErr planned.items) }
{
    let mut planned = Vec::with_capacity(alloc, nets as usize)?;
    for _ in 0..nets {
        planned.push(Err(AllocError))?;
    }
    Ok(planned)
}

/// Plans all nets, in at most so many blocks side by side.
fn plan_blocks<P: NetPlanner + Sync, R: Threads + Sync>(
    rt: &R,
    alloc: Global,
    nets: &RoutedNets<'_>,
    workers: u32,
    planned: &mut Vec<Planned>,
)
    requires trees { HaveTrees nets.now }
    requires workers { 0 < workers }
    requires long { length planned.old.items ≡ length nets.now.design.now.nets }
    requires none { All IsErr planned.old.items }
    ensures long { length planned.new.items ≡ length planned.old.items }
    ensures plans { AreByRule P.rule 0 nets.now.design.now nets.now.library.now nets.now.routes.now planned.new.items }
{
    let size = planned.len() / workers as usize + 1;
    for_each_chunk_mut(
        rt,
        planned.as_mut_slice(),
        size,
        &|first, block: &mut [Planned]|
            requires { HaveTrees nets.now × (first + length block.now ≤ length nets.now.design.now.nets) × All IsErr block.now }
            ensures { (length block.exit.now ≡ length block.entry.now) ×
                AreByRule P.rule first nets.entry.now.design.now nets.entry.now.library.now nets.entry.now.routes.now block.exit.now }
        {
            plan_block::<P>(alloc, nets, first, block);
        },
    );
}

/// Plans a block of nets, from a net on, one after another.
fn plan_block<P: NetPlanner>(
    alloc: Global,
    nets: &RoutedNets<'_>,
    first: usize,
    block: &mut [Planned],
)
    requires trees { HaveTrees nets.now }
    requires inside { first + length block.old ≤ length nets.now.design.now.nets }
    requires none { All IsErr block.old }
    ensures long { length block.new ≡ length block.old }
    ensures plans { AreByRule P.rule first nets.now.design.now nets.now.library.now nets.now.routes.now block.new }
{
    let mut planner = P::ready(alloc);
    let Ok(mut index) = NodeIndex::new(alloc, nets.design.frame().shape.cells()) else {
        return;
    };
    for at in 0..block.len() {
        let net = (first + at) as u32;
        block[at] = net_plan(alloc, nets, net, &mut planner, &mut index);
    }
}

/// What a net gets by a planner's rule. The index serves net after net: what it holds before the call
/// means nothing. The only error is want of memory.
pub fn net_plan<P: NetPlanner>(
    alloc: Global,
    nets: &RoutedNets<'_>,
    net: u32,
    planner: &mut P,
    index: &mut NodeIndex,
) -> Result<Option<Plan>, AllocError>
    requires trees { HaveTrees nets.now }
    requires net { net < length nets.now.design.now.nets }
    requires index { cells_of nets.now.design.now.frame.shape ≤ length index.old }
    ensures plan { IfOk result (IsByRule P.rule nets.now.design.now nets.now.library.now nets.now.routes.now net) }
    ensures index { length index.new ≡ length index.old }
{
    let Some(tree) = routed_tree(nets.design, nets.routes, net) else {
        return Ok(None);
    };
    let loading = Loading::of(alloc, nets.library, nets.design, net, tree, index)?;
    let loaded = Loaded {
        tree,
        library: nets.library,
        loading: &loading,
    };
    plan_counted::<P, Brand>(alloc, planner, &loaded, Blank::new(1))
}

/// What a net gets, where steps are counted in a ledger of their own.
fn plan_counted<P: NetPlanner, L: Ledger>(
    alloc: Global,
    planner: &mut P,
    net: &Loaded<'_>,
    blank: Blank,
) -> Result<Option<Plan>, AllocError>
    requires name { blank.name ≡ L.name }
    requires parts { blank.parts ≡ L.parts }
    requires one { blank.parts ≡ 1 }
    ensures plan { IfOk result (IsRuled P.rule net.now.loading.now) }
{
    let mut steps = Steps::<L>::new(blank);
    planner.plan_net(alloc, net, &mut steps)
}

/// The plans of the nets, where all were made.
fn gather(alloc: Global, planned: Vec<Planned>) -> Result<Plans, AllocError>
    ensures { IfOk result (λ plans. planned.items ≡ map Ok plans) }
{
    let mut plans = Vec::with_capacity(alloc, planned.len())?;
    let mut rest = planned.into_iter();
    while let Some(plan) = rest.next() {
        plans.push(plan?)?;
    }
    Ok(Plans::of(plans))
}

/// The tree of a routed net. None exactly where the net isn't routed.
pub fn routed_tree<'r>(design: &Design, routes: &'r Routes, net: u32) -> Option<&'r RouteTree>
    requires net { net < length design.now.nets }
    requires routes { AreRoutesOf design.now routes.now }
    ensures tree { IfSome result (λ tree. tree_at routes.now net ≡ Some tree.now) }
    ensures routes { IfSome result (λ tree. IsRouteOfNet design.now net tree.now) }
    ensures shape { IfSome result (λ tree. tree.now.shape ≡ design.now.frame.shape) }
    ensures routed { IfSome result (λ _. IsTrue (is_routed design.now net)) }
    ensures none { result ≡ None → is_routed design.now net ≡ false }
{
    if design.routed(net) {
        routes.get(net)
    } else {
        None
    }
}
