//! The plans of all routed nets.
ghost use Rattle.std.specs.Prelude.{◌<◌, IfOk};
ghost use Rattle.rc_library.specs.Libraries.{IsLibraryOf};
ghost use Rattle.buffer_plan.specs.Plans.{AreRoutesOf};
ghost use Rattle.polar_lists.specs.PolarPlans.{ArePolarPlans};

use crate::planner::PolarPlanner;
use buffer_plan::{RoutedNets, plan_all_by};
use elmore_delay::Plans;
use gr_base::{Design, Routes};
use rc_library::Library;
use std::alloc::{AllocError, Global};
use std::thread::Threads;

/// The plans of the routed nets: for each the picked legal placement of buffers in its tree, with
/// which the required time at the driver is the greatest of all legal ones, and that time. Of the
/// routed nets exactly those without a legal placement have no plan. The nets are parted into blocks,
/// at most one for each worker, which are planned side by side. The only error is want of memory.
pub fn plan_all_polar<R: Threads + Sync>(
    rt: &R,
    alloc: Global,
    design: &Design,
    library: &Library,
    routes: &Routes,
    workers: u32,
) -> Result<Plans, AllocError>
    requires library { IsLibraryOf design.now library.now }
    requires routes { AreRoutesOf design.now routes.now }
    requires workers { 0 < workers }
    ensures { IfOk result (ArePolarPlans design.now library.now routes.now) }
{
    let nets = RoutedNets {
        design,
        library,
        routes,
    };
    plan_all_by::<PolarPlanner, R>(rt, alloc, &nets, workers)
}
