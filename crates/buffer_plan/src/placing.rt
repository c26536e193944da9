//! The placement that a mark names, and the plan of a pair.
ghost use Rattle.std.specs.Prelude.{◌≡◌, ◌≤◌, ◌^◌, length, map, IfOk, OnOk};
ghost use Rattle.std.specs.List.{range_with_len};
ghost use Rattle.elmore_delay.specs.FromLeaves.{at_driver};
ghost use Rattle.elmore_delay.specs.Loadings.{rc_of};
ghost use Rattle.elmore_delay.specs.Ranges.{IsSeen};
ghost use Rattle.ginneken_lists.specs.Candidates.{chosen_at};
ghost use Rattle.ginneken_lists.specs.Pairs.{seen_of, candidate_of};
ghost use Rattle.ginneken_lists.specs.Trails.{chosen_of};
ghost use Rattle.buffer_plan.specs.Gathered.{IsWithin};
ghost use Rattle.buffer_plan.specs.Following.{IsFollowed};
ghost use Rattle.buffer_plan.specs.Picked.{choice_with, placement_of};

use elmore_delay::{Loading, Placement, Plan};
use ginneken_lists::{Choice, Pair, Trail};
use gr_base::RouteTree;
use std::alloc::{AllocError, Global};

/// The plan of a pair at node 0: the buffers that its mark names, and its time less the driver's
/// delay. A net without sinks has no time, and gets no buffers. The stack of marks serves plan after
/// plan: what it holds before the call means nothing. The only error is want of memory.
pub fn plan_of(
    alloc: Global,
    tree: &RouteTree,
    loading: &Loading,
    trail: &Trail,
    pair: Pair,
    marks: &mut Vec<u64>,
) -> Result<Plan, AllocError>
    requires tree { loading.now.tree ≡ tree.now }
    requires small { IsSeen (2 ^ 100) (seen_of pair) }
    requires mark { pair.mark ≤ length trail.now }
    requires within { IsWithin (length tree.now.nodes) (chosen_of trail.now pair.mark) }
    ensures placement { IfOk result (λ plan. plan.placement
        ≡ placement_of loading.now (choice_with (candidate_of trail.now pair))) }
    ensures required { IfOk result (λ plan. plan.required ≡ at_driver (rc_of loading.now).driver (seen_of pair)) }
{
    let driver = loading.driver();
    let Some(time) = pair.time else {
        return Ok(Plan {
            placement: Placement::none(alloc, tree.len())?,
            required: 0,
        });
    };
    let delay = 2 * u128::from(driver) * u128::from(pair.load);
    Ok(Plan {
        placement: place(alloc, tree.len(), trail, pair.mark, marks)?,
        required: time - delay as i128,
    })
}

/// The placement in a tree of so many nodes that a mark of a trail names. The marks that are still to
/// be followed stand in a stack; what it holds before the call means nothing. The only error is want
/// of memory.
fn place(
    alloc: Global,
    nodes: u32,
    trail: &Trail,
    mark: u64,
    marks: &mut Vec<u64>,
) -> Result<Placement, AllocError>
    requires mark { mark ≤ length trail.now }
    requires within { IsWithin nodes (chosen_of trail.now mark) }
    ensures { IfOk result (λ placement. placement
        ≡ map (chosen_at (chosen_of trail.now mark)) (range_with_len 0 nodes)) }
{
    let mut placement = Placement::none(alloc, nodes)?;
    marks.clear();
    marks.push(mark)?;
    while let Some(mark) = marks.pop() {
        follow(trail, mark, &mut placement, marks)?;
    }
    Ok(placement)
}

/// Places the buffer that a mark names first, and leaves the marks below it to be followed. Where a
/// node holds a buffer already, it keeps it.
fn follow(
    trail: &Trail,
    mark: u64,
    placement: &mut Placement,
    marks: &mut Vec<u64>,
) -> Result<(), AllocError>
    requires mark { mark ≤ length trail.now }
    requires within { IsWithin (length placement.old) (chosen_of trail.now mark) }
    ensures { OnOk result (IsFollowed trail.now mark marks.old.items placement.old marks.new.items placement.new) }
{
    match trail.choice(mark) {
        Choice::Empty => {}
        Choice::Buffer { node, kind, below } => {
            if placement.at(node).is_none() {
                placement.set(node, Some(kind));
            }
            marks.push(below)?;
        }
        Choice::Both { left, right } => {
            marks.push(right)?;
            marks.push(left)?;
        }
    }
    Ok(())
}
