//! In which order the nets of a round are shared.
ghost use Rattle.std.specs.Prelude.{◌≡◌, ◌≤◌, ◌<◌, ◌/◌, ◌%◌, ◌^◌, ◌++◌, ◌∷◌, ℕ, length, map, slice_index_or, sum_by, All, IfOk, OnOk};
ghost use Rattle.gr_base.specs.Designs.{AreRouted};
ghost use Rattle.work_share.specs.Dealt.{dealt};
ghost use Rattle.work_share.specs.Views.{times};
ghost use Rattle.net_order.specs.Orders.{net_in, IsKey, IsDealtInTurn, IsSortOf, size_of, AreCutOf, AreKeysOf, ArePartsOf, nets_at};

use crate::survey::{NUMBERS, Survey};
use beside_calls::for_each_beside;
use std::alloc::{AllocError, Global};
use std::thread::Threads;

/// So few nets are put in order before further threads would have begun.
const FEW: usize = 8_192;

/// The nets of a round in the order in which they are shared: one net after the other goes to one worker
/// after the other. Each worker is dealt the nets of a region of its own, the least free first in round 0
/// and the most free first later.
///
/// A region has as many nets as any other, or one more, whose drivers follow one another by their places.
/// Workers in regions of their own seldom change what others plan with.
pub fn by_regions<R: Threads + Sync>(
    rt: &R,
    alloc: Global,
    survey: &Survey<'_>,
    round: u32,
    nets: &[u32],
    workers: u32,
) -> Result<Vec<u32>, AllocError>
    requires some { 0 < workers }
    requires routed { AreRouted survey.now.design.now nets.now }
    ensures { IfOk result (λ order. IsDealtInTurn survey.now.design.now round workers nets.now order.items) }
{
    let count = workers as usize;
    let placed = behind_places(alloc, survey, nets)?;
    let mut regions = regions_of(alloc, survey, round, placed, count)?;
    let threads = if nets.len() < FEW { 1 } else { count };
    sort_each(rt, threads, &mut regions);
    let order = dealt_out(alloc, &regions, nets.len() / count, nets.len() % count)?;
    Ok(order)
}

/// The nets, each behind the place of its driver.
fn behind_places(alloc: Global, survey: &Survey<'_>, nets: &[u32]) -> Result<Vec<u64>, AllocError>
    requires { AreRouted survey.now.design.now nets.now }
    ensures { IfOk result (λ placed. map net_in placed.items ≡ nets.now) }
{
    let mut placed = Vec::with_capacity(alloc, nets.len())?;
    for &net in nets {
        placed.push(survey.behind_place(net))?;
    }
    Ok(placed)
}

/// The nets behind places, cut into so many regions by these, each net behind the number of its turn.
fn regions_of(
    alloc: Global,
    survey: &Survey<'_>,
    round: u32,
    placed: Vec<u64>,
    count: usize,
) -> Result<Vec<Vec<u64>>, AllocError>
    requires some { 0 < count }
    requires routed { AreRouted survey.now.design.now (map net_in placed.items) }
    ensures count { IfOk result (λ regions. length regions.items ≡ count) }
    ensures cut { let all = length placed.items in
        IfOk result (λ regions. AreCutOf (all / count) (all % count) regions.items) }
    ensures keys { IfOk result (λ regions. AreKeysOf survey.now.design.now round regions.items) }
    ensures same { (net : ℕ) → IfOk result
        (λ regions. sum_by (λ r. times net (map net_in r.items)) regions.items ≡ times net (map net_in placed.items)) }
{
    let each = placed.len() / count;
    let more = placed.len() % count;
    let mut left = placed;
    let mut regions = Vec::with_capacity(alloc, count)?;
    for region in 0..count {
        let size = size_of(each, more, region);
        let (others, keys) = put_apart(alloc, survey, round, left, size)?;
        regions.push(keys)?;
        left = others;
    }
    Ok(regions)
}

/// How many nets a region has, where each has so many and the first ones one more.
fn size_of(each: usize, more: usize, region: usize) -> usize
    requires { size_of each more region < 2 ^ 64 }
    ensures { result ≡ size_of each more region }
{
    if region < more { each + 1 } else { each }
}

/// The nets but so many, those behind the greatest places, and these, each behind the number of its turn.
/// To part them takes less than to sort them.
fn put_apart(
    alloc: Global,
    survey: &Survey<'_>,
    round: u32,
    placed: Vec<u64>,
    size: usize,
) -> Result<(Vec<u64>, Vec<u64>), AllocError>
    requires enough { size ≤ length placed.items }
    requires routed { AreRouted survey.now.design.now (map net_in placed.items) }
    ensures parts { IfOk result (λ parts. ArePartsOf size placed.items parts.0.items parts.1.items) }
    ensures keys { IfOk result (λ parts. All (IsKey survey.now.design.now round) parts.1.items) }
    ensures routed { IfOk result (λ parts. AreRouted survey.now.design.now (map net_in parts.0.items)) }
{
    let mut placed = placed;
    if size == 0 {
        return Ok((placed, Vec::new(alloc)));
    }
    let kept = placed.len() - size;
    let (others, first, behind) = placed.select_nth_unstable(kept);
    let keys = behind_turns(alloc, survey, round, *first, behind)?;
    let others = Vec::from_slice(alloc, others)?;
    Ok((others, keys))
}

/// The nets that stand behind places, each behind the number of its turn.
fn behind_turns(
    alloc: Global,
    survey: &Survey<'_>,
    round: u32,
    first: u64,
    others: &[u64],
) -> Result<Vec<u64>, AllocError>
    requires { AreRouted survey.now.design.now (map net_in (first ∷ others.now)) }
    ensures nets { IfOk result (λ keys. map net_in keys.items ≡ map net_in (first ∷ others.now)) }
    ensures keys { IfOk result (λ keys. All (IsKey survey.now.design.now round) keys.items) }
{
    let mut keys = Vec::with_capacity(alloc, others.len() + 1)?;
    keys.push(survey.behind_turn(round, net_in(first)))?;
    for &both in others {
        keys.push(survey.behind_turn(round, net_in(both)))?;
    }
    Ok(keys)
}

/// The net that stands behind a number.
fn net_in(both: u64) -> u32
    ensures { result ≡ net_in both }
{
    (both % NUMBERS) as u32
}

/// Puts the numbers of each region in order, by at most so many threads.
fn sort_each<R: Threads + Sync>(rt: &R, threads: usize, regions: &mut Vec<Vec<u64>>)
    requires { 0 < threads }
    ensures count { length regions.new.items ≡ length regions.old.items }
    ensures each { (at : ℕ) (d : _) → at < length regions.old.items →
        IsSortOf (slice_index_or regions.old.items at d).items (slice_index_or regions.new.items at d).items }
{
    for_each_beside(
        rt,
        regions.as_mut_slice(),
        threads,
        &|_, region: &mut Vec<u64>|
            ensures { IsSortOf region.entry.now.items region.exit.now.items }
        {
            region.sort_unstable();
        },
    );
}

/// The nets behind numbers, one of each region after the other, where each region has so many and the
/// first ones one more.
fn dealt_out(
    alloc: Global,
    regions: &[Vec<u64>],
    each: usize,
    more: usize,
) -> Result<Vec<u32>, AllocError>
    requires some { more < length regions.now }
    requires cut { AreCutOf each more regions.now }
    ensures { (hand : ℕ) (d : _) → hand < length regions.now → IfOk result (λ order.
        dealt (length regions.now) order.items hand ≡ map net_in (slice_index_or regions.now hand d).items) }
{
    let mut order = Vec::new(alloc);
    for at in 0..each {
        push_each(&mut order, regions, at)?;
    }
    push_each(&mut order, &regions[..more], each)?;
    Ok(order)
}

/// Adds the net at a place of each region.
fn push_each(order: &mut Vec<u32>, regions: &[Vec<u64>], at: usize) -> Result<(), AllocError>
    requires { All (λ r. at < length r.items) regions.now }
    ensures { OnOk result (order.new.items ≡ order.old.items ++ nets_at at regions.now) }
{
    for region in regions {
        order.push(net_in(region[at]))?;
    }
    Ok(())
}
