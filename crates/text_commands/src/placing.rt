//! The text of buffers, for which each net is planned and told at once: plans are not kept. More than one
//! worker does so side by side, each with a block of nets.
ghost use Rattle.std.specs.Prelude.{◌≡◌, ℕ, ◌+◌, ◌*◌, ◌^◌, ◌<◌, ◌≤◌, ◌++◌, length, None, IfOk, IfSome, OnOk, All};
ghost use Rattle.gr_base.specs.Grid.{cells_of};
ghost use Rattle.buffer_plan.specs.Nets.{HaveTrees};
ghost use Rattle.buffer_plan.specs.Rules.{AreAllByRule, plans_by};
ghost use Rattle.report_text.specs.BufferTexts.{net_lines};
ghost use Rattle.text_commands.specs.Placing.{buffers_between, IsTold, IsBlock, AreBlocks, IsTextByRule};

use crate::told::Told;
use beside_calls::block_start;
use buffer_plan::{NetPlanner, RoutedNets, net_plan, routed_tree};
use gr_base::NodeIndex;
use gr_text::Text;
use report_text::{Buffered, buffers_of, put_planned};
use std::alloc::{AllocError, Global};
use std::thread::{Threads, for_each_mut};

/// The text of the buffers that a planner places on trees, made by so many workers. The only error is want
/// of memory.
pub(crate) fn text_by<P: NetPlanner + Sync, R: Threads + Sync>(
    rt: &R,
    alloc: Global,
    nets: &RoutedNets<'_>,
    workers: u32,
) -> Result<Text, AllocError>
    requires trees { HaveTrees nets.now }
    requires workers { 0 < workers }
    ensures { IfOk result (IsTextByRule P.rule nets.now.design.now nets.now.library.now nets.now.routes.now) }
{
    let size = nets.design.nets() / workers + 1;
    let mut blocks = no_blocks(alloc, workers)?;
    make_blocks::<P, R>(rt, alloc, nets, size, &mut blocks);
    let mut text = Text::new(alloc);
    let buffers = total::<P>(nets, size, &blocks)?;
    text.put_number_line(b"buffers", buffers)?;
    put_blocks::<P>(&mut text, nets, size, &blocks)?;
    Ok(text)
}

/// Nothing told yet of each of so many blocks.
fn no_blocks(alloc: Global, count: u32) -> Result<Vec<Option<Told>>, AllocError>
    ensures { IfOk result (λ blocks. length blocks.items ≡ count) }
{
    let mut blocks = Vec::with_capacity(alloc, count as usize)?;
    for _ in 0..count {
        blocks.push(None)?;
    }
    Ok(blocks)
}

/// Tells of the blocks side by side, each of so many nets. Of a block for which memory runs out nothing is
/// told.
fn make_blocks<P: NetPlanner + Sync, R: Threads + Sync>(
    rt: &R,
    alloc: Global,
    nets: &RoutedNets<'_>,
    size: u32,
    blocks: &mut Vec<Option<Told>>,
)
    requires trees { HaveTrees nets.now }
    requires some { 0 < length blocks.old.items }
    ensures long { length blocks.new.items ≡ length blocks.old.items }
    ensures made { AreBlocks P.rule nets.now.design.now nets.now.library.now nets.now.routes.now size blocks.new.items }
{
    let threads = blocks.len();
    for_each_mut(
        rt,
        blocks.as_mut_slice(),
        threads,
        &|at, block: &mut Option<Told>|
            requires { HaveTrees nets.now }
            ensures { IsBlock P.rule nets.entry.now.design.now nets.entry.now.library.now nets.entry.now.routes.now size at block.exit.now }
        {
            *block = block_of::<P>(alloc, nets, size, at);
        },
    );
}

/// What is told of a block. None where memory runs out.
fn block_of<P: NetPlanner>(
    alloc: Global,
    nets: &RoutedNets<'_>,
    size: u32,
    at: usize,
) -> Option<Told>
    requires { HaveTrees nets.now }
    ensures { IsBlock P.rule nets.now.design.now nets.now.library.now nets.now.routes.now size at result }
{
    let first = block_start(nets.design.nets(), 0, size, at);
    let last = nets.design.nets().min(first.saturating_add(size));
    match told_of::<P>(alloc, nets, first, last) {
        Ok(told) => Some(told),
        Err(_) => None,
    }
}

/// What is told of the nets from a number on, below another. The only error is want of memory.
fn told_of<P: NetPlanner>(
    alloc: Global,
    nets: &RoutedNets<'_>,
    first: u32,
    last: u32,
) -> Result<Told, AllocError>
    requires trees { HaveTrees nets.now }
    requires first { first ≤ last }
    requires last { last ≤ length nets.now.design.now.nets }
    ensures { IfOk result (IsTold P.rule nets.now.design.now nets.now.library.now nets.now.routes.now first last) }
{
    let mut planner = P::ready(alloc);
    let mut index = NodeIndex::new(alloc, nets.design.frame().shape.cells())?;
    let mut found = Vec::new(alloc);
    let mut told = Told {
        lines: Text::new(alloc),
        buffers: 0,
    };
    for net in first..last {
        tell(
            alloc,
            nets,
            net,
            &mut planner,
            &mut index,
            &mut found,
            &mut told,
        )?;
    }
    Ok(told)
}

/// Tells of one net more, behind those from a number on. The index and `found` are room that is used anew.
fn tell<P: NetPlanner>(
    alloc: Global,
    nets: &RoutedNets<'_>,
    net: u32,
    planner: &mut P,
    index: &mut NodeIndex,
    found: &mut Vec<Buffered>,
    told: &mut Told,
) -> Result<(), AllocError>
    requires trees { HaveTrees nets.now }
    requires net { net < length nets.now.design.now.nets }
    requires index { cells_of nets.now.design.now.frame.shape ≤ length index.old }
    requires few { told.old.buffers ≤ net * 2 ^ 64 }
    ensures told { OnOk result ((first : ℕ) → first ≤ net →
        IsTold P.rule nets.now.design.now nets.now.library.now nets.now.routes.now first net told.old →
        IsTold P.rule nets.now.design.now nets.now.library.now nets.now.routes.now first (net + 1) told.new) }
    ensures index { length index.new ≡ length index.old }
{
    let plan = net_plan(alloc, nets, net, planner, index)?;
    let Some(tree) = routed_tree(nets.design, nets.routes, net) else {
        return Ok(());
    };
    let plan = plan.as_ref();
    told.buffers += u128::from(buffers_of(plan));
    let net = nets.design.net(net);
    put_planned(
        &mut told.lines,
        found,
        nets.design,
        nets.library,
        net,
        tree,
        plan,
    )
}

/// How many buffers the blocks have together. The only error is want of memory as they were made.
fn total<P: NetPlanner>(
    nets: &RoutedNets<'_>,
    size: u32,
    blocks: &[Option<Told>],
) -> Result<u128, AllocError>
    requires few { length nets.now.design.now.nets < 2 ^ 32 }
    requires made { AreBlocks P.rule nets.now.design.now nets.now.library.now nets.now.routes.now size blocks.now }
    requires all { length nets.now.design.now.nets ≤ length blocks.now * size }
    ensures sum { IfOk result (λ sum. sum
        ≡ buffers_between nets.now.design.now (plans_by P.rule nets.now.design.now nets.now.library.now nets.now.routes.now) 0 (length nets.now.design.now.nets)) }
    ensures by_rule { OnOk result (AreAllByRule P.rule nets.now.design.now nets.now.library.now nets.now.routes.now
        (plans_by P.rule nets.now.design.now nets.now.library.now nets.now.routes.now)) }
{
    let mut sum = 0;
    for block in blocks {
        let Some(told) = block else {
            return Err(AllocError);
        };
        sum += told.buffers;
    }
    Ok(sum)
}

/// Puts the lines of the blocks at the end of the text. The only error is want of memory, now or as they
/// were made.
fn put_blocks<P: NetPlanner>(
    text: &mut Text,
    nets: &RoutedNets<'_>,
    size: u32,
    blocks: &[Option<Told>],
) -> Result<(), AllocError>
    requires made { AreBlocks P.rule nets.now.design.now nets.now.library.now nets.now.routes.now size blocks.now }
    requires all { length nets.now.design.now.nets ≤ length blocks.now * size }
    ensures { OnOk result (text.new ≡ text.old
        ++ net_lines nets.now.design.now nets.now.library.now nets.now.routes.now (plans_by P.rule nets.now.design.now nets.now.library.now nets.now.routes.now)
        0 (length nets.now.design.now.nets)) }
{
    for block in blocks {
        let Some(told) = block else {
            return Err(AllocError);
        };
        text.put(told.lines.bytes())?;
    }
    Ok(())
}
