//! The text of buffers.
ghost use Rattle.std.specs.Prelude.{◌≡◌, ◌<◌, ◌++◌, All, length, Some, IfOk, IfSome, OnOk};
ghost use Rattle.std.specs.List.{flat_map};
ghost use Rattle.std.specs.Option.{option_copied};
ghost use Rattle.gr_base.specs.Grid.{cells_of};
ghost use Rattle.gr_base.specs.Sums.{sum_routed};
ghost use Rattle.gr_base.specs.Trees.{IsTree};
ghost use Rattle.elmore_delay.specs.PlanLists.{plan_at};
ghost use Rattle.report_text.specs.BufferTexts.{kind_line, placement_text, plan_line, no_legal_line, plan_text, net_buffers, net_lines, buffers_in, buffers_text, IsPlanFor, ArePlanned, AreSomePlanned};
ghost use Rattle.report_text.specs.Placed.{buffered_nodes, rising_buffers};

use elmore_delay::{Placement, Plan, Plans};
use gr_base::{Design, Net, RouteTree, Routes};
use gr_text::Text;
use rc_library::Library;
use solution_text::put_point;
use std::alloc::{AllocError, Global};

/// A buffer: the number of its cell, and the number of its kind.
#[derive(Clone, Copy)]
pub struct Buffered {
    pub cell: u32,
    pub kind: u32,
}

/// The buffers of the routed nets: a line `buffers` with the number of all buffers, and for each
/// routed net, in the design's order, a line with its name, its id, the required time in half
/// femtoseconds and the number of its buffers, and a line for each of these, rising by cell numbers,
/// with the centre of the cell and the name of the kind. The only error is want of memory.
pub fn buffers(
    alloc: Global,
    design: &Design,
    library: &Library,
    routes: &Routes,
    plans: &Plans,
) -> Result<Text, AllocError>
    requires plans { ArePlanned design.now library.now routes.now plans.now }
    ensures { IfOk result (λ text. text ≡ buffers_text design.now library.now routes.now plans.now) }
{
    polar_text(alloc, design, library, routes, plans)
}

/// The buffers of the routed nets, as `buffers` tells them, where some nets may have no plan: such a
/// net has the one line that it has no legal placement. The only error is want of memory.
pub fn polar_text(
    alloc: Global,
    design: &Design,
    library: &Library,
    routes: &Routes,
    plans: &Plans,
) -> Result<Text, AllocError>
    requires plans { AreSomePlanned design.now library.now routes.now plans.now }
    ensures { IfOk result (λ text. text ≡ buffers_text design.now library.now routes.now plans.now) }
{
    let mut text = Text::new(alloc);
    text.put_number_line(b"buffers", total(design, plans))?;
    put_nets(&mut text, alloc, design, library, routes, plans)?;
    Ok(text)
}

/// Puts the lines of all nets at the end of the text.
fn put_nets(
    text: &mut Text,
    alloc: Global,
    design: &Design,
    library: &Library,
    routes: &Routes,
    plans: &Plans,
) -> Result<(), AllocError>
    requires plans { AreSomePlanned design.now library.now routes.now plans.now }
    ensures { OnOk result (text.new ≡ text.old
        ++ net_lines design.now library.now routes.now plans.now 0 (length design.now.nets)) }
{
    let mut found = Vec::new(alloc);
    for net in 0..design.nets() {
        put_net(text, &mut found, design, library, routes, plans, net)?;
    }
    Ok(())
}

/// How many buffers the routed nets have together.
fn total(design: &Design, plans: &Plans) -> u128
    ensures { result ≡ sum_routed design.now (λ net. buffers_in (plan_at plans.now net)) }
{
    let mut sum = 0;
    for net in 0..design.nets() {
        if !design.routed(net) {
            continue;
        }
        sum += u128::from(buffers_of(plans.get(net)));
    }
    sum
}

/// How many buffers a plan has, or 0 where there is none.
pub fn buffers_of(plan: Option<&Plan>) -> u64
    ensures { result ≡ buffers_in (option_copied plan.entry) }
{
    match plan {
        None => 0,
        Some(plan) => plan.placement.buffers(),
    }
}

/// Puts the lines of a net at the end of the text, if the net is routed. `found` is room that is used
/// anew.
fn put_net(
    text: &mut Text,
    found: &mut Vec<Buffered>,
    design: &Design,
    library: &Library,
    routes: &Routes,
    plans: &Plans,
    net: u32,
) -> Result<(), AllocError>
    requires plans { AreSomePlanned design.now library.now routes.now plans.now }
    requires net { net < length design.now.nets }
    ensures { OnOk result (text.new ≡ text.old ++ net_buffers design.now library.now routes.now plans.now net) }
{
    if !design.routed(net) {
        return Ok(());
    }
    let tree = routes.get(net).unwrap();
    let plan = plans.get(net);
    put_planned(text, found, design, library, design.net(net), tree, plan)
}

/// Puts the lines of a net with its tree and plan at the end of the text, or where it has no plan the one
/// line that it has no legal placement. `found` is room that is used anew: what it holds means nothing.
pub fn put_planned(
    text: &mut Text,
    found: &mut Vec<Buffered>,
    design: &Design,
    library: &Library,
    net: &Net,
    tree: &RouteTree,
    plan: Option<&Plan>,
) -> Result<(), AllocError>
    requires { IfSome plan (λ p. IsPlanFor design.now library.now tree.now p.now) }
    ensures { OnOk result (text.new ≡ text.old
        ++ plan_text design.now.frame library.now (Some net.now) (Some tree.now) (option_copied plan.entry)) }
{
    match plan {
        None => put_no_legal_line(text, net),
        Some(plan) => put_plan(text, found, design, library, net, tree, plan),
    }
}

/// Puts the lines of a net with its plan at the end of the text.
fn put_plan(
    text: &mut Text,
    found: &mut Vec<Buffered>,
    design: &Design,
    library: &Library,
    net: &Net,
    tree: &RouteTree,
    plan: &Plan,
) -> Result<(), AllocError>
    requires { IsPlanFor design.now library.now tree.now plan.now }
    ensures { OnOk result (text.new ≡ text.old ++ (plan_line net.now plan.now
        ++ placement_text design.now.frame library.now tree.now plan.now.placement)) }
{
    put_plan_line(text, net, plan)?;
    gather(found, tree, &plan.placement)?;
    put_buffers(text, design, library, found)?;
    Ok(())
}

/// Puts the line of a net without a legal placement at the end of the text.
fn put_no_legal_line(text: &mut Text, net: &Net) -> Result<(), AllocError>
    ensures { OnOk result (text.new ≡ text.old ++ no_legal_line net.now) }
{
    text.put(b"net ")?;
    text.put(net.name.bytes())?;
    text.put(b" ")?;
    text.put_number(net.id)?;
    text.put(b" has no legal placement\n")?;
    Ok(())
}

/// Puts the line of a net with its plan at the end of the text.
fn put_plan_line(text: &mut Text, net: &Net, plan: &Plan) -> Result<(), AllocError>
    ensures { OnOk result (text.new ≡ text.old ++ plan_line net.now plan.now) }
{
    text.put(b"net ")?;
    text.put(net.name.bytes())?;
    text.put(b" ")?;
    text.put_number(net.id)?;
    text.put(b" required ")?;
    text.put_number(plan.required)?;
    text.put(b" buffers ")?;
    text.put_number(plan.placement.buffers())?;
    text.put(b"\n")
}

/// Replaces the list by the buffers of a tree, rising by their cells.
fn gather(
    found: &mut Vec<Buffered>,
    tree: &RouteTree,
    placement: &Placement,
) -> Result<(), AllocError>
    requires { length placement.now ≡ length tree.now.nodes }
    ensures { OnOk result (found.new.items ≡ rising_buffers tree.now placement.now) }
{
    gather_by_nodes(found, tree, placement)?;
    found.sort_unstable_by_key(|buffer| buffer.cell);
    Ok(())
}

/// Replaces the list by the buffers of a tree, in the order of its nodes.
fn gather_by_nodes(
    found: &mut Vec<Buffered>,
    tree: &RouteTree,
    placement: &Placement,
) -> Result<(), AllocError>
    requires { length placement.now ≡ length tree.now.nodes }
    ensures found { OnOk result (found.new.items ≡ buffered_nodes tree.now placement.now) }
    ensures tree { IsTree tree.now }
{
    found.clear();
    for node in 0..tree.len() {
        let Some(kind) = placement.at(node) else {
            continue;
        };
        found.push(Buffered {
            cell: tree.cell(node),
            kind,
        })?;
    }
    Ok(())
}

/// Puts the lines of buffers at the end of the text.
fn put_buffers(
    text: &mut Text,
    design: &Design,
    library: &Library,
    buffers: &[Buffered],
) -> Result<(), AllocError>
    requires cells { All (λ buffer. buffer.cell < cells_of design.now.frame.shape) buffers.now }
    requires kinds { All (λ buffer. buffer.kind < length library.now.kinds) buffers.now }
    ensures { OnOk result (text.new ≡ text.old ++
        flat_map (λ buffer. kind_line design.now.frame library.now buffer.cell (Some buffer.kind)) buffers.now) }
{
    for buffer in buffers {
        put_buffer(text, design, library, *buffer)?;
    }
    Ok(())
}

/// Puts the line of a buffer at the end of the text.
fn put_buffer(
    text: &mut Text,
    design: &Design,
    library: &Library,
    buffer: Buffered,
) -> Result<(), AllocError>
    requires cell { buffer.cell < cells_of design.now.frame.shape }
    requires kind { buffer.kind < length library.now.kinds }
    ensures { OnOk result
        (text.new ≡ text.old ++ kind_line design.now.frame library.now buffer.cell (Some buffer.kind)) }
{
    put_point(text, design.centre(buffer.cell))?;
    text.put(b" ")?;
    text.put(library.name(buffer.kind).bytes())?;
    text.put(b"\n")
}
