//! The tree and the straight runs of a net's edges.
ghost use Rattle.std.specs.Prelude.{◌≡◌, length, IsTrue, IfSome};
ghost use Rattle.gr_base.specs.Designs.{is_routed};
ghost use Rattle.route_reader.specs.Solutions.{IsOf};

use crate::given::shelf_of;
use crate::tellings::put_error;
use gr_base::{Design, RouteTree};
use gr_io::Slot;
use gr_text::Text;
use ispd_reader::read_design;
use route_evaluator::{straight, tree_of};
use route_reader::{Solution, read_solution};
use std::alloc::{AllocError, Global};

/// What is told of the edges of a net.
#[derive(Clone, Copy)]
pub(crate) enum Asked {
    Tree,
    Runs,
}

/// One net on a grid of three by two tiles on two layers.
const DESIGN: &str = "grid 3 2 2\nvertical capacity 0 4\nhorizontal capacity 4 0\n\
    minimum width 1 1\nminimum spacing 1 1\nvia spacing 1 1\n0 0 10 10\n\
    num net 1\na 0 2 1\n5 5 1\n25 15 1\n";

/// Puts what is asked of the net's edges, which a text of routes says.
pub(crate) fn put_edges(
    alloc: Global,
    asked: Asked,
    route: &str,
    told: &mut Text,
) -> Result<(), AllocError> {
    match design(alloc) {
        Some(design) => put_edges_in(alloc, &design, asked, route, told),
        None => told.put(b"no design\n"),
    }
}

fn put_edges_in(
    alloc: Global,
    design: &Design,
    asked: Asked,
    route: &str,
    told: &mut Text,
) -> Result<(), AllocError>
    requires one { length design.now.nets ≡ 1 }
    requires routed { IsTrue (is_routed design.now 0) }
{
    let Some(solution) = solution(alloc, design, route) else {
        return told.put(b"no solution\n");
    };
    match asked {
        Asked::Tree => put_tree(alloc, design, &solution, told),
        Asked::Runs => put_runs(alloc, design, &solution, told),
    }
}

/// The design, which has one net, and that routed.
fn design(alloc: Global) -> Option<Design>
    ensures one { IfSome result (λ design. length design.nets ≡ 1) }
    ensures routed { IfSome result (λ design. IsTrue (is_routed design 0)) }
{
    let mut shelf = shelf_of(alloc, Slot::Design, DESIGN.as_bytes(), 1_000)?;
    let design = read_design(alloc, &mut shelf).ok()?;
    if design.nets() == 1 && design.routed(0) {
        Some(design)
    } else {
        None
    }
}

/// The solution of a design that a text says.
fn solution(alloc: Global, design: &Design, route: &str) -> Option<Solution>
    ensures { IfSome result (IsOf design.now) }
{
    let mut shelf = shelf_of(alloc, Slot::Solution, route.as_bytes(), 1_000)?;
    read_solution(alloc, &mut shelf, design).ok()
}

/// Puts the nodes of the tree of the net's edges, or why they are none.
fn put_tree(
    alloc: Global,
    design: &Design,
    solution: &Solution,
    told: &mut Text,
) -> Result<(), AllocError>
    requires of { IsOf design.now solution.now }
    requires routed { IsTrue (is_routed design.now 0) }
{
    match tree_of(alloc, design, solution, 0) {
        Ok(tree) => put_nodes(&tree, told),
        Err(error) => put_error(alloc, &error, told),
    }
}

/// A line for each node of a tree: its number, its cell, and its parent's number.
fn put_nodes(tree: &RouteTree, told: &mut Text) -> Result<(), AllocError> {
    for node in 0..tree.len() {
        told.put_number(node)?;
        put_pair(b" at ", tree.cell(node), b" from ", tree.parent(node), told)?;
    }
    Ok(())
}

/// A line for each straight run of the net's edges: the cells in which it begins and ends.
fn put_runs(
    alloc: Global,
    design: &Design,
    solution: &Solution,
    told: &mut Text,
) -> Result<(), AllocError>
    requires of { IsOf design.now solution.now }
    requires one { length design.now.nets ≡ 1 }
{
    let straight = straight(alloc, design, solution, 0)?;
    for run in straight.runs() {
        put_pair(b"from ", run.from, b" to ", run.to, told)?;
    }
    Ok(())
}

/// Puts two numbers behind their words, and ends the line.
fn put_pair(
    first_word: &[u8],
    first: u32,
    second_word: &[u8],
    second: u32,
    told: &mut Text,
) -> Result<(), AllocError> {
    told.put(first_word)?;
    told.put_number(first)?;
    told.put(second_word)?;
    told.put_number(second)?;
    told.put(b"\n")
}
