//! Tells what planners' calls, costs and loads give, row by row, as standard input says, or where
//! it gets words, what the line of these words asks for, so that planners can be timed from outside.
//!
//! A line is one of these; each other line is printed as it stands. All but a design are numbers. A
//! line whose numbers name no row prints nothing.
//!
//! - `cost DEMAND CAPACITY NEED MARKS` and `look OVERFLOW GOAL [BEFORE]` print what each rule of cost
//!   gives, and each watch;
//! - `grid COLUMNS ROWS LAYERS`, and the same with `edge .. CELL CELL`, print a grid's numbers and an
//!   edge; `routes .. NETS NET CELL CELL` sets two trees of a net, one after the other;
//! - `tree .. LOW HIGH COST START GOAL CELL` prints a tree of a least walk, where the edge of two
//!   cells has a cost of its own, and whether it holds a cell; `index .. LOW HIGH COST START GOAL
//!   START GOAL CELL ..` looks cells up in two such trees by one index;
//! - `maze .. LOW HIGH COST X X Y Y START GOAL [GOAL]` prints a least walk in a window, `walk COLUMNS
//!   ROWS LOW HIGH COST CELL CELL` a flat walk;
//! - `layers COLUMNS ROWS FACTOR LOW HIGH COST PIN PIN START [CELL PARENT] ..` prints the layers of a
//!   flat tree's edges, and the tree that is raised from it;
//! - `queue [KEY CELL] ..` puts pairs into a queue and prints the keys that it gives;
//! - `topology [COLUMN ROW] ..` prints the topology of these tiles;
//! - `design TEXT` gives the design, of one net, of the rows that follow: `capacity CELL CELL` and
//!   `charge CELL CELL` of an edge, `marks CELL CELL TIMES` of an edge that is charged once and marked so
//!   often, `loads CELL CELL START [CELL PARENT] ..` of an edge and a tree,
//!   `pattern`, `search MARGIN` and `own MARGIN` of the net's pattern plan and its maze plans by the
//!   first formula and by a flat one of the caller's;
//! - `topologies COUNT`, `walks SIDE COUNT` and `mazes SIDE COUNT` plan many nets and print a sum, so
//!   that the work can't be left out.
#![tactic(auto)]

mod costs;
mod designs;
mod draws;
mod grids;
mod layers;
mod loads;
mod mazes;
mod numbers;
mod own_rule;
mod plans;
mod priced;
mod sums;
mod topologies;
mod trees;
mod walks;

use crate::numbers::numbers;
use std::alloc::{AllocError, Global};
use std::env::Env;
use std::{env, io};

/// The words, as a line.
fn words<R: Env + AllocGlobal>(rt: &R) -> io::Result<String> {
    let mut line = String::new(rt.alloc());
    for word in env::args(rt)?.skip(1) {
        line.push_str(word.as_str())?;
        line.push_str(" ")?;
    }
    Ok(line)
}

/// Does what a line asks for, where the design is that of an earlier line.
fn carry_out<R: Print>(rt: &R, alloc: Global, design: &mut String, line: &str) -> io::Result<()> {
    let (command, rest) = line.split_once(' ').unwrap_or((line, ""));
    if command == "design" {
        *design = String::from_str(alloc, rest)?;
        return Ok(());
    }
    let numbers = numbers(alloc, rest)?;
    match command {
        "capacity" | "charge" | "marks" | "loads" | "pattern" | "search" | "own" => {
            designs::tell(rt, alloc, design, command, &numbers)
        }
        "topologies" | "walks" | "mazes" => sums::tell(rt, alloc, command, &numbers),
        _ => tell(rt, alloc, line, command, &numbers),
    }
}

/// Does what a line about neither a design nor a sum asks for.
fn tell<R: Print>(
    rt: &R,
    alloc: Global,
    line: &str,
    command: &str,
    numbers: &[u64],
) -> io::Result<()> {
    match command {
        "cost" | "look" => costs::tell(rt, command, numbers),
        "grid" => grids::tell_grid(rt, numbers),
        "edge" => grids::tell_edge(rt, numbers),
        "routes" => grids::tell_routes(rt, alloc, numbers),
        "tree" => trees::tell_tree(rt, alloc, numbers),
        "index" => trees::tell_index(rt, alloc, numbers),
        "maze" => mazes::tell(rt, alloc, numbers),
        "walk" => walks::tell(rt, alloc, numbers),
        "layers" => layers::tell(rt, alloc, numbers),
        "queue" => mazes::tell_queue(rt, alloc, numbers),
        "topology" => topologies::tell(rt, alloc, numbers),
        _ => println!(rt; "{line}"),
    }
}

fn main(rt: HostRuntime) -> io::Result<()> {
    let mut design = String::new(rt.alloc());
    let line = words(&rt)?;
    if !line.is_empty() {
        return carry_out(&rt, rt.alloc(), &mut design, &line);
    }
    for line in rt.lines(rt.alloc()) {
        carry_out(&rt, rt.alloc(), &mut design, &line?)?;
    }
    Ok(())
}
