//! A play: a design, its machine, and the steps that words name.
ghost use Rattle.std.specs.Prelude.{◌≡◌, IfOk, IsTrue};
ghost use Rattle.gr_io.specs.Texts.{is_reached};
ghost use Rattle.world_rows.specs.Plays.{IsPlayed};

use crate::moves::{Table, step};
use crate::tellings::put_end;
use cost_rules::{CostRule, Formula, Watch, Watcher, first_cost, never};
use gr_io::{MemoryShelf, Shelf, Slot};
use gr_text::Text;
use grid_demand::Capacity;
use ispd_reader::read_design;
use net_plan::Planner;
use round_core::World;
use std::alloc::{AllocError, Global};
use std::str::SplitWhitespace;

/// The most workers and rounds of a play.
const MOST_WORKERS: u32 = 16;

const MOST_ROUNDS: u32 = 64;

/// Plays at the design of a text, by the words behind `play`.
pub(crate) fn tell(
    alloc: Global,
    text: &str,
    words: &str,
    told: &mut Text,
) -> Result<(), AllocError> {
    let mut shelf = reached(alloc, text)?;
    let Ok(design) = read_design(alloc, &mut shelf) else {
        return told.put(b"no design\n");
    };
    let mut words = words.split_whitespace();
    let workers = number(words.next()).min(MOST_WORKERS);
    let rounds = number(words.next()).min(MOST_ROUNDS);
    let capacity = Capacity::of(alloc, &design)?;
    let rule = CostRule::new(Formula::First, first_cost);
    let table = Table {
        design: &design,
        capacity: &capacity,
        rule: &rule,
        workers,
    };
    let watcher = Watcher::new(Watch::Never, never);
    let mut world = World::new(alloc, &design, Formula::First, workers, rounds, &watcher, 0)?;
    play(alloc, &table, &mut world, words, told)
}

/// Takes the steps that the words name, and tells of each.
fn play(
    alloc: Global,
    table: &Table<'_>,
    world: &mut World<'_>,
    words: SplitWhitespace<'_>,
    told: &mut Text,
) -> Result<(), AllocError>
    requires { IsPlayed table.now.design.now table.now.workers world.old.setting }
{
    let mut planner = Planner::new(alloc)?;
    let mut rest = words;
    while let Some(word) = rest.next() {
        let worker = if word == "mark" {
            0
        } else {
            number(rest.next())
        };
        let net = if word == "take" {
            number(rest.next())
        } else {
            0
        };
        step(alloc, table, world, &mut planner, word, worker, net, told)?;
    }
    put_end(told, world)
}

/// The number that a word writes, or 0.
fn number(word: Option<&str>) -> u32 {
    word.and_then(|word| word.parse().ok()).unwrap_or(0)
}

/// A shelf on which this text was reached.
fn reached(alloc: Global, text: &str) -> Result<MemoryShelf, AllocError>
    ensures { IfOk result (λ shelf. IsTrue (is_reached shelf Slot.Design)) }
{
    let mut shelf = MemoryShelf::new(alloc, Vec::new(alloc));
    shelf.hold(alloc, "text", text.as_bytes())?;
    let Ok(()) = shelf.reach(alloc, Slot::Design, "text") else {
        return Err(AllocError);
    };
    Ok(shelf)
}
