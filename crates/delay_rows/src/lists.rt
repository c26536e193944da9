//! Lists of choices of buffers, made step by step.
ghost use Rattle.std.specs.Prelude.{◌≡◌, List, All, IsTrue, IfOk};
ghost use Rattle.ginneken_lists.specs.Candidates.{Chosen};
ghost use Rattle.ginneken_lists.specs.Pairs.{AreMarked, IsInRange};

use ginneken_lists::{ListPool, OptionList, Pair, Steps, Trail};
use gr_text::Text;
use rc_library::{Library, MOST_CAPACITANCE, MOST_RESISTANCE, Wire};
use std::alloc::{AllocError, Global};
use std::marker::Brand;
use std::sync::ledger::{Blank, Ledger};

/// No list of a row has a greater load or, either way, a greater time.
const MOST_LOAD: u64 = 1_000_000_000;

const MOST_TIME: i128 = 1_000_000_000;

/// A line with the list after each step. What is no step, or out of range, changes nothing.
pub(crate) fn told(alloc: Global, library: &Library, words: &str) -> Result<Text, AllocError> {
    // A call at which a ledger is picked can't pass a `&str`.
    let words = String::from_str(alloc, words)?;
    told_by::<Brand>(alloc, library, &words, Blank::new(1))
}

fn told_by<L: Ledger>(
    alloc: Global,
    library: &Library,
    words: &String,
    blank: Blank,
) -> Result<Text, AllocError>
    requires name { blank.name ≡ L.name }
    requires parts { blank.parts ≡ L.parts }
    requires one { blank.parts ≡ 1 }
{
    let mut steps = Steps::<L>::new(blank);
    let mut told = Text::new(alloc);
    let mut trail = Trail::new(alloc);
    let mut pool = ListPool::new(alloc);
    let mut list = OptionList::leaf(alloc, 0, None, &mut pool)?;
    for step in words.split(" / ") {
        list = after(
            alloc, library, step, list, &mut trail, &mut pool, &mut steps,
        )?;
        put_list(&mut told, &list, &mut steps)?;
    }
    Ok(told)
}

/// The list after a step.
fn after<L: Ledger>(
    alloc: Global,
    library: &Library,
    step: &str,
    list: OptionList,
    trail: &mut Trail,
    pool: &mut ListPool,
    steps: &mut Steps<L>,
) -> Result<OptionList, AllocError>
    requires marks { AreMarked trail.old list }
    ensures marks { IfOk result (AreMarked trail.new) }
{
    let (name, rest) = step.split_once(' ').unwrap_or((step, ""));
    match name {
        "leaf" => leaf(alloc, rest, pool),
        "wire" => Ok(wired(list, rest, steps)),
        "offer" => offered(library, list, trail, pool, steps),
        "merge" => merged(alloc, list, rest, trail, pool, steps),
        _ => Ok(list),
    }
}

/// The list of a leaf with this load and time.
fn leaf(alloc: Global, words: &str, pool: &mut ListPool) -> Result<OptionList, AllocError>
    ensures marks { IfOk result (λ list. (trail : List Chosen) → AreMarked trail list) }
{
    let (load, time) = words.split_once(' ').unwrap_or((words, ""));
    let load = load.parse::<u32>().unwrap_or(0);
    let time = time.parse::<i32>().unwrap_or(0);
    OptionList::leaf(alloc, u64::from(load), Some(i128::from(time)), pool)
}

/// The list at the upper end of an edge of this resistance and capacitance.
fn wired<L: Ledger>(mut list: OptionList, words: &str, steps: &mut Steps<L>) -> OptionList
    ensures marks { (trail : List Chosen) → AreMarked trail list → AreMarked trail result }
{
    let (r, c) = words.split_once(' ').unwrap_or((words, ""));
    let r = r.parse::<u32>().unwrap_or(0);
    let c = c.parse::<u32>().unwrap_or(0);
    if r <= MOST_RESISTANCE && c <= MOST_CAPACITANCE && are_low(&list, steps) {
        list.wire(Wire { r, c }, steps);
    }
    list
}

/// The list with an offer of each of the library's kinds at node 1.
fn offered<L: Ledger>(
    library: &Library,
    mut list: OptionList,
    trail: &mut Trail,
    pool: &mut ListPool,
    steps: &mut Steps<L>,
) -> Result<OptionList, AllocError>
    requires marks { AreMarked trail.old list }
    ensures marks { IfOk result (AreMarked trail.new) }
{
    if are_low(&list, steps) {
        list.offer(1, library, trail, pool, steps)?;
    }
    Ok(list)
}

/// The list where it meets that of a leaf with this load and time.
fn merged<L: Ledger>(
    alloc: Global,
    list: OptionList,
    words: &str,
    trail: &mut Trail,
    pool: &mut ListPool,
    steps: &mut Steps<L>,
) -> Result<OptionList, AllocError>
    requires marks { AreMarked trail.old list }
    ensures marks { IfOk result (AreMarked trail.new) }
{
    let other = leaf(alloc, words, pool)?;
    if !are_low(&list, steps) || !are_low(&other, steps) {
        return Ok(list);
    }
    OptionList::merge(alloc, list, other, trail, pool, steps)
}

/// Whether loads and times are low.
fn are_low<L: Ledger>(list: &OptionList, steps: &mut Steps<L>) -> bool
    ensures { IsTrue result → All IsInRange list.now }
{
    for at in 0..list.len() {
        if !is_low(list.pair(at, steps)) {
            return false;
        }
    }
    true
}

/// Whether the load and the time are low.
fn is_low(pair: Pair) -> bool
    ensures { IsTrue result → IsInRange pair }
{
    let Some(time) = pair.time else {
        return pair.load <= MOST_LOAD;
    };
    pair.load <= MOST_LOAD && -MOST_TIME <= time && time <= MOST_TIME
}

/// Puts a line with the loads and times of a list at the end of the text.
fn put_list<L: Ledger>(
    told: &mut Text,
    list: &OptionList,
    steps: &mut Steps<L>,
) -> Result<(), AllocError> {
    for at in 0..list.len() {
        if at > 0 {
            told.put(b", ")?;
        }
        put_pair(told, list.pair(at, steps))?;
    }
    told.put(b"\n")
}

fn put_pair(told: &mut Text, pair: Pair) -> Result<(), AllocError> {
    told.put_number(pair.load)?;
    told.put(b" ")?;
    match pair.time {
        None => told.put(b"none"),
        Some(time) => told.put_number(time),
    }
}
