//! What words can ask for, and what each command's ask for.
ghost use Rattle.std.specs.Prelude.{◌≡◌, ◌<◌, ◌≤◌, ℕ, List, Some, length, IfSome};
ghost use Rattle.std.specs.Borrow.{Bor};
ghost use Rattle.std.specs.Option.{option_map};
ghost use Rattle.design_maker.specs.Ranges.{IsMade};
ghost use Rattle.word_reader.specs.Forms.{command_row, most_batch};
ghost use Rattle.word_reader.specs.Kept.{words_seen};
ghost use Rattle.word_reader.specs.Orders.{named, batch_of, options_of, from_of, in_range, made_of, order_as, route_of, rule_of, stop_of, trace_of, trial_of, AreInRange, AsksInRange};
ghost use Rattle.word_reader.specs.declared.form.Command.TheVariants.{Route as Routes, Evaluate as Evaluates, Buffer as Buffers, Make as Makes, Trial as Tries, Panels as Tracks, Bound as Bounds};

use crate::form::{Command, OptionKind};
use crate::numbers::{MOST_DIGITS, number_of_word};
use crate::sorted::Sorted;
use crate::values::{Value, number_of, value_of};
use cost_rules::Formula;
use design_maker::{MOST_MADE_NETS, MOST_SIDE, Made};
use gr_base::{MOST_LAYERS, MOST_ROUNDS};
use gr_text::natural_of;

/// How a design is routed.
#[derive(Clone, Copy, Debug)]
pub struct Options {
    /// The most rounds of rip-up and reroute, from 0 to 64.
    pub rounds: u32,
    /// How many workers route, from 1 to 16; 1 where `--workers` isn't given.
    pub workers: u32,
    /// As how many wire edges a via edge counts in the report, from 0 to 1,000; 1 where `--via-cost`
    /// isn't given.
    pub via_cost: u32,
    /// How many nets are planned over one state of the demand, from 1 to 65,536, where rounds go in
    /// batches; they do where `--batch` is given.
    pub batch: Option<u32>,
    /// The rule of the edges' costs; the first where none is named.
    pub rule: Formula,
    /// When the rounds are to stop early; never where `--stop` isn't given.
    pub stop: Stopping,
    /// Whether what each round did is told, as it is where `--trace` is given.
    pub trace: bool,
}

/// When rounds are to stop early.
#[derive(Clone, Copy, Debug)]
pub enum Stopping {
    Never,
    /// Where a round has not made the total overflow smaller.
    Still,
    /// Where the total overflow is at most this, in units of width.
    Goal { overflow: u64 },
}

/// The rules, in the order of the words that name them.
const EVERY_RULE: [Formula; 4] = [Formula::First, Formula::Steep, Formula::Flat, Formula::Near];

/// What the words ask for, with the names of the texts that it needs.
#[derive(Clone, Copy, Debug)]
pub enum Order<'w> {
    /// `route DESIGN LIBRARY ROUNDS [--workers N] [--via-cost V] [--batch B] [--rule NAME] [--stop V]
    /// [--from SOLUTION] [--trace]` routes the design. The library is that of its wires and buffers.
    /// `--batch` and `--stop` can't be given both.
    Route {
        design: &'w str,
        library: &'w str,
        /// The solution whose routes are begun from, where `--from` is given.
        from: Option<&'w str>,
        options: Options,
    },
    /// `evaluate DESIGN SOLUTION [--via-cost V]` judges a solution of the design.
    Evaluate {
        design: &'w str,
        solution: &'w str,
        /// As how many wire edges a via edge counts, from 0 to 1,000; 1 where `--via-cost` isn't given.
        via_cost: u32,
    },
    /// `buffer DESIGN LIBRARY SOLUTION` places buffers of the library on the routes of a solution of
    /// the design.
    Buffer {
        design: &'w str,
        library: &'w str,
        solution: &'w str,
    },
    /// `make SEED X Y L NETS` writes the text of a made design.
    Make {
        made: Made,
    },
    /// `trial SEED X Y L NETS ROUNDS [--workers N] [--rule NAME] [--trace]` routes a made design.
    Trial {
        made: Made,
        options: Options,
    },
    /// `panels DESIGN SOLUTION` gives the straight runs of a solution of the design their tracks.
    Panels {
        design: &'w str,
        solution: &'w str,
    },
    /// grbound's `DESIGN [--steps K] [--workers N] [--via-cost V]` tells what no solution of the design can be
    /// better in.
    Bound {
        design: &'w str,
        /// As for `evaluate`.
        via_cost: u32,
        /// By how many steps each bound is raised, from 0 to 10,000; 0 where `--steps` isn't given.
        steps: u32,
        /// How many workers raise them, from 1 to 16; 1 where `--workers` isn't given.
        workers: u32,
    },
}

/// What a command asks for by as many positionals as it has, and its options.
pub(crate) fn order_as<'w>(command: Command, sorted: &Sorted<'w>) -> Option<Order<'w>>
    requires { length (words_seen sorted.now).positionals ≡ (command_row command).positionals }
    ensures order { option_map named result ≡ order_as command (words_seen sorted.now) }
    ensures range { IfSome result AsksInRange }
{
    match command {
        Command::Route => route(sorted),
        Command::Evaluate => evaluate(sorted),
        Command::Buffer => Some(buffer(sorted)),
        Command::Make => make(sorted),
        Command::Trial => trial(sorted),
        Command::Panels => Some(panels(sorted)),
        Command::Bound => bound(sorted),
    }
}

#[tactic(auto, unfolding(crate::specs::Orders::route_of))]
fn route<'w>(sorted: &Sorted<'w>) -> Option<Order<'w>>
    requires { 3 ≤ length (words_seen sorted.now).positionals }
    ensures order { option_map named result ≡ order_as Routes (words_seen sorted.now) }
    ensures range { IfSome result AsksInRange }
{
    let from = from_of(sorted)?;
    let options = options_of(sorted, 2)?;
    Some(Order::Route {
        design: sorted.positional(0),
        library: sorted.positional(1),
        from,
        options,
    })
}

/// The name of the solution whose routes are begun from, if there is one.
fn from_of<'w>(sorted: &Sorted<'w>) -> Option<Option<&'w str>>
    ensures { option_map (option_map (λ (name : Bor (List ℕ)). name.now)) result ≡ from_of (words_seen sorted.now) }
{
    match value_of(OptionKind::From, sorted)? {
        Value::Named(name) => Some(Some(name)),
        Value::Absent | Value::Choice(_) | Value::Count(_) | Value::Present => Some(None),
    }
}

/// How a design is routed: ROUNDS is the positional at this place, counted from 0.
#[tactic(auto, unfolding(crate::specs::Orders::options_of))]
fn options_of(sorted: &Sorted, place: usize) -> Option<Options>
    requires { place < length (words_seen sorted.now).positionals }
    ensures options { result ≡ options_of (words_seen sorted.now) place }
    ensures range { IfSome result AreInRange }
{
    let rounds = natural_of(
        sorted.positional(place).as_bytes(),
        MOST_DIGITS,
        MOST_ROUNDS,
    )?;
    let workers = number_of(OptionKind::Workers, sorted)?;
    let via_cost = number_of(OptionKind::ViaCost, sorted)?;
    let batch = batch_of(sorted)?;
    let rule = rule_of(sorted)?;
    let stop = stop_of(sorted)?;
    let trace = trace_of(sorted)?;
    Some(Options {
        rounds,
        workers: workers as u32,
        via_cost: via_cost as u32,
        batch,
        rule,
        stop,
        trace,
    })
}

/// How many nets a batch has, if there are batches.
fn batch_of(sorted: &Sorted) -> Option<Option<u32>>
    ensures batch { result ≡ batch_of (words_seen sorted.now) }
    ensures range { IfSome result (λ batch. IfSome batch (λ nets. (1 ≤ nets) × (nets ≤ most_batch))) }
{
    match value_of(OptionKind::Batch, sorted)? {
        Value::Absent | Value::Choice(_) | Value::Named(_) | Value::Present => Some(None),
        Value::Count(nets) => Some(Some(nets as u32)),
    }
}

/// The rule that is named.
fn rule_of(sorted: &Sorted) -> Option<Formula>
    ensures { result ≡ rule_of (words_seen sorted.now) }
{
    match value_of(OptionKind::Rule, sorted)? {
        Value::Choice(place) => EVERY_RULE.get(place).copied(),
        Value::Absent | Value::Count(_) | Value::Named(_) | Value::Present => None,
    }
}

/// When the rounds are to stop early.
fn stop_of(sorted: &Sorted) -> Option<Stopping>
    ensures { result ≡ stop_of (words_seen sorted.now) }
{
    match value_of(OptionKind::Stop, sorted)? {
        Value::Absent | Value::Named(_) | Value::Present => Some(Stopping::Never),
        Value::Choice(_) => Some(Stopping::Still),
        Value::Count(overflow) => Some(Stopping::Goal { overflow }),
    }
}

/// Whether what each round did is told.
fn trace_of(sorted: &Sorted) -> Option<bool>
    ensures { result ≡ trace_of (words_seen sorted.now) }
{
    match value_of(OptionKind::Trace, sorted)? {
        Value::Present => Some(true),
        Value::Absent | Value::Choice(_) | Value::Count(_) | Value::Named(_) => Some(false),
    }
}

fn evaluate<'w>(sorted: &Sorted<'w>) -> Option<Order<'w>>
    requires { 2 ≤ length (words_seen sorted.now).positionals }
    ensures order { option_map named result ≡ order_as Evaluates (words_seen sorted.now) }
    ensures range { IfSome result AsksInRange }
{
    let via_cost = number_of(OptionKind::ViaCost, sorted)?;
    Some(Order::Evaluate {
        design: sorted.positional(0),
        solution: sorted.positional(1),
        via_cost: via_cost as u32,
    })
}

fn buffer<'w>(sorted: &Sorted<'w>) -> Order<'w>
    requires { 3 ≤ length (words_seen sorted.now).positionals }
    ensures order { Some (named result) ≡ order_as Buffers (words_seen sorted.now) }
    ensures range { AsksInRange result }
{
    Order::Buffer {
        design: sorted.positional(0),
        library: sorted.positional(1),
        solution: sorted.positional(2),
    }
}

fn panels<'w>(sorted: &Sorted<'w>) -> Order<'w>
    requires { 2 ≤ length (words_seen sorted.now).positionals }
    ensures order { Some (named result) ≡ order_as Tracks (words_seen sorted.now) }
    ensures range { AsksInRange result }
{
    Order::Panels {
        design: sorted.positional(0),
        solution: sorted.positional(1),
    }
}

#[tactic(auto, unfolding(crate::specs::Orders::bound_of))]
fn bound<'w>(sorted: &Sorted<'w>) -> Option<Order<'w>>
    requires { 1 ≤ length (words_seen sorted.now).positionals }
    ensures order { option_map named result ≡ order_as Bounds (words_seen sorted.now) }
    ensures range { IfSome result AsksInRange }
{
    let via_cost = number_of(OptionKind::ViaCost, sorted)?;
    let steps = number_of(OptionKind::Steps, sorted)?;
    let workers = number_of(OptionKind::Workers, sorted)?;
    Some(Order::Bound {
        design: sorted.positional(0),
        via_cost: via_cost as u32,
        steps: steps as u32,
        workers: workers as u32,
    })
}

fn make<'w>(sorted: &Sorted<'w>) -> Option<Order<'w>>
    requires { 5 ≤ length (words_seen sorted.now).positionals }
    ensures order { option_map named result ≡ order_as Makes (words_seen sorted.now) }
    ensures range { IfSome result AsksInRange }
{
    let made = made_of(sorted)?;
    Some(Order::Make { made })
}

#[tactic(auto, unfolding(crate::specs::Orders::trial_of))]
fn trial<'w>(sorted: &Sorted<'w>) -> Option<Order<'w>>
    requires { 6 ≤ length (words_seen sorted.now).positionals }
    ensures order { option_map named result ≡ order_as Tries (words_seen sorted.now) }
    ensures range { IfSome result AsksInRange }
{
    let made = made_of(sorted)?;
    let options = options_of(sorted, 5)?;
    Some(Order::Trial { made, options })
}

/// What a design is made of.
#[tactic(auto, unfolding(crate::specs::Orders::made_of))]
fn made_of(sorted: &Sorted) -> Option<Made>
    requires { 5 ≤ length (words_seen sorted.now).positionals }
    ensures made { result ≡ made_of (words_seen sorted.now) }
    ensures range { IfSome result IsMade }
{
    let seed = number_of_word(sorted.positional(0))?;
    let columns = natural_of(sorted.positional(1).as_bytes(), MOST_DIGITS, MOST_SIDE)?;
    let rows = natural_of(sorted.positional(2).as_bytes(), MOST_DIGITS, MOST_SIDE)?;
    let layers = natural_of(sorted.positional(3).as_bytes(), MOST_DIGITS, MOST_LAYERS)?;
    let nets = natural_of(sorted.positional(4).as_bytes(), MOST_DIGITS, MOST_MADE_NETS)?;
    in_range(Made {
        seed,
        columns,
        rows,
        layers,
        nets,
    })
}

fn in_range(made: Made) -> Option<Made>
    ensures made { result ≡ in_range made }
    ensures range { IfSome result IsMade }
{
    if made.is_in_range() { Some(made) } else { None }
}
