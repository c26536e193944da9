//! The public call.
ghost use Rattle.std.specs.Prelude.{◌≡◌, [], None, Some, map, string_bytes, IsTrue};
ghost use Rattle.gr_io.specs.Devices.{device_of, reading_of};
ghost use Rattle.command_form.specs.Ends.{LeavesFor, Ends};
ghost use Rattle.command_form.specs.Statuses.{is_apart, IsApart, IsByStatus};
ghost use Rattle.router_top.specs.Handing.{handed_back};
ghost use Rattle.router_top.specs.Orders.{asked_by};
ghost use Rattle.word_reader.specs.Orders.{named, order_of, AsksInRange};
ghost use Rattle.word_reader.specs.declared.program.Program.TheVariants.{Groute};

use crate::kept::Kept;
use crate::means::Means;
use crate::routing::route;
use crate::trying::trial;
use command_form::{Left, Spent, Stop, finish};
use cost_rules::Rules;
use gr_io::{Shelf, Sink};
use ripup_workers::Gate;
use run_histories::HandLog;
use std::alloc::Global;
use std::sync::Wait;
use std::thread::Threads;
use text_commands::{buffer, judge, make_design, panels};
use track_book::ClosedBook;
use word_reader::{Order, Program, read_words};

/// How a run ended.
#[derive(Debug, Drop)]
pub struct Ended {
    /// The status that the program ends with.
    pub status: u8,
    /// The book of the rounds: of `route` once its report is made, of `trial` once its routes are judged.
    pub book: Option<ClosedBook>,
    /// Which entries of the book's history are whose: the marks are those of number 0, the claims
    /// and releases those of the workers, from number 1, and in batches all of number 1. Empty without a
    /// book.
    pub hands: Vec<HandLog>,
    /// What the run read and made beside the book, and needs no more. To let go of it takes as long as
    /// there are nets and trees, which a program that ends need not wait for.
    spent: Option<Spent>,
}

impl Ended {
    /// Ended with a status, and with what a command left.
    fn of(alloc: Global, status: u8, kept: Option<Kept>, spent: Option<Spent>) -> Ended
        ensures status { result.status ≡ status }
        ensures kept { handed_back result.book result.hands ≡ kept }
        ensures hands { result.book ≡ None → result.hands.items ≡ [] }
    {
        match kept {
            Some(kept) => Ended {
                status,
                book: Some(kept.book),
                hands: kept.hands,
                spent,
            },
            None => Ended {
                status,
                book: None,
                hands: Vec::new(alloc),
                spent,
            },
        }
    }
}

/// Carries out the command that the words give, over these devices.
///
/// `route DESIGN LIBRARY ROUNDS` reads the design of that name and the library of its wires and
/// buffers. It gives each routed net a pattern plan over the loads of the nets before it, by the
/// rule that `--rule` names. Then, in up to ROUNDS rounds (0 to 64), each net on an edge over its
/// capacity is released and rerouted by a maze plan. The rounds end early where `--stop` says so: once
/// one hasn't lowered the total overflow, or once it is at most a number. As many threads as `--workers`
/// says (1 to 16) do it, each over what it has seen of the others' routes. In the first pass each takes
/// the nets that can least go another way first, and in the rounds those that most can. Each passes the
/// gate before it begins with a net, searches a plan, or claims a net, and the end of each round passes
/// it. Where `--batch` says a number of nets, so many are planned over one state and then claimed in the
/// design's order; what is written is then the same for every number of threads. Where `--from` names a
/// solution, it is read after the library, and nets that can be kept begin with the routes that it gives
/// them: routed nets whose edges are a tree, without the edges on no way from the driver to a pin, where
/// the others go in usable directions. Only the other nets get a pattern plan. It writes the routes of the
/// first round of least overflow on out, and on err their report of overflow, wirelength and vias; with
/// `--from` how many nets are kept; with `--trace` what each round did; and each routed net's buffers and
/// required time.
///
/// `evaluate DESIGN SOLUTION` reads a design and any router's solution for it, and writes on out
/// the report, and the routed nets that the solution leaves unjoined. In both reports a via edge
/// counts as many wire edges as `--via-cost` says.
///
/// `buffer DESIGN LIBRARY SOLUTION` reads a design, a library and any router's solution, and writes
/// on out each routed net's buffers and required time. In both texts of buffers no allowed placement
/// gives a net's driver a greater required time; with a library of version 3 those are allowed that give
/// each sink the signal that it wants, and a net may have none.
///
/// `panels DESIGN SOLUTION` reads a design and any router's solution, and writes on out a track for each
/// straight run of it, the fewest in each row and column of tiles.
///
/// `make SEED X Y L NETS` writes the text of a made design on out, and on err how many nets and pins
/// it has. `trial SEED X Y L NETS ROUNDS` routes that design as `route` does, and writes the report
/// of its routes on out, and what each round did with `--trace`. Both leave the shelf as it was.
///
/// Status 0: done. 1: done, and a net is left unjoined. 2: the words give no order. 3: the design's
/// text is at fault. 4: the library's text is at fault. 5: the solution's text is at fault, or, for
/// `buffer`, a routed net's edges aren't a tree. 6: a read failed, or a name is missing. 7: a write
/// failed. 8: out of memory. At 2 to 6 and at 8 a line on err tells it.
pub fn run<R: Threads + Wait + Sync, S: Shelf, O: Sink, E: Sink, G: Gate + Sync>(
    rt: &R,
    alloc: Global,
    words: &[String],
    shelf: &mut S,
    out: &mut O,
    err: &mut E,
    gate: &G,
    rules: &Rules,
) -> Ended
    ensures ends { Ends Groute (asked_by (order_of Groute (map string_bytes words.now)))
        (reading_of S.tells S.held S.faults S.misses shelf.old shelf.new)
        (device_of O.tells O.faults O.written out.old out.new)
        (device_of E.tells E.faults E.written err.old err.new)
        (handed_back result.book result.hands) result.status }
    ensures by_status { IsByStatus Groute (asked_by (order_of Groute (map string_bytes words.now)))
        (reading_of S.tells S.held S.faults S.misses shelf.old shelf.new)
        (device_of O.tells O.faults O.written out.old out.new)
        (device_of E.tells E.faults E.written err.old err.new)
        (handed_back result.book result.hands) result.status }
    ensures apart { IsTrue (is_apart (asked_by (order_of Groute (map string_bytes words.now))))
        → IsApart shelf.old shelf.new result.status }
    ensures hands { result.book ≡ None → result.hands.items ≡ [] }
{
    let means = Means {
        rt,
        alloc,
        gate,
        rules,
    };
    let left = carry_out_words(&means, words, shelf, out, err);
    let status = finish(alloc, Program::Groute, err, left.end);
    Ended::of(alloc, status, left.kept, left.spent)
}

/// Carries out the command that the words give, and tells no stop.
fn carry_out_words<R: Threads + Wait + Sync, S: Shelf, O: Sink, E: Sink, G: Gate + Sync>(
    means: &Means<R, G>,
    words: &[String],
    shelf: &mut S,
    out: &mut O,
    err: &mut E,
) -> Left<Kept>
    ensures leaves { LeavesFor (asked_by (order_of Groute (map string_bytes words.now)))
        (reading_of S.tells S.held S.faults S.misses shelf.old shelf.new)
        (device_of O.tells O.faults O.written out.old out.new)
        (device_of E.tells E.faults E.written err.old err.new)
        result.kept result.end }
    ensures apart { IsTrue (is_apart (asked_by (order_of Groute (map string_bytes words.now))))
        → shelf.new ≡ shelf.old }
{
    match read_words(Program::Groute, words) {
        Ok(order) => carry_out(means, order, shelf, out, err),
        Err(_) => Left::with_nothing(Err(Stop::Usage)),
    }
}

/// Carries out an order.
fn carry_out<R: Threads + Wait + Sync, S: Shelf, O: Sink, E: Sink, G: Gate + Sync>(
    means: &Means<R, G>,
    order: Order,
    shelf: &mut S,
    out: &mut O,
    err: &mut E,
) -> Left<Kept>
    requires { AsksInRange order }
    ensures leaves { LeavesFor (asked_by (Some (named order.entry)))
        (reading_of S.tells S.held S.faults S.misses shelf.old shelf.new)
        (device_of O.tells O.faults O.written out.old out.new)
        (device_of E.tells E.faults E.written err.old err.new)
        result.kept result.end }
    ensures apart { IsTrue (is_apart (asked_by (Some (named order.entry)))) → shelf.new ≡ shelf.old }
{
    let alloc = means.alloc;
    match order {
        Order::Route {
            design,
            library,
            from,
            options,
        } => route(means, shelf, out, err, design, library, from, options),
        Order::Evaluate {
            design,
            solution,
            via_cost,
        } => judge(alloc, shelf, out, design, solution, via_cost),
        Order::Buffer {
            design,
            library,
            solution,
        } => buffer(means.rt, alloc, shelf, out, design, library, solution),
        Order::Make { made } => make_design(alloc, out, err, made),
        Order::Trial { made, options } => trial(means, out, made, options),
        Order::Panels { design, solution } => panels(alloc, shelf, out, design, solution),
        // No word of groute's gives it.
        Order::Bound { .. } => Left::with_nothing(Err(Stop::Usage)),
    }
}
