//! Threads with a pass each.
ghost use Rattle.std.specs.Prelude.{◌≡◌, ◌≤◌};
ghost use Rattle.book_state.specs.Books.{IsLegal};
ghost use Rattle.grid_demand.specs.Tables.{capacity_of};
ghost use Rattle.book_rows.specs.Rows.{AreOfRow};

use crate::calls::reply_to;
use crate::claims::make_claims;
use crate::closing::closed;
use crate::games::{Game, Task};
use crate::heard::{Heard, are_told};
use crate::replay::is_replayed;
use book_state::{History, Replica, Reply};
use gr_base::{Design, RouteTree};
use std::alloc::{AllocError, Global};
use std::io;
use std::marker::Brand;
use std::sync::Wait;
use std::thread::{Threads, map_vec};
use track_book::{Blank, BookName, Pass, TrackBook};

/// Starts the threads. Of a game it prints what holds of the calls in whatever order they come, and of
/// claims that are timed how many entries the book has in the end.
pub(crate) fn run<R: Threads + Wait + Print + Sync>(
    rt: &R,
    alloc: Global,
    design: &Design,
    tree: &RouteTree,
    task: Task,
) -> io::Result<()>
    requires { AreOfRow (capacity_of design.now) design.now tree.now }
{
    let threads = task.threads();
    if let Task::Play(_) = task {
        println!(rt; "{threads} threads")?;
    }
    let blank = Blank::new(alloc, design, threads)?;
    play::<Brand, R>(rt, alloc, design, tree, blank, task, threads)
}

fn play<N: BookName + Send + Sync, R: Threads + Wait + Print + Sync>(
    rt: &R,
    alloc: Global,
    design: &Design,
    tree: &RouteTree,
    blank: Blank,
    task: Task,
    threads: u32,
) -> io::Result<()>
    requires word { blank.word ≡ N.word }
    requires capacity { blank.capacity ≡ N.capacity }
    requires of_row { AreOfRow N.capacity design.now tree.now }
    requires passes { blank.passes ≡ N.passes }
    requires threads { N.passes ≡ threads }
{
    let (book, passes) = blank.begin::<N>(alloc)?;
    let shared = &book;
    let heard = map_vec(
        rt,
        passes,
        &|pass: Pass<N>| -> Result<Heard<N>, AllocError>
            requires { AreOfRow N.capacity design.now tree.now }
        { called(rt, alloc, shared, pass, design, tree, task) },
    )?;
    match task {
        Task::Play(_) => report(rt, alloc, book, heard, design, threads),
        Task::Time(_) => println!(rt; "{}", entries(&book, heard)?),
    }
}

/// The calls of one thread. Claims that are timed are of the net of its number, around those of the
/// design.
fn called<N: BookName, R: Wait>(
    rt: &R,
    alloc: Global,
    book: &TrackBook<N>,
    pass: Pass<N>,
    design: &Design,
    tree: &RouteTree,
    task: Task,
) -> Result<Heard<N>, AllocError>
    requires { AreOfRow N.capacity design.now tree.now }
{
    let mut heard = Heard::new(alloc, pass);
    match task {
        Task::Play(game) => make(rt, alloc, book, &mut heard, design, tree, game)?,
        Task::Time(claims) => {
            let net = heard.pass.number() % design.nets();
            make_claims(rt, alloc, book, &mut heard.pass, design, tree, net, claims)?;
        }
    }
    Ok(heard)
}

/// The thread follows the book with a new replica after its first call, and again after each 3,000
/// more.
fn make<N: BookName, R: Wait>(
    rt: &R,
    alloc: Global,
    book: &TrackBook<N>,
    heard: &mut Heard<N>,
    design: &Design,
    tree: &RouteTree,
    game: Game,
) -> Result<(), AllocError>
    requires { AreOfRow N.capacity design.now tree.now }
{
    for turn in 0..game.turns() {
        let step = game.step(heard.pass.number(), turn);
        let reply = reply_to(rt, alloc, book, &mut heard.pass, tree, step)?;
        heard.hear(reply)?;
        if turn % 3000 == 0 {
            let stands = is_followed(rt, alloc, book, &mut heard.pass, design)?;
            heard.follow(stands);
        }
    }
    Ok(())
}

/// Whether a new replica stands for as much as the pass has seen.
fn is_followed<N: BookName, R: Wait>(
    rt: &R,
    alloc: Global,
    book: &TrackBook<N>,
    pass: &mut Pass<N>,
    design: &Design,
) -> Result<bool, AllocError>
    requires { capacity_of design.now ≡ N.capacity }
{
    let mut replica = Replica::new(alloc, design)?;
    book.sync(rt, pass, &mut replica)?;
    Ok(replica.front() == pass.known())
}

/// What the threads of a game were told.
#[derive(Drop)]
struct Answers<N: BookName> {
    passes: Vec<Pass<N>>,
    replies: Vec<Vec<Reply>>,
    grew: bool,
    followed: bool,
}

fn answers_of<N: BookName>(
    alloc: Global,
    all: Vec<Result<Heard<N>, AllocError>>,
) -> Result<Answers<N>, AllocError> {
    let mut answers = Answers {
        passes: Vec::new(alloc),
        replies: Vec::new(alloc),
        grew: true,
        followed: true,
    };
    for heard in all {
        let heard = heard?;
        answers.grew = answers.grew && heard.grew;
        answers.followed = answers.followed && heard.followed;
        answers.passes.push(heard.pass)?;
        answers.replies.push(heard.replies)?;
    }
    Ok(answers)
}

/// The passes meet, the book is closed, and its history compared with what the threads were told.
fn report<N: BookName, R: Wait + Print>(
    rt: &R,
    alloc: Global,
    book: TrackBook<N>,
    all: Vec<Result<Heard<N>, AllocError>>,
    design: &Design,
    threads: u32,
) -> io::Result<()>
    requires design { capacity_of design.now ≡ N.capacity }
    requires threads { N.passes ≡ threads }
{
    let Answers {
        mut passes,
        replies,
        grew,
        followed,
    } = answers_of(alloc, all)?;
    println!(rt; "each call is seen by its caller: {grew}")?;
    println!(rt; "each replica follows its pass: {followed}")?;
    let known = met(rt, &book, &mut passes);
    println!(rt; "the last pass meets the others: known {known}")?;
    let closed = closed(book, passes, threads)?;
    tell(rt, alloc, closed.state().history(), &replies, design)
}

/// Prints whether the threads were told the replies of the history, and whether a book for one thread
/// gives them.
fn tell<R: Print>(
    rt: &R,
    alloc: Global,
    history: &History,
    replies: &[Vec<Reply>],
    design: &Design,
) -> io::Result<()>
    requires { IsLegal (capacity_of design.now) history.now }
{
    println!(rt;
        "closed: {} entries, replies as told: {}",
        history.len(),
        are_all_told(history, replies)
    )?;
    let again = is_replayed(alloc, design, history)?;
    println!(rt; "replies of a book for one thread: {again}")
}

/// Whether each caller was told the replies in the entries of its number.
fn are_all_told(history: &History, replies: &[Vec<Reply>]) -> bool {
    let mut number = 0;
    for told in replies {
        if !are_told(history, number, told) {
            return false;
        }
        number = number.saturating_add(1);
    }
    true
}

/// How much the last pass knows once it has met the others.
fn met<N: BookName, R: Wait>(rt: &R, book: &TrackBook<N>, passes: &mut [Pass<N>]) -> u64 {
    let Some((last, others)) = passes.split_last_mut() else {
        return 0;
    };
    for pass in others {
        book.meet(rt, last, pass);
    }
    last.known()
}

/// How many entries the book has.
fn entries<N: BookName>(
    book: &TrackBook<N>,
    all: Vec<Result<Heard<N>, AllocError>>,
) -> Result<u64, AllocError> {
    let mut entries = 0;
    for heard in all {
        let mut heard = heard?;
        entries = book.front(&mut heard.pass);
    }
    Ok(entries)
}
