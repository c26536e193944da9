//! What is told of the history of a run, entry by entry.
use crate::bench::Left;
use book_state::{BookState, Call, Claim, PlanKind, Reply};
use gr_base::{RouteTree, Way};
use gr_text::Text;
use std::alloc::AllocError;

/// What out gained, as it stands, how the run ended, and the history of its book.
pub(crate) fn put_entries(told: &mut Text, left: &Left) -> Result<(), AllocError> {
    told.put(left.out.bytes())?;
    told.put(b"status ")?;
    told.put_number(left.ended.status)?;
    told.put(b"\n")?;
    if let Some(book) = &left.ended.book {
        put_book(told, book.state())?;
    }
    Ok(())
}

/// The entries of a book, a line for each, and the length of the part up to its first mark of least
/// overflow.
fn put_book(told: &mut Text, book: &BookState) -> Result<(), AllocError> {
    let history = book.history();
    for place in 0..history.len() {
        let entry = history.entry(place);
        told.put_number(entry.number)?;
        put_reply(told, entry.reply)?;
        put_call(told, &entry.call)?;
        told.put(b"\n")?;
    }
    if let Some(chosen) = book.least_mark() {
        told.put(b"chosen ")?;
        told.put_number(chosen)?;
        told.put(b"\n")?;
    }
    Ok(())
}

fn put_reply(told: &mut Text, reply: Reply) -> Result<(), AllocError> {
    match reply {
        Reply::Claimed => told.put(b" claimed"),
        Reply::Taken => told.put(b" taken"),
        Reply::Full { edge, demand } => {
            told.put(b" full ")?;
            told.put_number(edge.low)?;
            told.put(name_of(edge.way))?;
            told.put_number(demand)
        }
        Reply::Released => told.put(b" released"),
        Reply::NotBooked => told.put(b" not-booked"),
        Reply::Marked { overflow } => {
            told.put(b" marked ")?;
            told.put_number(overflow)
        }
    }
}

fn name_of(way: Way) -> &'static [u8] {
    match way {
        Way::East => b" East ",
        Way::North => b" North ",
        Way::Up => b" Up ",
    }
}

fn put_call(told: &mut Text, call: &Call) -> Result<(), AllocError> {
    match call {
        Call::Claim(claim) => put_claim(told, claim),
        Call::Release { net } => {
            told.put(b" release ")?;
            told.put_number(*net)
        }
        Call::Mark => told.put(b" mark"),
    }
}

fn put_claim(told: &mut Text, claim: &Claim) -> Result<(), AllocError> {
    told.put(b" claim ")?;
    told.put_number(claim.net)?;
    told.put(b" front ")?;
    told.put_number(claim.front)?;
    put_kind(told, claim.kind)?;
    put_slack(told, claim.slack)?;
    put_tree(told, &claim.tree)
}

fn put_kind(told: &mut Text, kind: PlanKind) -> Result<(), AllocError> {
    match kind {
        PlanKind::Pattern => told.put(b" pattern"),
        PlanKind::Given => told.put(b" given"),
        PlanKind::Maze { margin } => {
            told.put(b" maze ")?;
            told.put_number(margin)
        }
    }
}

fn put_slack(told: &mut Text, slack: Option<u32>) -> Result<(), AllocError> {
    match slack {
        None => told.put(b" any"),
        Some(slack) => {
            told.put(b" slack ")?;
            told.put_number(slack)
        }
    }
}

/// The cell of each node, and that of its parent.
fn put_tree(told: &mut Text, tree: &RouteTree) -> Result<(), AllocError> {
    told.put(b" tree")?;
    for node in 0..tree.len() {
        told.put(b" ")?;
        told.put_number(tree.cell(node))?;
        told.put(b" ")?;
        told.put_number(tree.cell(tree.parent(node)))?;
    }
    Ok(())
}
