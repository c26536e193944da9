//! What a caller was told.
use book_state::{History, Reply};
use std::alloc::{AllocError, Global};
use track_book::{BookName, Pass};

/// A pass, the replies to its calls, whether it had seen more after each call than before, and whether
/// each replica that followed stood for as much as the pass had seen.
#[derive(Drop)]
pub(crate) struct Heard<N: BookName> {
    pub(crate) pass: Pass<N>,
    pub(crate) replies: Vec<Reply>,
    pub(crate) grew: bool,
    pub(crate) followed: bool,
    known: u64,
}

impl<N: BookName> Heard<N> {
    pub(crate) fn new(alloc: Global, pass: Pass<N>) -> Heard<N> {
        let known = pass.known();
        Heard {
            pass,
            replies: Vec::new(alloc),
            grew: true,
            followed: true,
            known,
        }
    }

    /// Keeps the reply to the pass's last call.
    pub(crate) fn hear(&mut self, reply: Reply) -> Result<(), AllocError> {
        let known = self.pass.known();
        self.grew = self.grew && self.known < known;
        self.known = known;
        self.replies.push(reply)?;
        Ok(())
    }

    /// Keeps whether a replica that followed stands for as much as the pass has seen by now.
    pub(crate) fn follow(&mut self, stands: bool) {
        self.followed = self.followed && stands;
        self.known = self.pass.known();
    }
}

/// Whether these are the replies in the entries of a number, in order.
pub(crate) fn are_told(history: &History, number: u32, replies: &[Reply]) -> bool {
    let mut next = 0;
    for at in 0..history.len() {
        let entry = history.entry(at);
        if entry.number != number {
            continue;
        }
        if next == replies.len() || replies[next] != entry.reply {
            return false;
        }
        next += 1;
    }
    next == replies.len()
}
