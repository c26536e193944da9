//! What commands that route keep.

use run_histories::HandLog;
use track_book::ClosedBook;

/// The book of a command's rounds, once its routes are made.
#[derive(Debug, Drop)]
pub struct Kept {
    pub book: ClosedBook,
    /// Which entries of the book's history are whose: the marks are those of number 0, the claims and
    /// releases those of the workers, from number 1, and in batches all of number 1.
    pub hands: Vec<HandLog>,
}
