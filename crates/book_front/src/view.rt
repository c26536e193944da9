//! What seats know. No value of these types is made.
use book_state::Entry;
use std::collections::LinkedList;

/// What a pass knew when it ended: its number, the history that it had seen, and its own entries.
pub struct Ended {
    pub number: u32,
    pub seen: LinkedList<Entry>,
    pub mine: LinkedList<Entry>,
}

/// What a seat knows: whether it has the keeper's role; its number, if it has one; the history that
/// it has seen, its own entries, and what it had seen before it last took the role; with the role,
/// how many numbers were given out, and what ended passes knew.
pub struct View {
    pub keeps: bool,
    pub numbered: bool,
    pub number: u32,
    pub seen: LinkedList<Entry>,
    pub mine: LinkedList<Entry>,
    pub old: LinkedList<Entry>,
    pub made: u32,
    pub ended: LinkedList<Ended>,
}
