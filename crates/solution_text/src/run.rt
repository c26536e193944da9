//! The straight segments that readers and writers of solutions hand to each other; they know cells only by number.

/// A straight segment of a net between two cells, by number.
#[derive(Clone, Copy, Debug, PartialEq, Eq)]
pub struct Run {
    pub from: u32,
    pub to: u32,
}
