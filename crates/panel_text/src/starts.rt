//! The runs of all nets by the cells in which they begin.

/// A run that begins in a cell: its net, the cell in which it ends, and the number of the next of those
/// that begin there.
#[derive(Clone, Copy)]
pub(crate) struct Start {
    pub net: u32,
    pub to: u32,
    pub next: Option<u32>,
}

/// Runs that go one way, in chains by the cells in which they begin. The run that came last is the first
/// of its chain.
#[derive(Drop)]
pub(crate) struct Starts {
    /// By cell, the number of the first run.
    pub firsts: Vec<Option<u32>>,
    pub runs: Vec<Start>,
}
