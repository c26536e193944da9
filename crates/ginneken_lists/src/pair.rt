//! Pairs.

/// A load in femtofarads, a required time in half femtoseconds, and the mark of the buffers with
/// which they are seen. Without a sink there is no time, which counts as greater than all.
#[derive(Clone, Copy, Debug)]
pub struct Pair {
    pub load: u64,
    pub time: Option<i128>,
    pub mark: u64,
}
