//! What rounds work with.
ghost use Rattle.std.specs.Prelude.{◌<◌};

use std::alloc::Global;

/// Threads, of which at most so many are at work, memory, and the gate that is passed before each net's plan
/// and behind each mark. None of it changes what comes out.
#[derive(Drop)]
pub(crate) struct Means<'a, R, G> {
    pub(crate) rt: &'a R,
    pub(crate) threads: u32,
    pub(crate) alloc: Global,
    pub(crate) gate: &'a G,
    ghost some: { 0 < threads },
}
