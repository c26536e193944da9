//! Draws the numbers that the sums over many mazes and topologies rest on, the same ones in each run.
ghost use Rattle.std.specs.Prelude.{◌<◌};

/// A linear congruential generator.
#[derive(Drop)]
pub(crate) struct Draws {
    state: u32,
}

impl Draws {
    pub(crate) fn new() -> Self {
        Draws { state: 1 }
    }

    /// A number below `most`.
    pub(crate) fn below(&mut self, most: u32) -> u32
        requires { 0 < most }
        ensures { result < most }
    {
        self.state = self.state.wrapping_mul(1_103_515_245).wrapping_add(12_345);
        self.state / 65_536 % most
    }
}
