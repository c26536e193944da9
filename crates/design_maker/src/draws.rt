//! The numbers that are drawn for a design.
ghost use Rattle.std.specs.Prelude.{◌≡◌, ◌<◌, ◌%◌, ◌^◌};
ghost use Rattle.design_maker.specs.Draws.{draw};

/// The draws to come: a linear congruential generator, whose states are numbers below 2^31. Factor,
/// step and the 15 upper bits of a state, of which a draw is made, are those of the example of `rand` in
/// the C standard.
#[derive(Clone, Copy)]
pub(crate) struct Draws {
    pub state: u32,
}

/// How many states there are.
const STATES: u64 = 1 << 31;

/// The next state is so many times the one before, and `STEP` more.
const FACTOR: u64 = 1_103_515_245;

/// What is added from state to state.
const STEP: u64 = 12_345;

impl Draws {
    /// The draws of a seed.
    pub(crate) fn of(seed: u64) -> Draws
        ensures { result.state ≡ seed % 2 ^ 31 }
    {
        Draws {
            state: (seed % STATES) as u32,
        }
    }

    /// Draws one of the numbers below a bound.
    #[tactic(auto, unfolding(crate::specs::Draws::draw))]
    pub(crate) fn draw(&mut self, below: u32) -> u32
        requires { 0 < below }
        ensures drawn { (result, self.new.state) ≡ draw below self.old.state }
        ensures below { result < below }
    {
        self.state = ((u64::from(self.state) * FACTOR + STEP) % STATES) as u32;
        (self.state >> 16) % below
    }
}
