//! Division by a number that stays the same.
ghost use Rattle.std.specs.Prelude.{◌≡◌, ◌/◌, ◌<◌, ◌≤◌};
ghost use Rattle.gr_base.specs.Limits.{most_cells};
ghost use Rattle.maze_route.specs.Divisors.{IsFactor};

/// What products are divided by: 2^46.
const WHOLE: u64 = 70_368_744_177_664;

/// A number to divide by, with a factor: a product and a shift take less time than a division.
#[derive(Clone, Copy, Debug)]
pub(crate) struct Divisor {
    pub(crate) by: u32,
    pub(crate) factor: u64,
    pub(crate) ghost exact: { IsFactor by factor },
}

impl Divisor {
    pub(crate) fn new(by: u32) -> Divisor
        requires some { 0 < by }
        requires few { by ≤ most_cells }
        ensures { result.by ≡ by }
    {
        Divisor {
            by,
            factor: (WHOLE + u64::from(by) - 1) / u64::from(by),
        }
    }

    /// A small number divided by this one, rounded down.
    #[inline(always)]
    pub(crate) fn quotient(self, number: u32) -> u32
        requires { number < most_cells }
        ensures { result ≡ number / self.by }
    {
        let product = u128::from(number) * u128::from(self.factor);
        (product / u128::from(WHOLE)) as u32
    }
}
