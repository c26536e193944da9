//! The figures that prices prove, and how each is priced.
ghost use Rattle.std.specs.Prelude.{◌≡◌};
ghost use Rattle.price_bounds.specs.Figures.{IsRatesOf};

use net_prices::Rates;

/// What a wire edge costs without a weight, where wirelength counts.
pub(crate) const SCALE: u32 = 4096;

/// What is bounded.
#[derive(Clone, Copy, Debug, PartialEq, Eq)]
pub enum Figure {
    /// Overflow.
    Overflow,
    /// Wirelength along usable edges without overflow.
    Length,
    /// Wirelength and overflow together along usable edges.
    Both,
}

/// How edges are priced for a figure.
pub(crate) fn rates_of(figure: Figure, via_cost: u32) -> Rates
    ensures via_cost { result.via_cost ≡ via_cost }
    ensures rates { IsRatesOf figure result }
{
    match figure {
        Figure::Overflow => Rates {
            scale: 0,
            via_cost,
            usable_only: false,
        },
        Figure::Length | Figure::Both => Rates {
            scale: SCALE,
            via_cost,
            usable_only: true,
        },
    }
}
