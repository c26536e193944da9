//! The laws, each the clause of a function.
ghost use Rattle.price_laws.specs.Laws.{PaidLaw, PayingLaw, PriceLaw, UnpaidLaw};

/// Does nothing. Its clause is a law: where no set that joins a routed net's pins costs less than the
/// net's bound, wirelength and overflow are at least what the bounds have above the price of what the
/// edges hold.
pub fn prices_bound_routes()
    ensures { PriceLaw }
{}

/// Does nothing. Its clauses are laws: nothing is paid for a net at first, and where numbers that fall
/// from its driver to a pin are taken of what is left along edges, as much is paid.
pub fn paying_raises_the_bound()
    ensures unpaid { UnpaidLaw }
    ensures paying { PayingLaw }
{}

/// Does nothing. Its clause is a law: what is paid for a net is at most the price of each set that joins
/// its pins.
pub fn what_is_paid_is_a_bound()
    ensures { PaidLaw }
{}
