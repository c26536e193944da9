//! What a run of `route` with `--from` promises of the routes that it begins from, by what the contract of `run` says
//! of it. The functions themselves do nothing.
ghost use Rattle.given_laws.specs.Laws.{KeptAsGiven, NeverWorse};

/// Where no routed net is open, the overflow that `route --from` reports, where it ends with 0, is at most the total
/// overflow that `evaluate` prints of that solution of that design; and where the two are equal, the greatest
/// overflow, the wirelength and the vias are at most those of `evaluate` too, by the same via cost.
pub fn never_worse()
    ensures { NeverWorse }
{}

/// With ROUNDS 0 the routes that `route --from` writes, where it ends with 0, have for each kept net just the edges of
/// the solution that lie on ways from its driver to its pins.
pub fn kept_as_given()
    ensures { KeptAsGiven }
{}
