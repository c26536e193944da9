//! The law of routing in batches.
ghost use Rattle.router_top.specs.Repeating.{BatchesDecide};

/// Two runs of `route` with the same design, library, rounds, via cost, rule and `--batch`, and any
/// numbers of workers, write the same bytes on out and on err where both end with 0. It is said of runs by
/// what the contract of `run` says of each. The function itself does nothing.
pub fn batches_decide()
    ensures { BatchesDecide }
{}
