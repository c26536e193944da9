//! The laws, each the clause of a function.
ghost use Rattle.wall_laws.specs.Laws.{OverflowLaw, UsableWirelengthLaw, WirelengthLaw};

/// Does nothing. Its clause is a law: where each routed net's edge set joins its pins, the total
/// overflow is at least the excess of any walls of which no two share an edge.
pub fn overflow_is_at_least()
    ensures { OverflowLaw }
{}

/// Does nothing. Its clause is a law: where each routed net's edge set joins its pins, the
/// wirelength is at least what their boxes, tiles and layers ask for.
pub fn wirelength_is_at_least()
    ensures { WirelengthLaw }
{}

/// Does nothing. Its clause is a law: where these sets have usable edges alone, the wirelength is
/// at least that with the vias that unusable ways force.
pub fn usable_wirelength_is_at_least()
    ensures { UsableWirelengthLaw }
{}
