//! The plain values that rules of cost work with: what they are told of a net at an edge, and the four formulas.

/// One net at one wire edge.
///
/// The formulas are for sites in range: a demand of at most 2^62, a capacity of at most 1,000,000,
/// a need of at most 2,000, and at most 1,048,576 marks.
#[derive(Clone, Copy, Debug, PartialEq, Eq)]
pub struct Site {
    /// What the other nets take, in units of width.
    pub demand: u64,
    /// What there is, in units of width.
    pub capacity: u64,
    /// What the net would take, in units of width.
    pub need: u64,
    /// How many rounds have ended with the edge over its capacity.
    pub marks: u32,
}

/// How a site becomes a cost.
#[derive(Clone, Copy, Debug, PartialEq, Eq)]
pub enum Formula {
    /// Overflow weighs the same on each edge, and each mark adds 1.
    First,
    /// Overflow weighs more with each mark, after PathFinder's product of present and past congestion.
    Steep,
    /// Overflow alone counts.
    Flat,
    /// Overflow weighs as by the first, and an edge that is nearly full costs more, with its marks.
    Near,
}
