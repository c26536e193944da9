//! The limits of libraries, as the specs state them.

/// The greatest resistance, in ohms.
pub const MOST_RESISTANCE: u32 = 1_000_000;

/// The greatest capacitance, in femtofarads.
pub const MOST_CAPACITANCE: u32 = 1_000_000;

/// The greatest time, in femtoseconds. The least is its negative.
pub const MOST_TIME: i64 = 1 << 50;

/// The most kinds of buffers.
pub const MOST_KINDS: u32 = 32;
