//! The parts of a library.
use gr_base::Name;

/// A step of a wire from tile to tile, or of a via between two layers: its resistance in ohms and
/// its capacitance in femtofarads.
#[derive(Clone, Copy, Debug, PartialEq, Eq)]
pub struct Wire {
    pub r: u32,
    pub c: u32,
}

/// A kind of buffers: its input capacitance in femtofarads, the resistance in ohms with which it
/// drives, and its own delay in femtoseconds.
#[derive(Clone, Copy, Debug, PartialEq, Eq)]
pub struct Kind {
    pub c: u32,
    pub r: u32,
    pub delay: i64,
}

/// A sink: its capacitance in femtofarads, and the time in femtoseconds at which its signal is due.
#[derive(Clone, Copy, Debug, PartialEq, Eq)]
pub struct Sinking {
    pub c: u32,
    pub time: i64,
}

/// A kind of buffers with its name, and whether it inverts the signal.
#[derive(Debug, Drop)]
pub struct NamedKind {
    pub name: Name,
    pub kind: Kind,
    pub inverts: bool,
}
