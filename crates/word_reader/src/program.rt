//! The programs.

/// Whose words are read.
#[derive(Clone, Copy, Debug, PartialEq, Eq)]
pub enum Program {
    /// The first word names a command.
    Groute,
    /// All words are those of one command.
    Grbound,
}
