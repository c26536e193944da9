//! Choices of buffers.

/// What is chosen below a point of a tree: no buffer; a buffer of a kind at a node, and what a mark
/// names below it; or what two marks name on two branches.
#[derive(Clone, Copy, Debug, PartialEq, Eq)]
pub enum Choice {
    Empty,
    Buffer { node: u32, kind: u32, below: u64 },
    Both { left: u64, right: u64 },
}
