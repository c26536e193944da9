//! What is told of nets' buffers.
use gr_text::Text;

/// The lines of nets with their buffers, and how many buffers these are.
#[derive(Debug, Drop)]
pub(crate) struct Told {
    pub(crate) lines: Text,
    pub(crate) buffers: u128,
}
