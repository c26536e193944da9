//! The text of panels while it is put together.
use gr_text::Text;

/// What is told of panels: their lines, how many panels have a piece, and how many tracks these have
/// together.
#[derive(Drop)]
pub(crate) struct Told {
    pub lines: Text,
    pub panels: u64,
    pub tracks: u64,
}
