//! The lists at a point of a tree.
use ginneken_lists::OptionList;

/// The lists at a point of a tree for the plain and for the inverted signal there. A signal lacks one
/// where no buffers below the point give each sink there what it wants.
#[derive(Debug, Drop)]
pub(crate) struct Sides {
    pub(crate) plain: Option<OptionList>,
    pub(crate) inverse: Option<OptionList>,
}
