//! Sides of a cell.
use gr_base::Way;

/// Where a neighbour of a cell lies: against a way, or along it.
#[derive(Clone, Copy)]
pub(crate) enum Side {
    Behind(Way),
    Ahead(Way),
}
