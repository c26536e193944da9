//! Rows of tiles.
ghost use Rattle.book_rows.specs.Rows.{IsRow};

/// So many tiles beside each other on one layer, and so many nets from the first tile to the last.
/// Between two tiles there is so much room for wires, of which a net takes 2.
#[derive(Clone, Copy)]
pub(crate) struct Row {
    pub(crate) tiles: u32,
    pub(crate) nets: u32,
    pub(crate) room: u32,
    pub(crate) ghost in_range: { IsRow tiles nets room },
}

/// Two tiles with room for one net, and the nets a and b.
pub(crate) const NARROW: Row = Row {
    tiles: 2,
    nets: 2,
    room: 2,
};

/// Twenty tiles with room for many nets, and four nets.
pub(crate) const WIDE: Row = Row {
    tiles: 20,
    nets: 4,
    room: 1000,
};
