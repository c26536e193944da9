//! The limits of designs and of orders, as the specs state them.

/// The most layers of a grid.
pub const MOST_LAYERS: u32 = 16;

/// The most cells of a grid: columns times rows times layers.
pub const MOST_CELLS: u32 = 8_388_608;

/// The most nets of a design.
pub const MOST_NETS: u32 = 4_194_304;

/// The most pins of a design's nets together.
pub const MOST_PINS: u32 = 16_777_216;

/// The most pins of a net that is routed. A net of more pins is read, and neither routed nor judged.
pub const MOST_ROUTED_PINS: u32 = 1_000;

/// The most adjustments of a design.
pub const MOST_ADJUSTMENTS: u32 = 16_777_216;

/// The greatest id of a net, and the greatest number that a text may write for a column, a row or a
/// layer.
pub const MOST_ID: u32 = 2_147_483_647;

/// The greatest capacity, in units of width.
pub const MOST_CAPACITY: u32 = 1_000_000;

/// The greatest width, and the greatest spacing.
pub const MOST_WIDTH: u32 = 1_000;

/// The greatest width and height of a tile.
pub const MOST_TILE: u32 = 1_000_000;

/// The greatest coordinate of the chip's lower left corner; the least is its negative.
pub const MOST_LOWER: i64 = 1 << 40;

/// The greatest coordinate of anything else; the least is its negative.
pub const MOST_COORDINATE: i64 = 1 << 44;

/// The most bytes of a text.
pub const MOST_BYTES: u64 = 2_147_483_648;

/// The most marks of an edge.
pub const MOST_MARKS: u32 = 1_048_576;

/// The most rounds of rip-up and reroute that may be asked for.
pub const MOST_ROUNDS: u32 = 64;

/// The most workers that may be asked for.
pub const MOST_WORKERS: u32 = 16;
