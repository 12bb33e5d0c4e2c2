// How many numbers the listing's text has: of a grain, of all grains that are kept, of the box.

// A grain's numbers, one in each column.
pub const COLUMNS: usize = 6;

// The grains that are kept, and their numbers.
pub const MOST: usize = 32;

pub const KEPT: usize = MOST * COLUMNS;

// The numbers of the box's line; those of a grain's come behind them.
pub(crate) const BOX: usize = 5;
