/// The margin on the left, in pixels.
pub const LEFT: u64 = 12;

/// The y coordinate at which the first row begins, in pixels.
pub const TOP: u64 = 44;

/// The height of a row, in pixels.
pub const ROW: u64 = 24;

/// The maximum width of a letter, in pixels.
pub const LETTER: u64 = 8;

/// The width of a character between columns, in pixels.
pub const PLACE: u64 = 14;

/// The maximum distance from the first column, in characters. Nothing is drawn further to the right.
pub const FARTHEST: u64 = 1_000_000;

/// The maximum room for the name of a row, in letters.
pub const MAX_NAME: usize = 120;

/// The maximum room for an outcome, in letters.
pub const MAX_SHOWN: usize = 80;

/// The width of a column of the legend, in pixels.
pub const SAMPLE: u64 = 180;

/// The width of the legend, in pixels.
pub const LEGEND: u64 = 560;

/// The maximum number of events that the title of a task's bar shows.
pub const MAX_TITLED: usize = 100;

/// The maximum number of rows that are shown.
pub const MAX_ROWS: usize = 2_000;
