/// The maximum of each number in a job text. The numbers after `pace`, `over` and (from format 2 on) `repeat` have lower
/// maximums.
pub const MAX_NUMBER: u64 = 1_000_000_000;

/// The maximum number of lines that a `pace` reads in one tick.
pub const MAX_PACE: u64 = 1_000_000;

/// The maximum number of tokens of a limiter.
pub const MAX_TOKENS: u64 = 1_000_000;

/// The maximum number of places of a channel.
pub const MAX_PLACES: u64 = 1_000_000;

/// The maximum number of passes of a `repeat`.
pub const MAX_PASSES: u64 = 1_000;

/// The maximum number of step instances of a job.
pub const MAX_STEPS: u64 = 1_000_000;

/// The maximum number of step instances of a job of format 1.
pub const MAX_STEPS_OF_FORMAT_1: u64 = 100_000;

/// The maximum number of copies of a `start .. over`.
pub const MAX_COPIES: u64 = 64;
