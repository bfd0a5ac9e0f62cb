/// The maximum number of failures that a writer can count.
pub const MAX_FAILURES: u64 = u64::MAX;
