/// The maximum number of requests of one batch.
pub const MAX_REQUESTS: usize = 4_000_000;
