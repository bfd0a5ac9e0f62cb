/// The maximum number of bytes of the input of a run.
pub const MAX_INPUT: usize = 16_777_216;

/// A tick by which every job has ended: two to the 62. A job has at most a million step instances, and each takes at most as long
/// as `forever`, which ends at tick two to the 40.
pub const LAST_TICK: u64 = 4_611_686_018_427_387_904;
