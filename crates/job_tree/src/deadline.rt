/// When a cancel scope or nursery is cancelled by itself, in whole ticks, as the `deadline` of a Trio
/// `CancelScope`.
#[derive(Clone, Copy, Debug, PartialEq, Eq)]
pub enum Deadline {
    /// Never. Only a `cancel` step can cancel the scope.
    Never,
    /// The given number of ticks after the scope was entered.
    After(u64),
    /// At this tick of the job, which may already be in the past. The job starts at tick 0.
    At(u64),
}
