use crate::JobOutcome;

/// The outcome of a job for a value of one of its numbers.
#[derive(Drop)]
pub struct Value {
    /// The value.
    pub value: u64,
    /// The outcome of the job.
    pub job_outcome: JobOutcome,
}
