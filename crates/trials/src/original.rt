use job_edits::{CopiedStart, FinerTicks, Site};
use job_meaning::Clock;
use job_tree::Name;

/// What all lines have in common, and how many threads find those of the hairs.
#[derive(Clone, Copy)]
pub(crate) struct Original<'a> {
    /// The original job text.
    pub text: &'a [u8],
    /// The input.
    pub input: &'a [u8],
    /// How the time of the original job is counted.
    pub clock: Clock,
    /// The last tick at which a job may end, in finer ticks.
    pub limit: u64,
    /// How much finer the ticks of the changed texts are.
    pub finer_ticks: FinerTicks,
    /// The name of the scope in which a hair before a `set` is.
    pub scope: &'a Name,
    /// The places of the text where time passes or may pass, or where an event is set.
    pub sites: &'a [Site],
    /// Each `start` of several copies of a task.
    pub starts: &'a [CopiedStart],
    /// The maximum number of threads that run the hairs.
    pub workers: usize,
}
