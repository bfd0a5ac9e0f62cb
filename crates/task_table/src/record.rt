//! What a report contains for a task.
use exceptions::{Exc, Label};
use task_machine::Entry;

/// How a task ended.
#[derive(Drop)]
pub enum Outcome {
    /// Without an exception.
    Done,
    /// With one `Cancelled` outside any group.
    Cancelled,
    /// With another exception.
    Raised(Exc),
}

/// What the report contains for a task: its label, the ticks in which it started and ended, how it ended, and its
/// entries.
#[derive(Drop)]
pub struct Record<'a> {
    /// The task's label; the root's is the job's name.
    pub label: Label,
    /// The tick in which it was started.
    pub from_tick: u64,
    /// The tick in which it ended.
    pub to_tick: u64,
    /// How it ended.
    pub outcome: Outcome,
    /// What it noted, in the order in which it did: lines when a kernel answered, scopes and nurseries when it left
    /// them.
    pub entries: Vec<Entry<'a>>,
}
