use exceptions::Label;
use job_meaning::Clock;
use job_story::{CancelledFrom, Event};

/// A story as a caller wants it shown: all of it or what concerns one task, whole or up to a limit.
#[derive(Clone, Copy)]
pub struct ShownStory<'w, 'e> {
    /// The clock of the story's moments.
    pub clock: Clock,
    /// The tick of the limit at which the story is cut off, or `None` for a whole story.
    pub until: Option<u64>,
    /// The events of the story in the order of the walk.
    pub walked: &'w [&'e Event],
    /// The table with the moments from which its scopes and nurseries are cancelled, and the events of the job set.
    pub table: &'e CancelledFrom,
    /// The task about which it is shown, or `None` for all events.
    pub task: Option<&'e Label>,
}
