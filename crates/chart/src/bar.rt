use job_story::Event;

/// A row of a chart: the time from the beginning to the end of a task, or of the stay in a scope or nursery.
#[derive(Clone, Copy)]
pub struct Bar<'i, 'e> {
    /// The event with which the bar begins: the start of a task, or that a task enters a scope or nursery.
    pub first: &'e Event,
    /// The event with which the bar ends: the end of the task, or that the scope or nursery is left. `None` if the events do not
    /// contain it.
    pub last: Option<&'e Event>,
    /// The events of the task, in the order of the walk. Empty for a scope or nursery.
    pub own: &'i [&'e Event],
    /// The moment from which a scope or nursery is cancelled, if it comes between entering and leaving, and `None` otherwise.
    /// `None` for a task. The clock of the story says in which tick the moment is.
    pub cancelled: Option<u64>,
}
