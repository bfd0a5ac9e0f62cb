use crate::Event;
use exceptions::Label;

/// What a walk has written, up to the point where it is.
#[derive(Drop)]
pub struct Progress {
    /// The events so far.
    pub events: Vec<Event>,
    /// What the task has cancelled itself in the moment in which it is, if a tick has rounds: the task sees that at once, and the
    /// others see it a round later. What it has set is here too, which no scope is. It is empty if a moment is a tick.
    pub cancelled: Vec<Label>,
}
