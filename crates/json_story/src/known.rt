ghost use Rattle.std.specs.Prelude.{map};
ghost use Rattle.job_story.specs.CancelledFrom.{table_in};
ghost use Rattle.story_index.specs.Knows.{Knows};
ghost use Rattle.story_index.specs.Seen.{event_in};

use job_meaning::Clock;
use job_story::{CancelledFrom, Event};
use story_index::Causes;
use story_waits::QueueNotes;

// The clock of a story's moments, its events in order, the moment from which each scope and nursery is cancelled, or
// an event of the job set, an index of both, and what the events say of one another.
#[derive(Drop)]
pub(crate) struct Known<'k, 'e> {
    pub clock: Clock,
    pub events: &'k [&'e Event],
    pub cancelled_from: &'k CancelledFrom,
    pub causes: &'k Causes<'e>,
    pub notes: &'k QueueNotes<'e>,
    ghost known: { Knows causes.now (table_in cancelled_from.now) (map event_in events.now) },
}
