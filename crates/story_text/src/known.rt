ghost use Rattle.std.specs.Prelude.{map};
ghost use Rattle.job_story.specs.CancelledFrom.{table_in};
ghost use Rattle.story_index.specs.Knows.{Knows};
ghost use Rattle.story_index.specs.Seen.{event_in};

use job_meaning::Clock;
use job_story::{CancelledFrom, Event};
use story_index::Causes;
use story_waits::QueueNotes;

/// What is needed to write the sentences of a story: the clock of its moments, its events in order, the table with the moments
/// from which its scopes and nurseries are cancelled, and the events of the job set, the index of both, and what the events say of
/// one another.
#[derive(Drop)]
pub struct Known<'k, 'e> {
    pub(crate) clock: Clock,
    pub(crate) events: &'k [&'e Event],
    pub(crate) cancelled_from: &'k CancelledFrom,
    pub(crate) causes: &'k Causes<'e>,
    pub(crate) notes: &'k QueueNotes<'e>,
    ghost known: { Knows causes.now (table_in cancelled_from.now) (map event_in events.now) },
}
