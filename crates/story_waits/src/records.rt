ghost use Rattle.std.specs.Prelude.{◌≡◌, IfOk, OnOk, List, Some, None, map, if◌then◌else◌};
ghost use Rattle.std.specs.Option.{option_or};
ghost use Rattle.exceptions.specs.Exceptions as tree;
ghost use Rattle.job_story.specs.Events as story_events;
ghost use Rattle.job_story.specs.Held.{event_of};
ghost use Rattle.job_story.specs.Notes.{record_of, starts_task};
ghost use Rattle.story_index.specs.Found.{value_at};
ghost use Rattle.story_waits.specs.Records.{KnowsStarts};
ghost use Rattle.story_index.specs.Seen.{event_in};

use exceptions::Label;
use indexmap::IndexMap;
use job_story::Event;
use std::alloc::{AllocError, Global};
use story_index::put_first;

// The places of the tasks of a story in the order of records, which is that in which they start in the walk. A look-up takes
// constant time.
#[derive(Drop)]
pub(crate) struct Records<'e> {
    // The number of the event in the walk with which each task starts.
    pub(crate) starts: IndexMap<&'e Label, usize>,
    // The number of events that were read.
    pub(crate) read: usize,
}

impl<'e> Records<'e> {
    // Reads the starts among these events, which are in the order of the walk.
    pub(crate) fn of(alloc: Global, walked: &[&'e Event]) -> Result<Records<'e>, AllocError>
        ensures { IfOk result (λ records. KnowsStarts records (map event_in walked.now)) }
    {
        let mut starts = IndexMap::new(alloc);
        'events: for i in 0..walked.len() {
            note_start(&mut starts, i, walked[i])?;
        }
        Ok(Records {
            starts,
            read: walked.len(),
        })
    }

    // Returns the place of a task, which is the number of events that were read if it does not start in them.
    pub(crate) fn of_task(&self, task: &Label) -> usize
        ensures { (es : List story_events.Event) → KnowsStarts self.now es → result ≡ record_of task.now es }
    {
        match self.starts.get(&task) {
            Some(place) => *place,
            None => self.read,
        }
    }
}

// Records the number of an event, if it is the first start of its task.
fn note_start<'e>(
    starts: &mut IndexMap<&'e Label, usize>,
    number: usize,
    event: &'e Event,
) -> Result<(), AllocError>
    ensures { OnOk result ((l : tree.Label) → value_at starts.new l ≡ option_or (value_at starts.old l)
        (if starts_task l (event_of event.entry.now) then Some number else None)) }
{
    if !event.what.is_start() {
        return Ok(());
    }
    put_first(starts, &event.task, number)?;
    Ok(())
}
