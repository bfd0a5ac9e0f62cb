ghost use Rattle.std.specs.Prelude.{◌≡◌, ◌++◌, [], ◌∷◌, IfOk, OnOk, map, if◌then◌else◌};
ghost use Rattle.std.specs.Option.{option_or};
ghost use Rattle.exceptions.specs.Exceptions as tree;
ghost use Rattle.job_meaning.specs.Log.{same_label};
ghost use Rattle.job_story.specs.Held.{event_of, what_of};
ghost use Rattle.story_index.specs.Seen.{event_in};
ghost use Rattle.chart.specs.Bars.{of_task, is_left, left_in};
ghost use Rattle.chart.specs.HeldBars.{events_at, event_at, event_seen};
ghost use Rattle.chart.specs.Indexed.{walked_in};

use crate::index::StoryIndex;
use crate::kinds::left_label;
use exceptions::Label;
use indexmap::IndexMap;
use job_story::Event;
use std::alloc::{AllocError, Global};

impl<'s, 'e> StoryIndex<'s, 'e> {
    /// Creates the index of these events, which are in the order of the walk. Each event takes constant time. Returns
    /// `AllocError` if memory runs out.
    pub fn of(alloc: Global, walked: &'s [&'e Event]) -> Result<StoryIndex<'s, 'e>, AllocError>
        ensures { IfOk result (λ index. walked_in index ≡ map event_in walked.entry.now) }
    {
        let tasks = events_by_task(alloc, walked)?;
        let left = leavings(alloc, walked)?;
        Ok(StoryIndex {
            walked,
            tasks,
            left,
        })
    }

    // Returns the events of a task.
    pub(crate) fn events_of<'i>(&'i self, task: &'i Label) -> &'i [&'e Event]
        ensures { map event_in result.now ≡ of_task task.now (walked_in self.now) }
    {
        let Some(events) = self.tasks.get(&task) else {
            return no_events();
        };
        events.as_slice()
    }

    // Returns the event with which a scope or nursery was first left.
    pub(crate) fn leaving_of(&self, label: &Label) -> Option<&'e Event>
        ensures { event_seen result ≡ left_in label.now (walked_in self.now) }
    {
        self.left.get(&label).copied()
    }
}

// Returns the empty list of events, which borrows from nothing.
pub(crate) fn no_events<'i, 'e>() -> &'i [&'e Event]
    ensures { result.now ≡ [] }
{
    &[]
}

// Returns the events of each task, in the order of the walk.
fn events_by_task<'e>(
    alloc: Global,
    walked: &[&'e Event],
) -> Result<IndexMap<&'e Label, Vec<&'e Event>>, AllocError>
    ensures { IfOk result (λ tasks. (l : tree.Label) → events_at tasks l ≡ of_task l (map event_in walked.now)) }
{
    let mut tasks = IndexMap::new(alloc);
    'events: for event in walked {
        note_event(alloc, &mut tasks, event)?;
    }
    Ok(tasks)
}

// Records one more event of its task.
fn note_event<'e>(
    alloc: Global,
    tasks: &mut IndexMap<&'e Label, Vec<&'e Event>>,
    event: &'e Event,
) -> Result<(), AllocError>
    ensures { OnOk result ((l : tree.Label) → events_at tasks.new l
        ≡ events_at tasks.old l ++ (if same_label l event.entry.now.task then event_of event.entry.now ∷ [] else [])) }
{
    if let Some(events) = tasks.get_mut(&&event.task) {
        events.push(event)?;
        return Ok(());
    }
    let mut events = Vec::new(alloc);
    events.push(event)?;
    tasks.insert(&event.task, events)?;
    Ok(())
}

// Returns the event with which each scope and nursery was first left.
fn leavings<'e>(
    alloc: Global,
    walked: &[&'e Event],
) -> Result<IndexMap<&'e Label, &'e Event>, AllocError>
    ensures { IfOk result (λ left. (l : tree.Label) → event_at left l ≡ left_in l (map event_in walked.now)) }
{
    let mut left = IndexMap::new(alloc);
    'events: for event in walked {
        note_leaving(&mut left, event)?;
    }
    Ok(left)
}

// Records an event, if it is the first with which a scope or nursery is left.
fn note_leaving<'e>(
    left: &mut IndexMap<&'e Label, &'e Event>,
    event: &'e Event,
) -> Result<(), AllocError>
    ensures { OnOk result ((l : tree.Label) → event_at left.new l ≡ option_or (event_at left.old l)
        (if is_left l (what_of event.entry.now.what) then Some (event_of event.entry.now) else None)) }
{
    let Some(label) = left_label(&event.what) else {
        return Ok(());
    };
    if left.contains_key(&label) {
        return Ok(());
    }
    left.insert(label, event)?;
    Ok(())
}
