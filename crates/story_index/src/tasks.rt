ghost use Rattle.std.specs.Prelude.{◌≡◌, ◌&&◌, ◌||◌, not, None, IfOk, OnOk, map};
ghost use Rattle.exceptions.specs.Exceptions as tree;
ghost use Rattle.job_meaning.specs.Log.{same_label};
ghost use Rattle.job_story.specs.Held.{what_of};
ghost use Rattle.job_story.specs.Limit.{is_start, is_end, has_ended, last_event};
ghost use Rattle.story_index.specs.Lasts.{is_among, seen_last};
ghost use Rattle.story_index.specs.Seen.{event_in};

use crate::lasts::LastEvents;
use exceptions::Label;
use indexmap::IndexSet;
use job_story::Event;
use std::alloc::{AllocError, Global};

/// What is known of the tasks of a story: which tasks have ended, by the events in the order of the walk, and what each did last,
/// by the events in order. A look-up takes constant time.
#[derive(Drop)]
pub struct Tasks<'s, 'e> {
    /// The last event of each task.
    pub lasts: LastEvents<'s, 'e>,
    /// The events in the order of the walk.
    pub walked: &'s [&'e Event],
    ended: IndexSet<&'e Label>,
    ghost ends: { (l : tree.Label) → is_among ended l ≡ has_ended l (map event_in walked.now) },
}

impl<'s, 'e> Tasks<'s, 'e> {
    /// Collects the tasks of these events, which are given in order (`sorted`) and in the order of the walk (`walked`), in one
    /// pass over each. Returns `AllocError` if memory runs out.
    pub fn of(
        alloc: Global,
        sorted: &'s [&'e Event],
        walked: &'s [&'e Event],
    ) -> Result<Tasks<'s, 'e>, AllocError>
        ensures sorted { IfOk result (λ tasks. tasks.lasts.events.now ≡ sorted.entry.now) }
        ensures walked { IfOk result (λ tasks. tasks.walked.now ≡ walked.entry.now) }
    {
        let lasts = LastEvents::of(alloc, sorted)?;
        let ended = ended_tasks(alloc, walked)?;
        Ok(Tasks {
            lasts,
            walked,
            ended,
        })
    }

    /// Returns whether an event is the start of a task that has not ended.
    pub fn is_running(&self, event: &Event) -> bool
        ensures { result ≡ (is_start (what_of event.now.what) && not (has_ended event.now.task (map event_in self.now.walked.now))) }
    {
        event.what.is_start() && !self.has_ended(&event.task)
    }

    // Returns whether a task has ended.
    fn has_ended(&self, task: &Label) -> bool
        ensures { result ≡ has_ended task.now (map event_in self.now.walked.now) }
    {
        self.ended.contains(&task)
    }

    /// Returns the last event of a task, or `None` if no event is one of this task.
    pub fn last(&self, task: &Label) -> Option<&'e Event>
        ensures { seen_last result ≡ last_event task.now (map event_in self.now.lasts.events.now) None }
    {
        self.lasts.last(task)
    }
}

// Returns the tasks that end in these events.
fn ended_tasks<'e>(alloc: Global, events: &[&'e Event]) -> Result<IndexSet<&'e Label>, AllocError>
    ensures { IfOk result (λ ended. (l : tree.Label) → is_among ended l ≡ has_ended l (map event_in events.now)) }
{
    let mut ended = IndexSet::new(alloc);
    'events: for event in events {
        note_end(&mut ended, event)?;
    }
    Ok(ended)
}

// Records the task of an event, if the event is its end.
fn note_end<'e>(ended: &mut IndexSet<&'e Label>, event: &'e Event) -> Result<(), AllocError>
    ensures { OnOk result ((l : tree.Label) → is_among ended.new l
        ≡ (is_among ended.old l || (is_end (what_of event.entry.now.what) && same_label l event.entry.now.task))) }
{
    if !event.what.is_end() {
        return Ok(());
    }
    ended.insert(&event.task)?;
    Ok(())
}
