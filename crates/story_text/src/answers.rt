ghost use Rattle.std.specs.Prelude.{◌≡◌, map, IfOk};
ghost use Rattle.std.specs.Option.{option_map};
ghost use Rattle.exceptions.specs.Exceptions as tree;
ghost use Rattle.job_story.specs.Causes.{entering_of, cause_of};
ghost use Rattle.job_story.specs.Focus.{concerned_tasks, is_among};
ghost use Rattle.job_story.specs.CancelledFrom.{table_in};
ghost use Rattle.story_index.specs.Found.{entering_in_code, cause_in_code};
ghost use Rattle.story_index.specs.Knows.{Knows};
ghost use Rattle.job_story.specs.Held.{event_of};
ghost use Rattle.story_index.specs.Seen.{event_in};
ghost use Rattle.story_waits.specs.Noted.{note_in};
ghost use Rattle.story_index.specs.Holds.{holds};
ghost use Rattle.story_text.specs.Known.{clock_in, events_in, cancelled_from_in, notes_held};
ghost use Rattle.story_waits.specs.QueueNotes.{held_notes};

use crate::known::Known;
use exceptions::Label;
use job_meaning::Clock;
use job_story::{CancelledFrom, Event};
use std::alloc::{AllocError, Global};
use story_index::{Cause, Causes, Entering, TaskSet, concerned_tasks};
use story_waits::{Note, QueueNotes};

impl<'k, 'e> Known<'k, 'e> {
    /// Puts together the clock of a story's moments, its events in order, the table of cancellations, the index of both, and
    /// the notes of the story. The caller must ensure that the index was created from these events and this table.
    pub fn new(
        clock: Clock,
        events: &'k [&'e Event],
        cancelled_from: &'k CancelledFrom,
        causes: &'k Causes<'e>,
        notes: &'k QueueNotes<'e>,
    ) -> Known<'k, 'e>
        requires { Knows causes.now (table_in cancelled_from.now) (map event_in events.now) }
        ensures clock { clock_in result ≡ clock }
        ensures events { events_in result ≡ map event_in events.now }
        ensures cancelled_from { cancelled_from_in result ≡ table_in cancelled_from.now }
        ensures notes { notes_held result ≡ held_notes notes.now }
    {
        Known {
            clock,
            events,
            cancelled_from,
            causes,
            notes,
        }
    }

    /// Returns the events of the story, in order.
    pub fn events(&self) -> &'k [&'e Event]
        ensures { map event_in result.now ≡ events_in self.now }
    {
        self.events
    }

    /// Returns the tasks that concern a task of the story, as `concerned_tasks` of `story_index` finds them. Returns `AllocError`
    /// if memory runs out.
    pub fn concerned_tasks(&self, alloc: Global, task: &'e Label) -> Result<TaskSet<'e>, AllocError>
        ensures { IfOk result (λ tasks. (l : tree.Label) →
            holds tasks l ≡ is_among l (concerned_tasks (cancelled_from_in self.now) (events_in self.now) task.entry.now)) }
    {
        concerned_tasks(alloc, self.events, self.causes, task)
    }

    // Returns how a scope or nursery was first entered, or `None` if it never was.
    pub(crate) fn entering_of(&self, label: &Label) -> Option<Entering>
        ensures { option_map entering_in_code result ≡ entering_of label.now (events_in self.now) }
    {
        self.causes.entering_of(label)
    }

    // Returns why a scope or nursery is cancelled, or an event of the job set, or `None` if it never is.
    pub(crate) fn cause(&self, label: &Label) -> Option<Cause<'e>>
        ensures { option_map cause_in_code result ≡ cause_of (cancelled_from_in self.now) (events_in self.now) label.now }
    {
        self.causes.cause(label)
    }

    // Returns the moment from which a scope or nursery is cancelled, or an event of the job set, or `None` if it never is.
    pub(crate) fn from(&self, label: &Label) -> Option<u64>
        ensures { result ≡ cancelled_from_in self.now label.now }
    {
        self.cancelled_from.of(label)
    }

    /// Returns what is said of other tasks in an event of the story: the place of its task in a queue, or by whose doing the task goes
    /// on. Returns `None` if nothing is said.
    pub fn note_of(&self, event: &Event) -> Option<Note<'e>>
        ensures { option_map note_in result ≡ notes_held self.now (event_of event.now) }
    {
        self.notes.note_of(event)
    }
}
