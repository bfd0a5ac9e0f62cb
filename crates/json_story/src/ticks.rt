ghost use Rattle.std.specs.Prelude.{◌≡◌, Some, map};
ghost use Rattle.std.specs.Option.{option_map};
ghost use Rattle.job_story.specs.Causes.{cause_of};
ghost use Rattle.job_story.specs.CancelledFrom.{table_in};
ghost use Rattle.job_story.specs.Held.{unboxed_exc};
ghost use Rattle.story_index.specs.Found.{cause_in_code};
ghost use Rattle.story_index.specs.Knows.{Knows};
ghost use Rattle.story_index.specs.Seen.{event_in};
ghost use Rattle.json_story.specs.Events.{next_if, cancel_from, failure_from};
ghost use Rattle.json_story.specs.Known.{clock_in, events_in, cancelled_from_in, notes_held};
ghost use Rattle.story_waits.specs.QueueNotes.{held_notes};

use crate::known::Known;
use exceptions::{Exc, Label};
use job_meaning::Clock;
use job_story::{CancelledFrom, Event};
use story_index::{Cause, Causes};
use story_waits::QueueNotes;

impl<'k, 'e> Known<'k, 'e> {
    // Puts together the clock of a story's moments, its events in order, the table, the index of both, and the notes.
    pub(crate) fn new(
        clock: Clock,
        events: &'k [&'e Event],
        cancelled_from: &'k CancelledFrom,
        causes: &'k Causes<'e>,
        notes: &'k QueueNotes<'e>,
    ) -> Known<'k, 'e>
        requires { Knows causes.now (table_in cancelled_from.now) (map event_in events.now) }
        ensures clock { clock_in result ≡ clock }
        ensures events { events_in result ≡ map event_in events.now }
        ensures cancelled_from { cancelled_from_in result ≡ table_in cancelled_from.now }
        ensures notes { notes_held result ≡ held_notes notes.now }
    {
        Known {
            clock,
            events,
            cancelled_from,
            causes,
            notes,
        }
    }

    // Returns why a scope or nursery is cancelled, or an event of the job set, or `None` if it never is.
    pub(crate) fn cause(&self, label: &Label) -> Option<Cause<'e>>
        ensures { option_map cause_in_code result ≡ cause_of (cancelled_from_in self.now) (events_in self.now) label.now }
    {
        self.causes.cause(label)
    }

    // Returns the moment after this one, if a scope or nursery is cancelled, or an event set, from then on.
    pub(crate) fn cancel_from(&self, label: &Option<Label>, moment: u64) -> Option<u64>
        ensures { result ≡ cancel_from (cancelled_from_in self.now) label.now moment }
    {
        match label {
            Some(label) => next_if(self.cancelled_from.of(label), moment),
            None => None,
        }
    }

    // Returns the same for a nursery whose member or body ended, if with an exception.
    pub(crate) fn failure_from(
        &self,
        home: &Option<Label>,
        exc: &Option<Box<Exc>>,
        moment: u64,
    ) -> Option<u64>
        ensures { result ≡ failure_from (cancelled_from_in self.now) home.now (unboxed_exc exc.now) moment }
    {
        match exc {
            Some(_) => self.cancel_from(home, moment),
            None => None,
        }
    }

    // Returns the same for a nursery whose body ended.
    pub(crate) fn body_from(
        &self,
        nursery: &Label,
        exc: &Option<Box<Exc>>,
        moment: u64,
    ) -> Option<u64>
        ensures { result ≡ failure_from (cancelled_from_in self.now) (Some nursery.now) (unboxed_exc exc.now) moment }
    {
        match exc {
            Some(_) => next_if(self.cancelled_from.of(nursery), moment),
            None => None,
        }
    }
}

// Returns the moment after this one, if that is the from.
fn next_if(from: Option<u64>, moment: u64) -> Option<u64>
    ensures { result ≡ next_if from moment }
{
    let Some(from) = from else {
        return None;
    };
    if moment < from && from - moment == 1 {
        Some(from)
    } else {
        None
    }
}
