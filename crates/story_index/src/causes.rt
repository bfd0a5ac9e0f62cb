ghost use Rattle.std.specs.Prelude.{◌≡◌, ◌++◌, [], ◌∷◌, ℕ, List, OnOk, IfOk, map};
ghost use Rattle.std.specs.Option.{option_map};
ghost use Rattle.job_meaning.specs.Log.{Table};
ghost use Rattle.job_story.specs.Causes.{entering_of, cause_of};
ghost use Rattle.job_story.specs.Events as story_events;
ghost use Rattle.job_story.specs.CancelledFrom.{table_in};
ghost use Rattle.job_story.specs.Held.{event_of};
ghost use Rattle.story_index.specs.Found.{entering_in_code, cause_in_code, is_due_at};
ghost use Rattle.story_index.specs.Knows.{Knows};
ghost use Rattle.story_index.specs.Seen.{event_in};

use crate::notes::{note_entering, note_sign};
use crate::sign::Cause;
use exceptions::Label;
use indexmap::IndexMap;
use job_story::{CancelledFrom, Event, Kind};
use std::alloc::{AllocError, Global};

/// How a scope or nursery was first entered.
#[derive(Clone, Copy)]
pub struct Entering {
    /// Whether it is a scope or a nursery.
    pub kind: Kind,
    /// The moment from which its deadline cancels it, or `None` if it has no deadline.
    pub deadline: Option<u64>,
}

/// An index over the events of a story, which says how each scope and nursery was first entered, why it is cancelled, and why
/// each event of the job is set. Each answer takes constant time. It borrows the events and the table, and copies no label.
#[derive(Drop)]
pub struct Causes<'e> {
    // The moment from which each label is cancelled, or set.
    cancelled_from: &'e CancelledFrom,
    // How each label was first entered.
    entered: IndexMap<&'e Label, Entering>,
    // Why each label is cancelled, if not by its deadline, or set: the first event that cancelled or set it, in the moment before
    // the one from which it is cancelled or set.
    signed: IndexMap<&'e Label, Cause<'e>>,
}

impl<'e> Causes<'e> {
    /// Creates an index over events. It reads the events once, in the order in which they are given, and does not sort them. It
    /// records for each scope and nursery how it was first entered, and, if `cancelled_from` says that it is cancelled, the first
    /// event that cancelled it in the moment before. It does so for what is set, too. First means first in the order given, so
    /// for the answers of a story the caller passes its events in order.
    ///
    /// Each event takes constant time, and only scopes, nurseries and what is set take memory. Returns `AllocError` if memory
    /// runs out.
    pub fn of(
        alloc: Global,
        events: &[&'e Event],
        cancelled_from: &'e CancelledFrom,
    ) -> Result<Causes<'e>, AllocError>
        ensures { IfOk result (λ causes. Knows causes (table_in cancelled_from.entry.now) (map event_in events.now)) }
    {
        let mut causes = Causes {
            cancelled_from,
            entered: IndexMap::new(alloc),
            signed: IndexMap::new(alloc),
        };
        'events: for event in events {
            causes.read(event)?;
        }
        Ok(causes)
    }

    // Reads one more event.
    fn read(&mut self, event: &'e Event) -> Result<(), AllocError>
        ensures { (table : Table) (es : List story_events.Event) → Knows self.old table es →
            OnOk result (Knows self.new table (es ++ event_of event.entry.now ∷ [])) }
    {
        note_entering(&mut self.entered, &event.what)?;
        note_sign(&mut self.signed, self.cancelled_from, event)?;
        Ok(())
    }

    /// Returns how a scope or nursery was first entered, or `None` if no event enters it.
    pub fn entering_of(&self, label: &Label) -> Option<Entering>
        ensures { (table : Table) (es : List story_events.Event) → Knows self.now table es →
            option_map entering_in_code result ≡ entering_of label.now es }
    {
        self.entered.get(&label).copied()
    }

    /// Returns why a scope or nursery is cancelled: by its deadline, if that is the moment from which it is cancelled, and
    /// otherwise by the first event that cancelled it in the moment before. The same says why an event of the job is set. Returns
    /// `None` if the label never is cancelled or set, or if there is no such event of the story.
    pub fn cause(&self, label: &Label) -> Option<Cause<'e>>
        ensures { (table : Table) (es : List story_events.Event) → Knows self.now table es →
            option_map cause_in_code result ≡ cause_of table es label.now }
    {
        let Some(from) = self.cancelled_from.of(label) else {
            return None;
        };
        if is_due(self.entering_of(label), from) {
            return Some(Cause::Deadline);
        }
        self.signed.get(&label).copied()
    }

    /// Returns the moment from which a scope or nursery is cancelled, or an event set, or `None` if it never is.
    pub fn from(&self, label: &Label) -> Option<u64>
        ensures { (table : Table) (es : List story_events.Event) → Knows self.now table es → result ≡ table label.now }
    {
        self.cancelled_from.of(label)
    }
}

// Returns whether the label was entered with a deadline at this moment.
fn is_due(entering: Option<Entering>, tick: u64) -> bool
    ensures { result ≡ is_due_at (option_map entering_in_code entering) tick }
{
    let Some(entering) = entering else {
        return false;
    };
    match entering.deadline {
        Some(deadline) => deadline == tick,
        None => false,
    }
}
