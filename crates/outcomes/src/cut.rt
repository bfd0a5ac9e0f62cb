ghost use Rattle.std.specs.Prelude.{◌≡◌, IfOk, OnOk, map, if◌then◌else◌};
ghost use Rattle.job_story.specs.Held.{what_of};
ghost use Rattle.story_index.specs.Seen.{event_in};
ghost use Rattle.outcomes.specs.Notes.{cuts, with_label, cut_in};
ghost use Rattle.outcomes.specs.Labels.{labels_in};

use exceptions::Label;
use indexmap::IndexSet;
use job_story::{Event, Happening, What};
use std::alloc::{AllocError, Global};

/// Returns the tasks in which `Cancelled` was raised in the middle of a cleanup: in a `finally` block of their own, or of a
/// task that started them. They are in the order of these events, each once. The only error is that memory runs out.
pub fn cut_in_cleanup<'e>(alloc: Global, events: &[&'e Event]) -> Result<Vec<&'e Label>, AllocError>
    ensures { IfOk result (λ tasks. labels_in tasks.items ≡ cut_in (map event_in events.now)) }
{
    let tasks = cut_tasks(alloc, events)?;
    Vec::from_slice(alloc, tasks.as_slice())
}

// Returns the same tasks as a set, which keeps the order in which they were inserted.
fn cut_tasks<'e>(alloc: Global, events: &[&'e Event]) -> Result<IndexSet<&'e Label>, AllocError>
    ensures { IfOk result (λ tasks. labels_in tasks.keys ≡ cut_in (map event_in events.now)) }
{
    let mut tasks = IndexSet::new(alloc);
    'events: for event in events {
        note_cut(&mut tasks, event)?;
    }
    Ok(tasks)
}

// Inserts the task of an event, if the event is a cancellation in a cleanup.
fn note_cut<'e>(tasks: &mut IndexSet<&'e Label>, event: &'e Event) -> Result<(), AllocError>
    ensures { OnOk result (labels_in tasks.new.keys
        ≡ (if cuts (what_of event.entry.now.what) then with_label event.entry.now.task (labels_in tasks.old.keys)
        else labels_in tasks.old.keys)) }
{
    if !cuts(&event.what) {
        return Ok(());
    }
    tasks.insert(&event.task)?;
    Ok(())
}

// Returns whether the event is that `Cancelled` was raised in a cleanup.
fn cuts(what: &What) -> bool
    ensures { result ≡ cuts (what_of what.now) }
{
    match what {
        What::Happens(Happening::IsCancelled { in_cleanup, .. }) => *in_cleanup,
        _ => false,
    }
}
