ghost use Rattle.std.specs.Prelude.{◌≡◌, ◌++◌, ◌&&◌, None, List, IfOk, OnOk, map};
ghost use Rattle.exceptions.specs.Exceptions as tree;
ghost use Rattle.job_story.specs.Held.{what_of};
ghost use Rattle.job_story.specs.Limit.{is_start, start_if, last_event};
ghost use Rattle.story_index.specs.Seen.{event_in};
ghost use Rattle.story_index.specs.Lasts.{seen_last};
ghost use Rattle.outcomes.specs.Notes.{sleeps_forever, sleeping_in};
ghost use Rattle.outcomes.specs.Labels.{labels_in};

use exceptions::Label;
use job_story::{Event, Happening, What};
use std::alloc::{AllocError, Global};
use story_index::LastEvents;

/// Returns the tasks that sleep forever after these events. The events are those of a story in the order of the walk, and may end
/// at some moment. A task sleeps forever if it was started, and its last event is that it fell asleep without a moment at which
/// it is due, or that it began to wait for an event of the job, which is not set in the time of these events, or
/// in the queue of a limiter or channel, which it does not leave in that time. The tasks are in
/// the order in which the walk starts them. The only error is that memory runs out.
pub fn sleeping_forever<'e>(
    alloc: Global,
    walked: &[&'e Event],
) -> Result<Vec<&'e Label>, AllocError>
    ensures { IfOk result (λ tasks. labels_in tasks.items ≡ sleeping_in (map event_in walked.now)) }
{
    let lasts = LastEvents::of(alloc, walked)?;
    let mut tasks = Vec::new(alloc);
    'walked: for event in walked {
        note_sleeping(&mut tasks, &lasts, event)?;
    }
    Ok(tasks)
}

// Appends the task of an event that is its start, if by its last event the task sleeps forever. The clause has
// `ls`, the labels that a loop appends later, on both sides.
fn note_sleeping<'e>(
    tasks: &mut Vec<&'e Label>,
    lasts: &LastEvents<'_, 'e>,
    event: &'e Event,
) -> Result<(), AllocError>
    ensures { OnOk result ((ls : List tree.Label) → labels_in tasks.new.items ++ ls ≡ labels_in tasks.old.items
        ++ start_if (is_start (what_of event.entry.now.what) && sleeps_forever (last_event event.entry.now.task (map event_in lasts.now.events.now) None))
        event.entry.now.task ls) }
{
    if !event.what.is_start() || !sleeps_forever(lasts.last(&event.task)) {
        return Ok(());
    }
    tasks.push(&event.task)?;
    Ok(())
}

// Returns whether the last event of a task is that it fell asleep forever, or began to wait for an event or in a queue.
fn sleeps_forever(last: Option<&Event>) -> bool
    ensures { result ≡ sleeps_forever (seen_last last.entry) }
{
    let Some(event) = last else {
        return false;
    };
    match &event.what {
        What::Happens(Happening::Sleeps { until }) => until.is_none(),
        What::Happens(Happening::Awaits { .. }) => true,
        What::Happens(Happening::Queues { .. }) => true,
        _ => false,
    }
}
