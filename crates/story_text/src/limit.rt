ghost use Rattle.std.specs.Prelude.{◌≡◌, ◌++◌, ◌&&◌, not, [], ◌∷◌, List, IfOk, OnOk, map, codes, decimal};
ghost use Rattle.exceptions.specs.Exceptions as tree;
ghost use Rattle.job_story.specs.CancelledFrom.{table_in};
ghost use Rattle.job_story.specs.Held.{happening_of, what_of};
ghost use Rattle.job_story.specs.Events as story_events;
ghost use Rattle.job_story.specs.Limit.{has_ended, start_if, is_start, running_in, unset_text, doing_text, last_event, last_text, running_text, standing_text, kept_text_to};
ghost use Rattle.job_story.specs.Sentences.{label_width};
ghost use Rattle.story_text.specs.Known.{clock_in, events_in, cancelled_from_in, notes_held};
ghost use Rattle.story_index.specs.Tasks.{sorted_in, walked_in};
ghost use Rattle.story_index.specs.Lasts.{seen_last};
ghost use Rattle.story_index.specs.Seen.{event_in};

use crate::asks::push_asked;
use crate::deadlock::push_deadlock;
use crate::known::Known;
use crate::label::push_padded;
use crate::lines::{label_width, push_lines};
use crate::sentences::{push_since, push_until, push_waiting};
use basics::push_number;
use exceptions::Label;
use job_meaning::Clock;
use job_story::{CancelledFrom, Event, Happening, What};
use std::alloc::{AllocError, Global};
use story_index::Tasks;

/// Returns the text of selected events of a story up to a limit. The events are given in order (`sorted`) and in the order of the
/// walk (`walked`), and `known` has all events up to the limit. After the story come a line for the limit, a line for
/// each task of the selected events that has not ended, with what it is doing, and a line about a deadlock in which some tasks
/// are, if there is one. Returns `AllocError` if memory runs out.
pub fn kept_text_to<'e>(
    alloc: Global,
    sorted: &[&'e Event],
    walked: &[&'e Event],
    limit: u64,
    known: &Known<'_, '_>,
) -> Result<Vec<u8>, AllocError>
    ensures { IfOk result (λ text. text.items
        ≡ kept_text_to (clock_in known.now) (cancelled_from_in known.now) (notes_held known.now) limit (events_in known.now)
        (map event_in sorted.now) (map event_in walked.now)) }
{
    let width = label_width(alloc, sorted)?;
    let mut out = Vec::new(alloc);
    push_lines(&mut out, known, sorted, width)?;
    push_limit(&mut out, limit)?;
    let tasks = Tasks::of(alloc, sorted, walked)?;
    push_running(
        &mut out,
        known.clock,
        known.cancelled_from,
        width,
        &tasks,
        walked,
    )?;
    push_deadlock(alloc, &mut out, known.events())?;
    Ok(out)
}

/// Returns a line for each task that has not ended in these events, with what it is doing, and one about a deadlock in which some
/// are, as at the end of `kept_text_to`. The events are all up to a limit, and are given in order (`sorted`) and in the order of
/// the walk (`walked`), with the clock of their moments, and the table of the whole story, which says of an event of the job
/// whether it is ever set. Returns `AllocError` if out of memory.
pub fn standing_text(
    alloc: Global,
    clock: Clock,
    cancelled_from: &CancelledFrom,
    sorted: &[&Event],
    walked: &[&Event],
) -> Result<Vec<u8>, AllocError>
    ensures { IfOk result (λ text. text.items
        ≡ standing_text clock (table_in cancelled_from.now) (map event_in sorted.now) (map event_in sorted.now) (map event_in walked.now)) }
{
    let width = label_width(alloc, sorted)?;
    let mut out = Vec::new(alloc);
    let tasks = Tasks::of(alloc, sorted, walked)?;
    push_running(&mut out, clock, cancelled_from, width, &tasks, walked)?;
    push_deadlock(alloc, &mut out, sorted)?;
    Ok(out)
}

// Appends the line for the limit.
fn push_limit(out: &mut Vec<u8>, limit: u64) -> Result<(), AllocError>
    ensures { OnOk result (out.new.items ≡ out.old.items ++ (codes "limit " ++ decimal limit ++ codes "\n")) }
{
    out.extend_from_slice(b"limit ")?;
    push_number(out, limit)?;
    out.extend_from_slice(b"\n")
}

// Appends a line for each task that has not ended, in the order in which the walk starts them.
fn push_running(
    out: &mut Vec<u8>,
    clock: Clock,
    cancelled_from: &CancelledFrom,
    width: usize,
    tasks: &Tasks<'_, '_>,
    walked: &[&Event],
) -> Result<(), AllocError>
    ensures { OnOk result (out.new.items ≡ out.old.items
        ++ running_text clock (table_in cancelled_from.now) width (sorted_in tasks.now) (running_in (walked_in tasks.now) (map event_in walked.now))) }
{
    'walked: for event in walked {
        push_if_running(out, clock, cancelled_from, width, tasks, event)?;
    }
    Ok(())
}

// Appends the line for a task, if this event is its start and it has not ended.
fn push_if_running(
    out: &mut Vec<u8>,
    clock: Clock,
    cancelled_from: &CancelledFrom,
    width: usize,
    tasks: &Tasks<'_, '_>,
    event: &Event,
) -> Result<(), AllocError>
    ensures { OnOk result ((others : List tree.Label) → out.new.items ++ running_text clock (table_in cancelled_from.now) width (sorted_in tasks.now) others
        ≡ out.old.items ++ running_text clock (table_in cancelled_from.now) width (sorted_in tasks.now)
        (start_if (is_start (what_of event.now.what) && not (has_ended event.now.task (walked_in tasks.now))) event.now.task others)) }
{
    if !tasks.is_running(event) {
        return Ok(());
    }
    push_task(out, clock, cancelled_from, width, tasks, &event.task)?;
    Ok(())
}

// Appends the line for a task that has not ended.
fn push_task(
    out: &mut Vec<u8>,
    clock: Clock,
    cancelled_from: &CancelledFrom,
    width: usize,
    tasks: &Tasks<'_, '_>,
    label: &Label,
) -> Result<(), AllocError>
    ensures { OnOk result (out.new.items ≡ out.old.items ++ running_text clock (table_in cancelled_from.now) width (sorted_in tasks.now) (label.now ∷ [])) }
{
    out.extend_from_slice(b"  ")?;
    push_padded(out, width, label)?;
    out.extend_from_slice(b"  ")?;
    push_last(out, clock, cancelled_from, tasks.last(label))?;
    out.extend_from_slice(b"\n")
}

// Appends what a task is doing, by the last of its events.
fn push_last(
    out: &mut Vec<u8>,
    clock: Clock,
    cancelled_from: &CancelledFrom,
    last: Option<&Event>,
) -> Result<(), AllocError>
    ensures { OnOk result (out.new.items ≡ out.old.items ++ last_text clock (table_in cancelled_from.now) (seen_last last.entry)) }
{
    match last {
        Some(event) => push_doing(out, clock, cancelled_from, event.tick, &event.what),
        None => Ok(()),
    }
}

// Appends what a task is doing after an event: it sleeps, or it waits for a nursery or an event of the job, or in a queue.
fn push_doing(
    out: &mut Vec<u8>,
    clock: Clock,
    cancelled_from: &CancelledFrom,
    moment: u64,
    what: &What,
) -> Result<(), AllocError>
    ensures { OnOk result (out.new.items ≡ out.old.items ++ doing_text clock (table_in cancelled_from.now) moment (what_of what.now)) }
{
    match what {
        What::Starts { .. } => Ok(()),
        What::Happens(happening) => push_doing_in(out, clock, cancelled_from, moment, happening),
        What::Ends { .. } => Ok(()),
    }
}

// Appends what a task is doing after something has happened to it between its start and its end.
fn push_doing_in(
    out: &mut Vec<u8>,
    clock: Clock,
    cancelled_from: &CancelledFrom,
    moment: u64,
    happening: &Happening,
) -> Result<(), AllocError>
    ensures { OnOk result (out.new.items
        ≡ out.old.items ++ doing_text clock (table_in cancelled_from.now) moment (story_events.happens (happening_of happening.now))) }
{
    match happening {
        Happening::Sleeps { until } => {
            out.extend_from_slice(b"sleeping ")?;
            push_until(out, clock, *until)?;
            push_since(out, clock, moment)
        }
        Happening::Waits { nursery, .. } => {
            push_waiting(out, b"waiting for nursery ", nursery, clock, moment)
        }
        Happening::Awaits { event } => {
            push_waiting(out, b"waiting for event ", event, clock, moment)?;
            push_unset(out, cancelled_from.of(event))
        }
        Happening::Queues { ask, object, .. } => {
            push_asked(out, b"waiting ", *ask, object, clock, moment)
        }
        _ => Ok(()),
    }
}

// Appends that nothing sets an event, if it is never set.
fn push_unset(out: &mut Vec<u8>, from: Option<u64>) -> Result<(), AllocError>
    ensures { OnOk result (out.new.items ≡ out.old.items ++ unset_text from) }
{
    match from {
        Some(_) => Ok(()),
        None => out.extend_from_slice(b"; nothing sets it"),
    }
}
