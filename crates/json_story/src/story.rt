ghost use Rattle.std.specs.Prelude.{◌≡◌, ◌++◌, IfOk, OnOk, map, codes, true};
ghost use Rattle.serde_json.specs.Data.{Members, member, object};
ghost use Rattle.serde_json.specs.View.{view};
ghost use Rattle.serde_json.specs.Written.{compact_text, members_text};
ghost use Rattle.job_story.specs.Focus.{concerned_tasks, of_tasks};
ghost use Rattle.job_story.specs.CancelledFrom.{table_in};
ghost use Rattle.story_index.specs.Seen.{event_in};
ghost use Rattle.story_index.specs.Holds.{label_seen};
ghost use Rattle.json_story.specs.Values.{document, list_of};
ghost use Rattle.json_story.specs.Events.{event_json, tick_json};
ghost use Rattle.json_story.specs.Known.{clock_in, events_in, cancelled_from_in, notes_held};
ghost use Rattle.json_story.specs.Stories.{running_json, kept_json, story_json};

use crate::event::push_events;
use crate::known::Known;
use crate::optional::tick_value;
use crate::running::running_values;
use crate::{push_key, push_member, text_value};
use exceptions::Label;
use job_meaning::Clock;
use job_story::Event;
use job_tree::Name;
use serde_json::Value;
use std::alloc::{AllocError, Global};
use story_index::{Causes, Tasks, concerned_tasks, of_tasks};
use story_text::{ShownStory, in_order};
use story_waits::QueueNotes;

/// Returns what is shown of the story of the job with this name as one JSON document, in compact form and with a newline. If the
/// story is cut off at a limit, the document includes what each task that has not ended is doing. The only error is that memory
/// runs out.
pub fn story_json(
    alloc: Global,
    job: Name,
    shown: &ShownStory<'_, '_>,
) -> Result<Vec<u8>, AllocError>
    ensures { IfOk result (λ bytes. bytes.items
        ≡ document (story_json shown.now.clock job shown.now.until (table_in shown.now.table.now) (label_seen shown.now.task)
        (map event_in shown.now.walked.now))) }
{
    let (clock, until, walked) = (shown.clock, shown.until, shown.walked);
    let all = in_order(alloc, walked)?;
    let causes = Causes::of(alloc, all.as_slice(), shown.table)?;
    let notes = QueueNotes::of(alloc, walked)?;
    let known = Known::new(clock, all.as_slice(), shown.table, &causes, &notes);
    match shown.task {
        Some(task) => concerned_json(alloc, job, until, &known, walked, task),
        None => kept_json(alloc, job, until, &known, all.as_slice(), walked),
    }
}

// Returns the events that concern one task of a story as a document. `walked` are the events of the story in the order of the
// walk.
fn concerned_json<'e>(
    alloc: Global,
    job: Name,
    until: Option<u64>,
    known: &Known<'_, 'e>,
    walked: &[&'e Event],
    task: &'e Label,
) -> Result<Vec<u8>, AllocError>
    ensures { IfOk result (λ bytes. bytes.items
        ≡ document (kept_json (clock_in known.now) job until (cancelled_from_in known.now) (notes_held known.now) (events_in known.now)
        (of_tasks (concerned_tasks (cancelled_from_in known.now) (events_in known.now) task.entry.now) (events_in known.now))
        (of_tasks (concerned_tasks (cancelled_from_in known.now) (events_in known.now) task.entry.now) (map event_in walked.now)))) }
{
    let tasks = concerned_tasks(alloc, known.events, known.causes, task)?;
    let sorted = of_tasks(alloc, known.events, &tasks)?;
    let walked = of_tasks(alloc, walked, &tasks)?;
    let bytes = kept_json(
        alloc,
        job,
        until,
        known,
        sorted.as_slice(),
        walked.as_slice(),
    )?;
    Ok(bytes)
}

// Returns some events of a story, in order and in the order of the walk, as a document, which is made piece by piece.
fn kept_json(
    alloc: Global,
    job: Name,
    until: Option<u64>,
    known: &Known<'_, '_>,
    sorted: &[&Event],
    walked: &[&Event],
) -> Result<Vec<u8>, AllocError>
    ensures { IfOk result (λ bytes. bytes.items
        ≡ document (kept_json (clock_in known.now) job until (cancelled_from_in known.now) (notes_held known.now) (events_in known.now)
        (map event_in sorted.now) (map event_in walked.now))) }
{
    let mut out = Vec::new(alloc);
    push_events_member(alloc, &mut out, known, sorted)?;
    push_member(alloc, &mut out, "job", &text_value(alloc, job.bytes())?)?;
    push_limit(alloc, &mut out, until)?;
    push_running(alloc, &mut out, known.clock, until, sorted, walked)?;
    out.extend_from_slice(b"}\n")?;
    Ok(out)
}

// Appends the opening brace of the document, and the member `events`.
fn push_events_member(
    alloc: Global,
    out: &mut Vec<u8>,
    known: &Known<'_, '_>,
    sorted: &[&Event],
) -> Result<(), AllocError>
    ensures { OnOk result ((later : Members) → out.new.items ++ members_text true later
        ≡ out.old.items ++ compact_text (object (member (codes "events")
        (list_of (map (event_json (clock_in known.now) (cancelled_from_in known.now) (notes_held known.now) (events_in known.now)) (map event_in sorted.now))) later))) }
{
    out.push(b'{')?;
    push_key(out, "events")?;
    push_events(alloc, out, known, sorted)?;
    Ok(())
}

// Appends the member `limit`.
fn push_limit(alloc: Global, out: &mut Vec<u8>, until: Option<u64>) -> Result<(), AllocError>
    ensures { OnOk result ((later : Members) → out.new.items ++ members_text true later
        ≡ out.old.items ++ members_text true (member (codes "limit") (tick_json until) later)) }
{
    let limit = tick_value(until);
    push_member(alloc, out, "limit", &limit)
}

// Appends the member `running`.
fn push_running(
    alloc: Global,
    out: &mut Vec<u8>,
    clock: Clock,
    until: Option<u64>,
    sorted: &[&Event],
    walked: &[&Event],
) -> Result<(), AllocError>
    ensures { OnOk result ((later : Members) → out.new.items ++ members_text true later
        ≡ out.old.items ++ members_text true (member (codes "running")
        (list_of (running_json clock until (map event_in sorted.now) (map event_in walked.now))) later)) }
{
    let value = running_value(alloc, clock, until, sorted, walked)?;
    push_member(alloc, out, "running", &value)
}

// Returns the tasks that have not ended by the limit as a JSON array.
fn running_value(
    alloc: Global,
    clock: Clock,
    until: Option<u64>,
    sorted: &[&Event],
    walked: &[&Event],
) -> Result<Value, AllocError>
    ensures { IfOk result (λ value. view value ≡ list_of (running_json clock until (map event_in sorted.now) (map event_in walked.now))) }
{
    let tasks = running_until(alloc, clock, until, sorted, walked)?;
    Ok(Value::Array(tasks))
}

// Returns the tasks that have not ended by the limit, if the story is cut off at one.
fn running_until(
    alloc: Global,
    clock: Clock,
    until: Option<u64>,
    sorted: &[&Event],
    walked: &[&Event],
) -> Result<Vec<Value>, AllocError>
    ensures { IfOk result (λ values. map view values.items ≡ running_json clock until (map event_in sorted.now) (map event_in walked.now)) }
{
    match until {
        Some(_) => {
            let tasks = Tasks::of(alloc, sorted, walked)?;
            let values = running_values(alloc, clock, &tasks, walked)?;
            Ok(values)
        }
        None => Ok(Vec::new(alloc)),
    }
}
