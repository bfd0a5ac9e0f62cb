ghost use Rattle.std.specs.Prelude.{◌≡◌, ◌++◌, ◌&&◌, not, [], ◌∷◌, List, IfOk, OnOk, map, codes, drop};
ghost use Rattle.serde_json.specs.Data.{put as with_member};
ghost use Rattle.serde_json.specs.View.{view, members_view};
ghost use Rattle.exceptions.specs.Exceptions as tree;
ghost use Rattle.job_story.specs.Held.{happening_of, what_of};
ghost use Rattle.job_story.specs.Events as story_events;
ghost use Rattle.job_story.specs.Limit.{has_ended, start_if, is_start, running_in};
ghost use Rattle.story_index.specs.Seen.{event_in};
ghost use Rattle.json_story.specs.Values.{integer, word};
ghost use Rattle.story_index.specs.Lasts.{seen_last};
ghost use Rattle.json_story.specs.Running.{with_idle, with_doing, with_last, task_json};
ghost use Rattle.story_index.specs.Tasks.{sorted_in, walked_in};

use crate::asks::put_ask;
use crate::label_value;
use crate::optional::moment_value;
use exceptions::Label;
use job_meaning::Clock;
use job_story::{Event, Happening, What};
use serde_json::{Map, Value, put};
use std::alloc::{AllocError, Global};
use story_index::Tasks;

// Returns the tasks that have not ended as JSON objects, in the order in which the walk starts them.
pub(crate) fn running_values(
    alloc: Global,
    clock: Clock,
    tasks: &Tasks<'_, '_>,
    walked: &[&Event],
) -> Result<Vec<Value>, AllocError>
    ensures { IfOk result (λ values. map view values.items
        ≡ map (task_json clock (sorted_in tasks.now)) (running_in (walked_in tasks.now) (map event_in walked.now))) }
{
    let mut values = Vec::new(alloc);
    'walked: for event in walked {
        push_if_running(&mut values, alloc, clock, tasks, event)?;
    }
    Ok(values)
}

// Pushes a task, if this event is its start and it has not ended.
fn push_if_running(
    values: &mut Vec<Value>,
    alloc: Global,
    clock: Clock,
    tasks: &Tasks<'_, '_>,
    event: &Event,
) -> Result<(), AllocError>
    ensures { OnOk result ((others : List tree.Label) →
        map view values.new.items ++ map (task_json clock (sorted_in tasks.now)) others
        ≡ map view values.old.items ++ map (task_json clock (sorted_in tasks.now))
        (start_if (is_start (what_of event.now.what) && not (has_ended event.now.task (walked_in tasks.now))) event.now.task others)) }
{
    if !tasks.is_running(event) {
        return Ok(());
    }
    let value = task_value(alloc, clock, tasks, &event.task)?;
    values.push(value)?;
    Ok(())
}

// Returns a task that has not ended as a JSON object.
fn task_value(
    alloc: Global,
    clock: Clock,
    tasks: &Tasks<'_, '_>,
    label: &Label,
) -> Result<Value, AllocError>
    ensures { IfOk result (λ value. view value ≡ task_json clock (sorted_in tasks.now) label.now) }
{
    let mut members = Map::new(alloc);
    let task = label_value(alloc, label)?;
    put(&mut members, alloc, "task", task)?;
    put_last(&mut members, alloc, clock, tasks.last(label))?;
    Ok(Value::Object(members))
}

// Adds what a task is doing, by the last of its events.
fn put_last(
    members: &mut Map<String, Value>,
    alloc: Global,
    clock: Clock,
    last: Option<&Event>,
) -> Result<(), AllocError>
    ensures { OnOk result (members_view members.new.entries ≡ with_last clock (seen_last last.entry) (members_view members.old.entries)) }
{
    match last {
        Some(event) => put_doing(members, alloc, clock, event.tick, &event.what),
        None => put_idle(members, alloc),
    }
}

// Adds what a task is doing after an event: it sleeps, or it waits for a nursery or an event of the job, or in a queue.
fn put_doing(
    members: &mut Map<String, Value>,
    alloc: Global,
    clock: Clock,
    moment: u64,
    what: &What,
) -> Result<(), AllocError>
    ensures { OnOk result (members_view members.new.entries
        ≡ with_doing clock moment (what_of what.now) (members_view members.old.entries)) }
{
    match what {
        What::Starts { .. } => put_idle(members, alloc),
        What::Happens(happening) => put_doing_in(members, alloc, clock, moment, happening),
        What::Ends { .. } => put_idle(members, alloc),
    }
}

// Does the same for what happens to a task between its start and its end.
fn put_doing_in(
    members: &mut Map<String, Value>,
    alloc: Global,
    clock: Clock,
    moment: u64,
    happening: &Happening,
) -> Result<(), AllocError>
    ensures { OnOk result (members_view members.new.entries
        ≡ with_doing clock moment (story_events.happens (happening_of happening.now)) (members_view members.old.entries)) }
{
    match happening {
        Happening::Sleeps { until } => {
            put_state(members, alloc, "sleeping", clock.tick_of(moment))?;
            put(members, alloc, "until", moment_value(clock, *until))
        }
        Happening::Waits { nursery, .. } => {
            put_state(members, alloc, "waiting", clock.tick_of(moment))?;
            let label = label_value(alloc, nursery)?;
            put(members, alloc, "nursery", label)
        }
        Happening::Awaits { event } => {
            put_state(members, alloc, "waiting", clock.tick_of(moment))?;
            let label = label_value(alloc, event)?;
            put(members, alloc, "event", label)
        }
        Happening::Queues { ask, object, .. } => {
            put_state(members, alloc, "waiting", clock.tick_of(moment))?;
            put_ask(members, alloc, *ask, "object", object)
        }
        _ => put_idle(members, alloc),
    }
}

// Adds the word for what a task is doing, and since when.
fn put_state(
    members: &mut Map<String, Value>,
    alloc: Global,
    doing: &str,
    since: u64,
) -> Result<(), AllocError>
    ensures { OnOk result (members_view members.new.entries
        ≡ with_member (codes "since") (integer since) (with_member (codes "doing") (word doing.now) (members_view members.old.entries))) }
{
    let text = Value::try_from_str(alloc, doing)?;
    put(members, alloc, "doing", text)?;
    put(members, alloc, "since", Value::from(since))
}

// Adds that a task waits for nothing.
fn put_idle(members: &mut Map<String, Value>, alloc: Global) -> Result<(), AllocError>
    ensures { OnOk result (members_view members.new.entries ≡ with_idle (members_view members.old.entries)) }
{
    put(members, alloc, "doing", Value::Null)
}
