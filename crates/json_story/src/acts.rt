ghost use Rattle.std.specs.Prelude.{◌≡◌, Some, IfOk, codes};
ghost use Rattle.serde_json.specs.View.{view};
ghost use Rattle.story_index.specs.Found.{cause_in_code};
ghost use Rattle.json_story.specs.Events.{act_json, cause_json, why_json};
ghost use Rattle.json_story.specs.Known.{clock_in, events_in, cancelled_from_in};

use crate::known::Known;
use crate::label_value;
use exceptions::Label;
use job_meaning::Clock;
use serde_json::{Value, json};
use std::alloc::{AllocError, Global};
use story_index::Cause;

// Returns why a scope or nursery is cancelled, or an event of the job set, or `null`.
pub(crate) fn why_value(
    alloc: Global,
    known: &Known<'_, '_>,
    label: &Option<Label>,
) -> Result<Value, AllocError>
    ensures { IfOk result (λ value. view value ≡ why_json (clock_in known.now) (cancelled_from_in known.now) (events_in known.now) label.now) }
{
    let Some(label) = label else {
        return Ok(Value::Null);
    };
    let Some(cause) = known.cause(label) else {
        return Ok(Value::Null);
    };
    cause_value(alloc, known.clock, &cause)
}

// Returns a cause.
fn cause_value(alloc: Global, clock: Clock, cause: &Cause<'_>) -> Result<Value, AllocError>
    ensures { IfOk result (λ value. view value ≡ cause_json clock (Some (cause_in_code cause.now))) }
{
    match cause {
        Cause::Deadline => json!(in alloc; {"cause": "deadline"}),
        Cause::Task { task, tick } => act_value(alloc, "cancel", task, clock.tick_of(*tick)),
        Cause::Set { task, tick } => act_value(alloc, "set", task, clock.tick_of(*tick)),
        Cause::Failure { task, tick } => act_value(alloc, "failure", task, clock.tick_of(*tick)),
        Cause::Cancellation { task, tick } => act_value(
            alloc,
            "cancellation",
            task,
            clock.tick_of(*tick),
        ),
    }
}

// Returns a cause by what a task did in a tick.
fn act_value(alloc: Global, cause: &str, task: &Label, tick: u64) -> Result<Value, AllocError>
    ensures { IfOk result (λ value. view value ≡ act_json cause.now task.now tick) }
{
    let by = label_value(alloc, task)?;
    json!(in alloc; {"cause": cause, "task": by, "tick": tick})
}
