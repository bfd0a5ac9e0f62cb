ghost use Rattle.std.specs.Prelude.{◌≡◌, IfOk};
ghost use Rattle.serde_json.specs.View.{view};
ghost use Rattle.job_story.specs.Held.{unboxed_exc};
ghost use Rattle.json_story.specs.Events.{tick_json, moment_json, label_or_null, exc_or_null};

use crate::{exc_value, label_value};
use exceptions::{Exc, Label};
use job_meaning::Clock;
use serde_json::Value;
use std::alloc::{AllocError, Global};

// Returns a tick, or `null` for never.
pub(crate) fn tick_value(tick: Option<u64>) -> Value
    ensures { view result ≡ tick_json tick }
{
    match tick {
        Some(tick) => Value::from(tick),
        None => Value::Null,
    }
}

// Returns the tick of a moment, or `null` for never.
pub(crate) fn moment_value(clock: Clock, moment: Option<u64>) -> Value
    ensures { view result ≡ moment_json clock moment }
{
    match moment {
        Some(moment) => Value::from(clock.tick_of(moment)),
        None => Value::Null,
    }
}

// Returns a label, or `null`.
pub(crate) fn label_or_null(alloc: Global, label: &Option<Label>) -> Result<Value, AllocError>
    ensures { IfOk result (λ value. view value ≡ label_or_null label.now) }
{
    match label {
        Some(label) => label_value(alloc, label),
        None => Ok(Value::Null),
    }
}

// Returns an exception, or `null`.
pub(crate) fn exc_or_null(alloc: Global, exc: &Option<Box<Exc>>) -> Result<Value, AllocError>
    ensures { IfOk result (λ value. view value ≡ exc_or_null (unboxed_exc exc.now)) }
{
    match exc {
        Some(exc) => exc_value(alloc, exc),
        None => Ok(Value::Null),
    }
}
