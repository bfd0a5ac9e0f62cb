//! The events of which a story has most: that a task starts, sleeps or ends. No value is made of them.

ghost use Rattle.std.specs.Prelude.{◌≡◌, ◌++◌, OnOk};
ghost use Rattle.serde_json.specs.Written.{compact_text};
ghost use Rattle.job_story.specs.Held.{unboxed_exc};
ghost use Rattle.json_story.specs.Frequent.{end_json, sleep_json, start_json};

use crate::optional::{exc_or_null, label_or_null, moment_value};
use crate::{label_value, push_first_member, push_member};
use exceptions::{Exc, Label};
use job_meaning::Clock;
use serde_json::Value;
use std::alloc::{AllocError, Global};

// Appends the event that a task begins in a tick, in a nursery or as the root.
pub(crate) fn push_start(
    alloc: Global,
    out: &mut Vec<u8>,
    task: &Label,
    tick: u64,
    nursery: &Option<Label>,
) -> Result<(), AllocError>
    ensures { OnOk result (out.new.items ≡ out.old.items ++ compact_text (start_json task.now tick nursery.now)) }
{
    push_first_member(alloc, out, "event", &Value::try_from_str(alloc, "starts")?)?;
    push_member(alloc, out, "nursery", &label_or_null(alloc, nursery)?)?;
    push_member(alloc, out, "task", &label_value(alloc, task)?)?;
    push_member(alloc, out, "tick", &Value::from(tick))?;
    out.push(b'}')?;
    Ok(())
}

// Appends the event that a task falls asleep in a tick, until a moment or forever.
pub(crate) fn push_sleep(
    alloc: Global,
    out: &mut Vec<u8>,
    task: &Label,
    tick: u64,
    clock: Clock,
    until: Option<u64>,
) -> Result<(), AllocError>
    ensures { OnOk result (out.new.items ≡ out.old.items ++ compact_text (sleep_json clock task.now tick until)) }
{
    push_first_member(alloc, out, "event", &Value::try_from_str(alloc, "sleeps")?)?;
    push_member(alloc, out, "task", &label_value(alloc, task)?)?;
    push_member(alloc, out, "tick", &Value::from(tick))?;
    push_member(alloc, out, "until", &moment_value(clock, until))?;
    out.push(b'}')?;
    Ok(())
}

// How a task ends: its home nursery, its exception, and the moment from which that cancels the nursery.
#[derive(Clone, Copy)]
pub(crate) struct Ending<'e> {
    pub(crate) nursery: &'e Option<Label>,
    pub(crate) exc: &'e Option<Box<Exc>>,
    pub(crate) from: Option<u64>,
}

// Appends the event that a task ends in a tick.
pub(crate) fn push_end(
    alloc: Global,
    out: &mut Vec<u8>,
    task: &Label,
    tick: u64,
    clock: Clock,
    ending: Ending<'_>,
) -> Result<(), AllocError>
    ensures { OnOk result (out.new.items
        ≡ out.old.items ++ compact_text (end_json clock task.now tick ending.entry.nursery.now (unboxed_exc ending.entry.exc.now) ending.entry.from)) }
{
    push_first_member(alloc, out, "event", &Value::try_from_str(alloc, "ends")?)?;
    push_member(alloc, out, "exception", &exc_or_null(alloc, ending.exc)?)?;
    push_member(alloc, out, "from", &moment_value(clock, ending.from))?;
    push_member(
        alloc,
        out,
        "nursery",
        &label_or_null(alloc, ending.nursery)?,
    )?;
    push_member(alloc, out, "task", &label_value(alloc, task)?)?;
    push_member(alloc, out, "tick", &Value::from(tick))?;
    out.push(b'}')?;
    Ok(())
}
