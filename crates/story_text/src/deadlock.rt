//! The line about a deadlock.
ghost use Rattle.std.specs.Prelude.{◌≡◌, ◌++◌, Some, OnOk, codes, map};
ghost use Rattle.job_story.specs.Deadlock.{cycle_text, first_cycle, wait_text, waits_text};
ghost use Rattle.job_story.specs.Limit.{running_in};
ghost use Rattle.story_index.specs.Seen.{event_in};
ghost use Rattle.story_waits.specs.Deadlock.{wait_in};

use crate::sentences::push_labelled;
use exceptions::{Label, push_label};
use job_story::Event;
use std::alloc::{AllocError, Global};
use story_waits::{Wait, find_deadlock};

// Appends the line about a deadlock in which tasks are after these events, which are in order, if there is one.
pub(crate) fn push_deadlock(
    alloc: Global,
    out: &mut Vec<u8>,
    events: &[&Event],
) -> Result<(), AllocError>
    ensures { OnOk result (out.new.items ≡ out.old.items
        ++ cycle_text (first_cycle (map event_in events.now) (running_in (map event_in events.now) (map event_in events.now)))) }
{
    let Some(waits) = find_deadlock(alloc, events)? else {
        return Ok(());
    };
    push_cycle(out, waits.as_slice())?;
    Ok(())
}

// Appends the line about a cycle of waits.
fn push_cycle(out: &mut Vec<u8>, waits: &[Wait<'_>]) -> Result<(), AllocError>
    ensures { OnOk result (out.new.items ≡ out.old.items ++ cycle_text (Some (map wait_in waits.now))) }
{
    let Some(last) = waits.last() else {
        return Ok(());
    };
    push_waits(out, last.limiter, waits)
}

// Appends these waits, where the first task holds a token of the given limiter.
fn push_waits(out: &mut Vec<u8>, held: &Label, waits: &[Wait<'_>]) -> Result<(), AllocError>
    ensures { OnOk result (out.new.items ≡ out.old.items ++ waits_text (codes "deadlock: ") held.now (map wait_in waits.now)) }
{
    let mut before: &[u8] = b"deadlock: ";
    let mut held = held;
    'waits: for wait in waits {
        push_wait(out, before, held, wait)?;
        before = b"; ";
        held = wait.limiter;
    }
    out.extend_from_slice(b"\n")
}

// Appends some words, and what a task holds and waits for.
fn push_wait(
    out: &mut Vec<u8>,
    before: &[u8],
    held: &Label,
    wait: &Wait<'_>,
) -> Result<(), AllocError>
    ensures { OnOk result (out.new.items ≡ out.old.items ++ (before.now ++ wait_text held.now (wait_in wait.now))) }
{
    out.extend_from_slice(before)?;
    push_label(out, wait.task)?;
    push_labelled(out, b" holds ", held)?;
    push_labelled(out, b" and waits for ", wait.limiter)
}
