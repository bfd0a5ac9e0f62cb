ghost use Rattle.std.specs.Prelude.{◌≡◌, ◌||◌, false, List, length, OnOk, IfOk, map};
ghost use Rattle.std.specs.Option.{option_map};
ghost use Rattle.exceptions.specs.Exceptions as tree;
ghost use Rattle.job_meaning.specs.Log.{Table};
ghost use Rattle.job_story.specs.Events as story_events;
ghost use Rattle.job_story.specs.Focus.{causer_of, causers_in, concerned_tasks, is_among, task_of, with_causers};
ghost use Rattle.job_story.specs.Held.{event_of, what_of};
ghost use Rattle.story_index.specs.Found.{cause_in_code};
ghost use Rattle.story_index.specs.Knows.{Knows};
ghost use Rattle.story_index.specs.Seen.{event_in};
ghost use Rattle.story_index.specs.Holds.{holds, label_seen};
ghost use Rattle.story_index.specs.Added.{is_added, is_added_by};

use crate::task_set::TaskSet;
use crate::{Cause, Causes};
use exceptions::Label;
use job_story::{Event, Happening, What};
use std::alloc::{AllocError, Global};

/// Returns the tasks that concern a task of a story: the task itself, each task that caused one of its cancellations, each that
/// caused one of theirs, and so on. The index must be one over these events, as `Causes::of` creates it. The events are read once
/// for each step of the longest chain of causes, and once more. Returns `AllocError` if memory runs out.
pub fn concerned_tasks<'e>(
    alloc: Global,
    events: &[&'e Event],
    causes: &Causes<'e>,
    task: &'e Label,
) -> Result<TaskSet<'e>, AllocError>
    ensures { IfOk result (λ tasks. (table : Table) → Knows causes.now table (map event_in events.now) → (l : tree.Label) →
        holds tasks l ≡ is_among l (concerned_tasks table (map event_in events.now) task.entry.now)) }
{
    let mut tasks = TaskSet::none(alloc);
    tasks.add(task)?;
    add_rounds(alloc, events, causes, &mut tasks)?;
    Ok(tasks)
}

// Adds causing tasks in rounds, until a round adds none. There are at most as many rounds as events.
fn add_rounds<'e>(
    alloc: Global,
    events: &[&'e Event],
    causes: &Causes<'e>,
    tasks: &mut TaskSet<'e>,
) -> Result<(), AllocError>
    ensures { OnOk result ((table : Table) (kept : List tree.Label) → Knows causes.now table (map event_in events.now) →
        ((l : tree.Label) → holds tasks.old l ≡ is_among l kept) → (l : tree.Label) →
        holds tasks.new l ≡ is_among l (causers_in (length events.now) table (map event_in events.now) kept)) }
{
    'rounds: for round in 0..events.len() {
        if !add_causers(alloc, events, causes, tasks)? {
            return Ok(());
        }
    }
    Ok(())
}

// Performs one round: adds each task that caused a cancellation of a task of the set, and returns whether it added any.
fn add_causers<'e>(
    alloc: Global,
    events: &[&'e Event],
    causes: &Causes<'e>,
    tasks: &mut TaskSet<'e>,
) -> Result<bool, AllocError>
    ensures grown { OnOk result ((table : Table) (kept : List tree.Label) → Knows causes.now table (map event_in events.now) →
        ((l : tree.Label) → holds tasks.old l ≡ is_among l kept) → (l : tree.Label) →
        holds tasks.new l ≡ is_among l (with_causers table (map event_in events.now) kept (map event_in events.now))) }
    ensures closed { IfOk result (λ grew. grew ≡ false → (l : tree.Label) → holds tasks.new l ≡ holds tasks.old l) }
{
    let added = causers(alloc, events, causes, tasks)?;
    if added.is_empty() {
        return Ok(false);
    }
    tasks.add_all(added)?;
    Ok(true)
}

// Returns the tasks that caused a cancellation of a task of the set, and are not in the set.
fn causers<'e>(
    alloc: Global,
    events: &[&'e Event],
    causes: &Causes<'e>,
    tasks: &TaskSet<'e>,
) -> Result<TaskSet<'e>, AllocError>
    ensures { IfOk result (λ added. (table : Table) (all : List story_events.Event) → Knows causes.now table all → (l : tree.Label) →
        holds added l ≡ is_added (holds tasks.now) table all l (map event_in events.now)) }
{
    let mut added = TaskSet::none(alloc);
    'events: for event in events {
        note_causer(&mut added, causes, tasks, event)?;
    }
    Ok(added)
}

// Adds the task that an event contributes to a round, if there is one.
fn note_causer<'e>(
    added: &mut TaskSet<'e>,
    causes: &Causes<'e>,
    tasks: &TaskSet<'e>,
    event: &Event,
) -> Result<(), AllocError>
    ensures { OnOk result ((table : Table) (all : List story_events.Event) → Knows causes.now table all → (l : tree.Label) →
        holds added.new l ≡ (holds added.old l || is_added_by (holds tasks.now) table all l (event_of event.now))) }
{
    if !tasks.holds(&event.task) {
        return Ok(());
    }
    let Some(causer) = causer_of(causes, &event.what) else {
        return Ok(());
    };
    if tasks.holds(causer) {
        return Ok(());
    }
    added.add(causer)?;
    Ok(())
}

// Returns the task that caused the event, if the event is a cancellation that a task caused.
fn causer_of<'e>(causes: &Causes<'e>, what: &What) -> Option<&'e Label>
    ensures { (table : Table) (all : List story_events.Event) → Knows causes.now table all →
        label_seen result ≡ causer_of table all (what_of what.now) }
{
    let What::Happens(Happening::IsCancelled { by: Some(by), .. }) = what else {
        return None;
    };
    task_of(causes.cause(by))
}

// Returns the task of a cause, or `None` if the cause is a deadline.
fn task_of<'e>(cause: Option<Cause<'e>>) -> Option<&'e Label>
    ensures { label_seen result ≡ task_of (option_map cause_in_code cause.entry) }
{
    let Some(cause) = cause else {
        return None;
    };
    match cause {
        Cause::Deadline => None,
        Cause::Task { task, .. } => Some(task),
        Cause::Set { task, .. } => Some(task),
        Cause::Failure { task, .. } => Some(task),
        Cause::Cancellation { task, .. } => Some(task),
    }
}
