ghost use Rattle.std.specs.Prelude.{◌≡◌, ◌++◌, List, IfOk, OnOk, map};
ghost use Rattle.std.specs.Str.{bytes_eq};
ghost use Rattle.job_meaning.specs.Log.{same_label};
ghost use Rattle.job_story.specs.Held.{event_of};
ghost use Rattle.story_index.specs.Seen.{event_in};
ghost use Rattle.race_text.specs.Copies as copies;
ghost use Rattle.race_text.specs.Copies.{starts_copy, ends_copy, copy_at, open_copy, with_sight, sights_of};
ghost use Rattle.race_text.specs.CopyViews.{label_seen, sight_held};

use exceptions::Label;
use job_meaning::Clock;
use job_story::{Event, What};
use job_tree::Name;
use std::alloc::{AllocError, Global};

// An event of a copy of a task, or of a descendant of the copy, with its tick.
#[derive(Clone, Copy)]
pub(crate) struct Sight<'e> {
    pub copy: &'e Label,
    pub tick: u64,
    pub event: &'e Event,
}

// Returns the events of the tasks with this name and of all their descendants, given the events of a story in the
// order of the walk.
pub(crate) fn sights_of<'e>(
    alloc: Global,
    clock: Clock,
    name: Name,
    walked: &[&'e Event],
) -> Result<Vec<Sight<'e>>, AllocError>
    ensures { IfOk result (λ sights. map sight_held sights.items ≡ sights_of clock name (map event_in walked.now)) }
{
    let mut sights = Vec::new(alloc);
    let mut current = None;
    'events: for event in walked {
        let copy = copy_at(name, current, event);
        push_sight(&mut sights, clock, copy, event)?;
        current = open_copy(copy, event);
    }
    Ok(sights)
}

// Appends an event, if it is of a copy. The clause has what a loop appends later, `later`, on both sides.
fn push_sight<'e>(
    sights: &mut Vec<Sight<'e>>,
    clock: Clock,
    copy: Option<&'e Label>,
    event: &'e Event,
) -> Result<(), AllocError>
    ensures { OnOk result ((later : List copies.Sight) → map sight_held sights.new.items ++ later
        ≡ map sight_held sights.old.items ++ with_sight clock (label_seen copy.entry) (event_of event.entry.now) later) }
{
    let Some(copy) = copy else {
        return Ok(());
    };
    let tick = clock.tick_of(event.tick);
    sights.push(Sight { copy, tick, event })?;
    Ok(())
}

// Returns the copy that an event is of: one that has started, or the one that starts with this event.
fn copy_at<'e>(name: Name, current: Option<&'e Label>, event: &'e Event) -> Option<&'e Label>
    ensures { label_seen result ≡ copy_at name (label_seen current.entry) (event_of event.entry.now) }
{
    match current {
        Some(copy) => Some(copy),
        None => {
            if starts_copy(name, event) {
                Some(&event.task)
            } else {
                None
            }
        }
    }
}

// Returns the copy, if it has not ended after an event of it.
fn open_copy<'e>(copy: Option<&'e Label>, event: &Event) -> Option<&'e Label>
    ensures { label_seen result ≡ open_copy (label_seen copy.entry) (event_of event.now) }
{
    let copy = copy?;
    if ends_copy(copy, event) {
        return None;
    }
    Some(copy)
}

// Returns whether a task with this name starts.
fn starts_copy(name: Name, event: &Event) -> bool
    ensures { result ≡ starts_copy name (event_of event.now) }
{
    matches!(event.what, What::Starts { .. }) && event.task.name() == name
}

// Returns whether this task ends.
fn ends_copy(copy: &Label, event: &Event) -> bool
    ensures { result ≡ ends_copy copy.now (event_of event.now) }
{
    matches!(event.what, What::Ends { .. }) && event.task == *copy
}
