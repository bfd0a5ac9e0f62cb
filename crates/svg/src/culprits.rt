ghost use Rattle.std.specs.Prelude.{◌≡◌, None, map, if◌then◌else◌, nat_le};
ghost use Rattle.std.specs.Option.{option_map};
ghost use Rattle.job_story.specs.Held.{what_of, event_of};
ghost use Rattle.story_index.specs.Found.{cause_in_code};
ghost use Rattle.story_index.specs.Seen.{event_in};
ghost use Rattle.chart.specs.HeldBars.{bar_of};
ghost use Rattle.svg.specs.Arrows.{canceller_by, canceller, own_of, cause_of_label, cause_behind, culprit};
ghost use Rattle.svg.specs.Held.{label_seen, sheet_held, source_held};

use crate::arrows::{Source, is_of_task, source_of};
use crate::scene::Scene;
use chart::Bar;
use exceptions::Label;
use job_story::{Event, Happening, What};
use story_index::Cause;

/// The maximum number of tasks that may have been merely cancelled by one another: blocks are nested at most so deep.
pub const MAX_DEPTH: u64 = 32;

// Returns the task that cancelled something, from the cause of that. A task that was itself merely cancelled is not the one: what
// cancelled it is looked for, in so many steps at most.
pub(crate) fn culprit<'e>(
    scene: &Scene<'e>,
    steps: u64,
    cause: Option<Cause<'e>>,
) -> Option<Source<'e>>
    ensures { option_map source_held result
        ≡ culprit (sheet_held scene.now.sheet.now) (map bar_of scene.now.bars.now) steps (option_map cause_in_code cause.entry) }
{
    let mut behind = cause;
    let mut left = steps;
    'steps: while left > 0 {
        behind = cause_behind(scene, behind);
        left -= 1;
    }
    source_of(behind)
}

// Returns a cause, or, if that is a task that was merely cancelled, why the scope or nursery is cancelled that cancelled the
// task.
fn cause_behind<'e>(scene: &Scene<'e>, cause: Option<Cause<'e>>) -> Option<Cause<'e>>
    ensures { option_map cause_in_code result
        ≡ cause_behind (sheet_held scene.now.sheet.now) (map bar_of scene.now.bars.now) (option_map cause_in_code cause.entry) }
{
    let Some(cause) = cause else {
        return None;
    };
    match cause {
        Cause::Deadline => Some(Cause::Deadline),
        Cause::Task { task, tick } => Some(Cause::Task { task, tick }),
        Cause::Set { task, tick } => Some(Cause::Set { task, tick }),
        Cause::Failure { task, tick } => Some(Cause::Failure { task, tick }),
        Cause::Cancellation { task, tick } => {
            cause_of_label(scene, canceller_of(scene.bars, task, tick))
        }
    }
}

// Returns why a scope or nursery is cancelled, if there is one.
fn cause_of_label<'e>(scene: &Scene<'e>, label: Option<&Label>) -> Option<Cause<'e>>
    ensures { option_map cause_in_code result ≡ cause_of_label (sheet_held scene.now.sheet.now) (label_seen label.entry) }
{
    let Some(label) = label else {
        return None;
    };
    scene.causes.cause(label)
}

// Returns the scope or nursery whose cancellation a task saw last by this moment, by the first of these bars that is the task's.
fn canceller_of<'e>(bars: &[Bar<'_, 'e>], task: &Label, moment: u64) -> Option<&'e Label>
    ensures { label_seen result ≡ canceller moment None (own_of (map bar_of bars.now) task.now) }
{
    'bars: for bar in bars {
        if is_of_task(bar, task) {
            return canceller(moment, bar.own);
        }
    }
    None
}

// Returns the scope or nursery of the last of these events that is a cancellation, and not after this moment.
fn canceller<'e>(moment: u64, events: &[&'e Event]) -> Option<&'e Label>
    ensures { label_seen result ≡ canceller moment None (map event_in events.now) }
{
    let mut found = None;
    'events: for event in events {
        found = later_canceller(found, moment, event);
    }
    found
}

// Returns the scope or nursery whose cancellation the task saw with this event, if that is not after this moment, or else the one
// that was found before.
fn later_canceller<'e>(found: Option<&'e Label>, moment: u64, event: &'e Event) -> Option<&'e Label>
    ensures { label_seen result ≡ (if nat_le event.entry.now.tick moment
        then canceller_by (label_seen found.entry) (what_of event.entry.now.what) else label_seen found.entry) }
{
    if event.tick > moment {
        return found;
    }
    match &event.what {
        What::Happens(Happening::IsCancelled { by, .. }) => by.as_ref(),
        _ => found,
    }
}
