ghost use Rattle.std.specs.Prelude.{◌≡◌, ◌<◌, ◌∷◌, [], ◌++◌, ◌^◌, Bool, Option, OnOk, IfOk, map, max, reverse, List};
ghost use Rattle.std.specs.Option.{option_map};
ghost use Rattle.input_lines.specs.Part.{range_of};
ghost use Rattle.cancel_scopes.specs.Sight.{catches};
ghost use Rattle.exceptions.specs.Held.{exc_of};
ghost use Rattle.job_meaning.specs.Walk.{from_for, home_of, left_with, stack_for};
ghost use Rattle.job_story.specs.Events.{event, starts, ends};
ghost use Rattle.block_exits.specs.Held.{kind_of};
ghost use Rattle.job_story.specs.Held.{during_of, event_of, happening_of, what_of};
ghost use Rattle.job_story.specs.Story.{handles, is_cancelled, Tale};
ghost use Rattle.job_story.specs.Tell.{asleep_for, story_of_one, replacement, seer, tell_gathered, tell_wait};
ghost use Rattle.job_story.specs.declared.event.Event.{Event as HeldEvent};
ghost use Rattle.job_story.specs.Heres.{scopes_of};
ghost use Rattle.job_story.specs.Tales.{Adds, IsLeft, Tells, own_of};

use crate::block::Block;
use crate::excs::{boxed_copy, copy_in_box, copy_label};
use crate::here::Here;
use crate::own::from_for;
use crate::places::range;
use crate::progress::Progress;
use crate::stretch::Stretch;
use crate::{During, Event, Happening, What};
use block_exits::{exc_after, left_with};
use exceptions::{Exc, Label};
use input_lines::Part;
use std::alloc::{AllocError, Global};

// Appends one event of a task.
#[inline(never)]
pub(crate) fn add<'a>(
    alloc: Global,
    task: &Label,
    moment: u64,
    what: What,
    events: &mut Vec<Event>,
) -> Result<(), AllocError>
    ensures { OnOk result (map event_of events.new.items ≡ map event_of events.old.items ++ event moment task.now (what_of what) ∷ []) }
{
    let task = task.copy(alloc)?;
    events.push(Event {
        tick: moment,
        task,
        what,
    })?;
    Ok(())
}

// Appends an event of the task that the walk is in.
#[inline(never)]
pub(crate) fn note<'a>(
    here: Here<'a, '_>,
    moment: u64,
    what: Happening,
    events: &mut Vec<Event>,
) -> Result<(), AllocError>
    ensures { OnOk result (Adds here.entry.task.now events.old.items events.new.items (story_of_one moment (happening_of what))) }
{
    add(here.alloc, here.task, moment, What::Happens(what), events)?;
    Ok(())
}

// Appends the event of a sleep, unless it takes no tick.
#[inline(never)]
pub(crate) fn note_sleep<'a>(
    here: Here<'a, '_>,
    until: Option<u64>,
    ticks: u64,
    moment: u64,
    events: &mut Vec<Event>,
) -> Result<(), AllocError>
    ensures { OnOk result (Adds here.entry.task.now events.old.items events.new.items (asleep_for ticks moment until)) }
{
    if ticks == 0 {
        return Ok(());
    }
    note(here, moment, Happening::Sleeps { until }, events)?;
    Ok(())
}

// Appends the event of a `Cancelled` that is raised in `moment`, because a cancellation from the moment `from` on is seen.
// `during` says what the task does then.
#[inline(never)]
pub(crate) fn note_cancelled<'a>(
    here: Here<'a, '_>,
    from: u64,
    during: During,
    moment: u64,
    events: &mut Vec<Event>,
) -> Result<(), AllocError>
    ensures { OnOk result (Adds here.entry.task.now events.old.items events.new.items
        (story_of_one moment (is_cancelled (seer (scopes_of here.entry) from) (during_of during) here.entry.in_cleanup))) }
{
    let by = copy_label(here.alloc, here.scopes.seer(from))?;
    let what = Happening::IsCancelled {
        by,
        during,
        in_cleanup: here.in_cleanup,
    };
    note(here, moment, what, events)?;
    Ok(())
}

// Appends the event of an exception of a `finally` block that replaces an earlier one, if there are both.
#[inline(never)]
pub(crate) fn note_replaced<'a>(
    here: Here<'a, '_>,
    lost: &Option<Exc>,
    fresh: &Option<Exc>,
    moment: u64,
    events: &mut Vec<Event>,
) -> Result<(), AllocError>
    ensures { OnOk result (Adds here.entry.task.now events.old.items events.new.items
        (replacement (option_map exc_of lost.now) (option_map exc_of fresh.now) moment)) }
{
    let Some(lost) = lost else {
        return Ok(());
    };
    let Some(fresh) = fresh else {
        return Ok(());
    };
    let lost = copy_in_box(here.alloc, lost)?;
    let fresh = copy_in_box(here.alloc, fresh)?;
    note(here, moment, Happening::Replaces { lost, fresh }, events)?;
    Ok(())
}

// Appends the event that a task begins in a moment, on a part of the input.
#[inline(never)]
pub(crate) fn note_start<'a>(
    label: &Label,
    part: Part<'a>,
    here: Here<'a, '_>,
    begins: u64,
    events: &mut Vec<Event>,
) -> Result<(), AllocError>
    ensures { OnOk result (map event_of events.new.items ≡ map event_of events.old.items
        ++ event begins label.now (starts (home_of (scopes_of here.entry)) (range_of part.entry)) ∷ []) }
{
    let home = copy_label(here.alloc, here.scopes.home())?;
    let part = range(part);
    add(
        here.alloc,
        label,
        begins,
        What::Starts { home, part },
        events,
    )?;
    Ok(())
}

// Appends the event that a task ends, as it was walked.
#[inline(never)]
pub(crate) fn note_end<'a>(
    label: &Label,
    stretch: &Stretch,
    here: Here<'a, '_>,
    events: &mut Vec<Event>,
) -> Result<(), AllocError>
    ensures { OnOk result (map event_of events.new.items ≡ map event_of events.old.items
        ++ event stretch.now.end label.now (ends (home_of (scopes_of here.entry)) (option_map exc_of stretch.now.exc)) ∷ []) }
{
    let home = copy_label(here.alloc, here.scopes.home())?;
    let exc = stretch.box_exc(here.alloc)?;
    let what = What::Ends { home, exc };
    add(here.alloc, label, stretch.end(), what, events)?;
    Ok(())
}

// Appends the event that a handler runs for a part of an exception, given the other part. It is a function of its own since the
// time that the proof of `tell_handler` takes grows with the values that are alive at each call that can fail.
#[inline(never)]
pub(crate) fn note_handled<'a>(
    here: Here<'a, '_>,
    moment: u64,
    matched: Exc,
    rest: &Option<Exc>,
    events: &mut Vec<Event>,
) -> Result<(), AllocError>
    ensures { OnOk result (Adds here.entry.task.now events.old.items events.new.items
        (story_of_one moment (handles (exc_of matched) (option_map exc_of rest.now)))) }
{
    let matched = Box::new(here.alloc, matched)?;
    let rest = boxed_copy(here.alloc, rest)?;
    note(here, moment, Happening::Handles { matched, rest }, events)?;
    Ok(())
}

// Ends a nursery whose body was walked: appends the event that the task waits for the children, and gathers their outcomes. What
// the task has cancelled itself no longer counts.
#[inline(never)]
pub(crate) fn wait<'a>(
    label: &Label,
    stretch: Stretch,
    here: Here<'a, '_>,
    progress: &mut Progress,
) -> Result<Stretch, AllocError>
    requires room { max stretch.end stretch.open_until < 2 ^ 63 }
    ensures { IfOk result (λ w. (start : List HeldEvent) (a : Tale) → Tells here.entry.task.now start stretch progress.old a
        → Tells here.entry.task.now start w progress.new (tell_gathered here.entry.clock label.now (tell_wait label.now a))) }
{
    let nursery = label.copy(here.alloc)?;
    let exc = stretch.box_exc(here.alloc)?;
    let what = Happening::Waits { nursery, exc };
    note(here, stretch.end(), what, &mut progress.events)?;
    progress.cancelled.clear();
    let stretch = stretch.gather(here.alloc, here.clock, label)?;
    Ok(stretch)
}

// Leaves a scope or nursery whose inside was walked, and appends that event. What the task has cancelled itself in this moment,
// it sees here at once.
#[inline(never)]
pub(crate) fn leave<'a>(
    block: &Block,
    inside: Stretch,
    here: Here<'a, '_>,
    progress: &mut Progress,
) -> Result<Stretch, AllocError>
    ensures { IfOk result (λ w. IsLeft here.entry.clock here.entry.task.now progress.old.events.items progress.new inside w
        (kind_of block.now.kind) block.now.label (own_of progress.old)
        (left_with (catches (from_for (own_of progress.old) inside.end block.now.label block.now.from) block.now.shield
        (stack_for (own_of progress.old) inside.end (scopes_of here.entry)) inside.end) (option_map exc_of inside.exc))) }
{
    let Stretch { end, exc, .. } = inside;
    let inner = boxed_copy(here.alloc, &exc)?;
    let catches = catches(block, here, progress.cancelled.as_slice(), end);
    let left = left_with(here.alloc, catches, exc)?;
    let caught = left.caught;
    let tick = here.clock.tick_of(end);
    let outer = exc_after(here.alloc, block.kind, &block.label, tick, left)?;
    let label = block.label.copy(here.alloc)?;
    let outside = boxed_copy(here.alloc, &outer)?;
    let what = Happening::Leaves {
        kind: block.kind,
        label,
        inside: inner,
        caught,
        outside,
    };
    note(here, end, what, &mut progress.events)?;
    Ok(Stretch {
        end,
        exc: outer,
        open_until: 0,
        open_excs: Vec::new(here.alloc),
    })
}

// Returns whether a scope or nursery that is left in a moment catches `Cancelled`, for a task that has cancelled some labels
// itself in that moment.
fn catches(block: &Block, here: Here<'_, '_>, cancelled: &[Label], moment: u64) -> bool
    ensures { result ≡ catches (from_for (reverse cancelled.now) moment block.now.label block.now.from) block.now.shield
        (stack_for (reverse cancelled.now) moment (scopes_of here.entry)) moment }
{
    let from = from_for(cancelled, moment, &block.label, block.from);
    here.scopes.catches(from, block.shield, cancelled, moment)
}
