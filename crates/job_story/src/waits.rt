ghost use Rattle.std.specs.Prelude.{◌≡◌, ◌≤◌, Some, OnOk, IfOk};
ghost use Rattle.job_meaning.specs.Walk.{event_on, label_on, set_moment};
ghost use Rattle.job_meaning.specs.Clocks.{a_round_after};
ghost use Rattle.cancel_scopes.specs.Sight.{sight};
ghost use Rattle.job_story.specs.Story.{awaits, happened, is_cancelled, waiting_for, was_set};
ghost use Rattle.job_story.specs.Tell.{seer, story_of_one, tell_event_wait, tell_set, tell_sleep, tell_waiting, with_set};
ghost use Rattle.job_story.specs.Heres.{open_events, scopes_of};
ghost use Rattle.job_story.specs.Tales.{Adds, Tells, now_in};

use crate::excs::copy_label;
use crate::here::Here;
use crate::leaves::sleep;
use crate::notes::{note, note_cancelled};
use crate::own::add_own;
use crate::progress::Progress;
use crate::stretch::Stretch;
use crate::{During, Event, Happening};
use exceptions::{Exc, Label};
use job_meaning::{Clock, FAR};
use job_tree::Name;
use std::alloc::AllocError;

// Walks a `set` of the innermost event of that name that encloses the task.
pub(crate) fn set<'a>(
    here: Here<'a, '_>,
    name: &Name,
    moment: u64,
    progress: &mut Progress,
) -> Result<Stretch, AllocError>
    ensures { IfOk result (λ stretch. Tells here.entry.task.now progress.old.events.items stretch progress.new
        (tell_set here.entry.clock (label_on name.now (open_events here.entry)) (now_in moment progress.old))) }
{
    let label = copy_label(here.alloc, here.events.label_on(name))?;
    note(
        here,
        moment,
        Happening::Sets { label },
        &mut progress.events,
    )?;
    let own = copy_label(here.alloc, here.events.label_on(name))?;
    add_own(here.clock, own, &mut progress.cancelled)?;
    Ok(Stretch::at(here.alloc, moment))
}

// Walks a `wait` for the innermost event of that name that encloses the task. Where that is set by the next round, it is a
// checkpoint.
pub(crate) fn wait_for<'a>(
    here: Here<'a, '_>,
    name: &Name,
    moment: u64,
    progress: &mut Progress,
) -> Result<Stretch, AllocError>
    requires room { moment ≤ 4611686018427387904 }
    ensures { IfOk result (λ stretch. Tells here.entry.task.now progress.old.events.items stretch progress.new
        (tell_event_wait here.entry.clock (scopes_of here.entry) here.entry.in_cleanup (event_on name.now (open_events here.entry))
        (now_in moment progress.old))) }
{
    let Some(event) = here.events.level_on(name) else {
        return Ok(Stretch::at(here.alloc, moment));
    };
    let set = set_moment(here.clock, event.from, moment);
    if set <= here.clock.a_round_after(moment) {
        let stretch = check_event(here, &event.label, moment, progress)?;
        return Ok(stretch);
    }
    let stretch = await_event(here, &event.label, set, moment, progress)?;
    Ok(stretch)
}

// Returns the moment in which a wait from `moment` on ends for an event that is set from the moment `from` on. No wait lasts
// longer than `forever`.
fn set_moment(clock: Clock, from: Option<u64>, moment: u64) -> u64
    requires { moment ≤ 4611686018427387904 }
    ensures { result ≡ set_moment clock from moment }
{
    let ticks = FAR.saturating_sub(clock.tick_of(moment));
    let last = clock.wakes_at(ticks, moment);
    match from {
        None => last,
        Some(from) => from.min(last),
    }
}

// Walks a wait for an event that is set by the next round.
fn check_event<'a>(
    here: Here<'a, '_>,
    label: &Label,
    moment: u64,
    progress: &mut Progress,
) -> Result<Stretch, AllocError>
    requires room { moment ≤ 4611686018427387904 }
    ensures { IfOk result (λ stretch. Tells here.entry.task.now progress.old.events.items stretch progress.new
        (with_set label.now (tell_sleep here.entry.clock (scopes_of here.entry) here.entry.in_cleanup (Some moment) 0 moment))) }
{
    let stretch = sleep(here, Some(moment), 0, moment, progress)?;
    if stretch.has_failed() {
        return Ok(stretch);
    }
    note_set(here, label, stretch.end(), &mut progress.events)?;
    Ok(stretch)
}

// Walks a wait from a moment on for an event that is set in the moment `set`, after the next round. The task has then cancelled
// nothing itself in its moment.
fn await_event<'a>(
    here: Here<'a, '_>,
    label: &Label,
    set: u64,
    moment: u64,
    progress: &mut Progress,
) -> Result<Stretch, AllocError>
    requires room { moment ≤ 4611686018427387904 }
    ensures { IfOk result (λ stretch. Tells here.entry.task.now progress.old.events.items stretch progress.new
        (tell_waiting (sight (scopes_of here.entry)) moment (a_round_after here.entry.clock moment) set (scopes_of here.entry)
        here.entry.in_cleanup label.now)) }
{
    progress.cancelled.clear();
    let Some(from) = here.scopes.sight() else {
        note_waited(here, label, moment, set, &mut progress.events)?;
        return Ok(Stretch::at(here.alloc, set));
    };
    let gives_up = here.clock.a_round_after(moment).max(from);
    if from <= moment {
        note_cancelled(
            here,
            from,
            During::Checkpoint,
            gives_up,
            &mut progress.events,
        )?;
        return Ok(Stretch::failure(here.alloc, Exc::Cancelled, gives_up));
    }
    if from < set {
        note_given_up(here, label, from, moment, gives_up, &mut progress.events)?;
        return Ok(Stretch::failure(here.alloc, Exc::Cancelled, gives_up));
    }
    note_waited(here, label, moment, set, &mut progress.events)?;
    Ok(Stretch::at(here.alloc, set))
}

// Appends the event that the task begins to wait for an event of the job.
fn note_wait<'a>(
    here: Here<'a, '_>,
    label: &Label,
    moment: u64,
    events: &mut Vec<Event>,
) -> Result<(), AllocError>
    ensures { OnOk result (Adds here.entry.task.now events.old.items events.new.items (story_of_one moment (awaits label.now))) }
{
    let event = label.copy(here.alloc)?;
    note(here, moment, Happening::Awaits { event }, events)?;
    Ok(())
}

// Appends the event that the task goes on, since an event of the job is set.
fn note_set<'a>(
    here: Here<'a, '_>,
    label: &Label,
    moment: u64,
    events: &mut Vec<Event>,
) -> Result<(), AllocError>
    ensures { OnOk result (Adds here.entry.task.now events.old.items events.new.items (story_of_one moment (was_set label.now))) }
{
    let event = label.copy(here.alloc)?;
    note(here, moment, Happening::WasSet { event }, events)?;
    Ok(())
}

// Appends the events of a wait from a moment on that ends in the moment `set`.
fn note_waited<'a>(
    here: Here<'a, '_>,
    label: &Label,
    moment: u64,
    set: u64,
    events: &mut Vec<Event>,
) -> Result<(), AllocError>
    ensures { OnOk result (Adds here.entry.task.now events.old.items events.new.items
        (happened moment (awaits label.now) (story_of_one set (was_set label.now)))) }
{
    note_wait(here, label, moment, events)?;
    note_set(here, label, set, events)?;
    Ok(())
}

// Appends the events of a wait from a moment on that ends with `Cancelled` in the moment `gives_up`, because a cancellation from
// the moment `from` on is seen.
fn note_given_up<'a>(
    here: Here<'a, '_>,
    label: &Label,
    from: u64,
    moment: u64,
    gives_up: u64,
    events: &mut Vec<Event>,
) -> Result<(), AllocError>
    ensures { OnOk result (Adds here.entry.task.now events.old.items events.new.items
        (happened moment (awaits label.now) (story_of_one gives_up
        (is_cancelled (seer (scopes_of here.entry) from) (waiting_for label.now moment) here.entry.in_cleanup)))) }
{
    note_wait(here, label, moment, events)?;
    let during = During::Waiting {
        event: label.copy(here.alloc)?,
        since: moment,
    };
    note_cancelled(here, from, during, gives_up, events)?;
    Ok(())
}
