//! What tasks ask of limiters and channels.
ghost use Rattle.std.specs.Prelude.{◌≡◌, ◌≤◌, ◌<◌, suc, nat_le, [], None, Some, OnOk, IfOk, reverse};
ghost use Rattle.std.specs.Option.{ForSome, option_copied, option_map};
ghost use Rattle.exceptions.specs.Exceptions as tree;
ghost use Rattle.cancel_scopes.specs.Sight.{seen, sight};
ghost use Rattle.input_lines.specs.Part.{range_of};
ghost use Rattle.job_meaning.specs.Clocks.{gives_up_at, tick_of};
ghost use Rattle.job_meaning.specs.GrantTable.{AreGrantsOf, granted_of};
ghost use Rattle.job_meaning.specs.declared.grant_table.Granted.{Granted as HeldGranted};
ghost use Rattle.objects.specs.Held.{IsGrantOf};
ghost use Rattle.job_meaning.specs.Moments.{only_at};
ghost use Rattle.job_meaning.specs.Walk.{in_time, label_on, last_grant, leaves_queue, stack_for};
ghost use Rattle.job_story.specs.Heres.{grants_of, input_of, open_events, scene_of, scopes_of};
ghost use Rattle.job_story.specs.Held.{asked_of};
ghost use Rattle.job_story.specs.Story.{deadlocks, finds_closed, gets, gives_token_back, queues};
ghost use Rattle.job_story.specs.Tales.{Adds, Tells, now_in};
ghost use Rattle.job_story.specs.Tell.{asked_if, blamed_at, failed_at, queues_if, story_of_one, tell_close, tell_leaving, tell_unasked};

use crate::excs::copy_label;
use crate::here::Here;
use crate::leaves::raised;
use crate::notes::{note, note_cancelled};
use crate::own::gives_up_at;
use crate::places::range;
use crate::progress::Progress;
use crate::stretch::Stretch;
use crate::{Asked, During, Event, Happening};
use block_exits::deadlock;
use cancel_scopes::is_reached;
use exceptions::{Exc, Label};
use job_meaning::{FAR, Granted};
use job_tree::{Ask, Name};
use std::alloc::AllocError;

// Walks a `close` of the innermost channel of that name that encloses the task.
pub(crate) fn close<'a>(
    here: Here<'a, '_>,
    name: &Name,
    moment: u64,
    progress: &mut Progress,
) -> Result<Stretch, AllocError>
    ensures { IfOk result (λ stretch. Tells here.entry.task.now progress.old.events.items stretch progress.new
        (tell_close (label_on name.now (open_events here.entry)) (now_in moment progress.old))) }
{
    let object = copy_label(here.alloc, here.events.label_on(name))?;
    note(
        here,
        moment,
        Happening::ClosesChannel { object },
        &mut progress.events,
    )?;
    Ok(Stretch::at(here.alloc, moment))
}

// Returns whether a task that has cancelled some labels itself in a moment sees a cancellation in it.
pub(crate) fn sees(here: Here<'_, '_>, cancelled: &[Label], moment: u64) -> bool
    ensures { result ≡ seen (stack_for (reverse cancelled.now) moment (scopes_of here.entry)) moment }
{
    is_reached(here.scopes.sight_for(cancelled, moment), moment)
}

// Walks the cancellation of a task that does not ask, since it sees one.
pub(crate) fn unasked<'a>(
    here: Here<'a, '_>,
    ask: Ask,
    object: &Label,
    moment: u64,
    progress: &mut Progress,
) -> Result<Stretch, AllocError>
    requires room { moment ≤ 4611686018427387904 }
    ensures { IfOk result (λ stretch. Tells here.entry.task.now progress.old.events.items stretch progress.new
        (tell_unasked ask object.now (scene_of here.entry) (scopes_of here.entry) (gives_up_at here.entry.clock 0 moment))) }
{
    progress.cancelled.clear();
    let gives_up = gives_up_at(here.clock, 0, moment);
    let by = copy_label(here.alloc, blamed_at(here, gives_up))?;
    let object = object.copy(here.alloc)?;
    let what = Happening::IsCancelled {
        by,
        during: During::BeforeAsking { ask, object },
        in_cleanup: here.in_cleanup,
    };
    note(here, gives_up, what, &mut progress.events)?;
    Ok(Stretch::failure(here.alloc, Exc::Cancelled, gives_up))
}

// Returns the scope or nursery whose cancellation is seen, if it has come by a moment.
fn blamed_at<'s>(here: Here<'_, 's>, moment: u64) -> Option<&'s Label>
    ensures { option_copied result ≡ blamed_at (scopes_of here.entry) moment (sight (scopes_of here.entry)) }
{
    match here.scopes.sight() {
        Some(from) if from <= moment => here.scopes.seer(from),
        _ => None,
    }
}

// Returns the moment in which a task leaves the queue that asks in this one: that of a cancellation, or the last in which it can be
// granted something.
fn leaves_queue(here: Here<'_, '_>, moment: u64) -> u64
    requires room { moment ≤ 4611686018427387904 }
    ensures { result ≡ leaves_queue (sight (scopes_of here.entry)) (last_grant here.entry.clock moment) }
{
    let last = here.clock.start_of(FAR).max(moment + 1);
    match here.scopes.sight() {
        None => last,
        Some(from) => from.min(last),
    }
}

// Returns what is granted to the task that asks in this moment, before it leaves the queue.
pub(crate) fn granted<'a>(
    here: Here<'a, '_>,
    object: &Label,
    moment: u64,
) -> Result<Option<Granted<'a>>, AllocError>
    requires room { moment ≤ 4611686018427387904 }
    requires lent { AreGrantsOf (input_of here) here.grants.now }
    ensures granted { IfOk result (λ granted. option_map granted_of granted
        ≡ in_time moment (leaves_queue (sight (scopes_of here.entry)) (last_grant here.entry.clock moment))
        (grants_of here.entry object.now here.entry.task.now moment)) }
    ensures lent { IfOk result (λ granted. ForSome granted (λ (g : HeldGranted). IsGrantOf (input_of here.entry) g.grant)) }
{
    let left = leaves_queue(here, moment);
    let Some(granted) = here.grants.granted(here.alloc, object, here.task, moment)? else {
        return Ok(None);
    };
    if moment < granted.at && granted.at <= left {
        return Ok(Some(granted));
    }
    Ok(None)
}

// Walks a wait in the queue from a moment on, which the task leaves: it is cancelled, or has waited as long as `forever`.
pub(crate) fn leave_queue<'a>(
    here: Here<'a, '_>,
    ask: Ask,
    object: &Label,
    moment: u64,
    progress: &mut Progress,
) -> Result<Stretch, AllocError>
    requires room { moment ≤ 4611686018427387904 }
    ensures { IfOk result (λ stretch. Tells here.entry.task.now progress.old.events.items stretch progress.new
        (tell_leaving ask object.now (scene_of here.entry) (scopes_of here.entry) moment
        (leaves_queue (sight (scopes_of here.entry)) (last_grant here.entry.clock moment)))) }
{
    progress.cancelled.clear();
    let left = leaves_queue(here, moment);
    note_queue(here, ask, object, moment, Some(left), &mut progress.events)?;
    if is_reached(here.scopes.sight(), left) {
        let object = object.copy(here.alloc)?;
        let during = During::InQueue {
            ask,
            object,
            since: moment,
        };
        note_cancelled(here, left, during, left, &mut progress.events)?;
        return Ok(Stretch::failure(here.alloc, Exc::Cancelled, left));
    }
    note_deadlock(here, ask, object, left, &mut progress.events)?;
    let task = here.task.copy(here.alloc)?;
    Ok(raised(here, deadlock(), task, left))
}

// Appends the event that a task waits in the queue of a limiter or channel.
fn note_queue<'a>(
    here: Here<'a, '_>,
    ask: Ask,
    object: &Label,
    moment: u64,
    left: Option<u64>,
    events: &mut Vec<Event>,
) -> Result<(), AllocError>
    ensures { OnOk result (Adds here.entry.task.now events.old.items events.new.items
        (story_of_one moment (queues ask object.now (range_of here.entry.part) left))) }
{
    let object = object.copy(here.alloc)?;
    let part = range(here.part);
    let what = Happening::Queues {
        ask,
        object,
        part,
        left,
    };
    note(here, moment, what, events)?;
    Ok(())
}

// Appends the event that a task has waited in the queue as long as `forever`.
fn note_deadlock<'a>(
    here: Here<'a, '_>,
    ask: Ask,
    object: &Label,
    moment: u64,
    events: &mut Vec<Event>,
) -> Result<(), AllocError>
    ensures { OnOk result (Adds here.entry.task.now events.old.items events.new.items (story_of_one moment (deadlocks ask object.now))) }
{
    let object = object.copy(here.alloc)?;
    note(here, moment, Happening::Deadlocks { ask, object }, events)?;
    Ok(())
}

// Appends the event that a task waits in the queue, unless it is granted what it asked in the next round; then it returns that.
pub(crate) fn note_asked<'a>(
    here: Here<'a, '_>,
    ask: Ask,
    object: &Label,
    moment: u64,
    at: u64,
    events: &mut Vec<Event>,
) -> Result<Option<Asked>, AllocError>
    requires later { moment < at }
    ensures events { OnOk result (Adds here.entry.task.now events.old.items events.new.items
        (queues_if (nat_le at (suc moment)) ask object.now (range_of here.entry.part) moment)) }
    ensures at_once { IfOk result (λ asked. option_map asked_of asked ≡ asked_if (nat_le at (suc moment)) ask moment (range_of here.entry.part)) }
{
    if at - moment == 1 {
        return Ok(Some(Asked {
            ask,
            since: moment,
            part: range(here.part),
        }));
    }
    note_queue(here, ask, object, moment, None, events)?;
    Ok(None)
}

// Appends the event that a task is granted what it asked.
pub(crate) fn note_got<'a>(
    here: Here<'a, '_>,
    ask: Ask,
    object: &Label,
    at_once: Option<Asked>,
    moment: u64,
    events: &mut Vec<Event>,
) -> Result<(), AllocError>
    ensures { OnOk result (Adds here.entry.task.now events.old.items events.new.items
        (story_of_one moment (gets ask object.now (option_map asked_of at_once)))) }
{
    let object = object.copy(here.alloc)?;
    let what = Happening::Gets {
        ask,
        object,
        at_once,
    };
    note(here, moment, what, events)?;
    Ok(())
}

// Walks the exception of a task that finds a channel closed.
pub(crate) fn find_closed<'a>(
    here: Here<'a, '_>,
    ask: Ask,
    object: &Label,
    at_once: Option<Asked>,
    name: Name,
    moment: u64,
    progress: &mut Progress,
) -> Result<Stretch, AllocError>
    requires clear { progress.old.cancelled.items ≡ [] }
    ensures { IfOk result (λ stretch. Tells here.entry.task.now progress.old.events.items stretch progress.new
        (failed_at (tree.raised name here.entry.task.now (tick_of here.entry.clock moment)) (only_at moment)
        (story_of_one moment (finds_closed ask object.now (option_map asked_of at_once))))) }
{
    let object = object.copy(here.alloc)?;
    let what = Happening::FindsClosed {
        ask,
        object,
        at_once,
    };
    note(here, moment, what, &mut progress.events)?;
    let task = here.task.copy(here.alloc)?;
    Ok(raised(here, name, task, moment))
}

// Appends the event that the token of a task comes back.
pub(crate) fn note_token_back<'a>(
    here: Here<'a, '_>,
    object: &Label,
    moment: u64,
    events: &mut Vec<Event>,
) -> Result<(), AllocError>
    ensures { OnOk result (Adds here.entry.task.now events.old.items events.new.items (story_of_one moment (gives_token_back object.now))) }
{
    let object = object.copy(here.alloc)?;
    note(here, moment, Happening::GivesTokenBack { object }, events)?;
    Ok(())
}
