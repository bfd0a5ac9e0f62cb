ghost use Rattle.std.specs.Prelude.{◌≡◌, ◌≤◌, ◌^◌, length, map, List, Option, IfOk, Some};
ghost use Rattle.input_lines.specs.Part.{range_of, span_of};
ghost use Rattle.input_lines.specs.Kernels.{found_in, head_of, longest_in, needed_in, count_in};
ghost use Rattle.job_meaning.specs.declared.limits.TheConstants.{MAX_INPUT};
ghost use Rattle.job_meaning.specs.Walk.{pace_ticks, label_on};
ghost use Rattle.exceptions.specs.Exceptions.{Label as TreeLabel, raised};
ghost use Rattle.job_meaning.specs.Clocks.{a_round_after, tick_of, wakes_at};
ghost use Rattle.cancel_scopes.specs.Sight.{sight};
ghost use Rattle.job_story.specs.Tell.{failed_at, tell_step, tell_slept, tell_sleep, tell_lines, tell_need, tell_raise, tell_cancel};
ghost use Rattle.job_tree.specs.Blocks.{step_of};
ghost use Rattle.job_tree.specs.InRange.{IsInRangeStep};
ghost use Rattle.job_tree.specs.Names.{size_in};
ghost use Rattle.job_story.specs.Heres.{CanWalk, IsLeaf, tell_paced, here_of, input_of, scene_of, scopes_of, stack_of, tables_of};
ghost use Rattle.job_story.specs.Story.{Story};
ghost use Rattle.job_story.specs.Tales.{IsStretchOf, Tells, now_in};

use crate::asks::close;
use crate::excs::copy_label;
use crate::here::Here;
use crate::notes::{note, note_cancelled, note_sleep};
use crate::own::{add_own, during_sleep, gives_up_at};
use crate::places::spans;
use crate::progress::Progress;
use crate::stretch::Stretch;
use crate::waits::{set, wait_for};
use crate::{During, Happening};
use exceptions::{Exc, Label};
use input_lines::{Answer, FoundLines, Kernel, answer};
use job_meaning::FAR;
use job_tree::{Name, Step, Text};
use std::alloc::AllocError;

// Walks a step that contains no block of steps, from a moment on, and appends its events.
#[inline(never)]
pub(crate) fn tell_leaf<'a>(
    step: &'a Step,
    here: Here<'a, '_>,
    moment: u64,
    progress: &mut Progress,
) -> Result<Stretch, AllocError>
    requires leaf { IsLeaf (step_of step.now) }
    requires in_range { IsInRangeStep (step_of step.now) }
    requires room { CanWalk (size_in (step_of step.now)) here moment }
    ensures { IfOk result (λ w. Tells here.entry.task.now progress.old.events.items w progress.new
        (tell_step (tables_of here.entry) (step_of step.now) (scene_of here.entry) (stack_of here.entry) (now_in moment progress.old))) }
{
    match step {
        Step::Sleep(ticks) => {
            let until = here.clock.wakes_at(*ticks, moment);
            sleep(here, Some(until), *ticks, moment, progress)
        }
        Step::Checkpoint => sleep(here, Some(moment), 0, moment, progress),
        Step::Forever => {
            let ticks = FAR.saturating_sub(here.clock.tick_of(moment));
            sleep(here, None, ticks, moment, progress)
        }
        Step::Pace(per_tick) => pace(here, *per_tick, moment, progress),
        Step::Find(text) => find(here, text, moment, progress),
        Step::Head(count) => head(here, *count, moment, progress),
        Step::Longest => longest(here, moment, progress),
        Step::Need { text, name } => need(here, text, name, moment, progress),
        Step::Raise(name) => raise(here, name, moment, progress),
        Step::Cancel(name) => cancel(here, name, moment, progress),
        Step::Set(name) => set(here, name, moment, progress),
        Step::Wait(name) => wait_for(here, name, moment, progress),
        Step::Close(name) => close(here, name, moment, progress),
        _ => unreachable!(),
    }
}

// Walks a sleep of `ticks` ticks. The event says until which moment it sleeps, or that it sleeps forever if `until` is `None`. It
// ends early if a cancellation is seen.
pub(crate) fn sleep<'a>(
    here: Here<'a, '_>,
    until: Option<u64>,
    ticks: u64,
    moment: u64,
    progress: &mut Progress,
) -> Result<Stretch, AllocError>
    requires few { ticks ≤ 2 ^ 40 }
    requires room { moment ≤ 4611686018427387904 }
    ensures { IfOk result (λ stretch. Tells here.entry.task.now progress.old.events.items stretch progress.new
        (tell_sleep here.entry.clock (scopes_of here.entry) here.entry.in_cleanup until ticks moment)) }
{
    let gives_up = gives_up_at(here.clock, ticks, moment);
    let stretch = doze(here, until, ticks, moment, gives_up, progress)?;
    Ok(stretch)
}

// Walks a sleep that ends in the moment `gives_up` if a cancellation is seen when it begins, or a round after. The task has then
// cancelled nothing itself in its moment.
fn doze<'a>(
    here: Here<'a, '_>,
    until: Option<u64>,
    ticks: u64,
    moment: u64,
    gives_up: u64,
    progress: &mut Progress,
) -> Result<Stretch, AllocError>
    requires few { ticks ≤ 2 ^ 40 }
    requires room { moment ≤ 4611686018427387904 }
    ensures { IfOk result (λ stretch. Tells here.entry.task.now progress.old.events.items stretch progress.new
        (tell_slept (sight (scopes_of here.entry)) ticks moment (a_round_after here.entry.clock moment) gives_up
        (wakes_at here.entry.clock ticks moment) (scopes_of here.entry) here.entry.in_cleanup until)) }
{
    progress.cancelled.clear();
    let end = here.clock.wakes_at(ticks, moment);
    let Some(from) = here.scopes.sight() else {
        note_sleep(here, until, ticks, moment, &mut progress.events)?;
        return Ok(Stretch::at(here.alloc, end));
    };
    if from <= moment {
        note_cancelled(
            here,
            from,
            During::Checkpoint,
            gives_up,
            &mut progress.events,
        )?;
        return Ok(Stretch::failure(here.alloc, Exc::Cancelled, gives_up));
    }
    note_sleep(here, until, ticks, moment, &mut progress.events)?;
    let during = during_sleep(ticks, moment);
    if from <= here.clock.a_round_after(moment) {
        note_cancelled(here, from, during, gives_up, &mut progress.events)?;
        return Ok(Stretch::failure(here.alloc, Exc::Cancelled, gives_up));
    }
    if from <= end {
        note_cancelled(here, from, during, from, &mut progress.events)?;
        return Ok(Stretch::failure(here.alloc, Exc::Cancelled, from));
    }
    Ok(Stretch::at(here.alloc, end))
}

// Walks a sleep of the number of lines of the task's part divided by `per_tick`, rounded up.
pub(crate) fn pace<'a>(
    here: Here<'a, '_>,
    per_tick: u64,
    moment: u64,
    progress: &mut Progress,
) -> Result<Stretch, AllocError>
    requires some { 1 ≤ per_tick }
    requires few { per_tick ≤ 1000000 }
    requires small { length (input_of here) ≤ MAX_INPUT }
    requires room { moment ≤ 4611686018427387904 }
    ensures { IfOk result (λ stretch. Tells here.entry.task.now progress.old.events.items stretch progress.new
        (tell_paced here.entry (pace_ticks (count_in (input_of here.entry) (range_of here.entry.part)) per_tick) moment)) }
{
    let count = line_count(here)?;
    let ticks = (count + (per_tick - 1)) / per_tick;
    let until = here.clock.wakes_at(ticks, moment);
    let gives_up = here.clock.a_round_after(moment);
    let stretch = doze(here, Some(until), ticks, moment, gives_up, progress)?;
    Ok(stretch)
}

// The number of lines of the task's part.
fn line_count(here: Here<'_, '_>) -> Result<u64, AllocError>
    requires { length (input_of here) ≤ MAX_INPUT }
    ensures count { IfOk result (λ n. n ≡ count_in (input_of here.entry) (range_of here.entry.part)) }
    ensures few { IfOk result (λ n. n ≤ MAX_INPUT) }
{
    let Answer::Count(count) = answer(here.alloc, &Kernel::Count, here.part)? else {
        unreachable!()
    };
    Ok(count)
}

// Walks a kernel that answered these lines. It takes no time.
fn show_lines<'a>(
    here: Here<'a, '_>,
    lines: FoundLines<'a>,
    moment: u64,
    progress: &mut Progress,
) -> Result<Stretch, AllocError>
    ensures { IfOk result (λ stretch. Tells here.entry.task.now progress.old.events.items stretch progress.new
        (tell_lines (map span_of lines.entry) (now_in moment progress.old))) }
{
    let lines = spans(here.alloc, lines.as_slice())?;
    let what = Happening::Finds { lines };
    note(here, moment, what, &mut progress.events)?;
    Ok(Stretch::at(here.alloc, moment))
}

// Walks a `find`: the lines of the task's part that contain a string.
pub(crate) fn find<'a>(
    here: Here<'a, '_>,
    text: &'a Text,
    moment: u64,
    progress: &mut Progress,
) -> Result<Stretch, AllocError>
    ensures { IfOk result (λ stretch. Tells here.entry.task.now progress.old.events.items stretch progress.new
        (tell_lines (found_in (input_of here.entry) text.now (range_of here.entry.part)) (now_in moment progress.old))) }
{
    let Answer::Lines(lines) = answer(here.alloc, &Kernel::Find(text.bytes()), here.part)? else {
        unreachable!()
    };
    let stretch = show_lines(here, lines, moment, progress)?;
    Ok(stretch)
}

// Walks a `head`: the first `count` lines of the task's part.
pub(crate) fn head<'a>(
    here: Here<'a, '_>,
    count: u64,
    moment: u64,
    progress: &mut Progress,
) -> Result<Stretch, AllocError>
    ensures { IfOk result (λ stretch. Tells here.entry.task.now progress.old.events.items stretch progress.new
        (tell_lines (head_of (input_of here.entry) count (range_of here.entry.part)) (now_in moment progress.old))) }
{
    let Answer::Lines(lines) = answer(here.alloc, &Kernel::Head(count), here.part)? else {
        unreachable!()
    };
    let stretch = show_lines(here, lines, moment, progress)?;
    Ok(stretch)
}

// Walks a `longest`: the first of the longest lines of the task's part.
pub(crate) fn longest<'a>(
    here: Here<'a, '_>,
    moment: u64,
    progress: &mut Progress,
) -> Result<Stretch, AllocError>
    ensures { IfOk result (λ stretch. Tells here.entry.task.now progress.old.events.items stretch progress.new
        (tell_lines (longest_in (input_of here.entry) (range_of here.entry.part)) (now_in moment progress.old))) }
{
    let Answer::Lines(lines) = answer(here.alloc, &Kernel::Longest, here.part)? else {
        unreachable!()
    };
    let stretch = show_lines(here, lines, moment, progress)?;
    Ok(stretch)
}

// Walks a `need`: the first line of the task's part that contains a string, or an exception of that name if there is none.
pub(crate) fn need<'a>(
    here: Here<'a, '_>,
    text: &'a Text,
    name: &Name,
    moment: u64,
    progress: &mut Progress,
) -> Result<Stretch, AllocError>
    ensures { IfOk result (λ stretch. Tells here.entry.task.now progress.old.events.items stretch progress.new
        (tell_need (needed_in (input_of here.entry) text.now (range_of here.entry.part)) name.now (here_of here.entry)
        (now_in moment progress.old))) }
{
    let Answer::Lines(lines) = answer(here.alloc, &Kernel::Need(text.bytes()), here.part)? else {
        let task = here.task.copy(here.alloc)?;
        let what = Happening::Misses { name: *name };
        note(here, moment, what, &mut progress.events)?;
        return Ok(raised(here, *name, task, moment));
    };
    let stretch = show_lines(here, lines, moment, progress)?;
    Ok(stretch)
}

// Walks a `raise`: an exception of that name.
pub(crate) fn raise<'a>(
    here: Here<'a, '_>,
    name: &Name,
    moment: u64,
    progress: &mut Progress,
) -> Result<Stretch, AllocError>
    ensures { IfOk result (λ stretch. Tells here.entry.task.now progress.old.events.items stretch progress.new
        (tell_raise name.now (here_of here.entry) (now_in moment progress.old))) }
{
    let task = here.task.copy(here.alloc)?;
    let what = Happening::Raises { name: *name };
    note(here, moment, what, &mut progress.events)?;
    Ok(raised(here, *name, task, moment))
}

// A stretch that ended with an exception of that name, which this task raised in this moment.
pub(crate) fn raised(here: Here<'_, '_>, name: Name, task: Label, moment: u64) -> Stretch
    ensures { (own : List TreeLabel) (story : Story) → IsStretchOf result
        (failed_at (raised name task (tick_of here.entry.clock moment)) (record { at = moment; own = own }) story) }
{
    let tick = here.clock.tick_of(moment);
    Stretch::failure(here.alloc, Exc::Raised { name, task, tick }, moment)
}

// Walks a `cancel` of the innermost scope or nursery of that name that encloses the task.
pub(crate) fn cancel<'a>(
    here: Here<'a, '_>,
    name: &Name,
    moment: u64,
    progress: &mut Progress,
) -> Result<Stretch, AllocError>
    ensures { IfOk result (λ stretch. Tells here.entry.task.now progress.old.events.items stretch progress.new
        (tell_cancel here.entry.clock (label_on name.now (scopes_of here.entry)) (now_in moment progress.old))) }
{
    let label = copy_label(here.alloc, here.scopes.label_on(name))?;
    note(
        here,
        moment,
        Happening::Cancels { label },
        &mut progress.events,
    )?;
    let own = copy_label(here.alloc, here.scopes.label_on(name))?;
    add_own(here.clock, own, &mut progress.cancelled)?;
    Ok(Stretch::at(here.alloc, moment))
}
