//! `task_machine`: what a new world and a root task are, and what a root's first turn notes, opens and starts.

ghost use Rattle.std.specs.Prelude.{◌≡◌, ℕ, ◌≤◌, ◌^◌, IfOk};
ghost use Rattle.task_machine.specs.Fitting.{Fits, waits_of};
ghost use Rattle.task_machine.specs.States.{state_of};
ghost use Rattle.task_machine.specs.Tasks.{lent_of};
ghost use Rattle.task_machine.specs.Waking.{IsInRangeTaskState, WakesFrom};
ghost use Rattle.task_machine.specs.declared.stop.Stop.TheVariants as stops;
ghost use Rattle.task_machine.specs.declared.stop.Wake.TheVariants as wakes;

use crate::fixtures::{job, label, push_bytes, push_exc, push_label, push_number, root, wrong};
use cancel_scopes::ScopeId;
use clock::TaskId;
use exceptions::Label;
use input_lines::Part;
use job_meaning::{Clock, MAX_INPUT};
use job_reader::{Job, spelled_jobs_are_sound};
use std::alloc::{AllocError, Global};
use std::test::Fail;
use task_machine::{Entry, ScopeFrom, Stop, Task, Wake, World};

// The result of a root's first turn.
#[derive(Drop)]
struct Turned<'a> {
    task: Task<'a>,
    world: World<'a>,
    stop: Stop<'a>,
}

// The first turn of a job's root, in a new world at that tick. A root that fell asleep may continue.
fn first_turn<'a>(alloc: Global, job: &'a Job, tick: u64) -> Result<Turned<'a>, Fail>
    requires { tick ≤ 2 ^ 62 }
    ensures tick { IfOk result (λ t. t.world.tick ≡ tick) }
    ensures in_range { IfOk result (λ t. IsInRangeTaskState t.task.task_state) }
    ensures fits { IfOk result (λ t. Fits (state_of t.task t.world) (waits_of t.task.task_state)) }
    ensures asleep { IfOk result (λ t. (due : ℕ) → t.stop ≡ stops.Sleep due →
        WakesFrom t.task.task_state (lent_of t.task) t.world.book wakes.Due) }
{
    let part = Part::whole(b"one\ntwo\n");
    if part.buffer().len() > MAX_INPUT {
        return Err("the part is too long")?;
    }
    let mut task = Task::root(alloc, job, part)?;
    let mut world = World::new(alloc, Clock::ByTicks);
    world.set_now(tick);
    spelled_jobs_are_sound();
    let _steps = job.steps();
    let stop = task.turn(TaskId::of(0), Wake::Begin, &mut world)?;
    Ok(Turned { task, world, stop })
}

// Appends a scope or a nursery that was left, as `a@0;`, with a mark if it caught a `Cancelled`.
fn push_left(text: &mut Vec<u8>, label: &Label, tick: u64, caught: bool) -> Result<(), AllocError> {
    push_label(text, label)?;
    push_bytes(text, b"@")?;
    push_number(text, tick)?;
    push_bytes(text, if caught { b"!;" } else { b";" })
}

// Appends something that a task noted.
fn push_entry(text: &mut Vec<u8>, entry: &Entry<'_>) -> Result<(), AllocError> {
    match entry {
        Entry::Line(_) => push_bytes(text, b"line;"),
        Entry::Scope {
            label,
            tick,
            caught,
        } => push_left(text, label, *tick, *caught),
        Entry::Nursery {
            label,
            tick,
            caught,
        } => push_left(text, label, *tick, *caught),
        Entry::Wait { label, tick } => {
            push_bytes(text, b"wait ")?;
            push_left(text, label, *tick, false)
        }
        Entry::Granted { label, tick, .. } => {
            push_bytes(text, b"granted ")?;
            push_left(text, label, *tick, false)
        }
    }
}

// Appends what a task noted.
fn push_entries(text: &mut Vec<u8>, entries: &[Entry<'_>]) -> Result<(), AllocError> {
    for entry in entries {
        push_entry(text, entry)?;
    }
    Ok(())
}

// Appends the tick from which each scope was cancelled, as `a=1;b=-;`.
fn push_cancelled_from(text: &mut Vec<u8>, cancelled_from: &[ScopeFrom]) -> Result<(), AllocError> {
    for from in cancelled_from {
        push_label(text, &from.label)?;
        push_bytes(text, b"=")?;
        match from.seen {
            Some(tick) => push_number(text, tick)?,
            None => push_bytes(text, b"-")?,
        }
        push_bytes(text, b";")?;
    }
    Ok(())
}

// Appends where a turn stopped: `end` if the task ended without an exception, and the exception if it ended with one.
fn push_stop(text: &mut Vec<u8>, stop: &Stop<'_>) -> Result<(), AllocError> {
    match stop {
        Stop::Ask(_) => push_bytes(text, b"ask"),
        Stop::Sleep(_) => push_bytes(text, b"sleep"),
        Stop::GiveUp(_) => push_bytes(text, b"give up"),
        Stop::Wait(_) => push_bytes(text, b"wait"),
        Stop::WaitFor(_) => push_bytes(text, b"wait for"),
        Stop::Queue(_) => push_bytes(text, b"queue"),
        Stop::Ended(None) => push_bytes(text, b"end"),
        Stop::Ended(Some(exc)) => push_exc(text, exc),
    }
}

// Appends what a task noted, from which ticks its scopes were cancelled, and where its turn stopped.
fn push_turned(text: &mut Vec<u8>, turned: &Turned<'_>) -> Result<(), AllocError> {
    push_entries(text, turned.task.entries())?;
    push_bytes(text, b"|")?;
    push_cancelled_from(text, turned.task.cancelled_from())?;
    push_bytes(text, b"|")?;
    push_stop(text, &turned.stop)
}

// The text of a turn.
fn text_of_turned(alloc: Global, turned: &Turned<'_>) -> Result<Vec<u8>, AllocError> {
    let mut text = Vec::new(alloc);
    push_turned(&mut text, turned)?;
    Ok(text)
}

// The text of a root's first turn.
fn text_of_turn(alloc: Global, job: &Job, tick: u64) -> Result<Vec<u8>, Fail>
    requires { tick ≤ 2 ^ 62 }
{
    let turned = first_turn(alloc, job, tick)?;
    let text = text_of_turned(alloc, &turned)?;
    Ok(text)
}

// The text of the first turn of the root of a job that is given as text.
fn text_of_first_turn(alloc: Global, text: &[u8], tick: u64) -> Result<Vec<u8>, Fail>
    requires { tick ≤ 2 ^ 62 }
{
    let job = job(alloc, text)?;
    text_of_turn(alloc, &job, tick)
}

// The tick of a new world, and the tick that it was set to.
fn ticks(alloc: Global) -> (u64, u64) {
    let mut world = World::new(alloc, Clock::ByTicks);
    let first = world.now();
    world.set_now(7);
    (first, world.now())
}

// Whether a task was started in a new world.
fn has_started(alloc: Global) -> bool {
    let mut world = World::new(alloc, Clock::ByTicks);
    world.take_started().is_some()
}

#[test]
fn a_new_world_is_at_tick_0(rt: HostRuntime) {
    assert!(rt; ticks(rt.alloc()) == (0, 7));
    assert!(rt; !has_started(rt.alloc()));
}

// A scope that is opened in a world, and whether it is open there.
fn open_scope(world: &mut World<'_>) -> Result<(ScopeId, bool), AllocError> {
    let scope = world.scopes_mut().open(None, false, Some(3))?;
    Ok((scope, world.scopes().is_open(scope)))
}

// The scope of a nursery that is opened in a world.
fn scope_of_nursery(
    world: &mut World<'_>,
    scope: ScopeId,
    whose: Label,
) -> Result<ScopeId, AllocError> {
    let nursery = world.book_mut().open(scope, TaskId::of(4), whose)?;
    Ok(world.book().scope(nursery))
}

// A scope that is opened in a world, whether it is open there, and the scope of a nursery that is opened in it.
fn open_in_world(alloc: Global) -> Result<(ScopeId, bool, ScopeId), Fail> {
    let whose = label(alloc, b"n")?;
    let mut world = World::new(alloc, Clock::ByTicks);
    let (scope, is_open) = open_scope(&mut world)?;
    let of_nursery = scope_of_nursery(&mut world, scope, whose)?;
    Ok((scope, is_open, of_nursery))
}

#[test]
fn parts_of_a_world_are_lent(rt: HostRuntime) -> Result<(), Fail> {
    let (scope, is_open, of_nursery) = open_in_world(rt.alloc())?;
    assert!(rt; is_open && of_nursery == scope);
    Ok(())
}

// Whether a task has nothing but a label, which is of that name.
fn is_bare(task: &Task<'_>, name: &[u8]) -> bool {
    let label = task.label().name();
    label.bytes() == name
        && task.scope().is_none()
        && task.home().is_none()
        && task.entries().is_empty()
        && task.cancelled_from().is_empty()
}

// Whether the root of a job has nothing but a label of that name.
fn has_bare_root(alloc: Global, job: &Job, name: &[u8]) -> Result<bool, Fail> {
    let task = root(alloc, job)?;
    Ok(is_bare(&task, name))
}

#[test]
fn a_root_is_in_no_scope(rt: HostRuntime) -> Result<(), Fail> {
    let job = job(rt.alloc(), b"trio-job 1\njob main { sleep 5; }")?;
    assert!(rt; has_bare_root(rt.alloc(), &job, b"main")?);
    Ok(())
}

// A job, and the text of the first turn of its root.
type Pair = (&'static [u8], &'static [u8]);

// Whether the first turn of a job's root at that tick has that text.
fn is_shown(alloc: Global, text: &[u8], tick: u64, expected: &[u8]) -> Result<bool, Fail>
    requires { tick ≤ 2 ^ 62 }
{
    let found = text_of_first_turn(alloc, text, tick)?;
    Ok(found.as_slice() == expected)
}

// Fails at the first row whose job has another first turn at tick 0.
fn are_shown(alloc: Global, rows: &[Pair]) -> Result<(), Fail> {
    for i in 0..rows.len() {
        let (text, expected) = rows[i];
        if !is_shown(alloc, text, 0, expected)? {
            return Err(wrong(i));
        }
    }
    Ok(())
}

// Jobs with passes.
const PASSES: &[Pair] = &[
    (
        b"trio-job 2\njob main { repeat 2 { scope s { } } }",
        b"s.0@0;s.1@0;|s.0=-;s.1=-;|end",
    ),
    (
        b"trio-job 2\njob main { repeat 5 { scope s { raise A; } } }",
        b"s.0@0;|s.0=-;|A@main@0",
    ),
    (b"trio-job 2\njob main { repeat 0 { raise A; } }", b"||end"),
];

#[test]
fn passes_are_numbered_from_0_until_an_exception(rt: HostRuntime) -> Result<(), Fail> {
    are_shown(rt.alloc(), PASSES)
}

// Jobs that cancel one of two scopes.
const SIGNED: &[Pair] = &[
    (
        b"trio-job 1\njob main { scope a { cancel a; checkpoint; } }",
        b"a@0;|a=1;|end",
    ),
    (
        b"trio-job 1\njob main { scope a { scope b shield { cancel a; } } }",
        b"b@0;a@0;|a=1;b=-;|end",
    ),
    (
        b"trio-job 1\njob main { scope a { scope b shield { cancel b; } } }",
        b"b@0;a@0;|a=-;b=1;|end",
    ),
];

#[test]
fn a_scope_is_found_by_its_name_and_signed(rt: HostRuntime) -> Result<(), Fail> {
    are_shown(rt.alloc(), SIGNED)
}

#[test]
fn a_scope_is_seen_and_catches_from_its_tick_on(rt: HostRuntime) -> Result<(), Fail> {
    let text = b"trio-job 1\njob main { checkpoint; scope a at 1 { checkpoint; } }";
    assert!(rt; is_shown(rt.alloc(), text, 0, b"a@0;|a=1;|end")?);
    assert!(rt; is_shown(rt.alloc(), text, 1, b"a@1!;|a=1;|end")?);
    Ok(())
}

// Where the next turn of a task that slept until that tick stops.
fn stop_when_due<'a>(
    task: &mut Task<'a>,
    world: &mut World<'a>,
    due: u64,
) -> Result<Stop<'a>, AllocError>
    requires fits { Fits (state_of task.old world.old) (waits_of task.old.task_state) }
    requires in_range { IsInRangeTaskState task.old.task_state }
    requires asleep { WakesFrom task.old.task_state (lent_of task.old) world.old.book wakes.Due }
    requires later { world.old.tick ≤ due }
    requires bounded { due ≤ 2 ^ 62 }
{
    world.set_now(due);
    task.turn(TaskId::of(0), Wake::Due, world)
}

// Until when the root of a job that begins at tick 0 sleeps, and whether it ends without an exception in its next turn, at
// tick 2.
fn sleeps_and_ends(alloc: Global, job: &Job) -> Result<(u64, bool), Fail> {
    let turned = first_turn(alloc, job, 0)?;
    let Turned {
        mut task,
        mut world,
        stop,
    } = turned;
    let Stop::Sleep(due) = stop else {
        return Err("the root does not sleep")?;
    };
    let stop = stop_when_due(&mut task, &mut world, 2)?;
    Ok((due, matches!(stop, Stop::Ended(None))))
}

#[test]
fn a_root_sleeps_and_ends(rt: HostRuntime) -> Result<(), Fail> {
    let job = job(rt.alloc(), b"trio-job 1\njob main { sleep 2; }")?;
    assert!(rt; sleeps_and_ends(rt.alloc(), &job)? == (2, true));
    Ok(())
}

// Whether the task is a child of that name, started at that place in a nursery of that scope.
fn is_child(task: &Task<'_>, name: &[u8], place: usize, scope: ScopeId) -> bool {
    let Some((_, found)) = task.home() else {
        return false;
    };
    let label = task.label().name();
    label.bytes() == name && found == place && task.scope() == Some(scope)
}

// Whether the root of a job, in whose nursery two children are started, is in a scope of its own inside the nursery's, and
// whether the children are taken in the order of their starts.
fn starts_two(alloc: Global, job: &Job) -> Result<(bool, bool), Fail> {
    let mut turned = first_turn(alloc, job, 0)?;
    let outer = scope_around(&turned);
    let in_order = takes_two_in(&mut turned.world, outer);
    Ok((outer.is_some(), in_order))
}

// Whether there is a scope around the nursery, in which two children are taken in the order of their starts.
fn takes_two_in(world: &mut World<'_>, outer: Option<ScopeId>) -> bool {
    match outer {
        Some(scope) => takes_two(world, scope),
        None => false,
    }
}

// Whether two children of these names are taken in the order of their starts, and no other.
fn takes_two(world: &mut World<'_>, scope: ScopeId) -> bool {
    let first = takes_child(world, b"first", 0, scope);
    let second = takes_child(world, b"second", 1, scope);
    first && second && world.take_started().is_none()
}

// The scope that encloses the innermost one of a task.
fn scope_around(turned: &Turned<'_>) -> Option<ScopeId> {
    let own = turned.task.scope()?;
    let scopes = turned.world.scopes();
    if !scopes.is_open(own) {
        return None;
    }
    scopes.parent(own)
}

// Whether the task that is taken next is a child of that name, started at that place in a nursery of that scope.
fn takes_child(world: &mut World<'_>, name: &[u8], place: usize, scope: ScopeId) -> bool {
    match world.take_started() {
        Some(task) => is_child(&task, name, place, scope),
        None => false,
    }
}

#[test]
fn started_tasks_are_taken_in_order(rt: HostRuntime) -> Result<(), Fail> {
    let text =
        b"trio-job 1\njob main { nursery n { start first { } start second { } scope s { sleep 5; } } }";
    let job = job(rt.alloc(), text)?;
    assert!(rt; starts_two(rt.alloc(), &job)? == (true, true));
    Ok(())
}
