//! `clock`: timers and cancellations move the clock, and ids of tasks keep their keys.
//!
//! What the calls require of ticks is tested when they run, so that a proof carries only the tasks' timers.

ghost use Rattle.std.specs.Prelude.{◌≡◌, ℕ, None, Some, OnOk, IfOk};
ghost use Rattle.clock.specs.Clock.{due_of, HasTimer, Updates};

use clock::{Jump, MockClock, TaskId};
use std::alloc::Global;
use std::test::Fail;

// Sets a timer. If memory runs out nothing changes, and it is set again.
fn sleep_again(clock: &mut MockClock, task: TaskId, due: u64) -> Result<(), Fail>
    requires awake { due_of clock.old task ≡ None }
    ensures timers { OnOk result (Updates clock.old clock.new task (Some due)) }
{
    if due <= clock.now() || due > 1_000 {
        return Err("a timer is due later than the tick, by tick 1,000")?;
    }
    if clock.sleep_until(task, due).is_ok() {
        return Ok(());
    }
    clock.sleep_until(task, due)?;
    Ok(())
}

// Jumps, if no task is due.
fn jump(clock: &mut MockClock, next_cancel: Option<u64>) -> Result<Jump, Fail>
    requires some { HasTimer clock.old }
    ensures timers { OnOk result ((task : ℕ) → due_of clock.new task ≡ due_of clock.old task) }
{
    if clock.take_due().is_some() {
        return Err("a task is due")?;
    }
    let Some(cancel) = next_cancel else {
        return Ok(clock.jump(None));
    };
    if cancel <= clock.now() {
        return Err("a cancellation is later than the tick")?;
    }
    Ok(clock.jump(Some(cancel)))
}

// Takes the task that is due.
fn take(clock: &mut MockClock, task: TaskId) -> Result<(), Fail>
    ensures timers { OnOk result (Updates clock.old clock.new task None) }
{
    let Some(found) = clock.take_due() else {
        return Err("no task is due")?;
    };
    if found.key() != task.key() {
        return Err(("it is another task", found.key()))?;
    }
    Ok(())
}

// A clock on which three tasks sleep, none of which is due.
fn three_timers(alloc: Global) -> Result<MockClock, Fail>
    ensures third { IfOk result (λ clock. due_of clock 3 ≡ Some 9) }
{
    let mut clock = MockClock::new(alloc, 100, 1);
    sleep_again(&mut clock, TaskId::of(1), 5)?;
    sleep_again(&mut clock, TaskId::of(2), 5)?;
    sleep_again(&mut clock, TaskId::of(3), 9)?;
    Ok(clock)
}

// Jumps to the first timers, and takes the two tasks that are due then.
fn wake_two(clock: &mut MockClock) -> Result<(), Fail>
    requires third { due_of clock.old 3 ≡ Some 9 }
    ensures first { OnOk result (due_of clock.new 1 ≡ None) }
    ensures third { OnOk result (due_of clock.new 3 ≡ Some 9) }
{
    if jump(clock, Some(7))? != Jump::To(5) {
        return Err("it jumps to the first timers")?;
    }
    take(clock, TaskId::of(1))?;
    take(clock, TaskId::of(2))?;
    Ok(())
}

// Jumps to a cancellation, which wakes the third task, and lets the first one sleep past the limit.
fn wake_third(clock: &mut MockClock) -> Result<(), Fail>
    requires first { due_of clock.old 1 ≡ None }
    requires third { due_of clock.old 3 ≡ Some 9 }
    ensures first { OnOk result (due_of clock.new 1 ≡ Some 101) }
{
    if jump(clock, Some(7))? != Jump::To(7) {
        return Err("it jumps to the cancellation")?;
    }
    clock.wake(TaskId::of(3));
    sleep_again(clock, TaskId::of(1), 101)?;
    Ok(())
}

// Does not move if the next timer is past the limit.
fn meet_limit(clock: &mut MockClock) -> Result<(), Fail>
    requires first { due_of clock.old 1 ≡ Some 101 }
{
    if jump(clock, None)? != Jump::Limit {
        return Err("it jumps past its limit")?;
    }
    if clock.now() != 7 {
        return Err("it moved")?;
    }
    Ok(())
}

// Timers and cancellations, one after another.
fn move_clock(alloc: Global) -> Result<(), Fail> {
    let mut clock = three_timers(alloc)?;
    wake_two(&mut clock)?;
    wake_third(&mut clock)?;
    meet_limit(&mut clock)
}

#[test]
fn timers_and_cancellations_move_the_clock(rt: HostRuntime) -> Result<(), Fail> {
    move_clock(rt.alloc())
}

#[test]
fn tasks_keep_their_keys(rt: HostRuntime) {
    assert!(rt; TaskId::of(7).key() == 7);
}
