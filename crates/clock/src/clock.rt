ghost use Rattle.std.specs.Prelude.{◌≡◌, ◌⊎◌, ℕ, ◌<◌, ◌^◌, ◌≤◌, Some, None, OnOk, OnErr, IsSome, MatchOption};
ghost use Rattle.clock.specs.KeptTimers.{earlier_of};

use crate::task_id::TaskId;
use crate::timers::Timers;
use std::alloc::{AllocError, Global};
use std::marker::Model;

/// What `MockClock::jump` did.
#[derive(Clone, Copy, Debug, PartialEq, Eq)]
pub enum Jump {
    /// The clock jumped to this tick.
    To(u64),
    /// The next tick is later than the limit. Nothing changed.
    Limit,
}

/// A clock in whole ticks, with at most one timer for each task. Only `jump` changes its tick.
#[derive(Drop)]
pub struct MockClock {
    tick: u64,
    limit: u64,
    // How many ticks before it is due a timer is due soon.
    near: u64,
    timers: Timers,
}

impl Model for MockClock {
    ghost use Rattle.clock.specs.Clock.{Clock};

    ghost Value = { Clock };

    ghost use Rattle.clock.specs.KeptTimers.{AllAhead};

    ghost view = { λ c. record { tick = c.tick; limit = c.limit; timers = c.timers.ticks } };

    // A timer that is due is due at the current tick, so the first timer is that of the least task that is due.
    ghost invariant = { λ c. AllAhead c.timers c.tick c.limit };
}

impl MockClock {
    ghost use Rattle.clock.specs.Clock.{now_of, limit_of, due_of, HasTimer, AllLater, SameTime, IsUnchanged, Updates, TakesDue, NoneDue};
    ghost use Rattle.clock.specs.Answers.{Jumps};

    /// Creates a clock at tick 0 that jumps to no tick later than `limit`. No task has a timer. Does not allocate.
    ///
    /// A timer that is due later than `limit` takes amortized constant time to set and constant time to remove, because the clock
    /// never jumps to its tick. Of the timers that are due by `limit`, those that are due at most `near` ticks after they are set,
    /// and all at the same tick, are in a list, which is sorted once. To set or remove any other timer takes time logarithmic in
    /// the number of timers that are due by `limit`. Nothing else depends on `near`.
    pub fn new(alloc: Global, limit: u64, near: u64) -> MockClock
        ensures now { now_of result ≡ 0 }
        ensures limit { limit_of result ≡ limit }
        ensures timers { (task : ℕ) → due_of result task ≡ None }
    {
        MockClock {
            tick: 0,
            limit,
            near,
            timers: Timers::new(alloc, limit),
        }
    }

    /// Returns the current tick.
    pub fn now(&self) -> u64
        ensures { result ≡ now_of self.now }
    {
        self.tick
    }

    /// Sets a timer for a task, due at the tick `due`. The caller must ensure that the task has no timer yet, that `due` is
    /// later than the current tick, and that it is below 2 to the 63. Returns `AllocError` if memory runs out; nothing
    /// changes then.
    pub fn sleep_until(&mut self, task: TaskId, due: u64) -> Result<(), AllocError>
        requires awake { due_of self.old task ≡ None }
        requires later { now_of self.old < due }
        requires bounded { due < 2 ^ 63 }
        ensures timers { OnOk result (Updates self.old self.new task (Some due)) }
        ensures time { OnOk result (SameTime self.old self.new) }
        ensures err { OnErr result (IsUnchanged self.old self.new) }
    {
        let soon_by = self.tick.saturating_add(self.near);
        self.timers.add(task.key(), due, soon_by)?;
        Ok(())
    }

    /// Removes the timer of a task, for example because a cancellation wakes it. The caller must ensure that the task has a
    /// timer. Does not allocate.
    pub fn wake(&mut self, task: TaskId)
        requires { IsSome (due_of self.old task) }
        ensures timers { Updates self.old self.new task None }
        ensures time { SameTime self.old self.new }
    {
        self.timers.remove(task.key());
    }

    /// Jumps to the next tick, which is the earliest of the ticks at which timers are due and of `next_cancel`, the tick of the
    /// next cancellation (`None` is never). To be called when every task is blocked. Returns `Jump::Limit`, and changes
    /// nothing, if the next tick is later than the limit.
    ///
    /// The caller must ensure that there is a timer or a `next_cancel`, that no timer is due yet, and that `next_cancel` is later
    /// than the current tick. Does not allocate.
    pub fn jump(&mut self, next_cancel: Option<u64>) -> Jump
        requires none_due { AllLater self.old (now_of self.old) }
        requires some { HasTimer self.old ⊎ IsSome next_cancel }
        requires later { (cancel : ℕ) → next_cancel ≡ Some cancel → now_of self.old < cancel }
        ensures { Jumps self.old next_cancel result self.new }
    {
        let next = match self.timers.first_tick() {
            Some(due) => Some(earlier_of(due, next_cancel)),
            None => next_cancel,
        };
        let Some(next) = next else {
            return Jump::Limit;
        };
        if next > self.limit {
            return Jump::Limit;
        }
        self.tick = next;
        Jump::To(next)
    }

    /// Removes the timer of the task with the least key among those that are due by now, and returns the task. Returns `None`,
    /// and changes nothing, if no timer is due. Does not allocate.
    pub fn take_due(&mut self) -> Option<TaskId>
        ensures { MatchOption result (NoneDue self.old self.new) (λ task. TakesDue self.old task self.new) }
    {
        let Some((_, task)) = self.timers.first_by(self.tick) else {
            return None;
        };
        self.timers.remove(task);
        Some(TaskId::of(task))
    }
}

// Returns the earlier of a tick and the tick of the next cancellation.
fn earlier_of(due: u64, next_cancel: Option<u64>) -> u64
    ensures { result ≡ earlier_of next_cancel due }
{
    next_cancel.map_or(due, |cancel| due.min(cancel))
}
