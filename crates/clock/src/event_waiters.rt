ghost use Rattle.std.specs.Prelude.{None, Some, ◌≡◌, ℕ, OnOk, OnErr, MatchOption};

use crate::TaskId;
use crate::sleep_slots::SleepSlots;
use cancel_scopes::ScopeId;
use std::alloc::{AllocError, Global};
use std::marker::Model;

/// The tasks that wait for events, found by the event. An event is known by its scope.
#[derive(Drop)]
pub struct EventWaiters {
    slots: SleepSlots,
}

impl Model for EventWaiters {
    ghost use Rattle.std.specs.Prelude.{ℕ, List, Option};

    ghost Value = { List (Option ℕ) };

    ghost view = { λ w. w.slots };
}

impl EventWaiters {
    ghost use Rattle.clock.specs.Waiting.{event_in, NoneWaits, SameEvents, TakesWaiter, WaitsFor};

    /// Creates `EventWaiters` in which no task waits. Does not allocate.
    pub fn new(alloc: Global) -> EventWaiters
        ensures { (task : ℕ) → event_in result task ≡ None }
    {
        EventWaiters {
            slots: SleepSlots::new(alloc),
        }
    }

    /// Adds a task that waits for an event. The caller must ensure that the task waits for none yet.
    ///
    /// Returns `AllocError` if memory runs out. Each task then waits for what it did.
    pub fn add(&mut self, task: TaskId, event: ScopeId) -> Result<(), AllocError>
        requires { event_in self.old task ≡ None }
        ensures ok { OnOk result (WaitsFor self.old self.new task (Some event)) }
        ensures err { OnErr result (SameEvents self.old self.new) }
    {
        self.slots.add(task.key(), event.key())?;
        Ok(())
    }

    /// Removes a task, for example because a cancellation wakes it. Nothing changes if it waits for no event. Does not allocate.
    pub fn remove(&mut self, task: TaskId)
        ensures { WaitsFor self.old self.new task None }
    {
        self.slots.remove(task.key());
    }

    /// Removes one of the tasks that wait for an event, and returns it, or returns `None` if there is none. Which of several
    /// tasks it returns is not specified. Does not allocate.
    pub fn take(&mut self, event: ScopeId) -> Option<TaskId>
        ensures { MatchOption result (NoneWaits self.old self.new event) (λ task. TakesWaiter self.old self.new event task) }
    {
        let task = self.slots.sleeper_in(event.key())?;
        self.slots.remove(task);
        Some(TaskId::of(task))
    }
}
