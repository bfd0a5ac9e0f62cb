//! The tasks that wait for events.
ghost use Rattle.std.specs.Prelude.{◌≡◌, ◌≤◌, ◌^◌, suc, Some, [], ◌∷◌, ℕ, IsSome, OnOk};
ghost use Rattle.clock.specs.Clock.{now_of, due_of};
ghost use Rattle.clock.specs.Waiting.{event_in};
ghost use Rattle.job_runner.specs.Steps.{TakesSet, WakesWaiters};

use crate::runner::Runner;
use cancel_scopes::ScopeId;
use std::alloc::AllocError;

impl<'a> Runner<'a> {
    // The tasks that waited for the events that were set in a turn continue a round later.
    pub(crate) fn take_set(&mut self) -> Result<(), AllocError>
        requires timed { (id event : ℕ) → event_in self.old.waiters id ≡ Some event → IsSome (due_of self.old.clock id) }
        requires now { now_of self.old.clock ≡ self.old.world.tick }
        requires bounded { self.old.world.tick ≤ 2 ^ 62 }
        ensures { OnOk result (TakesSet self.old self.new) }
    {
        'set: while let Some(event) = self.world.take_set() {
            self.wake_waiters(event)?;
        }
        Ok(())
    }

    // The tasks that wait for an event continue a round later.
    fn wake_waiters(&mut self, event: ScopeId) -> Result<(), AllocError>
        requires timed { (id event : ℕ) → event_in self.old.waiters id ≡ Some event → IsSome (due_of self.old.clock id) }
        requires now { now_of self.old.clock ≡ self.old.world.tick }
        requires bounded { self.old.world.tick ≤ 2 ^ 62 }
        ensures { OnOk result (WakesWaiters (event ∷ []) (suc self.old.world.tick) self.old self.new) }
    {
        let due = self.world.now() + 1;
        'waiters: while let Some(id) = self.waiters.take(event) {
            self.clock.wake(id);
            self.clock.sleep_until(id, due)?;
        }
        Ok(())
    }
}
