ghost use Rattle.std.specs.Prelude.{None, Some, ◌≡◌, ℕ, OnOk, OnErr, MatchOption};
ghost use Rattle.clock.specs.Ticks.{IsSame, Puts};

use crate::sleep_slots::SleepSlots;
use crate::{TaskId, TickQueue};
use cancel_scopes::ScopeId;
use std::alloc::{AllocError, Global};
use std::marker::Model;

/// The tasks that sleep in cancel scopes, with the effective deadline (`sight`) of each such scope, which is the tick from
/// which a task in it sees a cancellation.
#[derive(Drop)]
pub struct Sleepers {
    sleep_slots: SleepSlots,
    // The effective deadlines of the scopes in which a task sleeps and that ever see a cancellation, by the scopes' keys.
    sights: TickQueue,
}

impl Model for Sleepers {
    ghost use Rattle.clock.specs.Sleeping.{Sleeping};

    ghost Value = { Sleeping };

    ghost use Rattle.clock.specs.KeptSleepers.{AllSleptIn};

    ghost view = { λ s. record { scopes = s.sleep_slots; sights = s.sights } };

    ghost invariant = { λ s. AllSleptIn s.sleep_slots s.sights };
}

impl Sleepers {
    ghost use Rattle.clock.specs.Sleeping.{scope_in, IsFirst, KeepsSights, Moves, NoneSees, SameScopes, Sees, TakesSeen};

    /// Creates `Sleepers` in which no task sleeps. Does not allocate.
    pub fn new(alloc: Global) -> Sleepers
        ensures { (task : ℕ) → scope_in result task ≡ None }
    {
        Sleepers {
            sleep_slots: SleepSlots::new(alloc),
            sights: TickQueue::new(alloc),
        }
    }

    /// Adds a task that sleeps directly in a scope. `sight` is the effective deadline of the scope, or `None` for never. It
    /// holds from now on for every task that sleeps directly in the scope. The caller must ensure that the task does not sleep
    /// yet.
    ///
    /// Returns `AllocError` if memory runs out. Each task then sleeps where it did, and each scope keeps its effective
    /// deadline.
    pub fn add(
        &mut self,
        task: TaskId,
        scope: ScopeId,
        sight: Option<u64>,
    ) -> Result<(), AllocError>
        requires awake { scope_in self.old task ≡ None }
        ensures scopes { OnOk result (Moves self.old self.new task (Some scope)) }
        ensures sights { OnOk result (Sees self.old self.new scope sight) }
        ensures err { OnErr result (SameScopes self.old self.new × KeepsSights self.old self.new) }
    {
        self.sleep_slots.add(task.key(), scope.key())?;
        if put_sight(&mut self.sights, scope.key(), sight).is_err() {
            self.sleep_slots.remove(task.key());
            return Err(AllocError);
        }
        Ok(())
    }

    /// Removes a task, for example because its timer wakes it. Nothing changes if the task does not sleep. Does not allocate.
    pub fn remove(&mut self, task: TaskId)
        ensures scopes { Moves self.old self.new task None }
        ensures sights { KeepsSights self.old self.new }
    {
        let Some(scope) = self.sleep_slots.remove(task.key()) else {
            return;
        };
        if self.sleep_slots.sleeper_in(scope).is_some() {
            return;
        }
        self.sights.remove(scope);
    }

    /// Sets the effective deadline of a scope; `None` is never. Nothing changes if no task sleeps directly in the scope.
    /// Returns `AllocError` if memory runs out; nothing changes then.
    pub fn see(&mut self, scope: ScopeId, sight: Option<u64>) -> Result<(), AllocError>
        ensures scopes { SameScopes self.old self.new }
        ensures sights { OnOk result (Sees self.old self.new scope sight) }
        ensures err { OnErr result (KeepsSights self.old self.new) }
    {
        if self.sleep_slots.sleeper_in(scope.key()).is_none() {
            return Ok(());
        }
        put_sight(&mut self.sights, scope.key(), sight)?;
        Ok(())
    }

    /// Returns the earliest tick from which a sleeper sees a cancellation, or `None` if none ever does.
    pub fn first(&self) -> Option<u64>
        ensures { IsFirst self.now result }
    {
        let (tick, _) = self.sights.first()?;
        Some(tick)
    }

    /// Removes one sleeper that sees a cancellation by `tick`, and returns it, or returns `None` if there is none. Which of
    /// several sleepers it returns is not specified. Does not allocate.
    pub fn take_seen(&mut self, tick: u64) -> Option<TaskId>
        ensures { MatchOption result (NoneSees self.old self.new tick) (λ task. TakesSeen self.old self.new task tick) }
    {
        let (from, scope) = self.sights.first()?;
        if from > tick {
            return None;
        }
        let task = TaskId::of(self.sleep_slots.sleeper_in(scope).unwrap());
        self.remove(task);
        Some(task)
    }
}

// Sets the effective deadline of a scope; `None` is never. If memory runs out, nothing changes.
fn put_sight(sights: &mut TickQueue, scope: usize, sight: Option<u64>) -> Result<(), AllocError>
    ensures ok { OnOk result (Puts sights.old sights.new scope sight) }
    ensures err { OnErr result (IsSame sights.old sights.new) }
{
    match sight {
        Some(tick) => sights.set(scope, tick)?,
        None => sights.remove(scope),
    }
    Ok(())
}
