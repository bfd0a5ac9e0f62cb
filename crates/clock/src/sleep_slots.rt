//! Which task sleeps in which scope, which can be searched by task and by scope.
ghost use Rattle.std.specs.Prelude.{None, Some, ◌≡◌, ◌<◌, OnOk, OnErr, MatchOption, vec_len};
ghost use Rattle.clock.specs.KeptSleepers.{sleep_slot_at, tasks_at, SameSleepSlots, SameTasks};

use std::alloc::{AllocError, Global};
use std::marker::Model;

// The slot of a sleeping task: its scope, and its index among the tasks that sleep directly in that scope.
#[derive(Clone, Copy)]
struct SleepSlot {
    scope: usize,
    index: usize,
}

// The slots of the sleeping tasks, by the keys of tasks and of scopes.
#[derive(Drop)]
pub(crate) struct SleepSlots {
    // The slot of each task, at the task's key.
    by_task: Vec<Option<SleepSlot>>,
    // The tasks that sleep directly in each scope, at the scope's key.
    by_scope: Vec<Vec<usize>>,
}

impl Model for SleepSlots {
    ghost use Rattle.std.specs.Prelude.{ℕ, List, map, Option};

    ghost Value = { List (Option ℕ) };

    ghost use Rattle.clock.specs.KeptSleepers.{scope_of, AllPlaced};

    ghost view = { λ b. map scope_of b.by_task.items };

    ghost invariant = { λ b. AllPlaced b.by_task.items b.by_scope.items };
}

impl SleepSlots {
    ghost use Rattle.clock.specs.Sleeping.{scope_at};
    ghost use Rattle.clock.specs.KeptSleepers.{HasNone, IsEmpty, IsSame, Puts};

    // Creates the table in which no task sleeps.
    pub(crate) fn new(alloc: Global) -> SleepSlots
        ensures { HasNone result }
    {
        SleepSlots {
            by_task: Vec::new(alloc),
            by_scope: Vec::new(alloc),
        }
    }

    // Adds a task that does not sleep yet, in a scope. If memory runs out, every task sleeps where it did.
    pub(crate) fn add(&mut self, task: usize, scope: usize) -> Result<(), AllocError>
        requires { scope_at self.old task ≡ None }
        ensures ok { OnOk result (Puts self.old self.new task (Some scope)) }
        ensures err { OnErr result (IsSame self.old self.new) }
    {
        grow_to_task(&mut self.by_task, task)?;
        grow_to_scope(&mut self.by_scope, scope)?;
        let tasks = &mut self.by_scope[scope];
        let index = tasks.len();
        tasks.push(task)?;
        self.by_task[task] = Some(SleepSlot { scope, index });
        Ok(())
    }

    // Removes a task, and returns the scope in which it slept, or `None` if it did not sleep.
    pub(crate) fn remove(&mut self, task: usize) -> Option<usize>
        ensures scope { result ≡ scope_at self.old task }
        ensures moves { Puts self.old self.new task None }
    {
        if task >= self.by_task.len() {
            return None;
        }
        let Some(sleep_slot) = self.by_task[task] else {
            return None;
        };
        self.by_task[task] = None;
        let tasks = &mut self.by_scope[sleep_slot.scope];
        tasks.swap_remove(sleep_slot.index);
        if sleep_slot.index < tasks.len() {
            // The last task of the scope has that index now.
            let moved = tasks[sleep_slot.index];
            self.by_task[moved] = Some(sleep_slot);
        }
        Some(sleep_slot.scope)
    }

    // Returns a task that sleeps directly in the scope, or `None` if there is none.
    pub(crate) fn sleeper_in(&self, scope: usize) -> Option<usize>
        ensures { MatchOption result (IsEmpty self.now scope) (λ task. scope_at self.now task ≡ Some scope) }
    {
        let Some(tasks) = self.by_scope.get(scope) else {
            return None;
        };
        tasks.last().copied()
    }
}

// Extends the table so that it has an entry for the task.
fn grow_to_task(sleep_slots: &mut Vec<Option<SleepSlot>>, task: usize) -> Result<(), AllocError>
    ensures same { SameSleepSlots sleep_slots.old.items sleep_slots.new.items }
    ensures long { OnOk result (task < vec_len sleep_slots.new) }
{
    'grow: while sleep_slots.len() <= task {
        sleep_slots.push(None)?;
    }
    Ok(())
}

// Extends the table so that it has an entry for the scope.
fn grow_to_scope(lists: &mut Vec<Vec<usize>>, scope: usize) -> Result<(), AllocError>
    ensures same { SameTasks lists.old.items lists.new.items }
    ensures long { OnOk result (scope < vec_len lists.new) }
{
    'grow: while lists.len() <= scope {
        let none = Vec::new(*lists.allocator());
        lists.push(none)?;
    }
    Ok(())
}
