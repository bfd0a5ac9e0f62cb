ghost use Rattle.std.specs.Prelude.{◌≡◌, ◌+◌, ◌<◌, ◌^◌, IsSome, OnOk};
ghost use Rattle.std.specs.Option.{ForSome};
ghost use Rattle.cancel_scopes.specs.Tree.{IsOpen};
ghost use Rattle.job_meaning.specs.Walk.{with_own};
ghost use Rattle.task_machine.specs.Tasks.{scope_of};
ghost use Rattle.task_machine.specs.Worlds.{label_at};
ghost use Rattle.task_machine.specs.Entered.{CancelsAt, SetsAt};
ghost use Rattle.task_machine.specs.Fitting.{SameKeys};
ghost use Rattle.task_machine.specs.States.{state_of};

use crate::task::Task;
use crate::world::World;
use cancel_scopes::{ScopeId, stacks_are_chains};
use job_meaning::Clock;
use job_tree::Name;
use std::alloc::AllocError;

impl<'a> Task<'a> {
    // Cancels the innermost scope or nursery of that name that encloses the task, from the next moment on. Where there are
    // rounds, the task itself sees that at once. After an error the task and the world can only be dropped.
    pub(crate) fn cancel(&mut self, name: Name, world: &mut World<'a>) -> Result<(), AllocError>
        requires scope { ForSome (scope_of self.old) (IsOpen world.old.scopes) }
        requires tick { world.old.tick + 1 < 2 ^ 63 }
        ensures stays { OnOk result (self.new ≡ record self.old { cancelled = self.new.cancelled }) }
        ensures rest { OnOk result (world.new ≡ record world.old { scopes = world.new.scopes }) }
        ensures keys { OnOk result (SameKeys world.old.scopes world.new.scopes) }
        ensures at { OnOk result (CancelsAt (state_of self.old world.old) (state_of self.new world.new) name) }
    {
        stacks_are_chains(&world.scopes);
        if let Some(id) = world.find(self.scope(), name, false) {
            self.keep_label(id, world)?;
            world.sign(id);
        }
        Ok(())
    }

    // Sets the innermost event of that name that encloses the task, from the next moment on. Its label is kept with those of what
    // the task has cancelled, among which it matters to nothing. After an error the task and the world can only be dropped.
    pub(crate) fn set(&mut self, name: Name, world: &mut World<'a>) -> Result<(), AllocError>
        requires scope { ForSome (scope_of self.old) (IsOpen world.old.scopes) }
        requires tick { world.old.tick + 1 < 2 ^ 63 }
        ensures stays { OnOk result (self.new ≡ record self.old { cancelled = self.new.cancelled }) }
        ensures rest { OnOk result (world.new ≡ record world.old { events = world.new.events; set = world.new.set }) }
        ensures at { OnOk result (SetsAt (state_of self.old world.old) (state_of self.new world.new) name) }
    {
        stacks_are_chains(&world.scopes);
        if let Some(id) = world.find(self.scope(), name, true) {
            self.keep_label(id, world)?;
            world.set(id)?;
        }
        Ok(())
    }

    // Keeps the label of a scope or event that the task has cancelled or set itself in this moment, where there are rounds.
    fn keep_label(&mut self, id: ScopeId, world: &World<'a>) -> Result<(), AllocError>
        requires label { IsSome (label_at world.now id) }
        ensures stays { OnOk result (self.new ≡ record self.old { cancelled = self.new.cancelled }) }
        ensures kept { OnOk result (self.new.cancelled.items
            ≡ with_own world.now.clock (label_at world.now id) self.old.cancelled.items) }
    {
        match world.clock() {
            Clock::ByTicks => Ok(()),
            Clock::ByRounds => {
                let label = world.label(id).copy(self.alloc)?;
                self.cancelled.push_front(label)?;
                Ok(())
            }
        }
    }
}
