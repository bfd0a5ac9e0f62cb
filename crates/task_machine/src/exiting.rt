ghost use Rattle.std.specs.Prelude.{◌≡◌, ◌+◌, ◌<◌, ◌^◌, IsSome, IfOk, OnOk, length};
ghost use Rattle.std.specs.Option.{ForSome, option_map};
ghost use Rattle.std.specs.List.{All};
ghost use Rattle.exceptions.specs.Held.{exc_of};
ghost use Rattle.cancel_scopes.specs.Tree.{IsOpen, IsInnermost};
ghost use Rattle.nursery_book.specs.Nursery.{with_body};
ghost use Rattle.nursery_book.specs.Book.{HasNursery, Changes};
ghost use Rattle.task_machine.specs.declared.stop.TaskState.TheVariants.{Awaits, Over};
ghost use Rattle.task_machine.specs.declared.stop.Moved.TheVariants.{Stops};
ghost use Rattle.task_machine.specs.declared.stop.Stop.TheVariants.{Wait, Ended};
ghost use Rattle.task_machine.specs.Tasks.{scope_of, home_scope};
ghost use Rattle.task_machine.specs.Worlds.{label_at};
ghost use Rattle.task_machine.specs.Acts.{Leaves, scoping_of};
ghost use Rattle.task_machine.specs.Left.{OwnFirst};
ghost use Rattle.task_machine.specs.Exits.{ExitsAt, FailsAt};
ghost use Rattle.task_machine.specs.Fitting.{SameKeys};
ghost use Rattle.task_machine.specs.States.{state_of};

use crate::block_entries::block_entry;
use crate::leaving::Closed;
use crate::stop::{Moved, Stop, TaskState};
use crate::task::Task;
use crate::world::World;
use block_exits::{Kind, exc_after, left_with};
use cancel_scopes::stacks_are_chains;
use exceptions::Exc;
use nursery_book::NurseryId;
use std::alloc::AllocError;

impl<'a> Task<'a> {
    // Leaves the innermost block with a scope, with this exception or none: it catches or not, and that is noted. After
    // an error the task and the world can only be dropped.
    pub(crate) fn exit(
        &mut self,
        kind: Kind,
        exc: Option<Exc>,
        world: &mut World<'a>,
    ) -> Result<Option<Exc>, AllocError>
        requires some { 0 < length self.old.own.items }
        requires open { ForSome (scope_of self.old) (IsOpen world.old.scopes) }
        requires innermost { ForSome (scope_of self.old) (IsInnermost world.old.scopes) }
        requires labelled { ForSome (scope_of self.old) (λ id. IsSome (label_at world.old id)) }
        requires cancelled_from { All (λ own. own.at < length self.old.cancelled_from.items) self.old.own.items }
        requires own { OwnFirst world.old.scopes (home_scope self.old) self.old.own.items }
        ensures stays { OnOk result (self.new
            ≡ record self.old { own = self.new.own; cancelled_from = self.new.cancelled_from; entries = self.new.entries }) }
        ensures world { OnOk result (world.new
            ≡ record world.old { scopes = world.new.scopes; labels = world.new.labels; events = world.new.events }) }
        ensures left { OnOk result (Leaves (scoping_of self.old world.old) (scoping_of self.new world.new)) }
        ensures own { OnOk result (OwnFirst world.new.scopes (home_scope self.old) self.new.own.items) }
        ensures at { IfOk result (λ after. ExitsAt (state_of self.old world.old) (state_of self.new world.new) kind (option_map exc_of exc)
            (option_map exc_of after)) }
    {
        let Closed { label, catches } = self.leave(world);
        let left = left_with(self.alloc, catches, exc)?;
        let caught = left.caught;
        let exc = exc_after(self.alloc, kind, &label, world.tick(), left)?;
        let entry = block_entry(self.alloc, kind, label, world.tick(), caught)?;
        self.entries.push(entry)?;
        Ok(exc)
    }

    // A task or body that ends with an exception cancels the innermost enclosing scope that is no event, if there is one, from
    // the next moment on.
    fn fail(&self, exc: &Option<Exc>, world: &mut World<'a>)
        requires scope { ForSome (scope_of self.now) (IsOpen world.old.scopes) }
        requires tick { world.old.tick + 1 < 2 ^ 63 }
        ensures rest { world.new ≡ record world.old { scopes = world.new.scopes } }
        ensures keys { SameKeys world.old.scopes world.new.scopes }
        ensures at { FailsAt (state_of self.now world.old) (state_of self.now world.new) (option_map exc_of exc.now) }
    {
        stacks_are_chains(&world.scopes);
        if exc.is_none() {
            return;
        }
        if let Some(id) = world.home(self.scope()) {
            world.sign(id);
        }
    }

    // The body of a nursery has ended, and the task waits for the children.
    pub(crate) fn end_body(
        &mut self,
        nursery: NurseryId,
        exc: Option<Exc>,
        world: &mut World<'a>,
    ) -> Moved<'a>
        requires scope { ForSome (scope_of self.old) (IsOpen world.old.scopes) }
        requires tick { world.old.tick + 1 < 2 ^ 63 }
        requires nursery { HasNursery world.old.book nursery (λ n. n.body ≡ None) }
        ensures moved { result ≡ Stops (Wait nursery) }
        ensures stays { self.new ≡ record self.old { task_state = Awaits nursery world.old.tick } }
        ensures rest { world.new ≡ record world.old { scopes = world.new.scopes; book = world.new.book } }
        ensures ended { Changes world.old.book world.new.book nursery (with_body (option_map exc_of exc) world.old.tick) }
        ensures keys { SameKeys world.old.scopes world.new.scopes }
        ensures at { FailsAt (state_of self.old world.old) (state_of self.new world.new) (option_map exc_of exc) }
    {
        self.fail(&exc, world);
        world.book.body_ended(nursery, exc, world.tick);
        self.task_state = TaskState::Awaits {
            nursery,
            since: world.now(),
        };
        Moved::Stops(Stop::Wait(nursery))
    }

    // The task has ended.
    pub(crate) fn end(&mut self, exc: Option<Exc>, world: &mut World<'a>) -> Moved<'a>
        requires scope { ForSome (scope_of self.old) (IsOpen world.old.scopes) }
        requires tick { world.old.tick + 1 < 2 ^ 63 }
        ensures moved { result ≡ Stops (Ended exc) }
        ensures stays { self.new ≡ record self.old { task_state = Over } }
        ensures rest { world.new ≡ record world.old { scopes = world.new.scopes } }
        ensures keys { SameKeys world.old.scopes world.new.scopes }
        ensures at { FailsAt (state_of self.old world.old) (state_of self.new world.new) (option_map exc_of exc) }
    {
        self.fail(&exc, world);
        self.task_state = TaskState::Over;
        Moved::Stops(Stop::Ended(exc))
    }
}
