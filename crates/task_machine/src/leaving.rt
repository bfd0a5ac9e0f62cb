ghost use Rattle.std.specs.Prelude.{◌≡◌, ◌<◌, ◌++◌, [], ◌∷◌, IsSome, length};
ghost use Rattle.std.specs.Option.{ForSome};
ghost use Rattle.std.specs.List.{All};
ghost use Rattle.cancel_scopes.specs.Tree.{IsOpen, IsInnermost};
ghost use Rattle.task_machine.specs.Tasks.{scope_of, home_scope};
ghost use Rattle.task_machine.specs.Worlds.{label_at};
ghost use Rattle.task_machine.specs.Acts.{Leaves, scoping_of};
ghost use Rattle.task_machine.specs.Left.{OwnFirst, LeavesAt};
ghost use Rattle.task_machine.specs.States.{state_of};

use crate::task::Task;
use crate::world::World;
use cancel_scopes::stacks_are_chains;
use exceptions::Label;

// A scope or event that was left: its label, and whether it catches a cancellation that leaves it, which an event never does.
#[derive(Drop)]
pub(crate) struct Closed {
    pub(crate) label: Label,
    pub(crate) catches: bool,
}

impl<'a> Task<'a> {
    // Leaves the innermost of the scopes and events that the task opened.
    pub(crate) fn leave(&mut self, world: &mut World<'a>) -> Closed
        requires some { 0 < length self.old.own.items }
        requires open { ForSome (scope_of self.old) (IsOpen world.old.scopes) }
        requires innermost { ForSome (scope_of self.old) (IsInnermost world.old.scopes) }
        requires labelled { ForSome (scope_of self.old) (λ id. IsSome (label_at world.old id)) }
        requires cancelled_from { All (λ own. own.at < length self.old.cancelled_from.items) self.old.own.items }
        requires own { OwnFirst world.old.scopes (home_scope self.old) self.old.own.items }
        ensures stays { self.new ≡ record self.old { own = self.new.own; cancelled_from = self.new.cancelled_from } }
        ensures world { world.new ≡ record world.old { scopes = world.new.scopes; labels = world.new.labels; events = world.new.events } }
        ensures left { Leaves (scoping_of self.old world.old) (scoping_of self.new world.new) }
        ensures own { OwnFirst world.new.scopes (home_scope self.old) self.new.own.items }
        ensures at { LeavesAt (state_of self.old world.old) (state_of self.new world.new) result }
    {
        stacks_are_chains(&world.scopes);
        let Some(own) = self.own.pop() else {
            unreachable!()
        };
        let catches = world.catches(own.id, &self.cancelled);
        let (label, from) = world.leave(own.id);
        self.cancelled_from[own.at].seen = from;
        Closed { label, catches }
    }
}
