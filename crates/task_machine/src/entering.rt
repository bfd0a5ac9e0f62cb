ghost use Rattle.std.specs.Prelude.{◌≡◌, ◌<◌, ◌≤◌, ◌^◌, ◌++◌, [], ◌∷◌, true, false, None, Some, IfOk, OnOk};
ghost use Rattle.std.specs.Option.{ForSome};
ghost use Rattle.cancel_scopes.specs.Tree.{IsOpen};
ghost use Rattle.task_machine.specs.Tasks.{scope_of};
ghost use Rattle.task_machine.specs.Acts.{Enters, scoping_of};
ghost use Rattle.task_machine.specs.Entered.{EntersAt, EntersBlock, EntersNursery, a_scope_at, an_event_at, label_in};
ghost use Rattle.task_machine.specs.States.{state_of};
ghost use Rattle.task_machine.specs.declared.frame.Frame.TheVariants.{Event, Scope};
ghost use Rattle.task_machine.specs.declared.serving.Act.TheVariants.{Opens};
ghost use Rattle.job_tree.specs.InRange.{IsInRangeDeadline};
ghost use Rattle.job_meaning.specs.Clocks.{due};

use crate::entry::ScopeFrom;
use crate::frame::Frame;
use crate::serving::Act;
use crate::task::{Own, Task};
use crate::world::World;
use cancel_scopes::{ScopeId, stacks_are_chains};
use clock::TaskId;
use exceptions::Label;
use job_tree::{Body, Deadline, Name, ObjectKind};
use std::alloc::AllocError;

impl<'a> Task<'a> {
    // Enters a scope with that label, inside those that enclose the task. After an error the task and the world can only be
    // dropped.
    pub(crate) fn enter(
        &mut self,
        label: Label,
        shield: bool,
        deadline: Option<u64>,
        world: &mut World<'a>,
    ) -> Result<ScopeId, AllocError>
        requires scope { ForSome (scope_of self.old) (IsOpen world.old.scopes) }
        requires deadline { ForSome deadline (λ tick. tick < 2 ^ 63) }
        ensures stays { OnOk result (self.new ≡ record self.old { own = self.new.own; cancelled_from = self.new.cancelled_from }) }
        ensures inner { IfOk result (λ id. scope_of self.new ≡ Some id) }
        ensures own { OnOk result (Enters (scope_of self.old) label false deadline (scoping_of self.old world.old) (scoping_of self.new world.new)) }
        ensures world { OnOk result (world.new
            ≡ record world.old { scopes = world.new.scopes; labels = world.new.labels; events = world.new.events }) }
        ensures at { OnOk result (EntersAt (state_of self.old world.old) (state_of self.new world.new) (a_scope_at label shield) deadline) }
    {
        stacks_are_chains(&world.scopes);
        let kept = label.copy(self.alloc)?;
        let id = world.enter(self.scope(), label, shield, deadline)?;
        let at = self.cancelled_from.len();
        self.cancelled_from.push(ScopeFrom {
            label: kept,
            seen: None,
        })?;
        self.own.push(Own { id, at })?;
        Ok(id)
    }

    // Enters a cancel scope and begins its body. After an error the task and the world can only be dropped.
    pub(crate) fn enter_scope(
        &mut self,
        name: Name,
        deadline: Deadline,
        shield: bool,
        fail: bool,
        body: &'a Body,
        world: &mut World<'a>,
    ) -> Result<(), AllocError>
        requires scope { ForSome (scope_of self.old) (IsOpen world.old.scopes) }
        requires in_range { IsInRangeDeadline deadline }
        requires tick { world.old.tick ≤ 2 ^ 62 }
        ensures stays { OnOk result (self.new
            ≡ record self.old { frames = self.new.frames; own = self.new.own; cancelled_from = self.new.cancelled_from }) }
        ensures frames { OnOk result (EntersBlock self.old.frames.items self.new.frames.items (Scope fail) body.now) }
        ensures own { OnOk result (Enters (scope_of self.old) (label_in self.old name) false
            (due world.old.clock deadline world.old.tick) (scoping_of self.old world.old) (scoping_of self.new world.new)) }
        ensures world { OnOk result (world.new
            ≡ record world.old { scopes = world.new.scopes; labels = world.new.labels; events = world.new.events }) }
        ensures at { OnOk result (EntersAt (state_of self.old world.old) (state_of self.new world.new)
            (a_scope_at (label_in self.old name) shield) (due world.old.clock deadline world.old.tick)) }
    {
        let until = world.clock().due(deadline, world.now());
        let label = self.label_here(name)?;
        self.enter(label, shield, until, world)?;
        self.push(Frame::Scope { fail })?;
        self.push(Frame::Steps(body.as_slice()))
    }

    // Enters an event and begins its body. After an error the task and the world can only be dropped.
    pub(crate) fn enter_event(
        &mut self,
        name: Name,
        body: &'a Body,
        world: &mut World<'a>,
    ) -> Result<(), AllocError>
        requires scope { ForSome (scope_of self.old) (IsOpen world.old.scopes) }
        ensures stays { OnOk result (self.new
            ≡ record self.old { frames = self.new.frames; own = self.new.own; cancelled_from = self.new.cancelled_from }) }
        ensures frames { OnOk result (EntersBlock self.old.frames.items self.new.frames.items Event body.now) }
        ensures own { OnOk result (Enters (scope_of self.old) (label_in self.old name) true None
            (scoping_of self.old world.old) (scoping_of self.new world.new)) }
        ensures world { OnOk result (world.new
            ≡ record world.old { scopes = world.new.scopes; labels = world.new.labels; events = world.new.events }) }
        ensures at { OnOk result (EntersAt (state_of self.old world.old) (state_of self.new world.new)
            (an_event_at (label_in self.old name)) None) }
    {
        stacks_are_chains(&world.scopes);
        let label = self.label_here(name)?;
        let kept = label.copy(self.alloc)?;
        let id = world.enter_event(self.scope(), label)?;
        let at = self.cancelled_from.len();
        self.cancelled_from.push(ScopeFrom {
            label: kept,
            seen: None,
        })?;
        self.own.push(Own { id, at })?;
        self.push(Frame::Event)?;
        self.push(Frame::Steps(body.as_slice()))?;
        Ok(())
    }

    // Opens and enters a limiter or channel, and begins its body. After an error the task and the world can only be dropped.
    pub(crate) fn enter_object(
        &mut self,
        name: Name,
        kind: ObjectKind,
        body: &'a Body,
        world: &mut World<'a>,
    ) -> Result<(), AllocError>
        requires scope { ForSome (scope_of self.old) (IsOpen world.old.scopes) }
        ensures stays { OnOk result (self.new
            ≡ record self.old { frames = self.new.frames; own = self.new.own; cancelled_from = self.new.cancelled_from }) }
        ensures frames { OnOk result (EntersBlock self.old.frames.items self.new.frames.items Event body.now) }
        ensures own { OnOk result (Enters (scope_of self.old) (label_in self.old name) true None
            (scoping_of self.old world.old) (scoping_of self.new world.new)) }
        ensures opened { OnOk result (world.new.acts.items
            ≡ world.old.acts.items ++ record { object = label_in self.old name; act = Opens kind } ∷ []) }
        ensures world { OnOk result (world.new ≡ record world.old
            { scopes = world.new.scopes; labels = world.new.labels; events = world.new.events; acts = world.new.acts }) }
        ensures at { OnOk result (EntersAt (state_of self.old world.old) (state_of self.new world.new)
            (an_event_at (label_in self.old name)) None) }
    {
        let label = self.label_here(name)?;
        world.note_act(label, Act::Opens(kind))?;
        self.enter_event(name, body, world)
    }

    // Enters a nursery, which is added to the book, and begins its body. After an error the task and the world can
    // only be dropped.
    pub(crate) fn enter_nursery(
        &mut self,
        me: TaskId,
        name: Name,
        deadline: Deadline,
        shield: bool,
        body: &'a Body,
        world: &mut World<'a>,
    ) -> Result<(), AllocError>
        requires scope { ForSome (scope_of self.old) (IsOpen world.old.scopes) }
        requires in_range { IsInRangeDeadline deadline }
        requires tick { world.old.tick ≤ 2 ^ 62 }
        ensures stays { OnOk result (self.new
            ≡ record self.old { frames = self.new.frames; own = self.new.own; cancelled_from = self.new.cancelled_from }) }
        ensures nursery { OnOk result (EntersNursery me (state_of self.old world.old) (state_of self.new world.new)
            (label_in self.old name) body.now) }
        ensures own { OnOk result (Enters (scope_of self.old) (label_in self.old name) false
            (due world.old.clock deadline world.old.tick) (scoping_of self.old world.old) (scoping_of self.new world.new)) }
        ensures world { OnOk result (world.new
            ≡ record world.old { scopes = world.new.scopes; labels = world.new.labels; events = world.new.events; book = world.new.book }) }
        ensures at { OnOk result (EntersAt (state_of self.old world.old) (state_of self.new world.new)
            (a_scope_at (label_in self.old name) shield) (due world.old.clock deadline world.old.tick)) }
    {
        let until = world.clock().due(deadline, world.now());
        let label = self.label_here(name)?;
        let kept = label.copy(self.alloc)?;
        let scope = self.enter(kept, shield, until, world)?;
        let id = world.book.open(scope, me, label)?;
        self.push(Frame::Nursery { id })?;
        self.push(Frame::Steps(body.as_slice()))?;
        Ok(())
    }
}
