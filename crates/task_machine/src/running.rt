ghost use Rattle.std.specs.Prelude.{◌≡◌, ℕ, ◌+◌, ◌<◌, ◌≤◌, ◌^◌, [], List, None, IfOk, OnOk};
ghost use Rattle.job_tree.specs.Blocks.{step_of};
ghost use Rattle.job_tree.specs.InRange.{IsInRangeStep};
ghost use Rattle.job_tree.specs.Starting.{StartsAt};
ghost use Rattle.turn_semantics.specs.Placed.{in_body};
ghost use Rattle.turn_semantics.specs.Bound.{step_length, frames_length};
ghost use Rattle.task_machine.specs.Fitting.{Fits, HasBody};
ghost use Rattle.task_machine.specs.Frames.{frames_of};
ghost use Rattle.task_machine.specs.Standing.{waits_by, RunsAs};
ghost use Rattle.task_machine.specs.States.{state_of};
ghost use Rattle.task_machine.specs.Waiters.{KeepsRest};
ghost use Rattle.task_machine.specs.Waking.{IsInRangeTaskState};

use crate::stop::{Moved, Purpose};
use crate::task::Task;
use crate::world::World;
use cancel_scopes::stacks_are_chains;
use clock::TaskId;
use input_lines::Kernel;
use job_meaning::FAR;
use job_tree::Step;
use std::alloc::AllocError;

impl<'a> Task<'a> {
    // One step of a block, the others of which are the innermost frame.
    pub(crate) fn run(
        &mut self,
        me: TaskId,
        step: &'a Step,
        world: &mut World<'a>,
    ) -> Result<Moved<'a>, AllocError>
        requires fits { Fits (state_of self.old world.old) None }
        requires tick { world.old.tick ≤ 2 ^ 62 }
        requires task_state { IsInRangeTaskState self.old.task_state }
        requires in_range { IsInRangeStep (step_of step.now) }
        requires starts { StartsAt (in_body (frames_of (λ id. []) self.old.frames.items)) (step_of step.now) }
        ensures keeps { OnOk result (KeepsRest me self.old self.new world.old world.new) }
        ensures fits { OnOk result (Fits (state_of self.new world.new) None) }
        ensures waits { IfOk result (λ moved. waits_by moved self.new.task_state ≡ None) }
        ensures length { OnOk result (frames_length (frames_of (λ id. []) self.new.frames.items)
            < step_length (step_of step.now) + frames_length (frames_of (λ id. []) self.old.frames.items)) }
        ensures step { IfOk result (λ moved. RunsAs (state_of self.old world.old) (state_of self.new world.new) step.now moved) }
    {
        stacks_are_chains(&world.scopes);
        match step {
            Step::Sleep(ticks) => Ok(self.sleep(false, *ticks, world)),
            Step::Checkpoint => Ok(self.sleep(false, 0, world)),
            Step::Forever => Ok(self.sleep(false, FAR.saturating_sub(world.tick()), world)),
            Step::Pace(per_tick) => Ok(self.ask(Kernel::Count, Purpose::Paces(*per_tick))),
            Step::Find(text) => Ok(self.ask(Kernel::Find(text.bytes()), Purpose::Shows)),
            Step::Head(count) => Ok(self.ask(Kernel::Head(*count), Purpose::Shows)),
            Step::Longest => Ok(self.ask(Kernel::Longest, Purpose::Shows)),
            Step::Need { text, name } => {
                Ok(self.ask(Kernel::Need(text.bytes()), Purpose::Needs(*name)))
            }
            Step::Raise(name) => {
                let moved = self.raise(*name, world)?;
                Ok(moved)
            }
            Step::Cancel(name) => {
                self.cancel(*name, world)?;
                Ok(Moved::On(None))
            }
            Step::Set(name) => {
                self.set(*name, world)?;
                Ok(Moved::On(None))
            }
            Step::Wait(name) => Ok(self.wait_for(*name, world)),
            Step::Ask { name, ask, body } => Ok(self.ask_of(*name, *ask, body, world)),
            Step::Close(name) => {
                self.close(*name, world)?;
                Ok(Moved::On(None))
            }
            _ => {
                let moved = self.run_block(me, step, world)?;
                Ok(moved)
            }
        }
    }

    // Runs a step that begins a block or starts children.
    fn run_block(
        &mut self,
        me: TaskId,
        step: &'a Step,
        world: &mut World<'a>,
    ) -> Result<Moved<'a>, AllocError>
        requires fits { Fits (state_of self.old world.old) None }
        requires tick { world.old.tick ≤ 2 ^ 62 }
        requires task_state { IsInRangeTaskState self.old.task_state }
        requires has_block { HasBody (step_of step.now) }
        requires in_range { IsInRangeStep (step_of step.now) }
        requires starts { StartsAt (in_body (frames_of (λ id. []) self.old.frames.items)) (step_of step.now) }
        ensures keeps { OnOk result (KeepsRest me self.old self.new world.old world.new) }
        ensures fits { OnOk result (Fits (state_of self.new world.new) None) }
        ensures waits { IfOk result (λ moved. waits_by moved self.new.task_state ≡ None) }
        ensures length { OnOk result (frames_length (frames_of (λ id. []) self.new.frames.items)
            < step_length (step_of step.now) + frames_length (frames_of (λ id. []) self.old.frames.items)) }
        ensures step { IfOk result (λ moved. RunsAs (state_of self.old world.old) (state_of self.new world.new) step.now moved) }
    {
        stacks_are_chains(&world.scopes);
        match step {
            Step::Scope {
                name,
                deadline,
                shield,
                fail,
                body,
            } => {
                self.enter_scope(*name, *deadline, *shield, *fail, body, world)?;
                Ok(Moved::On(None))
            }
            Step::Nursery {
                name,
                deadline,
                shield,
                body,
            } => {
                self.enter_nursery(me, *name, *deadline, *shield, body, world)?;
                Ok(Moved::On(None))
            }
            Step::Event { name, body } => {
                self.enter_event(*name, body, world)?;
                Ok(Moved::On(None))
            }
            Step::Object { name, kind, body } => {
                self.enter_object(*name, *kind, body, world)?;
                Ok(Moved::On(None))
            }
            Step::Start { name, over, body } => {
                self.begin_children(*name, *over, body, world)?;
                Ok(Moved::On(None))
            }
            Step::Repeat { count, over, body } => {
                self.begin_passes(*count, *over, body)?;
                Ok(Moved::On(None))
            }
            Step::Try {
                body,
                handler,
                cleanup,
            } => {
                self.begin_try(body, handler, cleanup)?;
                Ok(Moved::On(None))
            }
            _ => unreachable!(),
        }
    }
}
