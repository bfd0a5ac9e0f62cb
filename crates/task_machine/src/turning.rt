ghost use Rattle.std.specs.Prelude.{◌≡◌, ℕ, ◌<◌, ◌≤◌, ◌^◌, ◌++◌, [], ◌∷◌, List, None, IfOk, OnOk};
ghost use Rattle.std.specs.Option.{option_map};
ghost use Rattle.exceptions.specs.Held.{exc_of};
ghost use Rattle.turn_semantics.specs.Bound.{frames_length};
ghost use Rattle.task_machine.specs.declared.frame.Frame.TheVariants.{Steps};
ghost use Rattle.task_machine.specs.Fitting.{Fits, waits_of};
ghost use Rattle.task_machine.specs.Frames.{frames_of};
ghost use Rattle.task_machine.specs.Standing.{waits_by, with_frames, GoesOn, StepsAs, BlockStepsAs, StopsAfter, TurnsAs, woken_at};
ghost use Rattle.task_machine.specs.declared.world.World.{World as WorldOf};
ghost use Rattle.task_machine.specs.States.{state_of};
ghost use Rattle.task_machine.specs.Waiters.{KeepsRest};
ghost use Rattle.task_machine.specs.Waking.{WakesFrom, IsInRangeTaskState};
ghost use Rattle.task_machine.specs.Tasks.{lent_of};

use crate::boxing::unbox_exc;
use crate::frame::Frame;
use crate::sharing::give_back;
use crate::stop::{Moved, Stop, Wake};
use crate::task::Task;
use crate::world::World;
use block_exits::{Kind, outcome_after};
use cancel_scopes::stacks_are_chains;
use clock::TaskId;
use exceptions::Exc;
use job_tree::Step;
use std::alloc::AllocError;

impl<'a> Task<'a> {
    /// Executes one turn: the task continues from a wake to its next stop, in the world's moment. `me` is the id of this task,
    /// which each nursery that it opens keeps as that of its waiter. Children that it starts are left in the world
    /// (`take_started`).
    ///
    /// The caller must ensure that the wake fits the last stop: `Begin` for the first turn, `Due` or `Seen` after `Sleep` and
    /// `WaitFor`, these or `Granted` after `Queue`, with a part of the task's input if one is received, `Due` after `GiveUp`, the
    /// answer to the request after `Ask`, and `Settled` after `Wait` once that nursery is settled (`Due` may stand for `Begin` and
    /// `Settled`); that there is no turn after `Ended`; that the scopes and nurseries of the task are open in the world; and that
    /// the moment is at most 2 to the 62. The only error is that memory runs out, after which the task and the world can only be
    /// dropped.
    pub fn turn(
        &mut self,
        me: TaskId,
        wake: Wake<'a>,
        world: &mut World<'a>,
    ) -> Result<Stop<'a>, AllocError>
        requires fits { Fits (state_of self.old world.old) (waits_of self.old.task_state) }
        requires tick { world.old.tick ≤ 2 ^ 62 }
        requires task_state { IsInRangeTaskState self.old.task_state }
        requires wake { WakesFrom self.old.task_state (lent_of self.old) world.old.book wake }
        ensures keeps { OnOk result (KeepsRest me self.old self.new world.old world.new) }
        ensures fits { OnOk result (Fits (state_of self.new world.new) (waits_of self.new.task_state)) }
        ensures turn { IfOk result (λ stop. TurnsAs (state_of self.old world.old) (state_of self.new world.new) wake.entry stop) }
    {
        self.forget_cancelled(&wake);
        match self.wake(wake, world)? {
            Moved::On(exc) => {
                let stop = self.go_to_stop(me, exc, world)?;
                Ok(stop)
            }
            Moved::Stops(stop) => Ok(stop),
        }
    }

    // What the task cancelled itself before counts on only while a kernel is asked, since a request takes no round.
    fn forget_cancelled(&mut self, wake: &Wake<'a>)
        ensures stays { self.new ≡ record self.old { cancelled = self.new.cancelled } }
        ensures state { (world : WorldOf) → state_of self.new world ≡ woken_at wake.now (state_of self.old world) }
    {
        match wake {
            Wake::Begin => self.cancelled.clear(),
            Wake::Due => self.cancelled.clear(),
            Wake::Seen => self.cancelled.clear(),
            Wake::Answer(_) => {}
            Wake::Granted(_) => self.cancelled.clear(),
            Wake::Settled => self.cancelled.clear(),
        }
    }

    // Steps until the task stops.
    fn go_to_stop(
        &mut self,
        me: TaskId,
        exc: Option<Exc>,
        world: &mut World<'a>,
    ) -> Result<Stop<'a>, AllocError>
        requires fits { Fits (state_of self.old world.old) None }
        requires tick { world.old.tick ≤ 2 ^ 62 }
        requires task_state { IsInRangeTaskState self.old.task_state }
        ensures keeps { OnOk result (KeepsRest me self.old self.new world.old world.new) }
        ensures fits { OnOk result (Fits (state_of self.new world.new) (waits_of self.new.task_state)) }
        ensures steps { IfOk result (λ stop. StopsAfter (state_of self.old world.old) (state_of self.new world.new)
            (option_map exc_of exc) stop) }
    {
        let mut exc = exc;
        'steps: loop {
            match self.advance(me, exc, world)? {
                Moved::On(next) => exc = next,
                Moved::Stops(stop) => return Ok(stop),
            }
        }
    }

    // One step, by the innermost frame. A task that has none left ends.
    fn advance(
        &mut self,
        me: TaskId,
        exc: Option<Exc>,
        world: &mut World<'a>,
    ) -> Result<Moved<'a>, AllocError>
        requires fits { Fits (state_of self.old world.old) None }
        requires tick { world.old.tick ≤ 2 ^ 62 }
        requires task_state { IsInRangeTaskState self.old.task_state }
        ensures keeps { OnOk result (KeepsRest me self.old self.new world.old world.new) }
        ensures fits { IfOk result (λ moved. Fits (state_of self.new world.new) (waits_by moved self.new.task_state)) }
        ensures shorter { IfOk result (λ moved. GoesOn moved → frames_length (frames_of (λ id. []) self.new.frames.items)
            < frames_length (frames_of (λ id. []) self.old.frames.items)) }
        ensures step { IfOk result (λ moved. StepsAs (state_of self.old world.old) (state_of self.new world.new)
            (option_map exc_of exc) moved) }
    {
        stacks_are_chains(&world.scopes);
        let Some(frame) = self.frames.pop() else {
            return Ok(self.end(exc, world));
        };
        match frame {
            Frame::Steps(steps) => {
                let moved = self.go_on(me, steps, exc, world)?;
                Ok(moved)
            }
            Frame::Scope { fail } => {
                let exc = self.exit(Kind::Scope { fail }, exc, world)?;
                Ok(Moved::On(exc))
            }
            Frame::Event => {
                self.leave(world);
                Ok(Moved::On(exc))
            }
            Frame::Token { limiter } => {
                let exc = give_back(limiter, exc, world)?;
                Ok(Moved::On(exc))
            }
            Frame::Received { .. } => Ok(Moved::On(exc)),
            Frame::Nursery { id } => Ok(self.end_body(id, exc, world)),
            Frame::Repeat {
                pass,
                left,
                cuts,
                body,
            } => {
                let exc = self.next_pass(pass, left, cuts, body, exc)?;
                Ok(Moved::On(exc))
            }
            Frame::Try { handler, cleanup } => {
                let exc = self.end_try(handler, cleanup, exc)?;
                Ok(Moved::On(exc))
            }
            Frame::Handler { rest, cleanup } => {
                let exc = self.end_handler(rest, cleanup, exc)?;
                Ok(Moved::On(exc))
            }
            Frame::Cleanup { outcome } => Ok(Moved::On(outcome_after(unbox_exc(outcome), exc))),
        }
    }

    // The steps of a block: an exception skips the remaining ones.
    fn go_on(
        &mut self,
        me: TaskId,
        steps: &'a [Step],
        exc: Option<Exc>,
        world: &mut World<'a>,
    ) -> Result<Moved<'a>, AllocError>
        requires fits { Fits (with_frames (state_of self.old world.old) (self.old.frames.items ++ Steps steps ∷ [])) None }
        requires tick { world.old.tick ≤ 2 ^ 62 }
        requires task_state { IsInRangeTaskState self.old.task_state }
        ensures keeps { OnOk result (KeepsRest me self.old self.new world.old world.new) }
        ensures fits { IfOk result (λ moved. Fits (state_of self.new world.new) (waits_by moved self.new.task_state)) }
        ensures shorter { IfOk result (λ moved. GoesOn moved → frames_length (frames_of (λ id. []) self.new.frames.items)
            < frames_length (frames_of (λ id. []) (self.old.frames.items ++ Steps steps.entry ∷ []))) }
        ensures step { IfOk result (λ moved. BlockStepsAs steps.entry (state_of self.old world.old) (state_of self.new world.new)
            (option_map exc_of exc) moved) }
    {
        if let Some(exc) = exc {
            return Ok(Moved::On(Some(exc)));
        }
        let Some((step, rest)) = steps.split_first() else {
            return Ok(Moved::On(None));
        };
        self.push(Frame::Steps(rest))?;
        let moved = self.run(me, step, world)?;
        Ok(moved)
    }
}
