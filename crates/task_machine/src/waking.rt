ghost use Rattle.std.specs.Prelude.{◌≡◌, ◌+◌, ◌<◌, ◌≤◌, ◌^◌, ◌++◌, true, None, Some, IfOk, OnOk, length, map};
ghost use Rattle.std.specs.Option.{ForSome};
ghost use Rattle.input_lines.specs.Lines.{bytes_of};
ghost use Rattle.input_lines.specs.Part.{buffer_of, range_of};
ghost use Rattle.cancel_scopes.specs.Tree.{IsOpen};
ghost use Rattle.job_meaning.specs.declared.limits.TheConstants.{MAX_INPUT};
ghost use Rattle.task_machine.specs.declared.stop.Wake.TheVariants as wakes;
ghost use Rattle.input_lines.specs.declared.kernel.Kernel.{Kernel};
ghost use Rattle.job_meaning.specs.Asking.{missing, counted};
ghost use Rattle.task_machine.specs.declared.stop.TaskState.TheVariants.{Asked};
ghost use Rattle.turn_semantics.specs.Wakes.{has_answer, sees, settles};
ghost use Rattle.task_machine.specs.Fitting.{Fits, waits_of};
ghost use Rattle.task_machine.specs.Standing.{waits_by, Wakens};
ghost use Rattle.task_machine.specs.States.{state_of};
ghost use Rattle.task_machine.specs.Tasks.{scope_of, lent_of};
ghost use Rattle.task_machine.specs.Waiters.{SameWaiters};
ghost use Rattle.task_machine.specs.Waking.{WakesFrom, wake_in, answer_in, settled_exc, IsInRangeTaskState, IsInRangePurpose};

use crate::entry::Entry;
use crate::stop::{Moved, Purpose, Stop, TaskState, Wake};
use crate::task::Task;
use crate::world::World;
use block_exits::{Kind, deadlock};
use cancel_scopes::stacks_are_chains;
use exceptions::Exc;
use input_lines::{Answer, Line};
use std::alloc::AllocError;

impl<'a> Task<'a> {
    // What a task does first when it wakes. After an error the task and the world can only be dropped.
    pub(crate) fn wake(
        &mut self,
        wake: Wake<'a>,
        world: &mut World<'a>,
    ) -> Result<Moved<'a>, AllocError>
        requires fits { Fits (state_of self.old world.old) (waits_of self.old.task_state) }
        requires tick { world.old.tick ≤ 2 ^ 62 }
        requires task_state { IsInRangeTaskState self.old.task_state }
        requires wake { WakesFrom self.old.task_state (lent_of self.old) world.old.book wake }
        ensures stays { OnOk result (self.new
            ≡ record self.old {
              frames = self.new.frames;
              own = self.new.own;
              task_state = self.new.task_state;
              entries = self.new.entries;
              cancelled_from = self.new.cancelled_from;
            }) }
        ensures world { OnOk result (world.new
            ≡ record world.old { scopes = world.new.scopes; labels = world.new.labels; events = world.new.events; book = world.new.book }) }
        ensures task_state { OnOk result (IsInRangeTaskState self.new.task_state) }
        ensures fits { IfOk result (λ moved. Fits (state_of self.new world.new) (waits_by moved self.new.task_state)) }
        ensures waiters { OnOk result (SameWaiters world.old.book world.new.book) }
        ensures wakes { IfOk result (λ moved. Wakens (state_of self.old world.old) (state_of self.new world.new) moved
            (wake_in world.old.book self.old.task_state wake.entry)) }
    {
        match wake {
            Wake::Begin => Ok(Moved::On(None)),
            Wake::Due => {
                let moved = self.come_due(world)?;
                Ok(moved)
            }
            Wake::Seen => Ok(self.see(world)),
            Wake::Answer(answer) => {
                let moved = self.take_answer(answer, world)?;
                Ok(moved)
            }
            Wake::Granted(grant) => {
                let moved = self.take_grant(grant, world)?;
                Ok(moved)
            }
            Wake::Settled => {
                let moved = self.settle(world)?;
                Ok(moved)
            }
        }
    }

    // The moment of the task has come.
    fn come_due(&mut self, world: &mut World<'a>) -> Result<Moved<'a>, AllocError>
        requires fits { Fits (state_of self.old world.old) (waits_of self.old.task_state) }
        requires wake { WakesFrom self.old.task_state (lent_of self.old) world.old.book wakes.Due }
        ensures stays { OnOk result (self.new
            ≡ record self.old { own = self.new.own; entries = self.new.entries; cancelled_from = self.new.cancelled_from }) }
        ensures world { OnOk result (world.new
            ≡ record world.old { scopes = world.new.scopes; labels = world.new.labels; events = world.new.events; book = world.new.book }) }
        ensures fits { IfOk result (λ moved. Fits (state_of self.new world.new) (waits_by moved self.new.task_state)) }
        ensures waiters { OnOk result (SameWaiters world.old.book world.new.book) }
        ensures wakes { IfOk result (λ moved. Wakens (state_of self.old world.old) (state_of self.new world.new) moved
            (wake_in world.old.book self.old.task_state wakes.Due)) }
    {
        match &self.task_state {
            TaskState::ToBegin { .. } => Ok(Moved::On(None)),
            TaskState::Asleep { .. } => Ok(Moved::On(None)),
            TaskState::Waiting { event, .. } => {
                let event = *event;
                self.note_wait(event, world)?;
                Ok(Moved::On(None))
            }
            TaskState::Queued { .. } => {
                let moved = self.raise(deadlock(), world)?;
                Ok(moved)
            }
            TaskState::GivingUp { .. } => Ok(Moved::On(Some(Exc::Cancelled))),
            TaskState::Awaits { .. } => {
                let moved = self.settle(world)?;
                Ok(moved)
            }
            TaskState::Asked { .. } => unreachable!(),
            TaskState::Over => unreachable!(),
        }
    }

    // The task sees a cancellation: it raises, but for one at a checkpoint where there are rounds, which raises a round later.
    fn see(&mut self, world: &World<'a>) -> Moved<'a>
        requires tick { world.now.tick ≤ 2 ^ 62 }
        requires task_state { IsInRangeTaskState self.old.task_state }
        requires wake { WakesFrom self.old.task_state (lent_of self.old) world.now.book wakes.Seen }
        ensures stays { self.new ≡ record self.old { task_state = self.new.task_state } }
        ensures task_state { IsInRangeTaskState self.new.task_state }
        ensures waits { waits_by result self.new.task_state ≡ None }
        ensures wakes { Wakens (state_of self.old world.now) (state_of self.new world.now) result sees }
    {
        if !self.is_at_checkpoint(world) {
            return Moved::On(Some(Exc::Cancelled));
        }
        let since = world.now();
        self.task_state = TaskState::GivingUp { since };
        Moved::Stops(Stop::GiveUp(since + 1))
    }

    // Takes the kernel's answer: its lines are noted, a missing line raises, and a count determines a sleep.
    fn take_answer(
        &mut self,
        answer: Answer<'a>,
        world: &World<'a>,
    ) -> Result<Moved<'a>, AllocError>
        requires scope { ForSome (scope_of self.old) (IsOpen world.now.scopes) }
        requires small { length (buffer_of self.old.part) ≤ MAX_INPUT }
        requires tick { world.now.tick ≤ 2 ^ 62 }
        requires task_state { IsInRangeTaskState self.old.task_state }
        requires wake { WakesFrom self.old.task_state (lent_of self.old) world.now.book (wakes.Answer answer) }
        ensures stays { OnOk result (self.new ≡ record self.old { task_state = self.new.task_state; entries = self.new.entries }) }
        ensures task_state { OnOk result (IsInRangeTaskState self.new.task_state) }
        ensures waits { IfOk result (λ moved. waits_by moved self.new.task_state ≡ None) }
        ensures wakes { IfOk result (λ moved. Wakens (state_of self.old world.now) (state_of self.new world.now) moved (has_answer (answer_in answer.entry))) }
    {
        let TaskState::Asked { purpose, .. } = &self.task_state else {
            unreachable!()
        };
        let purpose = *purpose;
        match answer {
            Answer::Lines(lines) => {
                push_lines(&mut self.entries, lines.as_slice())?;
                Ok(Moved::On(None))
            }
            Answer::Missing => {
                let moved = self.miss(purpose, world)?;
                Ok(moved)
            }
            Answer::Count(count) => Ok(self.pace(count, purpose, world)),
        }
    }

    // There is no such line: `need` raises.
    fn miss(&self, purpose: Purpose, world: &World<'a>) -> Result<Moved<'a>, AllocError>
        ensures waits { IfOk result (λ moved. waits_by moved self.now.task_state ≡ None) }
        ensures wakes { IfOk result (λ moved. (kernel : Kernel) → self.now.task_state ≡ Asked kernel purpose →
            Wakens (state_of self.now world.now) (state_of self.now world.now) moved (has_answer missing)) }
    {
        match purpose {
            Purpose::Needs(name) => {
                let moved = self.raise(name, world)?;
                Ok(moved)
            }
            Purpose::Shows => Ok(Moved::On(None)),
            Purpose::Paces(_) => Ok(Moved::On(None)),
        }
    }

    // There are `count` lines: `pace` sleeps accordingly.
    fn pace(&mut self, count: u64, purpose: Purpose, world: &World<'a>) -> Moved<'a>
        requires scope { ForSome (scope_of self.old) (IsOpen world.now.scopes) }
        requires few { count ≤ MAX_INPUT }
        requires tick { world.now.tick ≤ 2 ^ 62 }
        requires purpose { IsInRangePurpose purpose }
        ensures stays { self.new ≡ record self.old { task_state = self.new.task_state } }
        ensures task_state { IsInRangeTaskState self.old.task_state → IsInRangeTaskState self.new.task_state }
        ensures waits { waits_by result self.new.task_state ≡ None }
        ensures wakes { (kernel : Kernel) → self.old.task_state ≡ Asked kernel purpose →
            Wakens (state_of self.old world.now) (state_of self.new world.now) result (has_answer (counted count)) }
    {
        match purpose {
            Purpose::Paces(per_tick) => self.sleep(
                true,
                (count + (per_tick - 1)) / per_tick,
                world,
            ),
            Purpose::Shows => Moved::On(None),
            Purpose::Needs(_) => Moved::On(None),
        }
    }

    // The nursery that the task waits for is settled: it is left with the group of what its members raised.
    fn settle(&mut self, world: &mut World<'a>) -> Result<Moved<'a>, AllocError>
        requires fits { Fits (state_of self.old world.old) (waits_of self.old.task_state) }
        requires wake { WakesFrom self.old.task_state (lent_of self.old) world.old.book wakes.Settled }
        ensures stays { OnOk result (self.new
            ≡ record self.old { own = self.new.own; entries = self.new.entries; cancelled_from = self.new.cancelled_from }) }
        ensures world { OnOk result (world.new
            ≡ record world.old { scopes = world.new.scopes; labels = world.new.labels; events = world.new.events; book = world.new.book }) }
        ensures fits { IfOk result (λ moved. Fits (state_of self.new world.new) (waits_by moved self.new.task_state)) }
        ensures waiters { OnOk result (SameWaiters world.old.book world.new.book) }
        ensures wakes { IfOk result (λ moved. Wakens (state_of self.old world.old) (state_of self.new world.new) moved
            (settles (settled_exc world.old.book self.old.task_state))) }
    {
        stacks_are_chains(&world.scopes);
        let TaskState::Awaits { nursery, .. } = &self.task_state else {
            unreachable!()
        };
        let nursery = *nursery;
        let exc = world.book.close(nursery)?;
        let exc = self.exit(Kind::Nursery, exc, world)?;
        Ok(Moved::On(exc))
    }
}

// Lines are noted in the order in which a kernel answers them.
fn push_lines<'a>(entries: &mut Vec<Entry<'a>>, lines: &[Line<'a>]) -> Result<(), AllocError>
    ensures { OnOk result (entries.new.items ≡ entries.old.items ++ map Entry.Line lines.now) }
{
    entries.reserve(lines.len())?;
    'lines: for line in lines {
        entries.push(Entry::Line(*line))?;
    }
    Ok(())
}
