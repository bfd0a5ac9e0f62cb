ghost use Rattle.std.specs.Prelude.{◌≡◌, ◌≤◌, ℕ, ◌^◌, List, Some, None, IfOk, All};
ghost use Rattle.std.specs.Option.{ForSome};
ghost use Rattle.exceptions.specs.Exceptions.{raised};
ghost use Rattle.cancel_scopes.specs.Tree.{IsOpen, outer_of};
ghost use Rattle.nursery_book.specs.declared.book.NurseryBook.{NurseryBook as Book};
ghost use Rattle.job_meaning.specs.Log.{Table};
ghost use Rattle.job_meaning.specs.Rest.{Frame as Left, asking};
ghost use Rattle.turn_semantics.specs.Midway.{Place};
ghost use Rattle.turn_semantics.specs.Steps.{sleeps, onward, blocks_on};
ghost use Rattle.task_machine.specs.Standing.{waits_by};
ghost use Rattle.input_lines.specs.Part.{buffer_of};
ghost use Rattle.task_machine.specs.Fitting.{HasCut, AreOf, received_in};
ghost use Rattle.task_machine.specs.Tasks.{scope_of, lent_of};
ghost use Rattle.task_machine.specs.Waking.{IsInRangeTaskState, IsInRangePurpose};
ghost use Rattle.task_machine.specs.Worlds.{label_at, event_at};
ghost use Rattle.task_machine.specs.Stacked.{AreAt};
ghost use Rattle.task_machine.specs.Stops.{Numbers, MovesAs, kernel_in, purpose_in};
ghost use Rattle.task_machine.specs.declared.stop.Moved.TheVariants.{Stops};
ghost use Rattle.task_machine.specs.declared.stop.Stop.TheVariants.{Sleep};
ghost use Rattle.task_machine.specs.declared.stop.TaskState.TheVariants.{Asleep};
ghost use Rattle.job_meaning.specs.declared.clock.Clock.{Clock};
ghost use Rattle.job_meaning.specs.Clocks.{tick_of, wakes_at};

use crate::stop::{Moved, Purpose, Stop, TaskState};
use crate::task::Task;
use crate::world::World;
use exceptions::Exc;
use input_lines::{Kernel, Request};
use job_meaning::Clock;
use job_tree::Name;
use std::alloc::AllocError;

impl<'a> Task<'a> {
    // A sleep of `ticks` ticks, for a `pace` or not. Where a moment is a tick, it is a checkpoint, which raises if a cancellation
    // is seen; where there are rounds, each sleep takes a round.
    pub(crate) fn sleep(&mut self, paced: bool, ticks: u64, world: &World<'a>) -> Moved<'a>
        requires scope { ForSome (scope_of self.old) (IsOpen world.now.scopes) }
        requires ticks { ticks ≤ 2 ^ 40 }
        requires tick { world.now.tick ≤ 2 ^ 62 }
        ensures stays { self.new ≡ record self.old { task_state = self.new.task_state } }
        ensures task_state { IsInRangeTaskState self.old.task_state → IsInRangeTaskState self.new.task_state }
        ensures waits { waits_by result self.new.task_state ≡ None }
        ensures sleeps { (cancelled_from : Table) (numbers : Numbers) (book : Book) (fs : List Left) (ps : List Place) →
            AreAt (label_at world.now) (event_at world.now) cancelled_from (outer_of world.now.scopes (scope_of self.old)) ps →
            MovesAs world.now.clock numbers book (lent_of self.old) result self.new.task_state
            (sleeps world.now.clock cancelled_from paced ticks world.now.tick fs ps) }
    {
        match world.clock() {
            Clock::ByTicks => {
                if world.sees(self.scope()) {
                    return Moved::On(Some(Exc::Cancelled));
                }
                if ticks == 0 {
                    return Moved::On(None);
                }
                self.fall_asleep(paced, ticks, world)
            }
            Clock::ByRounds => self.fall_asleep(paced, ticks, world),
        }
    }

    // The task sleeps from now on.
    fn fall_asleep(&mut self, paced: bool, ticks: u64, world: &World<'a>) -> Moved<'a>
        requires ticks { ticks ≤ 2 ^ 40 }
        requires tick { world.now.tick ≤ 2 ^ 62 }
        ensures stops { result ≡ Stops (Sleep (wakes_at world.now.clock ticks world.now.tick)) }
        ensures stays { self.new ≡ record self.old { task_state = Asleep paced ticks world.now.tick } }
    {
        let since = world.now();
        self.task_state = TaskState::Asleep {
            paced,
            ticks,
            since,
        };
        Moved::Stops(Stop::Sleep(world.clock().wakes_at(ticks, since)))
    }

    // Raises an exception of that name.
    pub(crate) fn raise(&self, name: Name, world: &World<'a>) -> Result<Moved<'a>, AllocError>
        ensures on { IfOk result (λ moved. waits_by moved self.now.task_state ≡ None) }
        ensures raises { IfOk result (λ moved. (numbers : Numbers) (book : Book) (fs : List Left) (ps : List Place) →
            MovesAs world.now.clock numbers book (lent_of self.now) moved self.now.task_state
            (onward fs ps (Some (raised name self.now.label (tick_of world.now.clock world.now.tick))))) }
    {
        let task = self.label.copy(self.alloc)?;
        Ok(Moved::On(Some(Exc::Raised {
            name,
            task,
            tick: world.tick(),
        })))
    }

    // Asks a kernel for an answer on the part that the task has here.
    pub(crate) fn ask(&mut self, kernel: Kernel<'a>, purpose: Purpose) -> Moved<'a>
        requires cuts { All HasCut self.old.frames.items }
        requires lent { AreOf (buffer_of self.old.part) (received_in self.old.frames.items) }
        ensures stays { self.new ≡ record self.old { task_state = self.new.task_state } }
        ensures task_state { IsInRangePurpose purpose → IsInRangeTaskState self.new.task_state }
        ensures waits { waits_by result self.new.task_state ≡ None }
        ensures asks { (clock : Clock) (numbers : Numbers) (book : Book) (fs : List Left) (ps : List Place) →
            MovesAs clock numbers book (lent_of self.old) result self.new.task_state
            (blocks_on (asking (kernel_in kernel.entry) (purpose_in purpose)) fs ps) }
    {
        self.task_state = TaskState::Asked { kernel, purpose };
        let part = self.part_here();
        Moved::Stops(Stop::Ask(Request { kernel, part }))
    }
}
