ghost use Rattle.std.specs.Prelude.{◌≡◌, ◌≢◌, ◌≤◌, ◌^◌, [], None, IsSome, IfOk, IfErr, OnOk};
ghost use Rattle.job_runner.specs.declared.runner.Phase.TheVariants.{Ready, Blocked};
ghost use Rattle.std.specs.Option.{ForSome};
ghost use Rattle.task_machine.specs.Events.{WaitsWithin};
ghost use Rattle.task_table.specs.TaskTable.{running_at};
ghost use Rattle.job_runner.specs.Jumps.{AddsUngranted, IsNextCancel, IsNextRound, IsNextMoment, IsWaking, PassesLimit, NoneSees, WakesOnly, seen_call};
ghost use Rattle.job_runner.specs.Phases.{phase_of};
ghost use Rattle.job_runner.specs.Runs.{IsLate};
ghost use Rattle.job_runner.specs.Shelves.{AreShelved, IsSameJob, IsUnderway};

use crate::fault::RunFault;
use crate::runner::Runner;
use clock::{Jump, TaskId};
use std::alloc::AllocError;
use std::mem;
use task_table::Call;

impl<'a> Runner<'a> {
    /// Lets the clock jump to the next moment in which a task continues: the first in which the moment of a task has come, or one
    /// that sleeps or waits for an event sees a cancellation. Those tasks are ready then. The caller must ensure that every task
    /// is blocked (`Phase::Blocked`). The errors are `Limit`, exactly if that moment is after the tick of the limit, and then the
    /// job's meaning ends later than the limit; or that the allocator is out of memory.
    pub fn jump(self) -> Result<Runner<'a>, RunFault>
        requires underway { IsUnderway self }
        requires blocked { phase_of self ≡ Blocked }
        ensures underway { IfOk result IsUnderway }
        ensures ready { IfOk result (λ r. phase_of r ≡ Ready) }
        ensures same { IfOk result (IsSameJob self.entry) }
        ensures turns { IfOk result (λ r. r.turns ≡ self.entry.turns) }
        ensures moment { IfOk result (λ r. IsNextMoment self.entry r.world.tick) }
        ensures limit { IfErr result (PassesLimit self.entry) }
        ensures late { IfErr result (IsLate self.entry.job.now self.entry.input.now self.entry.limit) }
    {
        let mut runner = self;
        runner.jump_clock()?;
        Ok(runner)
    }

    // Lets the clock jump, as `jump` does. After an error the run can only be dropped.
    pub(crate) fn jump_clock(&mut self) -> Result<(), RunFault>
        requires underway { IsUnderway self.old }
        requires blocked { phase_of self.old ≡ Blocked }
        ensures underway { OnOk result (IsUnderway self.new) }
        ensures ready { OnOk result (phase_of self.new ≡ Ready) }
        ensures same { OnOk result (IsSameJob self.old self.new) }
        ensures turns { OnOk result (self.new.turns ≡ self.old.turns) }
        ensures moment { OnOk result (IsNextMoment self.old self.new.world.tick) }
        ensures limit { IfErr result (PassesLimit self.old) }
        ensures late { IfErr result (IsLate self.old.job.now self.old.input.now self.old.limit) }
    {
        let next = self.next_round();
        match self.clock.jump(next) {
            Jump::Limit => Err(RunFault::Limit { limit: self.limit }),
            Jump::To(moment) => {
                self.world.set_now(moment);
                self.through = moment;
                self.wake_later();
                self.wake_seen()?;
                self.wake_due()?;
                self.batch.turn_over();
                Ok(())
            }
        }
    }

    // Returns the next moment, if a task continues a round later; else the one in which the first sleeper that sees a cancellation
    // continues, or `None` if none does.
    fn next_round(&self) -> Option<u64>
        requires { self.now.world.tick ≤ 2 ^ 62 }
        ensures { IsNextRound self.now result }
    {
        if !self.later.has_next() {
            return self.next_cancel();
        }
        Some(self.world.now() + 1)
    }

    // Each task that continues a round later is ready.
    fn wake_later(&mut self)
        requires { (self.old.batch.current ≡ []) × (self.old.batch.next ≡ []) }
        ensures ready { self.new.batch ≡ self.old.later }
        ensures none { self.new.later ≡ self.old.batch }
        ensures rest { self.new ≡ record self.old { batch = self.new.batch; later = self.new.later } }
    {
        mem::swap(&mut self.batch, &mut self.later);
    }

    // Returns the moment in which the first sleeper that sees a cancellation continues, or `None` if none does.
    fn next_cancel(&self) -> Option<u64>
        requires { self.now.world.tick ≤ 2 ^ 62 }
        ensures { IsNextCancel self.now result }
    {
        let next = self.world.now() + 1;
        let sight = self.sleepers.first()?;
        Some(sight.max(next))
    }

    // Each task that sleeps, or waits for an event, and sees a cancellation now is ready.
    fn wake_seen(&mut self) -> Result<(), AllocError>
        requires { IsWaking self.old }
        ensures waking { OnOk result (IsWaking self.new) }
        ensures unseen { OnOk result (NoneSees self.new) }
        ensures added { OnOk result (AddsUngranted self.old self.new) }
        ensures rest { OnOk result (WakesOnly self.old self.new) }
    {
        'seen: while let Some(id) = self.sleepers.take_seen(self.world.now()) {
            let call = self.seen_call(id);
            self.clock.wake(id);
            self.waiters.remove(id);
            self.batch.add(id, call)?;
        }
        Ok(())
    }

    // How a task that sees a cancellation continues: one whose event is set now goes on.
    fn seen_call(&self, id: TaskId) -> Call<'a>
        requires lives { IsSome (running_at self.now.task_table id) }
        requires within { ForSome (running_at self.now.task_table id) (λ x. WaitsWithin x.task.task_state) }
        ensures { ForSome (running_at self.now.task_table id) (λ x. result ≡ seen_call self.now.world x.task) }
    {
        match self.task_table.is_wait_over(id, &self.world) {
            true => Call::Due,
            false => Call::Seen,
        }
    }

    // Each task whose moment has come is ready. The others stay.
    fn wake_due(&mut self) -> Result<(), AllocError>
        requires waking { IsWaking self.old }
        requires unseen { NoneSees self.old }
        ensures shelved { OnOk result (AreShelved None self.new) }
        ensures some { OnOk result (self.new.batch.next ≢ []) }
        ensures current { OnOk result (self.new.batch.current ≡ []) }
        ensures added { OnOk result (AddsUngranted self.old self.new) }
        ensures rest { OnOk result (WakesOnly self.old self.new) }
    {
        'due: while let Some(id) = self.clock.take_due() {
            self.sleepers.remove(id);
            self.waiters.remove(id);
            self.batch.add(id, Call::Due)?;
        }
        Ok(())
    }
}
