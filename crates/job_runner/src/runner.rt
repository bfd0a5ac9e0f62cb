ghost use Rattle.std.specs.Prelude.{◌≡◌, ℕ, ◌+◌, ◌≤◌, ◌<◌, ◌^◌, None, Some, [], ◌∷◌, IsSome, IsSomeAnd, IfOk, MatchBool, OnOk, length};
ghost use Rattle.clock.specs.Clock.{now_of, due_of};
ghost use Rattle.task_table.specs.Entries.{requests_of};
ghost use Rattle.job_meaning.specs.declared.limits.TheConstants.{MAX_INPUT};
ghost use Rattle.job_meaning.specs.Clocks.{clock_of};
ghost use Rattle.job_meaning.specs.Meaning.{meaning_end};
ghost use Rattle.workers.specs.Slots.{AreAnswers};
ghost use Rattle.task_table.specs.TaskTable.{running_at, task_count, IsTaskTable};
ghost use Rattle.job_runner.specs.declared.runner.Phase.TheVariants.{Ready, Over};
ghost use Rattle.job_runner.specs.Limits.{last_tick};
ghost use Rattle.job_runner.specs.Phases.{phase_of};
ghost use Rattle.job_runner.specs.Runs.{IsRun, FollowsEach, turns_of};
ghost use Rattle.job_runner.specs.Shelves.{IsBetweenTurns, IsGoing, IsSameJob, IsTurning, IsUnderway, NoneChanged};
ghost use Rattle.job_runner.specs.Steps.{SeesOnly, TakesStarted, IsReadied, IsStopping};
ghost use Rattle.job_runner.specs.Turns.{GoesOn, TakesTurn, Commits};

use crate::finished::Run;
use crate::limits::{last_of, moments_in_a_tick};
use crate::objects_by_label::ObjectTable;
use crate::serving::RoundAct;
use cancel_scopes::stacks_are_chains;
use clock::{EventWaiters, MockClock, Sleepers, TaskId};
use input_lines::{Answer, Part, Request};
use job_meaning::{Clock, GrantTable};
use job_reader::{Job, spelled_jobs_are_sound};
use std::alloc::{AllocError, Global};
use task_machine::{Stop, Task, Wake, World};
use task_table::{Call, Pick, ReadyBatch, TaskTable, records_of};

/// What a run waits for.
#[derive(Clone, Copy, Debug, PartialEq, Eq)]
pub enum Phase {
    /// Tasks are ready: it waits for the answers to the requests of the batch (`Runner::commit`).
    Ready,
    /// Every task is blocked: it waits for a jump of the clock (`Runner::jump`).
    Blocked,
    /// The root has ended: it waits for nothing (`Runner::finish`).
    Over,
}

/// A run of a job, one batch of ready tasks after another, and one moment after another.
#[derive(Drop)]
pub struct Runner<'a> {
    pub(crate) alloc: Global,
    pub(crate) job: &'a Job,
    pub(crate) input: &'a [u8],
    pub(crate) limit: u64,
    pub(crate) world: World<'a>,
    // Its ticks are moments.
    pub(crate) clock: MockClock,
    pub(crate) task_table: TaskTable<'a>,
    // The tasks that sleep, or wait for an event, in a cancel scope.
    pub(crate) sleepers: Sleepers,
    // The tasks that wait for an event that nothing has set.
    pub(crate) waiters: EventWaiters,
    pub(crate) batch: ReadyBatch<'a>,
    // The tasks that continue a round later, where there are rounds.
    pub(crate) later: ReadyBatch<'a>,
    pub(crate) objects: ObjectTable<'a>,
    // The moment before which limiters and channels have served what was done.
    pub(crate) through: u64,
    // What was done to limiters and channels in this moment, and asked of them, in the order of turns.
    pub(crate) round: Vec<RoundAct<'a>>,
    // All that limiters and channels granted.
    pub(crate) grants: GrantTable<'a>,
    pub(crate) turns: u64,
}

impl<'a> Runner<'a> {
    /// Returns a run at tick 0, whose root is ready to begin. The input has at most `MAX_INPUT` bytes. The limit is the
    /// last tick to which the clock may jump: at most `LAST_TICK` where a moment is a tick, and at most `FAR` where a tick
    /// has rounds. The only error is that the allocator is out of memory.
    pub fn open(
        alloc: Global,
        job: &'a Job,
        input: &'a [u8],
        limit: u64,
    ) -> Result<Runner<'a>, AllocError>
        requires small { length input.now ≤ MAX_INPUT }
        requires bounded { limit ≤ last_tick (clock_of job.now.format) }
        ensures underway { IfOk result IsUnderway }
        ensures ready { IfOk result (λ r. phase_of r ≡ Ready) }
        ensures job { IfOk result (λ r. r.job.now ≡ job.now) }
        ensures input { IfOk result (λ r. r.input.now ≡ input.now) }
        ensures limit { IfOk result (λ r. r.limit ≡ limit) }
        ensures turns { IfOk result (λ r. r.turns ≡ 0) }
    {
        spelled_jobs_are_sound();
        let _steps = job.steps();
        let clock = Clock::of(job.text_format());
        let task = Task::root(alloc, job, Part::whole(input))?;
        let (task_table, root) = TaskTable::of_root(alloc, task)?;
        let mut batch = ReadyBatch::new(alloc);
        batch.add(root, Call::Begin)?;
        batch.turn_over();
        Ok(Runner {
            alloc,
            job,
            input,
            limit,
            world: World::new(alloc, clock),
            clock: MockClock::new(alloc, last_of(clock, limit), moments_in_a_tick(clock)),
            task_table,
            sleepers: Sleepers::new(alloc),
            waiters: EventWaiters::new(alloc),
            batch,
            later: ReadyBatch::new(alloc),
            objects: ObjectTable::new(alloc),
            through: 0,
            round: Vec::new(alloc),
            grants: GrantTable::new(alloc),
            turns: 0,
        })
    }

    /// Returns what the run waits for.
    pub fn phase(&self) -> Phase
        requires { IsUnderway self.now }
        ensures { result ≡ phase_of self.now }
    {
        if !self.batch.is_empty() {
            return Phase::Ready;
        }
        if self.task_table.is_over() {
            return Phase::Over;
        }
        Phase::Blocked
    }

    /// Returns the number of turns that the tasks had so far.
    pub fn turns(&self) -> u64
        ensures { result ≡ self.now.turns }
    {
        self.turns
    }

    /// Returns the requests of the ready tasks, in the order of the batch. The only error is that memory runs out.
    pub fn requests(&self) -> Result<Vec<Request<'a>>, AllocError>
        ensures { IfOk result (λ requests. requests.items ≡ requests_of self.now.batch.current) }
    {
        self.batch.requests()
    }

    /// Executes one turn of each ready task, in the order that the picker picks. The moment stays the same. The caller must
    /// ensure that each answer is that of the request at the same place. The only error is that memory runs out.
    pub fn commit<P: Pick>(
        self,
        answers: Vec<Answer<'a>>,
        picker: &mut P,
    ) -> Result<Runner<'a>, AllocError>
        requires underway { IsUnderway self }
        requires answers { AreAnswers (requests_of self.batch.current) answers.items }
        ensures underway { IfOk result IsUnderway }
        ensures same { IfOk result (IsSameJob self.entry) }
        ensures turns { IfOk result (λ r. r.turns ≡ self.entry.turns + length self.entry.batch.current) }
        ensures commits { IfOk result (λ r. Commits P.picks self.entry r answers.entry.items picker.old picker.new) }
    {
        let mut runner = self;
        runner.commit_batch(answers, picker)?;
        Ok(runner)
    }

    // Executes one turn of each ready task, as `commit` does. After an error the run can only be dropped.
    pub(crate) fn commit_batch<P: Pick>(
        &mut self,
        answers: Vec<Answer<'a>>,
        picker: &mut P,
    ) -> Result<(), AllocError>
        requires underway { IsUnderway self.old }
        requires answers { AreAnswers (requests_of self.old.batch.current) answers.items }
        ensures underway { OnOk result (IsUnderway self.new) }
        ensures same { OnOk result (IsSameJob self.old self.new) }
        ensures turns { OnOk result (self.new.turns ≡ self.old.turns + length self.old.batch.current) }
        ensures commits { OnOk result (Commits P.picks self.old self.new answers.entry.items picker.old picker.new) }
    {
        self.batch.place(answers);
        'turns: while let Some(turn) = self.batch.next(picker) {
            let (id, wake) = turn;
            self.take_turn(id, wake)?;
        }
        self.see_changed()?;
        self.batch.turn_over();
        if !self.has_to_serve() {
            return Ok(());
        }
        self.serve_round()?;
        Ok(())
    }

    // Whether no task is ready in this moment any more, and what was done in it to limiters and channels is not served yet.
    fn has_to_serve(&self) -> bool
        ensures { MatchBool result ((self.now.batch.current ≡ []) × (self.now.through ≤ self.now.world.tick))
            (self.now.batch.current ≡ [] → self.now.world.tick < self.now.through) }
    {
        if !self.batch.is_empty() {
            return false;
        }
        self.through <= self.world.now()
    }

    // The sleepers are updated with each effective deadline (`sight`) that a cancellation lowered.
    fn see_changed(&mut self) -> Result<(), AllocError>
        requires going { IsGoing self.old }
        ensures going { OnOk result (IsGoing self.new) }
        ensures unchanged { OnOk result (NoneChanged self.new.world) }
        ensures rest { OnOk result (SeesOnly self.old self.new) }
    {
        'changed: while let Some(scope) = self.world.scopes_mut().take_changed() {
            let sight = self.world.scopes().seen_from(scope);
            self.sleepers.see(scope, sight)?;
        }
        Ok(())
    }

    // Executes a turn of the task with an id.
    fn take_turn(&mut self, id: TaskId, wake: Wake<'a>) -> Result<(), AllocError>
        requires turning { IsTurning id wake self.old }
        ensures going { OnOk result (IsBetweenTurns self.new) }
        ensures takes { OnOk result (TakesTurn id wake.entry self.old self.new) }
        ensures same { OnOk result (IsSameJob self.old self.new) }
        ensures current { OnOk result (self.new.batch.current ≡ self.old.batch.current) }
        ensures turns { OnOk result (self.new.turns ≡ self.old.turns + 1) }
    {
        let row = self.task_table.row(id);
        let stop = self.go(id, row, wake)?;
        self.handle_stop(id, row, stop)?;
        Ok(())
    }

    // The task with an id and a row continues to its next stop, and those that it started are ready to begin.
    fn go(&mut self, id: TaskId, row: usize, wake: Wake<'a>) -> Result<Stop<'a>, AllocError>
        requires turning { IsTurning id wake self.old }
        requires row { IsSomeAnd (running_at self.old.task_table id) (λ x. x.row ≡ row) }
        ensures stopping { IfOk result (λ stop. IsStopping id row stop self.new) }
        ensures goes { IfOk result (λ stop. GoesOn id wake.entry stop self.old self.new) }
        ensures same { OnOk result (IsSameJob self.old self.new) }
        ensures current { OnOk result (self.new.batch.current ≡ self.old.batch.current) }
        ensures turns { OnOk result (self.new.turns ≡ self.old.turns + 1) }
    {
        stacks_are_chains(self.world.scopes());
        let stop = self.task_table.turn(id, wake, &mut self.world)?;
        stacks_are_chains(self.world.scopes());
        self.turns += 1;
        self.take_started(row)?;
        self.take_set()?;
        self.take_acts(row)?;
        Ok(stop)
    }

    // The tasks that the one of this row started begin a round later.
    fn take_started(&mut self, row: usize) -> Result<(), AllocError>
        requires agree { IsTaskTable self.old.task_table }
        requires row { row < task_count self.old.task_table }
        requires timers { (id due : ℕ) → due_of self.old.clock id ≡ Some due → IsSome (running_at self.old.task_table id) }
        requires now { now_of self.old.clock ≡ self.old.world.tick }
        requires bounded { self.old.world.tick ≤ 2 ^ 62 }
        ensures { OnOk result (TakesStarted self.old self.new row) }
    {
        let clock = self.world.clock();
        let begins = clock.a_round_after(self.world.now());
        'started: while let Some(task) = self.world.take_started() {
            let id = self.task_table.start(row, task, clock.tick_of(begins))?;
            self.ready(id, Call::Begin)?;
        }
        Ok(())
    }

    // A task that continues a round later is ready. Where a moment is a tick, it is added to the next batch with this call, and
    // otherwise to those that continue in the next moment.
    pub(crate) fn ready(&mut self, id: TaskId, call: Call<'a>) -> Result<(), AllocError>
        requires awake { due_of self.old.clock id ≡ None }
        requires now { now_of self.old.clock ≡ self.old.world.tick }
        requires bounded { self.old.world.tick ≤ 2 ^ 62 }
        ensures { OnOk result (IsReadied (id ∷ []) call.entry self.old self.new) }
    {
        match self.world.clock() {
            Clock::ByTicks => self.batch.add(id, call)?,
            Clock::ByRounds => self.later.add(id, call)?,
        }
        Ok(())
    }

    /// Returns the records of a run that is over: those of the job's meaning, which are those of following any settled
    /// table. The caller must ensure that the run is over (`Phase::Over`). The only error is that memory runs out.
    pub fn finish(self) -> Result<Run<'a>, AllocError>
        requires underway { IsUnderway self }
        requires over { phase_of self ≡ Over }
        ensures run { IfOk result (IsRun self.entry.job.now self.entry.input.now) }
        ensures follows { IfOk result (FollowsEach self.entry.job.now self.entry.input.now) }
        ensures in_time { IfOk result (λ _. meaning_end self.entry.job.now self.entry.input.now ≤ self.entry.limit) }
        ensures turns { IfOk result (λ run. turns_of run ≡ self.entry.turns) }
    {
        let Runner {
            alloc,
            job,
            task_table,
            grants,
            turns,
            ..
        } = self;
        let (records, cancelled_from) = records_of(alloc, task_table.into_rows())?;
        Ok(Run::new(job.name(), records, cancelled_from, grants, turns))
    }
}
