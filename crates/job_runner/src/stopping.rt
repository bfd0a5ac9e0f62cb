ghost use Rattle.std.specs.Prelude.{◌≡◌, ◌<◌, ◌≤◌, ◌^◌, true, None, Some, IsSome, IfOk, OnOk, slice_get};
ghost use Rattle.clock.specs.Clock.{now_of, due_of};
ghost use Rattle.std.specs.Option.{ForSome, option_map};
ghost use Rattle.cancel_scopes.specs.Sight.{seen};
ghost use Rattle.cancel_scopes.specs.Tree.{IsOpen, outer_of};
ghost use Rattle.exceptions.specs.Held.{exc_of};
ghost use Rattle.nursery_book.specs.Nursery.{is_settled, with_child};
ghost use Rattle.nursery_book.specs.Book.{HasNursery};
ghost use Rattle.clock.specs.Sleeping.{scope_in};
ghost use Rattle.task_machine.specs.declared.stop.Stop.TheVariants.{Ask, Sleep, WaitFor, Queue, GiveUp, Wait, Ended};
ghost use Rattle.task_machine.specs.Tasks.{scope_of};
ghost use Rattle.task_table.specs.TaskTable.{running_at, parent_of, id_of, task_count};
ghost use Rattle.job_runner.specs.Shelves.{IsBetweenTurns};
ghost use Rattle.job_runner.specs.Steps.{IsStopping, IsSameTurn, PutsToSleep, TellsEnd};
ghost use Rattle.job_runner.specs.Turns.{ComesOf, call_at_once};

use crate::runner::Runner;
use cancel_scopes::ScopeId;
use clock::TaskId;
use exceptions::Exc;
use input_lines::Request;
use job_meaning::{Clock, FAR};
use nursery_book::{ChildIndex, NurseryId};
use std::alloc::{AllocError, Global};
use task_machine::{ObjectRequest, Stop};
use task_table::Call;

impl<'a> Runner<'a> {
    // Handles the stop of the task with an id and a row.
    pub(crate) fn handle_stop(
        &mut self,
        id: TaskId,
        row: usize,
        stop: Stop<'a>,
    ) -> Result<(), AllocError>
        requires { IsStopping id row stop self.old }
        ensures going { OnOk result (IsBetweenTurns self.new) }
        ensures comes { OnOk result (ComesOf id stop.entry self.old self.new) }
        ensures same { OnOk result (IsSameTurn self.old self.new) }
    {
        match stop {
            Stop::Ask(request) => self.handle_ask(id, row, request)?,
            Stop::Sleep(due) => self.handle_sleep(id, row, due)?,
            Stop::WaitFor(event) => self.handle_wait_for(id, row, event)?,
            Stop::Queue(request) => self.handle_queue(id, row, request)?,
            Stop::GiveUp(due) => self.handle_give_up(id, row, due)?,
            Stop::Wait(nursery) => self.handle_wait(id, row, nursery)?,
            Stop::Ended(exc) => self.handle_end(id, row, exc)?,
        }
        Ok(())
    }

    // The task is added to the next batch with its request.
    fn handle_ask(&mut self, id: TaskId, row: usize, request: Request<'a>) -> Result<(), AllocError>
        requires { IsStopping id row (Ask request) self.old }
        ensures going { OnOk result (IsBetweenTurns self.new) }
        ensures comes { OnOk result (ComesOf id (Ask request.entry) self.old self.new) }
        ensures same { OnOk result (IsSameTurn self.old self.new) }
    {
        let _row = row;
        self.batch.add(id, Call::Ask(request))?;
        Ok(())
    }

    // The task sleeps until a moment.
    fn handle_sleep(&mut self, id: TaskId, row: usize, due: u64) -> Result<(), AllocError>
        requires { IsStopping id row (Sleep due) self.old }
        ensures going { OnOk result (IsBetweenTurns self.new) }
        ensures comes { OnOk result (ComesOf id (Sleep due) self.old self.new) }
        ensures same { OnOk result (IsSameTurn self.old self.new) }
    {
        let _row = row;
        self.put_to_sleep(id, due)?;
        Ok(())
    }

    // The task is added to the sleepers, and to those that wait for the event, if nothing has set it. Where a moment is a tick,
    // it may continue in the same moment.
    fn handle_wait_for(&mut self, id: TaskId, row: usize, event: ScopeId) -> Result<(), AllocError>
        requires { IsStopping id row (WaitFor event) self.old }
        ensures going { OnOk result (IsBetweenTurns self.new) }
        ensures comes { OnOk result (ComesOf id (WaitFor event) self.old self.new) }
        ensures same { OnOk result (IsSameTurn self.old self.new) }
    {
        let _row = row;
        let due = self.world.wait_ends(event);
        if let Some(call) = self.call_at_once(id, due) {
            self.batch.add(id, call)?;
            return Ok(());
        }
        self.put_to_sleep(id, due)?;
        if self.world.set_from(event).is_none() {
            self.waiters.add(id, event)?;
        }
        Ok(())
    }

    // What the task asks is served at the end of the moment. It waits as long as `forever`, and at least a round, unless it sees a
    // cancellation.
    fn handle_queue(
        &mut self,
        id: TaskId,
        row: usize,
        request: ObjectRequest<'a>,
    ) -> Result<(), AllocError>
        requires { IsStopping id row (Queue request) self.old }
        ensures going { OnOk result (IsBetweenTurns self.new) }
        ensures comes { OnOk result (ComesOf id (Queue request.entry) self.old self.new) }
        ensures same { OnOk result (IsSameTurn self.old self.new) }
    {
        let ObjectRequest { object, ask, part } = request;
        self.keep_ask(row, object, ask, part)?;
        let next = self.world.now() + 1;
        let last = self.world.clock().start_of(FAR).max(next);
        self.put_to_sleep(id, last)?;
        Ok(())
    }

    // Where a moment is a tick, a task that waits until a moment continues in this one if it sees a cancellation, or if that
    // moment has come.
    fn call_at_once(&self, id: TaskId, due: u64) -> Option<Call<'a>>
        requires lives { IsSome (running_at self.now.task_table id) }
        requires opened { ForSome (running_at self.now.task_table id) (λ x. ForSome (scope_of x.task) (IsOpen self.now.world.scopes)) }
        ensures { ForSome (running_at self.now.task_table id) (λ x. result ≡ call_at_once self.now.world (scope_of x.task) due) }
    {
        match self.world.clock() {
            Clock::ByRounds => None,
            Clock::ByTicks => {
                if self.sees(id) {
                    return Some(Call::Seen);
                }
                if due <= self.world.now() {
                    return Some(Call::Due);
                }
                None
            }
        }
    }

    // Whether a task sees a cancellation now.
    fn sees(&self, id: TaskId) -> bool
        requires lives { IsSome (running_at self.now.task_table id) }
        requires opened { ForSome (running_at self.now.task_table id) (λ x. ForSome (scope_of x.task) (IsOpen self.now.world.scopes)) }
        ensures { ForSome (running_at self.now.task_table id) (λ x. result ≡ seen (outer_of self.now.world.scopes (scope_of x.task)) self.now.world.tick) }
    {
        match self.task_table.scope(id) {
            Some(scope) => self.world.scopes().seen(scope, self.world.now()),
            None => false,
        }
    }

    // The task has a timer for a moment, and is added to the sleepers, if a scope encloses it.
    fn put_to_sleep(&mut self, id: TaskId, due: u64) -> Result<(), AllocError>
        requires awake { due_of self.old.clock id ≡ None }
        requires asleep { scope_in self.old.sleepers id ≡ None }
        requires later { now_of self.old.clock < due }
        requires bounded { due < 2 ^ 63 }
        requires lives { IsSome (running_at self.old.task_table id) }
        requires opened { ForSome (running_at self.old.task_table id) (λ x. ForSome (scope_of x.task) (IsOpen self.old.world.scopes)) }
        ensures { OnOk result (PutsToSleep id due self.old self.new) }
    {
        self.clock.sleep_until(id, due)?;
        if let Some(scope) = self.task_table.scope(id) {
            let sight = self.world.scopes().seen_from(scope);
            self.sleepers.add(id, scope, sight)?;
        }
        Ok(())
    }

    // The task was cancelled at a checkpoint, and continues at its moment.
    fn handle_give_up(&mut self, id: TaskId, row: usize, due: u64) -> Result<(), AllocError>
        requires { IsStopping id row (GiveUp due) self.old }
        ensures going { OnOk result (IsBetweenTurns self.new) }
        ensures comes { OnOk result (ComesOf id (GiveUp due) self.old self.new) }
        ensures same { OnOk result (IsSameTurn self.old self.new) }
    {
        let _row = row;
        self.clock.sleep_until(id, due)?;
        Ok(())
    }

    // The task continues a round later if its nursery is settled already, and waits otherwise.
    fn handle_wait(&mut self, id: TaskId, row: usize, nursery: NurseryId) -> Result<(), AllocError>
        requires { IsStopping id row (Wait nursery) self.old }
        ensures going { OnOk result (IsBetweenTurns self.new) }
        ensures comes { OnOk result (ComesOf id (Wait nursery) self.old self.new) }
        ensures same { OnOk result (IsSameTurn self.old self.new) }
    {
        let _row = row;
        if self.world.book().settled(nursery) {
            self.ready(id, Call::Settled)?;
        }
        Ok(())
    }

    // The task's row keeps what is left of it, and its end is recorded in its nursery, if it has one.
    //
    // The exception of a child is then there twice: its row keeps it for the report, and its nursery raises it, in a group, when
    // it is closed. Each owns its parts, so one of them is a copy. The root has no nursery, and its exception is not copied.
    fn handle_end(&mut self, id: TaskId, row: usize, exc: Option<Exc>) -> Result<(), AllocError>
        requires { IsStopping id row (Ended exc) self.old }
        ensures going { OnOk result (IsBetweenTurns self.new) }
        ensures comes { OnOk result (ComesOf id (Ended exc) self.old self.new) }
        ensures same { OnOk result (IsSameTurn self.old self.new) }
    {
        match self.task_table.home(id) {
            None => self.task_table.end(id, self.world.tick(), exc)?,
            Some(home) => {
                let (nursery, index) = home;
                let copy = copy_of(self.alloc, &exc)?;
                self.task_table.end(id, self.world.tick(), exc)?;
                self.tell(row, nursery, index, copy)?;
            }
        }
        Ok(())
    }

    // Records in a nursery how its child at that index ended, which is the task of that row. The task that waits for the nursery
    // continues a round later, if it is settled now.
    fn tell(
        &mut self,
        row: usize,
        nursery: NurseryId,
        index: ChildIndex,
        exc: Option<Exc>,
    ) -> Result<(), AllocError>
        requires runs { HasNursery self.old.world.book nursery (λ n. slice_get n.children index ≡ Some None) }
        requires awake { HasNursery self.old.world.book nursery
            (λ n. is_settled (with_child index (option_map exc_of exc) self.old.world.tick n) ≡ true →
            due_of self.old.clock (id_of self.old.task_table (parent_of self.old.task_table row)) ≡ None) }
        requires now { now_of self.old.clock ≡ self.old.world.tick }
        requires bounded { self.old.world.tick ≤ 2 ^ 62 }
        requires row { row < task_count self.old.task_table }
        requires parent { parent_of self.old.task_table row < task_count self.old.task_table }
        ensures { OnOk result (TellsEnd self.old self.new nursery index (option_map exc_of exc)
            (id_of self.old.task_table (parent_of self.old.task_table row))) }
    {
        let now = self.world.now();
        self.world.book_mut().child_ended(nursery, index, exc, now);
        if self.world.book().settled(nursery) {
            let waiter = self.task_table.parent(row);
            self.ready(waiter, Call::Settled)?;
        }
        Ok(())
    }
}

// Returns an equal exception.
fn copy_of(alloc: Global, exc: &Option<Exc>) -> Result<Option<Exc>, AllocError>
    ensures { IfOk result (λ copy. option_map exc_of copy ≡ option_map exc_of exc.now) }
{
    match exc {
        Some(exc) => Ok(Some(exc.copy(alloc)?)),
        None => Ok(None),
    }
}
