//! The tasks of a run: those that have not ended by their ids, and a row for each that was ever started.
ghost use Rattle.std.specs.Prelude.{◌≡◌, ◌<◌, ◌≤◌, ◌^◌, ◌↔◌, IsSome, IsTrue, IfOk, OnOk, OnErr, length};
ghost use Rattle.std.specs.Option.{ForSome};
ghost use Rattle.task_machine.specs.Events.{WaitsWithin, is_wait_over};
ghost use Rattle.task_machine.specs.Serving.{queue_of};
ghost use Rattle.task_machine.specs.Tasks.{scope_of, home_of};
ghost use Rattle.task_machine.specs.Worlds.{event_at};
ghost use Rattle.task_table.specs.Rows.{IsNewRow};
ghost use Rattle.run_refinement.specs.Sharing.{waits_in};
ghost use Rattle.task_table.specs.TaskTable.{running_at, task_count, row_at, task_of, ended_task_of, id_of, parent_of, path_of, IsTaskTable, HasRoot, Starts, MayTurn, HasTurn, Ends};

use crate::Live;
use crate::rows::{Ended, TaskRow};
use cancel_scopes::ScopeId;
use clock::TaskId;
use exceptions::{Exc, Label};
use nursery_book::{ChildIndex, NurseryId};
use objects::{Queues, Ticket};
use std::alloc::{AllocError, Global};
use task_machine::{Stop, Task, Wake, World, box_exc};

/// A task that has not ended.
#[derive(Drop)]
pub struct Running<'a> {
    task: Task<'a>,
    // Its row.
    row: usize,
}

/// The task table: all tasks of a run. A task has its id until it ends, and its row forever.
#[derive(Drop)]
pub struct TaskTable<'a> {
    alloc: Global,
    live: Live<Running<'a>>,
    // In the order of the starts.
    rows: Vec<TaskRow<'a>>,
}

impl<'a> TaskTable<'a> {
    /// Returns a table of the root alone, which has the first row and was started in tick 0, and the id of the root. The
    /// only error is that memory runs out.
    pub fn of_root(alloc: Global, task: Task<'a>) -> Result<(TaskTable<'a>, TaskId), AllocError>
        ensures root { IfOk result (λ r. HasRoot r.0 task.entry r.1) }
        ensures agree { IfOk result (λ r. IsTaskTable r.0) }
    {
        let mut live = Live::new(alloc);
        let id = live.put(Running { task, row: 0 })?;
        let mut rows = Vec::new(alloc);
        rows.push(new_row(alloc, 0, id, 0))?;
        Ok((TaskTable { alloc, live, rows }, id))
    }

    /// Adds a task that was started in that tick by the task of row `parent`, which must exist. It has the next row. Returns
    /// its id. The only error is that memory runs out, after which the table can only be dropped.
    pub fn start(&mut self, parent: usize, task: Task<'a>, tick: u64) -> Result<TaskId, AllocError>
        requires agree { IsTaskTable self.old }
        requires parent { parent < task_count self.old }
        ensures started { IfOk result (λ id. Starts self.old self.new parent task.entry tick id) }
        ensures agree { OnOk result (IsTaskTable self.new) }
    {
        let row = self.rows.len();
        let id = self.live.put(Running { task, row })?;
        self.rows[parent].children.push(row)?;
        self.rows.push(new_row(self.alloc, parent, id, tick))?;
        Ok(id)
    }

    /// Executes a turn of the task with this id. The caller must ensure that it has not ended, that it may continue with
    /// this wake, and that the tick of the world is at most 2 to the 62. The only error is that memory runs out, after
    /// which the table and the world can only be dropped.
    pub fn turn(
        &mut self,
        id: TaskId,
        wake: Wake<'a>,
        world: &mut World<'a>,
    ) -> Result<Stop<'a>, AllocError>
        requires agree { IsTaskTable self.old }
        requires lives { IsSome (running_at self.old id) }
        requires may { ForSome (running_at self.old id) (λ x. MayTurn world.old x.task wake) }
        requires tick { world.old.tick ≤ 2 ^ 62 }
        ensures turn { IfOk result (λ stop. HasTurn self.old self.new world.old world.new id wake.entry stop) }
        ensures agree { OnOk result (IsTaskTable self.new) }
    {
        match self.live.get_mut(id) {
            Some(running) => {
                let stop = running.task.turn(id, wake, world)?;
                Ok(stop)
            }
            None => unreachable!(),
        }
    }

    /// Records that the task with this id ended in that tick, with this exception or none. Its row keeps what remains of it.
    /// The caller must ensure that it has not ended before. The only error is that memory runs out, and then nothing has
    /// changed.
    pub fn end(&mut self, id: TaskId, tick: u64, exc: Option<Exc>) -> Result<(), AllocError>
        requires agree { IsTaskTable self.old }
        requires lives { IsSome (running_at self.old id) }
        ensures ended { OnOk result (Ends self.old self.new id tick exc) }
        ensures agree { OnOk result (IsTaskTable self.new) }
        ensures err { OnErr result (self.new ≡ self.old) }
    {
        let in_box = box_exc(self.alloc, exc)?;
        let Some(Running { task, row }) = self.live.take(id) else {
            unreachable!()
        };
        let (label, entries, cancelled_from) = task.into_parts();
        self.rows[row].end = Some(Ended {
            label,
            tick,
            exc: in_box,
            entries,
            cancelled_from,
        });
        Ok(())
    }

    /// Returns the row of a task that has not ended.
    pub fn row(&self, id: TaskId) -> usize
        requires { IsSome (running_at self.now id) }
        ensures { ForSome (running_at self.now id) (λ x. result ≡ x.row) }
    {
        match self.live.get(id) {
            Some(running) => running.row,
            None => unreachable!(),
        }
    }

    /// Returns the innermost cancel scope that encloses a task that has not ended, or `None` if there is none.
    pub fn scope(&self, id: TaskId) -> Option<ScopeId>
        requires { IsSome (running_at self.now id) }
        ensures { ForSome (running_at self.now id) (λ x. result ≡ scope_of x.task) }
    {
        match self.live.get(id) {
            Some(running) => running.task.scope(),
            None => unreachable!(),
        }
    }

    /// Returns the label of a task that has not ended.
    pub fn label(&self, id: TaskId) -> &Label
        requires { IsSome (running_at self.now id) }
        ensures { ForSome (running_at self.now id) (λ x. result.now ≡ x.task.label) }
    {
        match self.live.get(id) {
            Some(running) => running.task.label(),
            None => unreachable!(),
        }
    }

    /// Returns the limiter or channel for which a task that has not ended waits, or `None` if it waits for none.
    pub fn queue(&self, id: TaskId) -> Option<ScopeId>
        requires { IsSome (running_at self.now id) }
        ensures { ForSome (running_at self.now id) (λ x. result ≡ queue_of x.task.task_state) }
    {
        match self.live.get(id) {
            Some(running) => running.task.queue(),
            None => unreachable!(),
        }
    }

    /// Returns whether a task that has not ended waits for an event, not at a checkpoint, that is set by the present moment. It
    /// then goes on, also if it sees a cancellation.
    pub fn is_wait_over(&self, id: TaskId, world: &World<'a>) -> bool
        requires lives { IsSome (running_at self.now id) }
        requires within { ForSome (running_at self.now id) (λ x. WaitsWithin x.task.task_state) }
        ensures { ForSome (running_at self.now id) (λ x. result ≡ is_wait_over world.now.clock (event_at world.now) x.task.task_state world.now.tick) }
    {
        match self.live.get(id) {
            Some(running) => running.task.is_wait_over(world),
            None => unreachable!(),
        }
    }

    /// Returns the nursery in which a task that has not ended was started, and its index among the children there, or `None` for
    /// the root.
    pub fn home(&self, id: TaskId) -> Option<(NurseryId, ChildIndex)>
        requires { IsSome (running_at self.now id) }
        ensures { ForSome (running_at self.now id) (λ x. result ≡ home_of x.task) }
    {
        match self.live.get(id) {
            Some(running) => running.task.home(),
            None => unreachable!(),
        }
    }

    /// Returns the id of the task that started the task of this row (for the root its own). The caller must ensure that the
    /// row and its parent exist.
    pub fn parent(&self, row: usize) -> TaskId
        requires row { row < task_count self.now }
        requires parent { parent_of self.now row < task_count self.now }
        ensures { result ≡ id_of self.now (parent_of self.now row) }
    {
        let parent = self.rows[row].parent;
        self.rows[parent].task
    }

    /// Returns the id that the task of this row has, or had. The caller must ensure that the row exists.
    pub fn id(&self, row: usize) -> TaskId
        requires { row < task_count self.now }
        ensures { result ≡ id_of self.now row }
    {
        self.rows[row].task
    }

    /// Returns the rows from the root's to this one, each of the task that started the next: tasks are in the order of records by the
    /// lexicographic order of these. The caller must ensure that the row exists. The only error is that memory runs out.
    pub fn path(&self, row: usize) -> Result<Vec<usize>, AllocError>
        requires row { row < task_count self.now }
        requires agree { IsTaskTable self.now }
        ensures { IfOk result (λ path. path.items ≡ path_of self.now row) }
    {
        let mut path = Vec::new(self.alloc);
        let mut at = row;
        'upwards: while at != 0 {
            path.push(at)?;
            at = self.rows[at].parent;
        }
        path.push(0)?;
        path.reverse();
        Ok(path)
    }

    /// Returns whether the root has ended. The caller must ensure that the table has a task.
    pub fn is_over(&self) -> bool
        requires { 0 < task_count self.now }
        ensures { IsTrue result ↔ IsSome (ended_task_of self.now 0) }
    {
        self.rows[0].end.is_some()
    }

    /// Returns the rows, in the order of the starts.
    pub fn into_rows(self) -> Vec<TaskRow<'a>>
        ensures { result ≡ self.entry.rows }
    {
        let TaskTable { rows, .. } = self;
        rows
    }
}

// Who waits for a limiter or channel is known by its blocked state.
impl<'a> Queues for TaskTable<'a> {
    ghost waits = { λ r ticket. waits_in (task_of r) ticket };

    fn waits(&self, ticket: Ticket) -> bool
        ensures { result ≡ waits_in (task_of self.now) ticket }
    {
        let Some(row) = self.rows.get(ticket.row) else {
            return false;
        };
        if row.end.is_some() {
            return false;
        }
        match self.live.get(row.task) {
            Some(running) => running.task.queued_since() == Some(ticket.since),
            None => false,
        }
    }
}

// The row of a task that was just started, in that tick, by the task of row `parent`.
fn new_row<'a>(alloc: Global, parent: usize, task: TaskId, start: u64) -> TaskRow<'a>
    ensures { IsNewRow parent task start result }
{
    TaskRow {
        parent,
        task,
        start,
        children: Vec::new(alloc),
        end: None,
    }
}
