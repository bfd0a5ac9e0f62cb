//! What limiters and channels grant is recorded, so that the story of the run can be told.
ghost use Rattle.std.specs.Prelude.{◌≤◌, ◌^◌, IsSome, OnOk};
ghost use Rattle.task_table.specs.TaskTable.{running_at};
ghost use Rattle.job_runner.specs.Grants.{Records};

use crate::runner::Runner;
use clock::TaskId;
use job_meaning::Granted;
use objects::Given;
use std::alloc::AllocError;

impl<'a> Runner<'a> {
    // Records what is granted to the task with an id, by the labels of the limiter or channel for which it waits, and of the task.
    pub(crate) fn record(&mut self, id: TaskId, given: Given<'a>) -> Result<(), AllocError>
        requires lives { IsSome (running_at self.old.task_table id) }
        requires bounded { self.old.world.tick ≤ 2 ^ 62 }
        ensures { OnOk result (Records id given.entry self.old self.new) }
    {
        let Some(key) = self.task_table.queue(id) else {
            return Ok(());
        };
        let Some(object) = self.world.label_of(key) else {
            return Ok(());
        };
        let object = object.copy(self.alloc)?;
        let task = self.task_table.label(id).copy(self.alloc)?;
        let granted = Granted {
            at: self.world.now() + 1,
            grant: given.grant,
        };
        self.grants.record(object, task, given.who.since, granted)?;
        Ok(())
    }
}
