ghost use Rattle.std.specs.Prelude.{◌≡◌, ℕ, OnOk, OnErr, IfOk, None, Some, if◌then◌else◌};
ghost use Rattle.exceptions.specs.Exceptions as tree;
ghost use Rattle.job_meaning.specs.GrantTable.{made_in, is_asking};

use exceptions::Label;
use indexmap::IndexMap;
use objects::Grant;
use std::alloc::{AllocError, Global};

/// What a limiter or channel granted to a task that had asked it, and when.
#[derive(Clone, Copy)]
pub struct Granted<'a> {
    /// The moment in which the task goes on: a round after the one in which something was done to the limiter or channel.
    pub at: u64,
    /// What was granted.
    pub grant: Grant<'a>,
}

// A task that asked a limiter or channel in a moment.
#[derive(PartialEq, Eq, Hash, Drop)]
pub(crate) struct Asking {
    pub(crate) object: Label,
    pub(crate) task: Label,
    pub(crate) since: u64,
}

/// What the limiters and channels of a run granted, by the label of the limiter or channel, that of the task, and the moment in which
/// the task asked. A look-up takes constant time.
#[derive(Drop)]
pub struct GrantTable<'a> {
    pub(crate) made: IndexMap<Asking, Granted<'a>>,
}

impl<'a> GrantTable<'a> {
    /// Returns a table in which nothing was granted. Takes no memory.
    pub fn new(alloc: Global) -> GrantTable<'a>
        ensures { (object task : tree.Label) (since : ℕ) → made_in result object task since ≡ None }
    {
        GrantTable {
            made: IndexMap::new(alloc),
        }
    }

    /// Records what a limiter or channel granted to a task that asked in the moment `since`. All else stays. The only error is that
    /// memory runs out, and then all stays.
    pub fn record(
        &mut self,
        object: Label,
        task: Label,
        since: u64,
        granted: Granted<'a>,
    ) -> Result<(), AllocError>
        ensures recorded { OnOk result ((other asker : tree.Label) (u : ℕ) → made_in self.new other asker u
            ≡ (if is_asking object task since other asker u then Some granted.entry else made_in self.old other asker u)) }
        ensures err { OnErr result ((other asker : tree.Label) (u : ℕ) → made_in self.new other asker u ≡ made_in self.old other asker u) }
    {
        let asking = Asking {
            object,
            task,
            since,
        };
        self.made.insert(asking, granted)?;
        Ok(())
    }

    /// Returns what a limiter or channel granted to a task that asked in the moment `since`, or `None` if it granted nothing. The
    /// only error is that memory runs out, since the labels are copied.
    pub fn granted(
        &self,
        alloc: Global,
        object: &Label,
        task: &Label,
        since: u64,
    ) -> Result<Option<Granted<'a>>, AllocError>
        ensures { IfOk result (λ granted. granted ≡ made_in self.now object.now task.now since) }
    {
        let asking = Asking {
            object: object.copy(alloc)?,
            task: task.copy(alloc)?,
            since,
        };
        Ok(self.made.get(&asking).copied())
    }
}
