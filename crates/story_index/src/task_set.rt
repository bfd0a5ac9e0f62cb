ghost use Rattle.std.specs.Prelude.{◌≡◌, ◌||◌, false, true, OnOk};
ghost use Rattle.exceptions.specs.Exceptions as tree;
ghost use Rattle.job_meaning.specs.Log.{same_label};
ghost use Rattle.story_index.specs.Holds.{holds};

use exceptions::Label;
use indexmap::IndexSet;
use std::alloc::{AllocError, Global};

/// A set of tasks, by their labels, which it borrows. It answers in constant time whether it contains a task.
#[derive(Drop)]
pub struct TaskSet<'e> {
    // The labels.
    all: IndexSet<&'e Label>,
}

impl<'e> TaskSet<'e> {
    // Creates the empty set. Does not allocate.
    pub(crate) fn none(alloc: Global) -> TaskSet<'e>
        ensures { (l : tree.Label) → holds result l ≡ false }
    {
        TaskSet {
            all: IndexSet::new(alloc),
        }
    }

    /// Returns whether the set contains the task with this label.
    pub fn holds(&self, task: &Label) -> bool
        ensures { result ≡ holds self.now task.now }
    {
        self.all.contains(&task)
    }

    // Returns whether the set is empty.
    pub(crate) fn is_empty(&self) -> bool
        ensures { result ≡ true → (l : tree.Label) → holds self.now l ≡ false }
    {
        self.all.is_empty()
    }

    // Adds one task. Returns `AllocError` if memory runs out.
    pub(crate) fn add(&mut self, task: &'e Label) -> Result<(), AllocError>
        ensures { OnOk result ((l : tree.Label) → holds self.new l ≡ (holds self.old l || same_label l task.entry.now)) }
    {
        self.all.insert(task)?;
        Ok(())
    }

    // Adds each task of another set. Returns `AllocError` if memory runs out.
    pub(crate) fn add_all(&mut self, others: TaskSet<'e>) -> Result<(), AllocError>
        ensures { OnOk result ((l : tree.Label) → holds self.new l ≡ (holds self.old l || holds others.entry l)) }
    {
        let TaskSet { mut all } = others;
        self.all.append(&mut all)?;
        Ok(())
    }
}
