//! The limiters and channels of a run.
ghost use Rattle.std.specs.Prelude.{◌≡◌, ℕ, List, None, OnOk};
ghost use Rattle.exceptions.specs.Exceptions.{Label as LabelOf};
ghost use Rattle.objects.specs.Held.{IsOperationOf};
ghost use Rattle.job_runner.specs.Serving.{Opens, ServesAt, StayLent};
ghost use Rattle.job_runner.specs.Shared.{object_at};

use exceptions::Label;
use indexmap::IndexMap;
use job_tree::ObjectKind;
use objects::{Given, Object, Operation, Queues};
use std::alloc::{AllocError, Global};

/// The limiters and channels that were opened, by their labels. A look-up takes constant time.
#[derive(Drop)]
pub(crate) struct ObjectTable<'a> {
    alloc: Global,
    by_label: IndexMap<Label, Object<'a>>,
}

impl<'a> ObjectTable<'a> {
    // Returns an empty table. Takes no memory.
    pub(crate) fn new(alloc: Global) -> ObjectTable<'a>
        ensures { (label : LabelOf) → object_at result label ≡ None }
    {
        ObjectTable {
            alloc,
            by_label: IndexMap::new(alloc),
        }
    }

    // Opens a limiter or channel of that kind with a label, unless one is open that has it. After an error the table can only be
    // dropped.
    pub(crate) fn open(&mut self, label: Label, kind: ObjectKind) -> Result<(), AllocError>
        ensures opens { OnOk result (Opens kind label self.old self.new) }
    {
        if self.by_label.get(&label).is_some() {
            return Ok(());
        }
        self.by_label.insert(label, Object::open(self.alloc, kind))?;
        Ok(())
    }

    // Serves what is done to the limiter or channel of that label, and adds what it grants to `given`. After an error the table can
    // only be dropped.
    pub(crate) fn serve<Q: Queues>(
        &mut self,
        label: &Label,
        operation: Operation<'a>,
        queues: &Q,
        given: &mut Vec<Given<'a>>,
    ) -> Result<(), AllocError>
        ensures serves { OnOk result (ServesAt (Q.waits queues.now) operation.entry label.now self.old self.new given.old.items given.new.items) }
        ensures lent { OnOk result ((input : List ℕ) → IsOperationOf input operation.entry →
            StayLent input self.old self.new given.old.items given.new.items) }
    {
        let Some(object) = self.by_label.get_mut(label) else {
            return Ok(());
        };
        object.serve(operation, queues, given)?;
        Ok(())
    }
}
