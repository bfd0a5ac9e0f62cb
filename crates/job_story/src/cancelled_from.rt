ghost use Rattle.std.specs.Prelude.{◌≡◌, OnOk, OnErr, None, if◌then◌else◌};
ghost use Rattle.exceptions.specs.Exceptions as tree;
ghost use Rattle.job_meaning.specs.Log.{same_label};
ghost use Rattle.job_story.specs.CancelledFrom.{table_in};

use exceptions::Label;
use indexmap::IndexMap;
use std::alloc::{AllocError, Global};

/// A table with the tick from which each scope and nursery is cancelled, and each event set, by label. A look-up takes constant
/// time.
#[derive(Drop)]
pub struct CancelledFrom {
    pub(crate) all: IndexMap<Label, Option<u64>>,
}

impl CancelledFrom {
    /// Creates an empty table, in which no scope or nursery is ever cancelled, and no event set. Does not allocate.
    pub fn new(alloc: Global) -> CancelledFrom
        ensures { (label : tree.Label) → table_in result label ≡ None }
    {
        CancelledFrom {
            all: IndexMap::new(alloc),
        }
    }

    /// Sets the tick from which the scope or nursery with this label is cancelled, or the event set; `None` is never. Other
    /// labels keep their ticks. Returns `AllocError` if memory runs out; every label then keeps its tick.
    pub fn set(&mut self, label: Label, from: Option<u64>) -> Result<(), AllocError>
        ensures set { OnOk result ((other : tree.Label) →
            table_in self.new other ≡ (if same_label label other then from else table_in self.old other)) }
        ensures err { OnErr result ((other : tree.Label) → table_in self.new other ≡ table_in self.old other) }
    {
        self.all.insert(label, from)?;
        Ok(())
    }

    /// Returns the tick from which the scope or nursery with this label is cancelled, or the event set, or `None` if it never is.
    pub fn of(&self, label: &Label) -> Option<u64>
        ensures { result ≡ table_in self.now label.now }
    {
        match self.all.get(label) {
            Some(from) => *from,
            None => None,
        }
    }
}
