ghost use Rattle.std.specs.Prelude.{◌≡◌, ℕ, Some, None, IfOk, OnErr, option_copied};
ghost use Rattle.std.specs.Option.{option_copied_mut};
ghost use Rattle.std.specs.Borrow.{sem};

use clock::TaskId;
use slab::Slab;
use std::alloc::{AllocError, Global};

/// Values under the ids of tasks.
#[derive(Drop)]
pub struct Live<T> {
    slots: Slab<T>,
}

impl<T> Live<T> {
    ghost use Rattle.task_table.specs.Live.{live_at, SameLive, UpdatesLive};
    ghost use Rattle.task_table.specs.Lending.{lends_live};

    /// Returns an empty map. Takes no memory.
    pub fn new(alloc: Global) -> Live<T>
        ensures { (key : ℕ) → live_at result key ≡ None }
    {
        Live {
            slots: Slab::new(alloc),
        }
    }

    /// Stores a value under an id that has none, and returns the id. The only error is that memory runs out, and then
    /// nothing has changed.
    pub fn put(&mut self, value: T) -> Result<TaskId, AllocError>
    where
        T: Drop,
        ensures fresh { IfOk result (λ id. live_at self.old id ≡ None) }
        ensures put { IfOk result (λ id. UpdatesLive self.old self.new id (Some value)) }
        ensures err { OnErr result (SameLive self.old self.new) }
    {
        let key = self.slots.insert(value)?;
        Ok(TaskId::of(key))
    }

    /// Returns a reference to the value under an id, or `None` if there is none.
    pub fn get(&self, id: TaskId) -> Option<&T>
        ensures { option_copied result ≡ live_at self.now id }
    {
        self.slots.get(id.key())
    }

    /// Returns a mutable reference to the value under an id, or `None` if there is none. Values under other ids do not
    /// change.
    pub fn get_mut(&mut self, id: TaskId) -> Option<&mut T>
        ensures* writes_back { sem 𝓛 (lends_live T.row self.entry id result) }
        ensures value { option_copied_mut result ≡ live_at self.old id }
    {
        self.slots.get_mut(id.key())
    }

    /// Takes out the value under an id, or returns `None` if there is none. `put` may return the id again from then on.
    /// Takes no memory.
    pub fn take(&mut self, id: TaskId) -> Option<T>
        ensures value { result ≡ live_at self.old id }
        ensures emptied { UpdatesLive self.old self.new id None }
    {
        self.slots.try_remove(id.key())
    }
}
