ghost use Rattle.std.specs.Prelude.{◌≡◌};

use std::marker::Model;

/// The id of a task: the key that its scheduler gave it. A contract sees an id as that key.
#[derive(Clone, Copy, Debug, PartialEq, Eq)]
pub struct TaskId {
    key: usize,
}

impl Model for TaskId {
    ghost use Rattle.std.specs.Prelude.{ℕ};

    ghost Value = { ℕ };

    ghost view = { λ id. id.key };

    ghost inverse = { λ key. record { key = key } };
}

impl TaskId {
    /// Returns the id of the task with this key.
    pub fn of(key: usize) -> TaskId
        ensures { result ≡ key }
    {
        TaskId { key }
    }

    /// Returns the key of the task.
    pub fn key(self) -> usize
        ensures { result ≡ self }
    {
        self.key
    }
}
