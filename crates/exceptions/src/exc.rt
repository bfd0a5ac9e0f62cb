ghost use Rattle.std.specs.Prelude.{◌≡◌};

use crate::label::Label;
use job_tree::Name;
use std::marker::Model;

/// The origin of a group of exceptions: who made it.
#[derive(Drop)]
pub enum Whose {
    /// The nursery with that label, at its end.
    Nursery(Label),
    /// A handler that raised while the rest of the split exception continued.
    Handler,
}

/// An exception, or a group of at least one exception, as in PEP 654.
#[derive(Drop)]
#[cycle(exc)]
pub enum Exc {
    /// What a checkpoint raises if the task sees a cancellation.
    Cancelled,
    /// What a `raise` or a `need` raised.
    Raised {
        /// The name that was raised.
        name: Name,
        /// The task that raised it.
        task: Label,
        /// The tick in which it was raised.
        tick: u64,
    },
    /// What a `fail` scope raised when it caught its cancellation.
    TooSlow {
        /// The label of the scope.
        scope: Label,
        /// The tick in which the scope was left.
        tick: u64,
    },
    /// A group of exceptions.
    Group {
        /// The origin of the group: who made it.
        whose: Whose,
        /// The parts of the group, in order. There is at least one.
        parts: Parts,
    },
}

/// The parts of a group, in order. A contract sees them as the parts of a tree of exceptions.
#[derive(Drop)]
#[cycle(exc)]
pub struct Parts {
    excs: Vec<Exc>,
}

impl Model for Parts {
    ghost use Rattle.exceptions.specs.Exceptions.{Excs};
    ghost use Rattle.exceptions.specs.ExcCode.{excs_code};
    ghost use Rattle.exceptions.specs.Weigh.{weight_of};

    ghost Value = { Excs };

    ghost coded = { excs_code };

    ghost use Rattle.exceptions.specs.Held.{excs_of};

    ghost view = { λ p. excs_of p.excs.items };

    ghost size = { weight_of };

    ghost use Rattle.exceptions.specs.PartsFall.{parts_fall};

    ghost size_decreases = { λ a h. parts_fall a.excs.items };
}

impl Parts {
    ghost use Rattle.exceptions.specs.Held.{excs_of};

    /// Creates the parts from a vector of exceptions. Does not allocate.
    pub fn new(excs: Vec<Exc>) -> Parts
        ensures { result ≡ excs_of excs.items }
    {
        Parts { excs }
    }

    /// Returns the parts as a slice, in order.
    pub fn as_slice(&self) -> &[Exc]
        ensures { excs_of result.now ≡ self.now }
    {
        self.excs.as_slice()
    }

    /// Returns the parts as a vector, in order. Does not allocate.
    pub fn into_vec(self) -> Vec<Exc>
        ensures { excs_of result.items ≡ self }
    {
        self.excs
    }
}
