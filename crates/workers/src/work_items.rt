ghost use Rattle.std.specs.Prelude.{IfOk};
ghost use Rattle.std.specs.Thread.{IsSync};

use std::alloc::{AllocError, Global};
use std::thread::Threads;

/// A kind of work that is done for each of a list of items.
pub trait Work {
    /// The type of the items, which threads share.
    type Item: Sync;
    /// The type of the answer for one item.
    type Answer: Send + Drop;

    // What the work requires of itself, for example that its input is short enough.
    ghost may: { Self → Type 0 };

    // Whether an answer is correct for an item.
    ghost answers: { Self → Self.Item → Self.Answer → Type 0 };

    /// Returns the answer for an item, or `AllocError` if memory runs out, which is the only error.
    fn answer<R: Threads + Sync>(
        &self,
        rt: &R,
        alloc: Global,
        item: &Self::Item,
    ) -> Result<Self::Answer, AllocError>
        requires may { may self.now }

        // The bound on `R` says this too, but an implementation cannot use the bounds of its method's type parameters.
        requires sync { IsSync R.row }
        ensures { IfOk result (answers self.now item.now) };
}
