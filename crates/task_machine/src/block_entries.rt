ghost use Rattle.std.specs.Prelude.{◌≡◌, ℕ, List, IfOk};
ghost use Rattle.block_exits.specs.Held.{kind_of};
ghost use Rattle.job_meaning.specs.Shown.{shown_at};
ghost use Rattle.job_meaning.specs.Walk.{left_as};
ghost use Rattle.task_machine.specs.Noted.{entry_of, IsSlice};

use crate::entry::Entry;
use block_exits::Kind;
use exceptions::Label;
use std::alloc::{AllocError, Global};

// Returns the entry of a scope or nursery that was left.
pub(crate) fn block_entry<'a>(
    alloc: Global,
    kind: Kind,
    label: Label,
    tick: u64,
    caught: bool,
) -> Result<Entry<'a>, AllocError>
    ensures { IfOk result (λ entry. (input : List ℕ) → IsSlice input entry
        × (entry_of entry ≡ shown_at input tick (left_as (kind_of kind) label caught))) }
{
    let label = Box::new(alloc, label)?;
    Ok(match kind {
        Kind::Scope { .. } => Entry::Scope {
            label,
            tick,
            caught,
        },
        Kind::Nursery => Entry::Nursery {
            label,
            tick,
            caught,
        },
    })
}
