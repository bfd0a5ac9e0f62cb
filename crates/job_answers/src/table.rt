ghost use Rattle.std.specs.Prelude.{◌≡◌, map, IfOk, OnOk};
ghost use Rattle.exceptions.specs.Exceptions as tree;
ghost use Rattle.task_machine.specs.Noted.{from_of};
ghost use Rattle.job_story.specs.CancelledFrom.{table_in, never, set_in};

use job_runner::ScopeFrom;
use job_story::CancelledFrom;
use std::alloc::{AllocError, Global};

/// Returns the table with the moment from which each scope and nursery of a run was cancelled, or each event of the job set, as
/// `Run::into_tables` lists them. Returns `AllocError` if memory runs out.
#[tactic(auto, using(crate::proofs::Tables::from_never))]
pub fn table_of(alloc: Global, cancelled_from: Vec<ScopeFrom>) -> Result<CancelledFrom, AllocError>
    ensures { IfOk result (λ table. (label : tree.Label) → table_in table label ≡ set_in never (map from_of cancelled_from.items) label) }
{
    let mut table = CancelledFrom::new(alloc);
    fill(&mut table, cancelled_from)?;
    Ok(table)
}

// Sets each of these ticks in a table.
fn fill(table: &mut CancelledFrom, cancelled_from: Vec<ScopeFrom>) -> Result<(), AllocError>
    ensures { OnOk result ((label : tree.Label) →
        table_in table.new label ≡ set_in (table_in table.old) (map from_of cancelled_from.items) label) }
{
    for from in cancelled_from {
        table.set(from.label, from.seen)?;
    }
    Ok(())
}
