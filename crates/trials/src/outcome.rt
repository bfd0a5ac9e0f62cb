ghost use Rattle.std.specs.Prelude.{◌≡◌, ◌++◌, IfOk, OnOk, Option, List, map};
ghost use Rattle.std.specs.Option.{option_map};
ghost use Rattle.exceptions.specs.Exceptions as tree;
ghost use Rattle.exceptions.specs.Held.{exc_of};
ghost use Rattle.job_meaning.specs.Shown.{ending_of};
ghost use Rattle.task_table.specs.Records.{ending_in, row_in};
ghost use Rattle.outcomes.specs.JobOutcomes.{cancelled_if, cancelled_in};

use exceptions::{Exc, Label};
use std::alloc::{AllocError, Global};
use task_table::{Outcome, Record};

// Returns the exception that a task ended with, given its outcome.
#[tactic(auto, using(crate::proofs::Outcomes::none_of, crate::proofs::Outcomes::cancelled_of, crate::proofs::Outcomes::raised_of))]
pub(crate) fn exc_in(alloc: Global, outcome: &Outcome) -> Result<Option<Exc>, AllocError>
    ensures { IfOk result (λ exc. (o : Option tree.Exc) → ending_in outcome.now ≡ ending_of o → option_map exc_of exc ≡ o) }
{
    match outcome {
        Outcome::Done => Ok(None),
        Outcome::Cancelled => Ok(Some(Exc::Cancelled)),
        Outcome::Raised(exc) => Ok(Some(exc.copy(alloc)?)),
    }
}

// Returns the tasks that ended cancelled, in the order of the records.
pub(crate) fn cancelled_tasks(
    alloc: Global,
    records: &[Record<'_>],
) -> Result<Vec<Label>, AllocError>
    ensures { IfOk result (λ tasks. tasks.items ≡ cancelled_in (map row_in records.now)) }
{
    let mut tasks = Vec::new(alloc);
    'records: for record in records {
        push_if_cancelled(alloc, &mut tasks, record)?;
    }
    Ok(tasks)
}

// Appends the task of a record, if it ended cancelled. The clause has the labels that a loop appends later, `ls`, on both
// sides.
fn push_if_cancelled(
    alloc: Global,
    tasks: &mut Vec<Label>,
    row: &Record<'_>,
) -> Result<(), AllocError>
    ensures { OnOk result ((ls : List tree.Label) → tasks.new.items ++ ls
        ≡ tasks.old.items ++ cancelled_if (ending_in row.now.outcome) row.now.label ls) }
{
    if matches!(row.outcome, Outcome::Cancelled) {
        tasks.push(row.label.copy(alloc)?)?;
    }
    Ok(())
}
