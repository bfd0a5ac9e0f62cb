ghost use Rattle.std.specs.Prelude.{◌≡◌, IfOk, map};
ghost use Rattle.task_table.specs.Records.{row_in};
ghost use Rattle.race_text.specs.Runs.{root_text, of_roots, of_runs};
ghost use Rattle.race_text.specs.RowViews.{difference_held};

use crate::outcome::outcome_of;
use crate::tasks::{Difference, differences, push_otherwise};
use job_tree::Name;
use std::alloc::{AllocError, Global};
use task_table::Record;

/// A run of a job, to be compared with another one.
#[derive(Clone, Copy)]
pub struct ComparedRun<'r> {
    /// Its records.
    pub records: &'r [Record<'r>],
    /// Whether the job ended by the limit.
    pub in_time: bool,
}

/// Returns the differences between the tasks of two runs, apart from ticks and from the exits of scopes with the name `scope`: as
/// [`differences`] if both jobs ended by the limit. If one did not, only the roots are compared, and the outcome of its root is
/// `stuck`; if neither did, there is no difference. The only error is that memory runs out.
pub fn run_differences(
    alloc: Global,
    scope: Name,
    before: &ComparedRun<'_>,
    after: &ComparedRun<'_>,
) -> Result<Vec<Difference>, AllocError>
    ensures { IfOk result (λ found. map difference_held found.items
        ≡ of_runs scope before.now.in_time (map row_in before.now.records.now) after.now.in_time (map row_in after.now.records.now)) }
{
    if before.in_time && after.in_time {
        return differences(alloc, scope, before.records, after.records);
    }
    if !before.in_time && !after.in_time {
        return Ok(Vec::new(alloc));
    }
    root_difference(alloc, before, after)
}

// Returns how the roots of two runs differ, of which one ended by the limit.
fn root_difference(
    alloc: Global,
    before: &ComparedRun<'_>,
    after: &ComparedRun<'_>,
) -> Result<Vec<Difference>, AllocError>
    ensures { IfOk result (λ found. map difference_held found.items
        ≡ of_roots before.now.in_time (map row_in before.now.records.now) after.now.in_time (map row_in after.now.records.now)) }
{
    let mut found = Vec::new(alloc);
    let Some((root, _)) = before.records.split_first() else {
        return Ok(found);
    };
    let Some((other, _)) = after.records.split_first() else {
        return Ok(found);
    };
    let old = root_text(alloc, before.in_time, root)?;
    let new = root_text(alloc, after.in_time, other)?;
    push_otherwise(alloc, &mut found, &root.label, old, new)?;
    Ok(found)
}

// Returns how a root ended, or that it did not end by the limit.
fn root_text(alloc: Global, in_time: bool, root: &Record<'_>) -> Result<Vec<u8>, AllocError>
    ensures { IfOk result (λ text. text.items ≡ root_text in_time (row_in root.now)) }
{
    if in_time {
        return outcome_of(alloc, &root.outcome);
    }
    let mut text = Vec::new(alloc);
    text.extend_from_slice(b"stuck")?;
    Ok(text)
}
