ghost use Rattle.std.specs.Prelude.{◌≡◌, ◌++◌, ◌∷◌, [], None, IfOk, OnOk, map};
ghost use Rattle.std.specs.Option.{option_map};
ghost use Rattle.task_table.specs.Records.{row_in};
ghost use Rattle.race_text.specs.Differences.{row_of, of_row, of_new, of_rows, of_new_rows, otherwise, differences};
ghost use Rattle.race_text.specs.RowViews.{difference_held};

use crate::outcome::outcome_of;
use crate::same::are_same_entries;
use exceptions::Label;
use job_tree::Name;
use std::alloc::{AllocError, Global};
use task_table::Record;

/// A difference between two runs for one task.
#[derive(Drop)]
pub enum Difference {
    /// The task ends in another way.
    Otherwise {
        /// The task.
        task: Label,
        /// How it ends in the first run, without ticks, or `not started` if it does not exist there.
        before: Vec<u8>,
        /// How it ends in the second run, without ticks, or `not started` if it does not exist there.
        after: Vec<u8>,
    },
    /// The task ends in the same way, and has other lines, or left other scopes or nurseries, or did so in another way, or waited
    /// for other events, or was granted something else by a limiter or channel.
    Inside {
        /// The task.
        task: Label,
    },
}

/// Returns each task for which the records of two runs do not show the same, apart from ticks and from the exits of scopes with
/// the name `scope`: those of the first run, in the order of its records, and then those that only the second has. The only error
/// is that memory runs out.
pub fn differences(
    alloc: Global,
    scope: Name,
    before: &[Record<'_>],
    after: &[Record<'_>],
) -> Result<Vec<Difference>, AllocError>
    ensures { IfOk result (λ found. map difference_held found.items ≡ differences scope (map row_in before.now) (map row_in after.now)) }
{
    let mut found = Vec::new(alloc);
    push_of_rows(alloc, &mut found, scope, before, after)?;
    push_of_new_rows(alloc, &mut found, before, after)?;
    Ok(found)
}

// Appends what differs of each task of the first run.
fn push_of_rows(
    alloc: Global,
    found: &mut Vec<Difference>,
    scope: Name,
    before: &[Record<'_>],
    after: &[Record<'_>],
) -> Result<(), AllocError>
    ensures { OnOk result (map difference_held found.new.items
        ≡ map difference_held found.old.items ++ of_rows scope (map row_in before.now) (map row_in after.now)) }
{
    'rows: for row in before {
        push_of_row(alloc, found, scope, row, row_of(&row.label, after))?;
    }
    Ok(())
}

// Appends what differs of each task that only the second run has.
fn push_of_new_rows(
    alloc: Global,
    found: &mut Vec<Difference>,
    before: &[Record<'_>],
    after: &[Record<'_>],
) -> Result<(), AllocError>
    ensures { OnOk result (map difference_held found.new.items
        ≡ map difference_held found.old.items ++ of_new_rows (map row_in before.now) (map row_in after.now)) }
{
    'rows: for row in after {
        if row_of(&row.label, before).is_none() {
            push_new(alloc, found, row)?;
        }
    }
    Ok(())
}

// Returns the first record of a task.
fn row_of<'r, 'a>(task: &Label, rows: &'r [Record<'a>]) -> Option<&'r Record<'a>>
    ensures { option_map (λ r. row_in r.now) result ≡ row_of task.now (map row_in rows.now) }
{
    'rows: for row in rows {
        if row.label == *task {
            return Some(row);
        }
    }
    None
}

// Appends what differs of a task of the first run, by its record in the second.
fn push_of_row(
    alloc: Global,
    found: &mut Vec<Difference>,
    scope: Name,
    row: &Record<'_>,
    other: Option<&Record<'_>>,
) -> Result<(), AllocError>
    ensures { OnOk result (map difference_held found.new.items
        ≡ map difference_held found.old.items ++ of_row scope (row_in row.now) (option_map (λ r. row_in r.now) other.entry)) }
{
    let before = outcome_of(alloc, &row.outcome)?;
    let Some(other) = other else {
        let mut after = Vec::new(alloc);
        after.extend_from_slice(b"not started")?;
        return push_otherwise(alloc, found, &row.label, before, after);
    };
    let after = outcome_of(alloc, &other.outcome)?;
    if before.as_slice() != after.as_slice() {
        return push_otherwise(alloc, found, &row.label, before, after);
    }
    if !are_same_entries(scope, row.entries.as_slice(), other.entries.as_slice()) {
        let task = row.label.copy(alloc)?;
        found.push(Difference::Inside { task })?;
    }
    Ok(())
}

// Appends a task that only the second run has.
fn push_new(alloc: Global, found: &mut Vec<Difference>, row: &Record<'_>) -> Result<(), AllocError>
    ensures { OnOk result (map difference_held found.new.items
        ≡ map difference_held found.old.items ++ of_new None (row_in row.now)) }
{
    let mut before = Vec::new(alloc);
    before.extend_from_slice(b"not started")?;
    let after = outcome_of(alloc, &row.outcome)?;
    push_otherwise(alloc, found, &row.label, before, after)
}

// Appends that a task ends in another way.
pub(crate) fn push_otherwise(
    alloc: Global,
    found: &mut Vec<Difference>,
    task: &Label,
    before: Vec<u8>,
    after: Vec<u8>,
) -> Result<(), AllocError>
    ensures { OnOk result (map difference_held found.new.items
        ≡ map difference_held found.old.items ++ otherwise task.now before.items after.items ∷ []) }
{
    let task = task.copy(alloc)?;
    found.push(Difference::Otherwise {
        task,
        before,
        after,
    })?;
    Ok(())
}
