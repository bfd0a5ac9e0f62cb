//! The rows of a run's tasks, and their records when all tasks have ended.
ghost use Rattle.std.specs.Prelude.{◌≡◌, ◌<◌, ◌++◌, ℕ, Some, None, [], List, All, IsSome, IfOk, OnOk, length, map, reverse, slice_get, slice_set, vec_len};
ghost use Rattle.std.specs.Option.{option_map};
ghost use Rattle.exceptions.specs.Held.{exc_of};
ghost use Rattle.job_meaning.specs.Shown.{ending_of};
ghost use Rattle.interleavings.specs.Rows as interleaving;
ghost use Rattle.task_table.specs.Records.{ending_in};
ghost use Rattle.task_table.specs.Rows.{AreShown, ChildrenAreApart, ShowRecords, IsRecordOf, IsTakenOut};

use crate::record::{Outcome, Record};
use clock::TaskId;
use exceptions::{Exc, Label};
use std::alloc::{AllocError, Global};
use std::mem;
use task_machine::{Entry, ScopeFrom, unbox_exc};

/// What is kept of a task that was started.
#[derive(Drop)]
pub struct TaskRow<'a> {
    /// The row of the task that started it; for the root its own.
    pub parent: usize,
    /// The id that the task has, or had.
    pub task: TaskId,
    /// The tick in which it was started.
    pub start: u64,
    /// The rows of its children, in the order of their starts.
    pub children: Vec<usize>,
    /// What is kept of its end, or `None` while it has not ended.
    pub end: Option<Ended<'a>>,
}

/// What is kept of a task that has ended.
#[derive(Drop)]
pub struct Ended<'a> {
    /// The task's label.
    pub label: Label,
    /// The tick in which it ended.
    pub tick: u64,
    /// The exception with which it ended, boxed, or `None`.
    pub exc: Option<Box<Exc>>,
    /// What it noted, in order.
    pub entries: Vec<Entry<'a>>,
    /// The scopes and nurseries that it entered, with the tick from which each was cancelled, in the order of
    /// entering.
    pub cancelled_from: Vec<ScopeFrom>,
}

/// Returns the records of rows whose tasks have all ended, the root's first, and each followed by those of its descendants in the
/// order of their starts; and their moments of cancellation, in the same order. The caller must ensure that all have ended, and
/// that no row is a child twice. The only error is that memory runs out.
pub fn records_of<'a>(
    alloc: Global,
    rows: Vec<TaskRow<'a>>,
) -> Result<(Vec<Record<'a>>, Vec<ScopeFrom>), AllocError>
    requires ended { All (λ r. IsSome r.end) rows.items }
    requires tree { ChildrenAreApart rows.items }
    ensures { IfOk result (λ r. (input : List ℕ) (rs : ℕ → interleaving.Row) → AreShown input rs rows.entry.items →
        ShowRecords input rs r.0.items r.1.items) }
{
    let mut rows = rows;
    let left = rows.as_mut_slice();
    let mut stack = Vec::new(alloc);
    stack.push(0)?;
    let mut records = Vec::new(alloc);
    let mut cancelled_from = Vec::new(alloc);
    'rows: while let Some(row_number) = stack.pop() {
        let TaskRow {
            start,
            children,
            end,
            ..
        } = take_row(alloc, left, row_number);
        let Some(ended) = end else {
            unreachable!();
        };
        push_reversed(&mut stack, children)?;
        let (record, mut below) = record_and_cancelled_from(start, ended);
        records.push(record)?;
        cancelled_from.append(&mut below)?;
    }
    Ok((records, cancelled_from))
}

// Takes a row out, and replaces it by one that has no children and no end.
fn take_row<'a>(alloc: Global, rows: &mut [TaskRow<'a>], row_number: usize) -> TaskRow<'a>
    requires { row_number < length rows.old }
    ensures taken { slice_get rows.old row_number ≡ Some result }
    ensures left { IsTakenOut rows.old row_number rows.new }
{
    let hollow = TaskRow {
        parent: 0,
        task: TaskId::of(0),
        start: 0,
        children: Vec::new(alloc),
        end: None,
    };
    mem::replace(&mut rows[row_number], hollow)
}

// Puts numbers on a stack, the last one first.
fn push_reversed(stack: &mut Vec<usize>, numbers: Vec<usize>) -> Result<(), AllocError>
    ensures { OnOk result (stack.new.items ≡ stack.old.items ++ reverse numbers.items) }
{
    let mut numbers = numbers;
    numbers.reverse();
    stack.append(&mut numbers)
}

// The record and the moments of cancellation of a task that has ended.
fn record_and_cancelled_from<'a>(start: u64, ended: Ended<'a>) -> (Record<'a>, Vec<ScopeFrom>)
    ensures record { IsRecordOf start ended.entry result.0 }
    ensures cancelled_from { result.1.items ≡ ended.entry.cancelled_from.items }
{
    let Ended {
        label,
        tick,
        exc,
        entries,
        cancelled_from,
    } = ended;
    let record = Record {
        label,
        from_tick: start,
        to_tick: tick,
        outcome: outcome_of(unbox_exc(exc)),
        entries,
    };
    (record, cancelled_from)
}

// How a task with this exception ended.
fn outcome_of(exc: Option<Exc>) -> Outcome
    ensures { ending_in result ≡ ending_of (option_map exc_of exc) }
{
    match exc {
        None => Outcome::Done,
        Some(Exc::Cancelled) => Outcome::Cancelled,
        Some(other) => Outcome::Raised(other),
    }
}
