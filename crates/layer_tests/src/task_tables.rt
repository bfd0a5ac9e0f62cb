//! `task_table`: tasks come and go under their ids, and the rows of a run that is over are listed depth first.

ghost use Rattle.std.specs.Prelude.{◌≡◌, ◌≢◌, ◌<◌, ◌++◌, [], ◌∷◌, All, IsSome, IfOk, OnOk};
ghost use Rattle.task_table.specs.TaskTable.{task_count, parent_of, running_at, IsTaskTable};
ghost use Rattle.task_table.specs.Rows.{ChildrenAreApart};
ghost use Rattle.task_table.specs.declared.rows.TaskRow.{TaskRow};

use crate::fixtures::{job, push_bytes, push_number, root, same, word};
use clock::TaskId;
use exceptions::Label;
use job_reader::Job;
use job_tree::Name;
use std::alloc::{AllocError, Global};
use std::test::Fail;
use task_machine::ScopeFrom;
use task_table::{Ended, Record, TaskRow, TaskTable, records_of};

// The row of a task that was started in one tick and ended without an exception in another.
fn ended_row<'a>(
    alloc: Global,
    name: Name,
    start: u64,
    children: &[usize],
) -> Result<TaskRow<'a>, AllocError>
    requires { start < 10 }
    ensures children { IfOk result (λ row. row.children.items ≡ children.now) }
    ensures end { IfOk result (λ row. IsSome row.end) }
{
    let mut numbers = Vec::new(alloc);
    numbers.extend_from_slice(children)?;
    let end = Ended {
        label: Label::new(alloc, name),
        tick: start + 10,
        exc: None,
        entries: Vec::new(alloc),
        cancelled_from: Vec::new(alloc),
    };
    Ok(TaskRow {
        parent: 0,
        task: TaskId::of(0),
        start,
        children: numbers,
        end: Some(end),
    })
}

// Adds a row, as `ended_row` makes it.
fn push_ended<'a>(
    alloc: Global,
    rows: &mut Vec<TaskRow<'a>>,
    name: Name,
    start: u64,
    children: &[usize],
) -> Result<(), AllocError>
    requires { start < 10 }
    ensures { OnOk result ((row : TaskRow) × (rows.new.items ≡ rows.old.items ++ row ∷ []) × (row.children.items ≡ children.now)
        × IsSome row.end) }
{
    let row = ended_row(alloc, name, start, children)?;
    rows.push(row)?;
    Ok(())
}

// Four rows, of which the first started the second and the third, and the second the fourth.
fn four_rows<'a>(alloc: Global, name: Name) -> Result<Vec<TaskRow<'a>>, AllocError>
    ensures ended { IfOk result (λ rows. All (λ r. IsSome r.end) rows.items) }
    ensures tree { IfOk result (λ rows. ChildrenAreApart rows.items) }
{
    let mut rows = Vec::new(alloc);
    push_ended(alloc, &mut rows, name, 0, &[1, 2])?;
    push_ended(alloc, &mut rows, name, 1, &[3])?;
    push_ended(alloc, &mut rows, name, 2, &[])?;
    push_ended(alloc, &mut rows, name, 3, &[])?;
    Ok(rows)
}

// The records of four rows.
fn records_of_four(alloc: Global) -> Result<(Vec<Record<'static>>, Vec<ScopeFrom>), Fail> {
    let rows = four_rows(alloc, word(b"main")?)?;
    let both = records_of(alloc, rows)?;
    Ok(both)
}

// When the tasks of records were started, each tick with a space after it.
fn starts(alloc: Global, records: &[Record<'_>]) -> Result<Vec<u8>, AllocError> {
    let mut text = Vec::new(alloc);
    for record in records {
        push_number(&mut text, record.from_tick)?;
        push_bytes(&mut text, b" ")?;
    }
    Ok(text)
}

// When the tasks of those records were started, and whether no scope is among their moments of cancellation.
fn starts_of_four(alloc: Global) -> Result<(Vec<u8>, bool), Fail> {
    let (records, cancelled_from) = records_of_four(alloc)?;
    let text = starts(alloc, records.as_slice())?;
    Ok((text, cancelled_from.is_empty()))
}

#[test]
fn rows_come_depth_first(rt: HostRuntime) -> Result<(), Fail> {
    let (found, is_empty) = starts_of_four(rt.alloc())?;
    assert!(rt; is_empty);
    same(found.as_slice(), b"0 1 3 2 ")
}

// A task table with a job's root, which has that id.
fn table_of_root<'a>(alloc: Global, job: &'a Job) -> Result<(TaskTable<'a>, TaskId), Fail>
    ensures agree { IfOk result (λ r. IsTaskTable r.0) }
    ensures one { IfOk result (λ r. task_count r.0 ≡ 1) }
    ensures lives { IfOk result (λ r. IsSome (running_at r.0 r.1)) }
{
    let task = root(alloc, job)?;
    let begun = TaskTable::of_root(alloc, task)?;
    Ok(begun)
}

// Starts a child of the root at tick 3, which has another id.
fn start_child<'a>(
    alloc: Global,
    task_table: &mut TaskTable<'a>,
    root_id: TaskId,
    job: &'a Job,
) -> Result<TaskId, Fail>
    requires agree { IsTaskTable task_table.old }
    requires one { task_count task_table.old ≡ 1 }
    requires lives { IsSome (running_at task_table.old root_id) }
    ensures agree { OnOk result (IsTaskTable task_table.new) }
    ensures two { OnOk result (task_count task_table.new ≡ 2) }
    ensures parent { OnOk result (parent_of task_table.new 1 ≡ 0) }
    ensures apart { IfOk result (λ id. id ≢ root_id) }
    ensures child { IfOk result (λ id. IsSome (running_at task_table.new id)) }
    ensures lives { OnOk result (IsSome (running_at task_table.new root_id)) }
{
    let task = root(alloc, job)?;
    let child = task_table.start(0, task, 3)?;
    if child.key() == root_id.key() {
        return Err("a child has an id of its own")?;
    }
    Ok(child)
}

// Whether the root has the first row, and is in no scope and no nursery.
fn begins_with_root(alloc: Global, job: &Job) -> Result<bool, Fail> {
    let begun = table_of_root(alloc, job)?;
    let (task_table, id) = begun;
    Ok(task_table.row(id) == 0 && task_table.scope(id).is_none() && task_table.home(id).is_none())
}

// Whether a task that the root started has the second row, and the root as its parent.
fn starts_a_child(alloc: Global, job: &Job) -> Result<bool, Fail> {
    let begun = table_of_root(alloc, job)?;
    let (mut task_table, id) = begun;
    let child = start_child(alloc, &mut task_table, id, job)?;
    Ok(task_table.row(child) == 1 && task_table.parent(1) == id)
}

// Whether a run is over after its child has ended and after its root has.
fn over_by_turns(
    task_table: &mut TaskTable<'_>,
    root_id: TaskId,
    child: TaskId,
) -> Result<(bool, bool), AllocError>
    requires agree { IsTaskTable task_table.old }
    requires two { task_count task_table.old ≡ 2 }
    requires apart { child ≢ root_id }
    requires child { IsSome (running_at task_table.old child) }
    requires lives { IsSome (running_at task_table.old root_id) }
{
    task_table.end(child, 5, None)?;
    let before = task_table.is_over();
    task_table.end(root_id, 6, None)?;
    Ok((before, task_table.is_over()))
}

// Whether a run of a job is over after the child of its root has ended and after its root has, and its number of rows then.
fn ends(alloc: Global, job: &Job) -> Result<(bool, bool, usize), Fail> {
    let begun = table_of_root(alloc, job)?;
    let (mut task_table, id) = begun;
    let child = start_child(alloc, &mut task_table, id, job)?;
    let (before, then) = over_by_turns(&mut task_table, id, child)?;
    let rows = task_table.into_rows();
    Ok((before, then, rows.len()))
}

// Fails if a task does not come or go as it has to.
fn come_and_go(alloc: Global, job: &Job) -> Result<(), Fail> {
    if !begins_with_root(alloc, job)? {
        return Err("the root has the first row, and is in no scope and no nursery")?;
    }
    if !starts_a_child(alloc, job)? {
        return Err("a child has the second row, and the root as its parent")?;
    }
    if ends(alloc, job)? != (false, true, 2) {
        return Err("a run of two tasks is over once its root has ended")?;
    }
    Ok(())
}

#[test]
fn tasks_come_and_go(rt: HostRuntime) -> Result<(), Fail> {
    let job = job(rt.alloc(), b"trio-job 1\njob main { sleep 5; }")?;
    come_and_go(rt.alloc(), &job)
}
