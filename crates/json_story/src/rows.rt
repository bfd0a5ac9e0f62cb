ghost use Rattle.std.specs.Prelude.{◌≡◌, ◌++◌, OnOk, IfOk, map, codes, true};
ghost use Rattle.serde_json.specs.Data.{Members, member};
ghost use Rattle.serde_json.specs.View.{view};
ghost use Rattle.serde_json.specs.Written.{compact_text, members_text};
ghost use Rattle.input_lines.specs.Part.{span_of, line_text};
ghost use Rattle.job_meaning.specs.Shown.{line_shown, scope_shown, nursery_shown, wait_shown, grant_shown};
ghost use Rattle.task_machine.specs.Noted.{entry_of};
ghost use Rattle.task_table.specs.Records.{ending_in, row_in};
ghost use Rattle.json_story.specs.Values.{entry_json, exception_json, list_of, outcome_json, row_json, word};

use crate::exc::exc_value;
use crate::pieces::{push_comma, push_first_member, push_key, push_member, push_value};
use crate::quoted::push_quoted;
use crate::text::label_value;
use basics::push_number;
use exceptions::{Exc, Label};
use input_lines::Line;
use job_runner::{Entry, Outcome, Record};
use job_tree::Ask;
use serde_json::{Value, json};
use std::alloc::{AllocError, Global};

// Appends an entry as a JSON object.
fn push_entry(alloc: Global, out: &mut Vec<u8>, entry: &Entry<'_>) -> Result<(), AllocError>
    ensures { OnOk result (out.new.items ≡ out.old.items ++ compact_text (entry_json (entry_of entry.now))) }
{
    match entry {
        Entry::Line(line) => push_line(out, *line),
        Entry::Scope {
            label,
            tick,
            caught,
        } => push_scope(alloc, out, label, *tick, *caught),
        Entry::Nursery {
            label,
            tick,
            caught,
        } => push_nursery(alloc, out, label, *tick, *caught),
        Entry::Wait { label, tick } => push_wait(alloc, out, label, *tick),
        Entry::Granted { ask, label, tick } => push_granted(alloc, out, *ask, label, *tick),
    }
}

// Appends a line of the input as a JSON object. A report may have millions of them, so no value is made of it.
fn push_line(out: &mut Vec<u8>, line: Line<'_>) -> Result<(), AllocError>
    ensures { OnOk result (out.new.items ≡ out.old.items ++ compact_text (entry_json (line_shown (span_of line.entry).at (line_text line.entry)))) }
{
    out.extend_from_slice(b"{\"line\":{\"at\":")?;
    push_number(out, line.at() as u64)?;
    out.extend_from_slice(b",\"length\":")?;
    push_number(out, line.text().len() as u64)?;
    out.extend_from_slice(b",\"text\":")?;
    push_quoted(out, line.text())?;
    out.extend_from_slice(b"}}")?;
    Ok(())
}

// Returns a scope that was left as a JSON object.
fn scope_value(alloc: Global, label: &Label, tick: u64, caught: bool) -> Result<Value, AllocError>
    ensures { IfOk result (λ value. view value ≡ entry_json (scope_shown label.now tick caught)) }
{
    let scope = label_value(alloc, label)?;
    json!(in alloc; {"scope": scope, "exit": tick, "caught": caught})
}

// Appends a scope that was left as a JSON object.
fn push_scope(
    alloc: Global,
    out: &mut Vec<u8>,
    label: &Label,
    tick: u64,
    caught: bool,
) -> Result<(), AllocError>
    ensures { OnOk result (out.new.items ≡ out.old.items ++ compact_text (entry_json (scope_shown label.now tick caught))) }
{
    let value = scope_value(alloc, label, tick, caught)?;
    push_value(alloc, out, &value)
}

// Returns a nursery that was left as a JSON object.
fn nursery_value(alloc: Global, label: &Label, tick: u64, caught: bool) -> Result<Value, AllocError>
    ensures { IfOk result (λ value. view value ≡ entry_json (nursery_shown label.now tick caught)) }
{
    let nursery = label_value(alloc, label)?;
    json!(in alloc; {"nursery": nursery, "exit": tick, "caught": caught})
}

// Appends a nursery that was left as a JSON object.
fn push_nursery(
    alloc: Global,
    out: &mut Vec<u8>,
    label: &Label,
    tick: u64,
    caught: bool,
) -> Result<(), AllocError>
    ensures { OnOk result (out.new.items ≡ out.old.items ++ compact_text (entry_json (nursery_shown label.now tick caught))) }
{
    let value = nursery_value(alloc, label, tick, caught)?;
    push_value(alloc, out, &value)
}

// Returns an event that a task waited for as a JSON object.
fn wait_value(alloc: Global, label: &Label, tick: u64) -> Result<Value, AllocError>
    ensures { IfOk result (λ value. view value ≡ entry_json (wait_shown label.now tick)) }
{
    let event = label_value(alloc, label)?;
    json!(in alloc; {"tick": tick, "wait": event})
}

// Appends an event that a task waited for as a JSON object.
fn push_wait(alloc: Global, out: &mut Vec<u8>, label: &Label, tick: u64) -> Result<(), AllocError>
    ensures { OnOk result (out.new.items ≡ out.old.items ++ compact_text (entry_json (wait_shown label.now tick))) }
{
    let value = wait_value(alloc, label, tick)?;
    push_value(alloc, out, &value)
}

// Appends what a task was granted as a JSON object.
fn push_granted(
    alloc: Global,
    out: &mut Vec<u8>,
    ask: Ask,
    label: &Label,
    tick: u64,
) -> Result<(), AllocError>
    ensures { OnOk result (out.new.items ≡ out.old.items ++ compact_text (entry_json (grant_shown ask label.now tick))) }
{
    let value = granted_value(alloc, ask, label, tick)?;
    push_value(alloc, out, &value)
}

// Returns what a task was granted as a JSON object.
fn granted_value(alloc: Global, ask: Ask, label: &Label, tick: u64) -> Result<Value, AllocError>
    ensures { IfOk result (λ value. view value ≡ entry_json (grant_shown ask label.now tick)) }
{
    let object = label_value(alloc, label)?;
    match ask {
        Ask::Acquire => json!(in alloc; {"acquire": object, "tick": tick}),
        Ask::Send => json!(in alloc; {"send": object, "tick": tick}),
        Ask::Receive => json!(in alloc; {"receive": object, "tick": tick}),
    }
}

// Appends the entries of a task as a JSON array.
fn push_entries(alloc: Global, out: &mut Vec<u8>, entries: &[Entry<'_>]) -> Result<(), AllocError>
    ensures { OnOk result (out.new.items ≡ out.old.items ++ compact_text (list_of (map entry_json (map entry_of entries.now)))) }
{
    out.push(b'[')?;
    'entries: for (i, entry) in entries.iter().enumerate() {
        push_comma(out, i)?;
        push_entry(alloc, out, entry)?;
    }
    out.push(b']')?;
    Ok(())
}

// Returns how a task ended, in a word.
fn outcome_word(outcome: &Outcome) -> &'static str
    ensures { word result.now ≡ outcome_json (ending_in outcome.now) }
{
    match outcome {
        Outcome::Done => "done",
        Outcome::Cancelled => "cancelled",
        Outcome::Raised(_) => "raised",
    }
}

// Returns the exception that a task ended with, or `null`.
fn exception_value(alloc: Global, outcome: &Outcome) -> Result<Value, AllocError>
    ensures { IfOk result (λ value. view value ≡ exception_json (ending_in outcome.now)) }
{
    match outcome {
        Outcome::Done => Ok(Value::Null),
        Outcome::Cancelled => exc_value(alloc, &Exc::Cancelled),
        Outcome::Raised(exc) => exc_value(alloc, exc),
    }
}

// Appends a record as a JSON object.
fn push_row(alloc: Global, out: &mut Vec<u8>, row: &Record<'_>) -> Result<(), AllocError>
    ensures { OnOk result (out.new.items ≡ out.old.items ++ compact_text (row_json (row_in row.now))) }
{
    push_first_member(alloc, out, "end", &Value::from(row.to_tick))?;
    push_entries_member(alloc, out, row.entries.as_slice())?;
    push_exception(alloc, out, &row.outcome)?;
    push_outcome(alloc, out, &row.outcome)?;
    push_member(alloc, out, "start", &Value::from(row.from_tick))?;
    push_member(alloc, out, "task", &label_value(alloc, &row.label)?)?;
    out.push(b'}')?;
    Ok(())
}

// Appends the member `entries`.
fn push_entries_member(
    alloc: Global,
    out: &mut Vec<u8>,
    entries: &[Entry<'_>],
) -> Result<(), AllocError>
    ensures { OnOk result ((later : Members) → out.new.items ++ members_text true later
        ≡ out.old.items ++ members_text true (member (codes "entries") (list_of (map entry_json (map entry_of entries.now))) later)) }
{
    out.push(b',')?;
    push_key(out, "entries")?;
    push_entries(alloc, out, entries)?;
    Ok(())
}

// Appends the member `exception`.
fn push_exception(alloc: Global, out: &mut Vec<u8>, outcome: &Outcome) -> Result<(), AllocError>
    ensures { OnOk result ((later : Members) → out.new.items ++ members_text true later
        ≡ out.old.items ++ members_text true (member (codes "exception") (exception_json (ending_in outcome.now)) later)) }
{
    let exception = exception_value(alloc, outcome)?;
    push_member(alloc, out, "exception", &exception)
}

// Appends the member `outcome`.
fn push_outcome(alloc: Global, out: &mut Vec<u8>, outcome: &Outcome) -> Result<(), AllocError>
    ensures { OnOk result ((later : Members) → out.new.items ++ members_text true later
        ≡ out.old.items ++ members_text true (member (codes "outcome") (outcome_json (ending_in outcome.now)) later)) }
{
    let word = Value::try_from_str(alloc, outcome_word(outcome))?;
    push_member(alloc, out, "outcome", &word)
}

// Appends the records of a run as a JSON array.
fn push_rows(alloc: Global, out: &mut Vec<u8>, rows: &[Record<'_>]) -> Result<(), AllocError>
    ensures { OnOk result (out.new.items ≡ out.old.items ++ compact_text (list_of (map row_json (map row_in rows.now)))) }
{
    out.push(b'[')?;
    'rows: for (i, row) in rows.iter().enumerate() {
        push_comma(out, i)?;
        push_row(alloc, out, row)?;
    }
    out.push(b']')?;
    Ok(())
}

// Appends the member `tasks`.
pub(crate) fn push_tasks(
    alloc: Global,
    out: &mut Vec<u8>,
    rows: &[Record<'_>],
) -> Result<(), AllocError>
    ensures { OnOk result ((later : Members) → out.new.items ++ members_text true later
        ≡ out.old.items ++ members_text true (member (codes "tasks") (list_of (map row_json (map row_in rows.now))) later)) }
{
    out.push(b',')?;
    push_key(out, "tasks")?;
    push_rows(alloc, out, rows)?;
    Ok(())
}
