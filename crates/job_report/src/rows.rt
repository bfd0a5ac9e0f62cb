ghost use Rattle.std.specs.Prelude.{◌≡◌, ◌++◌, [], ◌∷◌, IfOk, OnOk, take, map, length, decimal, codes};
ghost use Rattle.input_lines.specs.Part.{span_of, line_text};
ghost use Rattle.job_meaning.specs.Shown.{line_shown};
ghost use Rattle.std.specs.List.{flat_map};
ghost use Rattle.task_machine.specs.Noted.{entry_of};
ghost use Rattle.task_table.specs.Records.{ending_in, row_in};
ghost use Rattle.job_report.specs.Text.{ask_word, shown_text, ending_text, row_text, caught_text};

use crate::escape::push_escaped;
use basics::push_number;
use exceptions::{push_exc, push_label};
use input_lines::Line;
use job_runner::{Entry, Outcome, Record};
use job_tree::Ask;
use std::alloc::{AllocError, Global};

// Appends the line for an entry.
fn push_entry(out: &mut Vec<u8>, entry: &Entry<'_>) -> Result<(), AllocError>
    ensures { OnOk result (out.new.items ≡ out.old.items ++ shown_text (entry_of entry.now)) }
{
    match entry {
        Entry::Line(line) => push_line(out, *line),
        Entry::Scope {
            label,
            tick,
            caught,
        } => {
            out.extend_from_slice(b"  scope ")?;
            push_label(out, label)?;
            push_left(out, *tick, *caught)
        }
        Entry::Nursery {
            label,
            tick,
            caught,
        } => {
            out.extend_from_slice(b"  nursery ")?;
            push_label(out, label)?;
            push_left(out, *tick, *caught)
        }
        Entry::Wait { label, tick } => {
            out.extend_from_slice(b"  wait ")?;
            push_label(out, label)?;
            push_tick(out, *tick)
        }
        Entry::Granted { ask, label, tick } => {
            out.extend_from_slice(b"  ")?;
            out.extend_from_slice(ask_word(*ask))?;
            out.extend_from_slice(b" ")?;
            push_label(out, label)?;
            push_tick(out, *tick)
        }
    }
}

// The word of the step that asks this.
fn ask_word(ask: Ask) -> &'static [u8]
    ensures { result.now ≡ ask_word ask }
{
    match ask {
        Ask::Acquire => b"acquire",
        Ask::Send => b"send",
        Ask::Receive => b"receive",
    }
}

// Appends the line for a line of the input.
fn push_line(out: &mut Vec<u8>, line: Line<'_>) -> Result<(), AllocError>
    ensures { OnOk result (out.new.items ≡ out.old.items ++ shown_text (line_shown (span_of line.entry).at (line_text line.entry))) }
{
    out.extend_from_slice(b"  line ")?;
    push_number(out, line.at() as u64)?;
    out.extend_from_slice(b"+")?;
    push_number(out, line.text().len() as u64)?;
    out.extend_from_slice(b" ")?;
    push_escaped(out, line.text())?;
    out.extend_from_slice(b"\n")
}

// Appends the tick at which a scope or nursery was left, and whether it caught.
fn push_left(out: &mut Vec<u8>, tick: u64, caught: bool) -> Result<(), AllocError>
    ensures { OnOk result (out.new.items ≡ out.old.items ++ (codes " " ++ (decimal tick ++ caught_text caught))) }
{
    out.extend_from_slice(b" ")?;
    push_number(out, tick)?;
    if caught {
        out.extend_from_slice(b" caught\n")
    } else {
        out.extend_from_slice(b" passed\n")
    }
}

// Appends the tick at which a task went on that waited for an event, or for a limiter or channel.
fn push_tick(out: &mut Vec<u8>, tick: u64) -> Result<(), AllocError>
    ensures { OnOk result (out.new.items ≡ out.old.items ++ (codes " " ++ (decimal tick ++ codes "\n"))) }
{
    out.extend_from_slice(b" ")?;
    push_number(out, tick)?;
    out.extend_from_slice(b"\n")
}

// Appends the lines for a task's entries.
fn push_entries(out: &mut Vec<u8>, entries: &[Entry<'_>]) -> Result<(), AllocError>
    ensures { OnOk result (out.new.items ≡ out.old.items ++ flat_map shown_text (map entry_of entries.now)) }
{
    'entries: for entry in entries {
        push_entry(out, entry)?;
    }
    Ok(())
}

// Appends how a task ended.
fn push_outcome(out: &mut Vec<u8>, outcome: &Outcome) -> Result<(), AllocError>
    ensures { OnOk result (out.new.items ≡ out.old.items ++ ending_text (ending_in outcome.now)) }
{
    match outcome {
        Outcome::Done => out.extend_from_slice(b"done"),
        Outcome::Cancelled => out.extend_from_slice(b"cancelled"),
        Outcome::Raised(exc) => {
            out.extend_from_slice(b"raised ")?;
            push_exc(out, exc)
        }
    }
}

// Appends the lines for a task.
fn push_row(out: &mut Vec<u8>, row: &Record<'_>) -> Result<(), AllocError>
    ensures { OnOk result (out.new.items ≡ out.old.items ++ row_text (row_in row.now)) }
{
    out.extend_from_slice(b"task ")?;
    push_label(out, &row.label)?;
    out.extend_from_slice(b" ")?;
    push_number(out, row.from_tick)?;
    out.extend_from_slice(b" ")?;
    push_number(out, row.to_tick)?;
    out.extend_from_slice(b" ")?;
    push_outcome(out, &row.outcome)?;
    out.extend_from_slice(b"\n")?;
    push_entries(out, row.entries.as_slice())
}

// Appends the lines for all tasks.
pub(crate) fn push_rows(out: &mut Vec<u8>, rows: &[Record<'_>]) -> Result<(), AllocError>
    ensures { OnOk result (out.new.items ≡ out.old.items ++ flat_map row_text (map row_in rows.now)) }
{
    'rows: for row in rows {
        push_row(out, row)?;
    }
    Ok(())
}

// An empty text with space for the lines of all tasks, at least if no byte of a line of the input is escaped. Otherwise it
// grows.
pub(crate) fn text_for(alloc: Global, rows: &[Record<'_>]) -> Result<Vec<u8>, AllocError>
    ensures { IfOk result (λ text. text.items ≡ []) }
{
    let mut room: usize = 0;
    'rows: for row in rows {
        room = room.saturating_add(room_of(row));
    }
    Vec::with_capacity(alloc, room)
}

// Space for the lines of a task.
fn room_of(row: &Record<'_>) -> usize {
    let mut room: usize = 128;
    'entries: for entry in row.entries.as_slice() {
        room = room.saturating_add(entry_room(entry));
    }
    room
}

// Space for the line of an entry: for a line of the input, its length and two numbers of eight digits.
fn entry_room(entry: &Entry<'_>) -> usize {
    match entry {
        Entry::Line(line) => line.text().len().saturating_add(26),
        Entry::Scope { .. } => 128,
        Entry::Nursery { .. } => 128,
        Entry::Wait { .. } => 128,
        Entry::Granted { .. } => 128,
    }
}
