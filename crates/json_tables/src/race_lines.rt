ghost use Rattle.std.specs.Prelude.{◌≡◌, ◌++◌, [], ◌∷◌, List, IfOk, OnOk, length, map, take, drop, codes, if◌then◌else◌};
ghost use Rattle.serde_json.specs.View.{view};
ghost use Rattle.race_text.specs.RowViews.{difference_held};
ghost use Rattle.race_text.specs.Lines as race_lines;
ghost use Rattle.race_text.specs.Lines.{is_shown};
ghost use Rattle.race_text.specs.Table.{hair_name, lines_that};
ghost use Rattle.race_text.specs.LineViews.{found_held, line_held};
ghost use Rattle.json_story.specs.Values.{document, label_json, list_of};
ghost use Rattle.json_tables.specs.Races.{difference_json, differences_json, refusal_or_null, finer_ticks_json, moved_json, copies_json, race_line_json, race_counts_json, races_json};

use crate::results::not_tried_value;
use exceptions::Label;
use job_edits::Hair;
use json_story::{document, label_value, text_value};
use race_text::{Difference, Found, Line, hairs_not_tried_in, races_in, step_of};
use serde_json::{Value, json};
use std::alloc::{AllocError, Global};

// Where a step of the text begins, as line and column, counted from 1.
#[derive(Clone, Copy)]
struct Position {
    line: usize,
    column: usize,
}

/// Returns one JSON document with each line of the table of races that is shown, in their order and with all differences, and
/// with how many hairs there are, with how many of them nothing was compared, and how many lines are races. The document is
/// compact and ends with a newline. Returns `AllocError` if memory runs out.
#[tactic(auto, using(crate::proofs::Integers::races_without_float))]
pub fn races_json(alloc: Global, hairs: usize, lines: &[Line]) -> Result<Vec<u8>, AllocError>
    ensures { IfOk result (λ bytes. bytes.items ≡ document (races_json hairs (map line_held lines.now))) }
{
    let value = races_value(alloc, hairs, lines)?;
    document(alloc, &value)
}

// Returns the same as a JSON object.
fn races_value(alloc: Global, hairs: usize, lines: &[Line]) -> Result<Value, AllocError>
    ensures { IfOk result (λ value. view value ≡ races_json hairs (map line_held lines.now)) }
{
    let counts = counts_value(alloc, hairs, lines)?;
    let values = line_values(alloc, lines)?;
    json!(in alloc; {"counts": counts, "lines": values})
}

// Returns how many hairs there are, with how many of them nothing was compared, and how many lines are races.
fn counts_value(alloc: Global, hairs: usize, lines: &[Line]) -> Result<Value, AllocError>
    ensures { IfOk result (λ value. view value ≡ race_counts_json hairs (map line_held lines.now)) }
{
    json!(in alloc; {
        "hairs": hairs,
        "races": races_in(lines),
        "not_tried": hairs_not_tried_in(lines)
    })
}

// Returns the lines that are shown, as JSON objects.
fn line_values(alloc: Global, lines: &[Line]) -> Result<Vec<Value>, AllocError>
    ensures { IfOk result (λ values. map view values.items ≡ map race_line_json (lines_that is_shown (map line_held lines.now))) }
{
    let mut values = Vec::new(alloc);
    'lines: for line in lines {
        push_if_shown(&mut values, alloc, line)?;
    }
    Ok(values)
}

// Appends a line, if it is shown. The contract has the lines that a loop appends later, `others`, on both sides.
fn push_if_shown(values: &mut Vec<Value>, alloc: Global, line: &Line) -> Result<(), AllocError>
    ensures { OnOk result ((others : List race_lines.Line) →
        map view values.new.items ++ map race_line_json others
        ≡ map view values.old.items ++ map race_line_json (if is_shown (line_held line.now) then line_held line.now ∷ others else others)) }
{
    if !line.is_shown() {
        return Ok(());
    }
    let value = line_value(alloc, line)?;
    values.push(value)?;
    Ok(())
}

// Returns a line as a JSON object.
#[tactic(auto, using(crate::proofs::Raced::of_moved, crate::proofs::Raced::of_copies))]
fn line_value(alloc: Global, line: &Line) -> Result<Value, AllocError>
    ensures { IfOk result (λ value. view value ≡ race_line_json (line_held line.now)) }
{
    let step = step_of(alloc, line)?;
    match line {
        Line::InFinerTicks(found) => finer_ticks_value(alloc, found),
        Line::Moved {
            line,
            column,
            hair,
            found,
            ..
        } => {
            let position = Position {
                line: *line,
                column: *column,
            };
            let value = moved_value(alloc, position, *hair, found, step.as_slice())?;
            Ok(value)
        }
        Line::Copies {
            line,
            column,
            one,
            other,
            tick,
            ..
        } => {
            let position = Position {
                line: *line,
                column: *column,
            };
            let value = copies_value(alloc, position, one, other, *tick, step.as_slice())?;
            Ok(value)
        }
    }
}

// Returns the line of the text in finer ticks.
fn finer_ticks_value(alloc: Global, found: &Found) -> Result<Value, AllocError>
    ensures { IfOk result (λ value. view value ≡ finer_ticks_json (found_held found.now)) }
{
    let differences = difference_values(alloc, found)?;
    let not_tried = refusal_value(alloc, found)?;
    json!(in alloc; {"hair": "finer", "not_tried": not_tried, "differences": differences})
}

// Returns the line of a place that is moved, with its step.
fn moved_value(
    alloc: Global,
    position: Position,
    hair: Hair,
    found: &Found,
    step: &[u8],
) -> Result<Value, AllocError>
    ensures { IfOk result (λ value. view value ≡ moved_json position.line position.column hair (found_held found.now) step.now) }
{
    let text = text_value(alloc, step)?;
    let differences = difference_values(alloc, found)?;
    let not_tried = refusal_value(alloc, found)?;
    json!(in alloc; {
        "line": position.line,
        "column": position.column,
        "step": text,
        "hair": hair_word(hair),
        "not_tried": not_tried,
        "differences": differences
    })
}

// Returns the line of copies that meet, with the step that starts them.
fn copies_value(
    alloc: Global,
    position: Position,
    one: &Label,
    other: &Label,
    tick: u64,
    step: &[u8],
) -> Result<Value, AllocError>
    ensures { IfOk result (λ value. view value ≡ copies_json position.line position.column one.now other.now tick step.now) }
{
    let text = text_value(alloc, step)?;
    let tasks = pair_value(alloc, one, other)?;
    json!(in alloc; {
        "line": position.line,
        "column": position.column,
        "step": text,
        "hair": "copies",
        "tasks": tasks,
        "tick": tick
    })
}

// Returns the labels of two tasks.
fn pair_value(alloc: Global, one: &Label, other: &Label) -> Result<Value, AllocError>
    ensures { IfOk result (λ value. view value ≡ list_of (label_json one.now ∷ label_json other.now ∷ [])) }
{
    let first = label_value(alloc, one)?;
    let second = label_value(alloc, other)?;
    json!(in alloc; [first, second])
}

// Returns the direction of a hair, in one word.
fn hair_word(hair: Hair) -> &'static str
    ensures { result.now ≡ hair_name hair }
{
    match hair {
        Hair::Earlier => "earlier",
        Hair::Later => "later",
    }
}

// Returns the refusal of the text with which nothing was compared, as a JSON object, or `null` if the runs were compared.
fn refusal_value(alloc: Global, found: &Found) -> Result<Value, AllocError>
    ensures { IfOk result (λ value. view value ≡ refusal_or_null (found_held found.now)) }
{
    match found {
        Found::NotTried(fault) => not_tried_value(alloc, *fault),
        Found::Differs(_) => Ok(Value::Null),
    }
}

// Returns what differs, as JSON objects.
fn difference_values(alloc: Global, found: &Found) -> Result<Vec<Value>, AllocError>
    ensures { IfOk result (λ values. map view values.items ≡ differences_json (found_held found.now)) }
{
    match found {
        Found::NotTried(_) => Ok(Vec::new(alloc)),
        Found::Differs(tasks) => values_of(alloc, tasks.as_slice()),
    }
}

// Returns differences as JSON objects.
fn values_of(alloc: Global, tasks: &[Difference]) -> Result<Vec<Value>, AllocError>
    ensures { IfOk result (λ values. map view values.items ≡ map difference_json (map difference_held tasks.now)) }
{
    let mut values = Vec::new(alloc);
    'tasks: for difference in tasks {
        let value = difference_value(alloc, difference)?;
        values.push(value)?;
    }
    Ok(values)
}

// Returns a task that differs, as a JSON object.
fn difference_value(alloc: Global, difference: &Difference) -> Result<Value, AllocError>
    ensures { IfOk result (λ value. view value ≡ difference_json (difference_held difference.now)) }
{
    match difference {
        Difference::Otherwise {
            task,
            before,
            after,
        } => {
            let label = label_value(alloc, task)?;
            let old = text_value(alloc, before.as_slice())?;
            let new = text_value(alloc, after.as_slice())?;
            json!(in alloc; {"task": label, "before": old, "after": new})
        }
        Difference::Inside { task } => {
            let label = label_value(alloc, task)?;
            json!(in alloc; {"task": label, "entries_differ": true})
        }
    }
}
