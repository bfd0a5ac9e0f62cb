ghost use Rattle.std.specs.Prelude.{◌≡◌, ◌++◌, [], ◌∷◌, ◌||◌, not, List, IfOk, OnOk, length, map, take, codes};
ghost use Rattle.serde_json.specs.View.{view};
ghost use Rattle.outcomes.specs.Table as table;
ghost use Rattle.outcomes.specs.Table.{counts_of, fault_text, printed, step_text};
ghost use Rattle.outcomes.specs.Views.{job_outcome_held, line_held};
ghost use Rattle.json_story.specs.Values.{document, text_json};
ghost use Rattle.json_tables.specs.Faults.{part_or_null, fault_line_json, fault_counts_json, faults_json};

use crate::members::{place_members, with, with_word};
use crate::results::{first_value, result_value};
use crate::warnings::name_value;
use job_edits::{BlockPart, Fault, push_wait};
use json_story::{document, text_value};
use outcomes::{Counts, JobOutcome, Line, Untried, push_part};
use serde_json::{Map, Value};
use std::alloc::{AllocError, Global};

/// Returns one JSON document with the outcome of a job as it is (`first`), its outcome with each fault, and how many faults are
/// of each kind. With `brief` it has only the lines whose outcome differs from that of the job without the fault, but all are
/// counted. The document is compact and ends with a newline. `limit` is the last tick at which the job may end, and `untried`
/// says which faults in single copies and passes are not among `lines`. The only error is that memory runs out.
pub fn faults_json(
    alloc: Global,
    limit: u64,
    brief: bool,
    first: &JobOutcome,
    lines: &[Line],
    untried: Untried,
) -> Result<Vec<u8>, AllocError>
    ensures { IfOk result (λ bytes. bytes.items
        ≡ document (faults_json limit brief (job_outcome_held first.now) (map line_held lines.now) untried)) }
{
    let value = faults_value(alloc, limit, brief, first, lines, untried)?;
    document(alloc, &value)
}

// Returns the same as a JSON object.
fn faults_value(
    alloc: Global,
    limit: u64,
    brief: bool,
    first: &JobOutcome,
    lines: &[Line],
    untried: Untried,
) -> Result<Value, AllocError>
    ensures { IfOk result (λ value. view value ≡ faults_json limit brief (job_outcome_held first.now) (map line_held lines.now) untried) }
{
    let as_it_is = first_value(alloc, limit, first)?;
    let members = with(Map::new(alloc), alloc, "as_it_is", as_it_is)?;
    let counts = counts_value(alloc, Counts::of(lines))?;
    let members = with(members, alloc, "counts", counts)?;
    let members = with(members, alloc, "divided", Value::from(untried.divided))?;
    let values = line_values(alloc, limit, brief, lines)?;
    let members = with(members, alloc, "lines", Value::from(values))?;
    let members = with(members, alloc, "more", Value::from(untried.more))?;
    Ok(Value::Object(members))
}

// Returns the outcomes of a job with each fault that is printed, as JSON objects.
fn line_values(
    alloc: Global,
    limit: u64,
    brief: bool,
    lines: &[Line],
) -> Result<Vec<Value>, AllocError>
    ensures { IfOk result (λ values. map view values.items ≡ map (fault_line_json limit) (printed brief (map line_held lines.now))) }
{
    let mut values = Vec::new(alloc);
    'lines: for line in lines {
        push_printed(alloc, &mut values, limit, brief, line)?;
    }
    Ok(values)
}

// Appends the outcome of a job with a fault, if it is printed. The clause has the lines that a loop appends later, `rest`, on
// both sides.
fn push_printed(
    alloc: Global,
    values: &mut Vec<Value>,
    limit: u64,
    brief: bool,
    line: &Line,
) -> Result<(), AllocError>
    ensures { OnOk result ((rest : List table.Line) → map view values.new.items ++ map (fault_line_json limit) (printed brief rest)
        ≡ map view values.old.items ++ map (fault_line_json limit) (printed brief (line_held line.now ∷ rest))) }
{
    if is_printed(brief, line.differs) {
        push_line(alloc, values, limit, line)?;
    }
    Ok(())
}

// Returns whether a line is printed: all are, or those whose outcome differs from that of the job without the fault.
fn is_printed(brief: bool, differs: bool) -> bool
    ensures { result ≡ (not brief || differs) }
{
    !brief || differs
}

// Appends the outcome of a job with a fault.
fn push_line(
    alloc: Global,
    values: &mut Vec<Value>,
    limit: u64,
    line: &Line,
) -> Result<(), AllocError>
    ensures { OnOk result (map view values.new.items ≡ map view values.old.items ++ fault_line_json limit (line_held line.now) ∷ []) }
{
    let value = line_value(alloc, limit, line)?;
    values.push(value)?;
    Ok(())
}

// Returns the outcome of a job with a fault, as a JSON object.
fn line_value(alloc: Global, limit: u64, line: &Line) -> Result<Value, AllocError>
    ensures { IfOk result (λ value. view value ≡ fault_line_json limit (line_held line.now)) }
{
    let step = step_value(alloc, line)?;
    let members = place_members(alloc, line.line, line.column, step)?;
    let members = with_word(members, alloc, "fault", fault_word(line.variant.fault))?;
    let exception = name_value(alloc, &line.variant.fault.raised_name())?;
    let members = with(members, alloc, "exception", exception)?;
    let part = part_value(alloc, &line.variant.part)?;
    let members = with(members, alloc, "part", part)?;
    let members = with(members, alloc, "reached", Value::from(line.reached))?;
    let result = result_value(alloc, limit, &line.job_outcome)?;
    let members = with(members, alloc, "result", result)?;
    Ok(Value::Object(members))
}

// Returns the copy or pass in which alone a fault is, or `null` if it is in none.
fn part_value(alloc: Global, part: &Option<BlockPart>) -> Result<Value, AllocError>
    ensures { IfOk result (λ value. view value ≡ part_or_null part.now) }
{
    match part {
        Some(part) => {
            let mut text = Vec::new(alloc);
            push_part(&mut text, part)?;
            text_value(alloc, text.as_slice())
        }
        None => Ok(Value::Null),
    }
}

// Returns the text of the step of a line.
fn step_value(alloc: Global, line: &Line) -> Result<Value, AllocError>
    ensures { IfOk result (λ value. view value ≡ text_json (step_text (line_held line.now))) }
{
    let mut text = Vec::new(alloc);
    push_wait(&mut text, line.variant.step.wait)?;
    text_value(alloc, text.as_slice())
}

// Returns the name of a fault.
fn fault_word(fault: Fault) -> &'static str
    ensures { result.now ≡ fault_text fault }
{
    match fault {
        Fault::Fails(_) => "fails",
        Fault::FailsLate(_) => "fails late",
        Fault::Hangs => "hangs",
        Fault::Cancelled => "cancelled",
        Fault::Misses(_) => "misses",
    }
}

// Returns how many faults are of each kind.
fn counts_value(alloc: Global, counts: Counts) -> Result<Value, AllocError>
    ensures { IfOk result (λ value. view value ≡ fault_counts_json counts) }
{
    let members = with(Map::new(alloc), alloc, "faults", Value::from(counts.faults))?;
    let members = with(members, alloc, "stuck", Value::from(counts.stuck))?;
    let members = with(members, alloc, "cut", Value::from(counts.cut))?;
    let members = with(members, alloc, "lost", Value::from(counts.lost))?;
    let members = with(members, alloc, "not_reached", Value::from(counts.unreached))?;
    let members = with(members, alloc, "not_tried", Value::from(counts.not_tried))?;
    Ok(Value::Object(members))
}
