ghost use Rattle.std.specs.Prelude.{◌≡◌, ◌++◌, [], ◌∷◌, IfOk, length, map, take, codes};
ghost use Rattle.serde_json.specs.View.{view};
ghost use Rattle.job_lint.specs.Sentences.{sentence_of};
ghost use Rattle.json_story.specs.Values.{document, text_json};
ghost use Rattle.json_tables.specs.Lints.{kind_word, name_or_null, warning_json, warning_counts_json, lints_json};

use crate::members::{with, with_word};
use basics::{column_of, line_of};
use job_lint::{Lint, Warning, sentence};
use job_tree::Name;
use json_story::{document, text_value};
use serde_json::{Map, Value, json};
use std::alloc::{AllocError, Global};

/// Returns one JSON document with the warnings about a job text: how many there are, and each with its place in bytes, its line
/// and column, its kind, the name that it is about, and a sentence. The document is compact and ends with a newline. Returns
/// `AllocError` if memory runs out.
#[tactic(auto, using(crate::proofs::Integers::lints_without_float))]
pub fn lints_json(
    alloc: Global,
    job_text: &[u8],
    warnings: &[Warning],
) -> Result<Vec<u8>, AllocError>
    ensures { IfOk result (λ bytes. bytes.items ≡ document (lints_json job_text.now warnings.now)) }
{
    let value = lints_value(alloc, job_text, warnings)?;
    document(alloc, &value)
}

// Returns the same as a JSON object.
fn lints_value(alloc: Global, job_text: &[u8], warnings: &[Warning]) -> Result<Value, AllocError>
    ensures { IfOk result (λ value. view value ≡ lints_json job_text.now warnings.now) }
{
    let counts = counts_value(alloc, warnings)?;
    let members = with(Map::new(alloc), alloc, "counts", counts)?;
    let lines = warning_values(alloc, job_text, warnings)?;
    let members = with(members, alloc, "lines", Value::from(lines))?;
    Ok(Value::Object(members))
}

// Returns how many warnings there are.
fn counts_value(alloc: Global, warnings: &[Warning]) -> Result<Value, AllocError>
    ensures { IfOk result (λ value. view value ≡ warning_counts_json warnings.now) }
{
    json!(in alloc; {"warnings": warnings.len()})
}

// Returns warnings as JSON objects.
fn warning_values(
    alloc: Global,
    job_text: &[u8],
    warnings: &[Warning],
) -> Result<Vec<Value>, AllocError>
    ensures { IfOk result (λ values. map view values.items ≡ map (warning_json job_text.now) warnings.now) }
{
    let mut values = Vec::new(alloc);
    'warnings: for warning in warnings {
        let value = warning_value(alloc, job_text, warning)?;
        values.push(value)?;
    }
    Ok(values)
}

// Returns a warning as a JSON object.
fn warning_value(alloc: Global, job_text: &[u8], warning: &Warning) -> Result<Value, AllocError>
    ensures { IfOk result (λ value. view value ≡ warning_json job_text.now warning.now) }
{
    let (line, column) = (
        line_of(job_text, warning.at),
        column_of(job_text, warning.at),
    );
    let name = name_value(alloc, &warning.name)?;
    let members = with(Map::new(alloc), alloc, "name", name)?;
    let said = sentence_value(alloc, warning)?;
    let members = with(members, alloc, "sentence", said)?;
    let members = with_word(members, alloc, "kind", kind_word(warning.lint))?;
    let members = with(members, alloc, "at", Value::from(warning.at))?;
    let members = with(members, alloc, "line", Value::from(line))?;
    let members = with(members, alloc, "column", Value::from(column))?;
    Ok(Value::Object(members))
}

// Returns the sentence of a warning.
fn sentence_value(alloc: Global, warning: &Warning) -> Result<Value, AllocError>
    ensures { IfOk result (λ value. view value ≡ text_json (sentence_of warning.now)) }
{
    let said = sentence(alloc, warning)?;
    text_value(alloc, said.as_slice())
}

// Returns a name, or `null` if there is none.
pub(crate) fn name_value(alloc: Global, name: &Option<Name>) -> Result<Value, AllocError>
    ensures { IfOk result (λ value. view value ≡ name_or_null name.now) }
{
    match name {
        Some(name) => text_value(alloc, name.bytes()),
        None => Ok(Value::Null),
    }
}

// Returns the kind of a mistake, in one word.
fn kind_word(lint: Lint) -> &'static str
    ensures { result.now ≡ kind_word lint }
{
    match lint {
        Lint::Unreachable => "unreachable",
        Lint::ExposedWait => "exposed_wait",
        Lint::RaiseInCleanup => "raise_in_cleanup",
        Lint::ShieldWithoutDeadline => "shield_without_deadline",
        Lint::IdleScope => "idle_scope",
        Lint::IdleHandler => "idle_handler",
        Lint::UnsetEvent => "unset_event",
        Lint::UnawaitedEvent => "unawaited_event",
        Lint::UnusedLimiter => "unused_limiter",
        Lint::OrderInversion => "order_inversion",
        Lint::UnsentChannel => "unsent_channel",
        Lint::UnreceivedChannel => "unreceived_channel",
        Lint::UnclosedChannel => "unclosed_channel",
        Lint::LateCancel => "late_cancel",
    }
}
