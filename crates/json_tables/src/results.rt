ghost use Rattle.std.specs.Prelude.{◌≡◌, ◌++◌, [], ◌∷◌, Some, IfOk, codes, map, take};
ghost use Rattle.std.specs.Option.{option_map};
ghost use Rattle.serde_json.specs.View.{view};
ghost use Rattle.exceptions.specs.Held.{exc_of};
ghost use Rattle.outcomes.specs.JobOutcomes.{refused, stuck, ended};
ghost use Rattle.outcomes.specs.Views.{job_outcome_held};
ghost use Rattle.json_tables.specs.Results.{end_word, exc_or_null, not_tried_json, result_json, first_json};

use crate::members::{with, with_labels, with_word};
use exceptions::{Exc, Label};
use job_reader::JobFault;
use json_story::exc_value;
use outcomes::JobOutcome;
use serde_json::{Map, Value, json};
use std::alloc::{AllocError, Global};

/// Returns the outcome of a job that runs up to `limit`, which is the last tick at which it may end, as a JSON object. Returns
/// `AllocError` if memory runs out.
pub fn result_value(
    alloc: Global,
    limit: u64,
    job_outcome: &JobOutcome,
) -> Result<Value, AllocError>
    ensures { IfOk result (λ value. view value ≡ result_json limit (job_outcome_held job_outcome.now)) }
{
    match job_outcome {
        JobOutcome::Refused(fault) => {
            let value = refused_value(alloc, *fault)?;
            Ok(value)
        }
        JobOutcome::Stuck {
            sleeping,
            cut,
            lost,
        } => {
            let value = stuck_value(alloc, limit, sleeping.as_slice(), cut.as_slice(), *lost)?;
            Ok(value)
        }
        JobOutcome::Ended {
            end,
            exc,
            cancelled,
            cut,
            lost,
        } => {
            let value = ended_value(
                alloc,
                *end,
                exc,
                cancelled.as_slice(),
                cut.as_slice(),
                *lost,
            )?;
            Ok(value)
        }
    }
}

// Returns the outcome of a text that is refused, as a JSON object.
fn refused_value(alloc: Global, fault: JobFault) -> Result<Value, AllocError>
    ensures { IfOk result (λ value. view value ≡ result_json 0 (refused fault)) }
{
    let not_tried = not_tried_value(alloc, fault)?;
    json!(in alloc; {"outcome": "refused", "not_tried": not_tried})
}

// Returns the outcome of a job that does not end by a limit, as a JSON object.
fn stuck_value(
    alloc: Global,
    limit: u64,
    sleeping: &[Label],
    cut: &[Label],
    lost: bool,
) -> Result<Value, AllocError>
    ensures { IfOk result (λ value. view value ≡ result_json limit (stuck sleeping.now cut.now lost)) }
{
    let members = with_word(Map::new(alloc), alloc, "outcome", "stuck")?;
    let members = with(members, alloc, "limit", Value::from(limit))?;
    let members = with(members, alloc, "lost", Value::from(lost))?;
    let members = with_labels(members, alloc, "sleeping", sleeping)?;
    let members = with_labels(members, alloc, "cut", cut)?;
    Ok(Value::Object(members))
}

// Returns the outcome of a job that ends, as a JSON object.
fn ended_value(
    alloc: Global,
    end: u64,
    exc: &Option<Exc>,
    cancelled: &[Label],
    cut: &[Label],
    lost: bool,
) -> Result<Value, AllocError>
    ensures { IfOk result (λ value. view value ≡ result_json 0 (ended end (option_map exc_of exc.now) cancelled.now cut.now lost)) }
{
    let exception = exception_value(alloc, exc)?;
    let members = with(Map::new(alloc), alloc, "exception", exception)?;
    let members = with_word(members, alloc, "outcome", end_word(exc))?;
    let members = with(members, alloc, "end", Value::from(end))?;
    let members = with(members, alloc, "lost", Value::from(lost))?;
    let members = with_labels(members, alloc, "cancelled", cancelled)?;
    let members = with_labels(members, alloc, "cut", cut)?;
    Ok(Value::Object(members))
}

// Returns the refusal of a text that was not tried, as a JSON object.
pub(crate) fn not_tried_value(alloc: Global, fault: JobFault) -> Result<Value, AllocError>
    ensures { IfOk result (λ value. view value ≡ not_tried_json fault) }
{
    json!(in alloc; {"number": fault.kind.number(), "at": fault.at})
}

// Returns the outcome of the job as it is, as a JSON object.
pub(crate) fn first_value(
    alloc: Global,
    limit: u64,
    first: &JobOutcome,
) -> Result<Value, AllocError>
    ensures { IfOk result (λ value. view value ≡ first_json limit (job_outcome_held first.now)) }
{
    let result = result_value(alloc, limit, first)?;
    json!(in alloc; {"result": result})
}

// Returns how a job ends, in one word.
fn end_word(exc: &Option<Exc>) -> &'static str
    ensures { result.now ≡ end_word (option_map exc_of exc.now) }
{
    let Some(exc) = exc else {
        return "done";
    };
    exc_word(exc)
}

// Returns with what exception a job ends, in one word: a cancellation, or another exception.
fn exc_word(exc: &Exc) -> &'static str
    ensures { result.now ≡ end_word (Some (exc_of exc.now)) }
{
    match exc {
        Exc::Cancelled => "cancelled",
        Exc::Raised { .. } | Exc::TooSlow { .. } | Exc::Group { .. } => "raised",
    }
}

// Returns the exception with which a job ends, or `null` if it ends without one.
fn exception_value(alloc: Global, exc: &Option<Exc>) -> Result<Value, AllocError>
    ensures { IfOk result (λ value. view value ≡ exc_or_null (option_map exc_of exc.now)) }
{
    match exc {
        Some(exc) => exc_value(alloc, exc),
        None => Ok(Value::Null),
    }
}
