ghost use Rattle.std.specs.Prelude.{◌≡◌, ◌++◌, [], ◌∷◌, IfOk, length, map, take, codes};
ghost use Rattle.serde_json.specs.View.{view};
ghost use Rattle.outcomes.specs.JobOutcomes.{is_stuck, has_cut, is_refused};
ghost use Rattle.outcomes.specs.Views.{job_outcome_held};
ghost use Rattle.outcomes.specs.Sweeps.{count};
ghost use Rattle.outcomes.specs.SweepViews.{value_held};
ghost use Rattle.json_story.specs.Values.{document};
ghost use Rattle.json_tables.specs.Sweeps.{value_json, value_counts_json, sweep_json};

use crate::members::with;
use crate::results::{first_value, result_value};
use json_story::document;
use outcomes::{JobOutcome, Value as Swept};
use serde_json::{Map, Value, json};
use std::alloc::{AllocError, Global};

/// Returns one JSON document with the outcome of a job as it is (`first`), its outcome for each value of a number in their order,
/// including the ticks, and how many values are of each kind. The document is compact and ends with a newline. `limit` is the
/// last tick at which the job may end. Returns `AllocError` if memory runs out.
#[tactic(auto, using(crate::proofs::Integers::sweep_without_float))]
pub fn sweep_json(
    alloc: Global,
    limit: u64,
    first: &JobOutcome,
    values: &[Swept],
) -> Result<Vec<u8>, AllocError>
    ensures { IfOk result (λ bytes. bytes.items ≡ document (sweep_json limit (job_outcome_held first.now) (map value_held values.now))) }
{
    let value = sweep_value(alloc, limit, first, values)?;
    document(alloc, &value)
}

// Returns the same as a JSON object.
fn sweep_value(
    alloc: Global,
    limit: u64,
    first: &JobOutcome,
    values: &[Swept],
) -> Result<Value, AllocError>
    ensures { IfOk result (λ value. view value ≡ sweep_json limit (job_outcome_held first.now) (map value_held values.now)) }
{
    let as_it_is = first_value(alloc, limit, first)?;
    let members = with(Map::new(alloc), alloc, "as_it_is", as_it_is)?;
    let counts = counts_value(alloc, values)?;
    let members = with(members, alloc, "counts", counts)?;
    let lines = line_values(alloc, limit, values)?;
    let members = with(members, alloc, "lines", Value::from(lines))?;
    Ok(Value::Object(members))
}

// Returns the outcomes of a job for each value, as JSON objects.
fn line_values(alloc: Global, limit: u64, values: &[Swept]) -> Result<Vec<Value>, AllocError>
    ensures { IfOk result (λ lines. map view lines.items ≡ map (value_json limit) (map value_held values.now)) }
{
    let mut lines = Vec::new(alloc);
    'values: for value in values {
        let line = line_value(alloc, limit, value)?;
        lines.push(line)?;
    }
    Ok(lines)
}

// Returns the outcome of a job for a value, as a JSON object.
fn line_value(alloc: Global, limit: u64, value: &Swept) -> Result<Value, AllocError>
    ensures { IfOk result (λ line. view line ≡ value_json limit (value_held value.now)) }
{
    let result = result_value(alloc, limit, &value.job_outcome)?;
    json!(in alloc; {"value": value.value, "result": result})
}

// Returns how many values are of each kind.
fn counts_value(alloc: Global, values: &[Swept]) -> Result<Value, AllocError>
    ensures { IfOk result (λ value. view value ≡ value_counts_json (map value_held values.now)) }
{
    json!(in alloc; {
        "values": count_of(values),
        "stuck": stuck_in(values),
        "cut": cut_in(values),
        "refused": refused_in(values)
    })
}

// Returns how many values there are.
fn count_of(values: &[Swept]) -> usize
    ensures { result ≡ length (map value_held values.now) }
{
    values.len()
}

// Returns for how many values the job does not end by the limit.
fn stuck_in(values: &[Swept]) -> usize
    ensures { result ≡ count is_stuck (map value_held values.now) }
{
    values.iter().filter(|v| v.job_outcome.is_stuck()).count()
}

// Returns for how many values the job cuts a cleanup.
fn cut_in(values: &[Swept]) -> usize
    ensures { result ≡ count has_cut (map value_held values.now) }
{
    values.iter().filter(|v| v.job_outcome.has_cut()).count()
}

// Returns for how many values the text is refused.
fn refused_in(values: &[Swept]) -> usize
    ensures { result ≡ count is_refused (map value_held values.now) }
{
    values.iter().filter(|v| v.job_outcome.is_refused()).count()
}
