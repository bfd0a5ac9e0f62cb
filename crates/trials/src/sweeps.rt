ghost use Rattle.std.specs.Prelude.{◌≡◌, ◌≤◌, length, IfOk, IfErr};
ghost use Rattle.job_meaning.specs.declared.limits.TheConstants.{MAX_INPUT};
ghost use Rattle.job_reader.specs.Refusals.{Spells, IsFair};
ghost use Rattle.trials.specs.Sweeps.{AreValuesOf, IsSweepAnswer};

use crate::missing::Missing;
use crate::number::{Found, number_for};
use crate::outcome_of_job;
use crate::values::Swept;
use job_answers::Question;
use job_edits::Target;
use job_reader::{Job, JobFault, read_job, spelled_tokens};
use job_runner::Gate;
use outcomes::{JobOutcome, Value};
use std::alloc::{AllocError, Global};
use std::thread::Threads;
use workers::answers_for;

/// The outcome of a job with its own value, and with each value of one of its numbers.
#[derive(Drop)]
pub struct SweepValues {
    /// The outcome of the job with its own value.
    pub first: JobOutcome,
    /// The outcome of the job with each value, in the order of the values.
    pub values: Vec<Value>,
}

/// The result of a sweep over a number of a job text.
#[derive(Drop)]
pub enum SweepAnswer {
    /// The outcome of the job for each value.
    Values(SweepValues),
    /// The text does not have the number that is meant.
    NoTarget(Missing),
}

/// Returns the outcome of the job that the text of a question spells over its input, with its own value and with each of these
/// values of one of its numbers, in their order; or why the text does not have the number that is meant. A value that the text
/// cannot have there counts as refused. If the text is refused, the error is the refusal, as `read_job` returns it. If memory
/// runs out, the error has the kind `NoMemory`. The caller must ensure that the input has at most 16,777,216 bytes.
///
/// The number of workers in the settings is the number of threads that run the values. The gate is called before and after each
/// value, with the place of the value among them, by the thread that runs it. Neither changes a result.
pub fn sweep_values<R: Threads + Sync, G: Gate + Sync>(
    rt: &R,
    alloc: Global,
    question: &Question<'_>,
    target: Target,
    values: &[u64],
    gate: &G,
) -> Result<SweepAnswer, JobFault>
    requires { length question.now.input.now ≤ MAX_INPUT }
    ensures values { IfOk result (IsSweepAnswer question.now.text.now question.now.input.now question.now.settings.limit target values.now) }
    ensures refused { IfErr result (IsFair question.now.text.now) }
{
    let job = read_job(alloc, question.text)?;
    let answer = answer_for_job(rt, alloc, &job, question, target, values, gate)?;
    Ok(answer)
}

// Returns the same for a text that spells a job.
#[tactic(auto, using(crate::proofs::SweepsTabled::are_values, crate::proofs::SweepsTabled::is_without_target))]
fn answer_for_job<R: Threads + Sync, G: Gate + Sync>(
    rt: &R,
    alloc: Global,
    job: &Job,
    question: &Question<'_>,
    target: Target,
    values: &[u64],
    gate: &G,
) -> Result<SweepAnswer, AllocError>
    requires input { length question.now.input.now ≤ MAX_INPUT }
    requires spells { Spells question.now.text.now job.now }
    ensures { IfOk result (IsSweepAnswer question.now.text.now question.now.input.now question.now.settings.limit target values.now) }
{
    let tokens = spelled_tokens(alloc, question.text, job)?;
    match number_for(alloc, question.text, tokens.as_slice(), target)? {
        Found::Number(number) => {
            let swept = Swept { question, number };
            let found = values_of(rt, alloc, job, &swept, values, gate)?;
            Ok(SweepAnswer::Values(found))
        }
        Found::Missing(missing) => Ok(SweepAnswer::NoTarget(missing)),
    }
}

// Returns the outcome of the job with its own value, and with each value of its number.
fn values_of<R: Threads + Sync, G: Gate + Sync>(
    rt: &R,
    alloc: Global,
    job: &Job,
    swept: &Swept<'_>,
    values: &[u64],
    gate: &G,
) -> Result<SweepValues, AllocError>
    requires { length swept.now.question.now.input.now ≤ MAX_INPUT }
    ensures { IfOk result (AreValuesOf job.now swept.now values.now) }
{
    let question = swept.question;
    let (limit, workers) = (question.settings.limit(), question.settings.workers());
    let first = outcome_of_job(rt, alloc, job, question.input, limit, None)?;
    let of_values = answers_for(rt, alloc, swept, values, workers, gate)?;
    Ok(SweepValues {
        first,
        values: of_values,
    })
}
