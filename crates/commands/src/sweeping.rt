ghost use Rattle.std.specs.Prelude.{◌≡◌, ◌≤◌, length, map, IfOk};
ghost use Rattle.job_meaning.specs.declared.limits.TheConstants.{MAX_INPUT};
ghost use Rattle.outcomes.specs.Views.{job_outcome_held};
ghost use Rattle.outcomes.specs.SweepViews.{value_held};
ghost use Rattle.commands.specs.Sweeps.{IsVerdict, table_in};

use crate::form::Form;
use crate::refusing::refusal_in;
use crate::verdict::SweepVerdict;
use job_answers::Gate;
use job_edits::Target;
use job_report::{Answer, Question};
use json_tables::sweep_json;
use outcomes::{JobOutcome, Value, sweep_table};
use std::alloc::{AllocError, Global};
use std::thread::Threads;
use trials::{SweepAnswer, sweep_values};

/// Returns the outcome of a job over an input for each of these values of one of its numbers, in their order: first the outcome
/// of the job with its own value, then the values, and then how many values there are of each kind. A text has a line for each
/// group of neighbouring values with the same outcome apart from ticks; a JSON document has each value with its ticks. A value is
/// put into the job text in place of the digits of the number, and its outcome is that of the changed text by the meaning of the
/// job. A value that the text cannot have there counts as refused. If the job text is refused, the bytes are its refusal. If the
/// text does not have the number that is meant, there are none. The caller must ensure that the input has at most 16,777,216
/// bytes (`MAX_INPUT`).
///
/// The number of workers in the settings is the number of threads that run the values. The gate is called before and after each
/// value, with the place of the value among them, by the thread that runs it. Neither changes a byte. The only error is that
/// memory runs out.
#[tactic(auto, using(crate::proofs::Tables::of_values))]
pub fn sweep<R: Threads + Sync, G: Gate + Sync>(
    rt: &R,
    alloc: Global,
    question: &Question<'_>,
    target: Target,
    values: &[u64],
    form: Form,
    gate: &G,
) -> Result<Answer<SweepVerdict>, AllocError>
    requires { length question.now.input.now ≤ MAX_INPUT }

    // The bytes are the outcomes for all values, or the refusal of the text, or there are none.
    ensures { IfOk result (λ answer. IsVerdict form question.now.text.now question.now.input.now question.now.settings.limit target values.now
        answer.verdict answer.bytes.items) }
{
    match sweep_values(rt, alloc, question, target, values, gate) {
        Ok(SweepAnswer::Values(found)) => {
            let (limit, values) = (question.settings.limit(), found.values.as_slice());
            let bytes = table_in(alloc, form, limit, &found.first, values)?;
            Ok(Answer {
                verdict: SweepVerdict::Lines,
                bytes,
            })
        }
        Ok(SweepAnswer::NoTarget(missing)) => Ok(Answer {
            verdict: SweepVerdict::NoTarget(missing),
            bytes: Vec::new(alloc),
        }),
        Err(fault) => {
            let bytes = refusal_in(alloc, form, question.text, fault)?;
            Ok(Answer {
                verdict: SweepVerdict::JobRefused(fault),
                bytes,
            })
        }
    }
}

// Returns the bytes of the outcomes.
fn table_in(
    alloc: Global,
    form: Form,
    limit: u64,
    first: &JobOutcome,
    values: &[Value],
) -> Result<Vec<u8>, AllocError>
    ensures { IfOk result (λ bytes. bytes.items ≡ table_in form limit (job_outcome_held first.now) (map value_held values.now)) }
{
    match form {
        Form::Text => sweep_table(alloc, limit, first, values),
        Form::Json => sweep_json(alloc, limit, first, values),
    }
}
