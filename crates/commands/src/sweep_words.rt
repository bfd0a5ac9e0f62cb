ghost use Rattle.std.specs.Prelude.{◌≤◌, length, IfOk};
ghost use Rattle.std.specs.Option.{option_map};
ghost use Rattle.job_meaning.specs.declared.limits.TheConstants.{MAX_INPUT};
ghost use Rattle.commands.specs.Outputs.{IsSwept};

use crate::{Form, SweepVerdict, sweep};
use job_answers::Question;
use job_edits::Target;
use job_runner::NoGate;
use std::alloc::{AllocError, Global};
use std::thread::Threads;

/// Returns the bytes that `sweep` writes for a job text over an input: the outcome of the job for each of these values of one of
/// its numbers, or the refusal of the text. Returns `None` if the text does not have the number that is meant. The number of
/// workers in the settings changes no byte. The caller must ensure that the input has at most 16,777,216 bytes (`MAX_INPUT`). The
/// only error is that memory runs out.
pub fn sweep_of<R: Threads + Sync>(
    rt: &R,
    alloc: Global,
    question: &Question<'_>,
    target: Target,
    values: &[u64],
    form: Form,
) -> Result<Option<Vec<u8>>, AllocError>
    requires { length question.now.input.now ≤ MAX_INPUT }
    ensures { IfOk result (λ bytes. IsSwept form question.now.text.now question.now.input.now question.now.settings.limit target values.now
        (option_map (λ kept. kept.items) bytes)) }
{
    let answer = sweep(rt, alloc, question, target, values, form, &NoGate)?;
    match answer.verdict {
        SweepVerdict::Lines | SweepVerdict::JobRefused(_) => Ok(Some(answer.bytes)),
        SweepVerdict::NoTarget(_) => Ok(None),
    }
}
