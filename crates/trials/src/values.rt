ghost use Rattle.std.specs.Prelude.{◌≤◌, length, IfOk};
ghost use Rattle.job_meaning.specs.declared.limits.TheConstants.{MAX_INPUT};
ghost use Rattle.trials.specs.Values.{IsValueOf};

use crate::job_outcome_of_text;
use job_answers::Question;
use job_edits::{Number, changed_text};
use outcomes::Value;
use std::alloc::{AllocError, Global};
use std::thread::Threads;
use workers::Work;

/// What all values have in common.
#[derive(Clone, Copy)]
pub(crate) struct Swept<'a> {
    /// The original job text, the input, and how each job is run.
    pub question: &'a Question<'a>,
    /// The number of the text that takes the values.
    pub number: Number,
}

impl Work for Swept<'_> {
    type Item = u64;

    type Answer = Value;

    ghost use Rattle.trials.specs.Values.{HasRoom, IsValueOf};

    ghost may = { HasRoom };

    ghost answers = { IsValueOf };

    fn answer<R: Threads + Sync>(
        &self,
        rt: &R,
        alloc: Global,
        value: &u64,
    ) -> Result<Value, AllocError> {
        value_with(rt, alloc, self, *value)
    }
}

// Returns the outcome of the job for a value.
fn value_with<R: Threads + Sync>(
    rt: &R,
    alloc: Global,
    swept: &Swept<'_>,
    value: u64,
) -> Result<Value, AllocError>
    requires { length swept.now.question.now.input.now ≤ MAX_INPUT }
    ensures { IfOk result (IsValueOf swept.now value) }
{
    let question = swept.question;
    let text = changed_text(alloc, question.text, &[swept.number.set_to(value)])?;
    let job_outcome = job_outcome_of_text(
        rt,
        alloc,
        text.as_slice(),
        question.input,
        question.settings.limit(),
        None,
    )?;
    Ok(Value { value, job_outcome })
}
