ghost use Rattle.std.specs.Prelude.{◌≡◌, ◌≢◌, IfOk, OnOk};
ghost use Rattle.job_reader.specs.declared.fault.JobKind.TheVariants as kinds;
ghost use Rattle.commands.specs.Forms.{refusal_in, limit_in};

use crate::form::Form;
use job_reader::JobFault;
use std::alloc::{AllocError, Global};

// Returns the refusal of a job text. It is an error if memory runs out, or if the fault itself is `NoMemory`, which is not a
// refusal.
pub(crate) fn refusal_in(
    alloc: Global,
    form: Form,
    job_text: &[u8],
    fault: JobFault,
) -> Result<Vec<u8>, AllocError>
    ensures bytes { IfOk result (λ bytes. bytes.items ≡ refusal_in form job_text.now fault) }
    ensures kind { OnOk result (fault.kind ≢ kinds.NoMemory) }
{
    match form {
        Form::Text => job_answers::refusal(alloc, fault),
        Form::Json => crate::refusal(alloc, job_text, fault),
    }
}

// Returns the limit in ticks by which a job does not end.
pub(crate) fn limit_in(alloc: Global, form: Form, limit: u64) -> Result<Vec<u8>, AllocError>
    ensures { IfOk result (λ bytes. bytes.items ≡ limit_in form limit) }
{
    match form {
        Form::Text => job_answers::past_limit(alloc, limit),
        Form::Json => crate::past_limit(alloc, limit),
    }
}
