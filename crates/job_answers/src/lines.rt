ghost use Rattle.std.specs.Prelude.{◌≡◌, ◌≢◌, ◌++◌, IfOk, OnOk, decimal};
ghost use Rattle.job_reader.specs.declared.fault.JobKind.TheVariants as kinds;
ghost use Rattle.job_answers.specs.Verdict.{refusal_line, limit_line};

use basics::push_number;
use job_reader::{JobFault, JobKind};
use std::alloc::{AllocError, Global};

/// Returns the line for a refused job text, such as `refused J6 Syntax at 27`, with its newline. It is an error if memory runs
/// out for the line, or if the fault itself is `NoMemory`, which is not a refusal.
pub fn refusal(alloc: Global, fault: JobFault) -> Result<Vec<u8>, AllocError>
    ensures line { IfOk result (λ line. line.items ≡ refusal_line fault) }
    ensures kind { OnOk result (fault.kind ≢ kinds.NoMemory) }
{
    if matches!(fault.kind, JobKind::NoMemory) {
        return Err(AllocError);
    }
    let mut line = Vec::from_slice(alloc, b"refused J")?;
    push_number(&mut line, fault.kind.number())?;
    line.extend_from_slice(b" ")?;
    line.extend_from_slice(fault.kind.name().as_bytes())?;
    line.extend_from_slice(b" at ")?;
    push_number(&mut line, fault.at as u64)?;
    line.extend_from_slice(b"\n")?;
    Ok(line)
}

/// Returns the line for a job that ends later than the limit, such as `limit 100`, with its newline. The only error is that
/// memory runs out.
pub fn past_limit(alloc: Global, limit: u64) -> Result<Vec<u8>, AllocError>
    ensures { IfOk result (λ line. line.items ≡ limit_line limit) }
{
    let mut line = Vec::from_slice(alloc, b"limit ")?;
    push_number(&mut line, limit)?;
    line.extend_from_slice(b"\n")?;
    Ok(line)
}
