ghost use Rattle.std.specs.Prelude.{◌≡◌, ◌++◌, ◌<◌, codes, IfOk, IfErr, OnOk};
ghost use Rattle.job_reader.specs.Canon.{canon};
ghost use Rattle.job_tree.specs.Formats.{in_format};
ghost use Rattle.job_answers.specs.Checking.{IsAnswer, as_it_is};
ghost use Rattle.job_answers.specs.Sending.{IsSent, IsServeFault, CountsFailure};
ghost use Rattle.job_report.specs.declared.limits.TheConstants.{MAX_FAILURES};

use crate::lines::refusal;
use crate::verdict::{CheckVerdict, ServeFault};
use job_reader::{Format, Job, read_job, write_job};
use job_report::{Out, send};
use std::alloc::{AllocError, Global};

/// Writes the canonical text of the job that a text spells and a newline, or the line of its refusal, and returns which.
/// All bytes are built before the first is sent, so after `NoMemory` nothing was sent. After `Send` the writer took the
/// first `sent` bytes.
pub fn check<W: Out>(
    alloc: Global,
    job_text: &[u8],
    out: &mut W,
) -> Result<CheckVerdict, ServeFault>
    requires { W.failed out.old < MAX_FAILURES }
    ensures sent { IfOk result (IsSent (IsAnswer as_it_is job_text.now) (W.contents out.old) (W.contents out.new)) }
    ensures well { OnOk result (W.failed out.new ≡ W.failed out.old) }
    ensures fault { IfErr result (IsServeFault (IsAnswer as_it_is job_text.now) (W.contents out.old) (W.contents out.new)) }
    ensures counted { IfErr result (CountsFailure (W.failed out.old) (W.failed out.new)) }
{
    let (verdict, bytes) = check_answer(alloc, job_text)?;
    send(bytes.as_slice(), out)?;
    Ok(verdict)
}

// Returns the verdict and all its bytes.
fn check_answer(alloc: Global, job_text: &[u8]) -> Result<(CheckVerdict, Vec<u8>), AllocError>
    ensures { IfOk result (λ r. IsAnswer as_it_is job_text.now r.0 r.1.items) }
{
    match read_job(alloc, job_text) {
        Ok(job) => Ok((CheckVerdict::Fine, canonical_text(alloc, &job)?)),
        Err(fault) => Ok((CheckVerdict::JobRefused(fault), refusal(alloc, fault)?)),
    }
}

/// Writes the canonical text of the same job in a format and a newline, or the line of the text's refusal, and returns
/// which. If the job has a newer format, its text keeps that format. All bytes are built before the first is sent, so
/// after `NoMemory` nothing was sent. After `Send` the writer took the first `sent` bytes.
pub fn upgrade<W: Out>(
    alloc: Global,
    job_text: &[u8],
    format: Format,
    out: &mut W,
) -> Result<CheckVerdict, ServeFault>
    requires { W.failed out.old < MAX_FAILURES }
    ensures sent { IfOk result (IsSent (IsAnswer (in_format format) job_text.now) (W.contents out.old) (W.contents out.new)) }
    ensures well { OnOk result (W.failed out.new ≡ W.failed out.old) }
    ensures fault { IfErr result (IsServeFault (IsAnswer (in_format format) job_text.now) (W.contents out.old) (W.contents out.new)) }
    ensures counted { IfErr result (CountsFailure (W.failed out.old) (W.failed out.new)) }
{
    let (verdict, bytes) = upgrade_answer(alloc, job_text, format)?;
    send(bytes.as_slice(), out)?;
    Ok(verdict)
}

// Returns the verdict and all its bytes.
fn upgrade_answer(
    alloc: Global,
    job_text: &[u8],
    format: Format,
) -> Result<(CheckVerdict, Vec<u8>), AllocError>
    ensures { IfOk result (λ r. IsAnswer (in_format format) job_text.now r.0 r.1.items) }
{
    match read_job(alloc, job_text) {
        Ok(job) => Ok((
            CheckVerdict::Fine,
            canonical_text(alloc, &job.in_format(format))?,
        )),
        Err(fault) => Ok((CheckVerdict::JobRefused(fault), refusal(alloc, fault)?)),
    }
}

// Returns the canonical text of a job and a newline.
fn canonical_text(alloc: Global, job: &Job) -> Result<Vec<u8>, AllocError>
    ensures { IfOk result (λ text. text.items ≡ canon job.now ++ codes "\n") }
{
    let mut text = write_job(alloc, job)?;
    text.extend_from_slice(b"\n")?;
    Ok(text)
}
