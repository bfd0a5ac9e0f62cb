ghost use Rattle.std.specs.Prelude.{◌≡◌, IfOk};
ghost use Rattle.job_reader.specs.Refusals.{IsFair, IsRefused};
ghost use Rattle.commands.specs.Lints.{IsVerdict};
ghost use Rattle.commands.specs.Statuses.{lints_status_of};
ghost use Rattle.nursery.specs.Statuses.{Tells, TellsLints};

use crate::answers::tell_refusal;
use crate::sending::put_answer;
use crate::sources::read_job_text;
use crate::stop::Stop;
use crate::warnings::send_warnings;
use cli::shown_name;
use commands::{LintsVerdict, lints_json};
use job_answers::{WriteOut, refusal, send};
use job_lint::{Warning, lints};
use job_reader::{JobFault, JobKind};
use std::io;
use std::rt::Files;

// Writes the probable mistakes in a job file, or the line of its refusal, and returns the status.
pub(crate) fn lint_job<R: Files + Input + Print + Eprint + AllocGlobal>(
    rt: &R,
    job: &str,
    json: bool,
) -> Result<u8, Stop> {
    let text = read_job_text(rt, job)?;
    if json {
        return lints_as_json(rt, job, text.as_slice());
    }
    lint_text(rt, job, text.as_slice())
}

// Does the same for a job text.
fn lint_text<R: Print + Eprint + AllocGlobal>(rt: &R, job: &str, text: &[u8]) -> Result<u8, Stop>
    ensures { IfOk result (TellsLints text.now) }
{
    match lints(rt.alloc(), text) {
        Ok(warnings) => {
            show_warnings(rt, job, text, warnings.as_slice())?;
            if warnings.is_empty() { Ok(0) } else { Ok(1) }
        }
        Err(fault) => refuse(rt, job, text, fault),
    }
}

// Does the same, as a JSON document.
fn lints_as_json<R: Print + Eprint + AllocGlobal>(
    rt: &R,
    job: &str,
    text: &[u8],
) -> Result<u8, Stop>
    ensures { IfOk result (Tells lints_status_of (IsVerdict text.now)) }
{
    let answer = lints_json(rt.alloc(), text)?;
    let verdict = put_answer(rt, answer)?;
    let status = verdict.status();
    if let LintsVerdict::JobRefused(fault) = verdict {
        tell_refusal(rt, job, text, fault);
    }
    Ok(status)
}

// Writes the line of a refusal, prints it to standard error, and returns the status.
pub(crate) fn refuse<R: Print + Eprint + AllocGlobal>(
    rt: &R,
    job: &str,
    text: &[u8],
    fault: JobFault,
) -> Result<u8, Stop>
    requires { IsFair text.now fault }
    ensures { IfOk result (λ status. IsRefused text.now fault.kind fault.at × (status ≡ 2)) }
{
    if fault.kind == JobKind::NoMemory {
        return Err(Stop::NoMemory);
    }
    show_refusal(rt, job, text, fault)?;
    Ok(2)
}

// Writes the line of a refusal, and prints it to standard error.
fn show_refusal<R: Print + Eprint + AllocGlobal>(
    rt: &R,
    job: &str,
    text: &[u8],
    fault: JobFault,
) -> Result<(), Stop> {
    let Ok(line) = refusal(rt.alloc(), fault) else {
        return Err(Stop::NoMemory);
    };
    let mut out = WriteOut::new(io::writer(rt));
    if send(line.as_slice(), &mut out).is_err() {
        return Err(Stop::Write);
    }
    tell_refusal(rt, job, text, fault);
    Ok(())
}

// Writes the warnings, all of them or none.
fn show_warnings<R: Print + AllocGlobal>(
    rt: &R,
    job: &str,
    text: &[u8],
    warnings: &[Warning],
) -> Result<(), Stop> {
    let Ok(name) = shown_name(rt.alloc(), job) else {
        return Err(Stop::NoMemory);
    };
    let mut out = WriteOut::new(io::writer(rt));
    send_warnings(rt.alloc(), name.as_str(), text, warnings, &mut out)
}
