ghost use Rattle.std.specs.Prelude.{IfOk};
ghost use Rattle.job_answers.specs.Checking.{IsAnswer, as_it_is};
ghost use Rattle.job_answers.specs.Statuses.{check_status_of};
ghost use Rattle.nursery.specs.Statuses.{Tells};

use crate::answers::tell_refusal;
use crate::formats::print_formatted;
use crate::sources::read_job_text;
use crate::stop::Stop;
use job_answers::{CheckVerdict, WriteOut, check};
use std::io;
use std::rt::Files;

// Writes the formatted text of a job file, or its canonical text, and returns the status.
pub(crate) fn check_job<R: Files + Input + Print + Eprint + AllocGlobal>(
    rt: &R,
    job: &str,
    canonical: bool,
) -> Result<u8, Stop> {
    let text = read_job_text(rt, job)?;
    if canonical {
        return print_canonical(rt, job, text.as_slice());
    }
    print_formatted(rt, job, text.as_slice())
}

// Writes the canonical text of a job text, and returns the status.
fn print_canonical<R: Print + Eprint + AllocGlobal>(
    rt: &R,
    job: &str,
    text: &[u8],
) -> Result<u8, Stop>
    ensures { IfOk result (Tells check_status_of (IsAnswer as_it_is text.now)) }
{
    let mut out = WriteOut::new(io::writer(rt));
    let verdict = check(rt.alloc(), text, &mut out)?;
    if let CheckVerdict::JobRefused(fault) = verdict {
        tell_refusal(rt, job, text, fault);
    }
    Ok(verdict.status())
}
