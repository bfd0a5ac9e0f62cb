ghost use Rattle.std.specs.Prelude.{IfOk};
ghost use Rattle.nursery.specs.Statuses.{TellsScale};

use crate::lints::refuse;
use crate::sources::{print_held, read_job_file};
use crate::stop::Stop;
use cli::shown_name;
use commands::{ScaleFault, scaled_text};
use job_answers::{WriteOut, send};
use job_reader::JobFault;
use refusal_text::refusal_message;
use std::alloc::{AllocError, Global};
use std::io;
use std::rt::Files;

// Writes a job file with its ticks multiplied, and returns the status. The input that a feed holds follows as it is.
pub(crate) fn scale_job<R: Files + Input + Print + Eprint + AllocGlobal>(
    rt: &R,
    job: &str,
    factor: u64,
) -> Result<u8, Stop> {
    let file = read_job_file(rt, job)?;
    let status = print_scaled(rt, job, file.text.as_slice(), factor)?;
    print_held(rt, status, &file)
}

// Writes a job text with its ticks multiplied, and returns the status. A text that would be refused then is not written.
fn print_scaled<R: Print + Eprint + AllocGlobal>(
    rt: &R,
    job: &str,
    text: &[u8],
    factor: u64,
) -> Result<u8, Stop>
    ensures { IfOk result (TellsScale text.now factor) }
{
    match scaled_text(rt.alloc(), text, factor) {
        Ok(scaled) => {
            let mut out = WriteOut::new(io::writer(rt));
            match send(scaled.as_slice(), &mut out) {
                Ok(()) => Ok(0),
                Err(_) => Err(Stop::Write),
            }
        }
        Err(ScaleFault::Refused(fault)) => refuse(rt, job, text, fault),
        Err(ScaleFault::TooLarge { fault, text }) => {
            tell_too_large(rt, job, factor, text.as_slice(), fault);
            Ok(2)
        }
    }
}

// Prints to standard error why a multiplied text is refused. If memory or a write fails here nothing more is printed.
fn tell_too_large<R: Eprint + AllocGlobal>(
    rt: &R,
    job: &str,
    factor: u64,
    text: &[u8],
    fault: JobFault,
) {
    if let Ok(message) = too_large_message(rt.alloc(), job, factor, text, fault) {
        let _ = rt.eprint(message.as_str());
    }
}

// Returns the message that a multiplied text is refused, with the place in that text.
fn too_large_message(
    alloc: Global,
    job: &str,
    factor: u64,
    text: &[u8],
    fault: JobFault,
) -> Result<String, AllocError> {
    let job = shown_name(alloc, job)?;
    let name = format!(in alloc; "{job} times {factor}")?;
    refusal_message(alloc, name.as_str(), text, fault)
}
