ghost use Rattle.std.specs.Prelude.{◌≡◌, IfOk};
ghost use Rattle.commands.specs.Formats.{IsAnswer};
ghost use Rattle.commands.specs.FormatStatuses.{status_of};
ghost use Rattle.nursery.specs.Statuses.{Tells, TellsFormatCheck};

use crate::answers::tell_refusal;
use crate::sending::put_answer;
use crate::sources::{JobFile, print_held, read_job_file, read_job_text, with_held};
use crate::stop::Stop;
use cli::{FormatMode, ReplaceFault, Target, shown_name};
use commands::{FormatCheck, FormatFault, FormatVerdict, check_format, format, format_text};
use refusal_text::pointed_message;
use std::alloc::{AllocError, Global};
use std::rt::Files;

/// What is printed about a job file that is not formatted.
const NOT_FORMATTED: &str = "not formatted from here on";

// Formats a job file, and returns the status. The input that a feed holds is kept as it is.
pub(crate) fn format_job_file<R: Files + Input + Print + Eprint + AllocGlobal>(
    rt: &R,
    job: &str,
    mode: FormatMode,
) -> Result<u8, Stop> {
    match mode {
        FormatMode::Print => {
            let file = read_job_file(rt, job)?;
            let status = print_formatted(rt, job, file.text.as_slice())?;
            print_held(rt, status, &file)
        }
        FormatMode::Check => {
            let text = read_job_text(rt, job)?;
            compare(rt, job, text.as_slice())
        }
        FormatMode::Write => {
            let target = target_of(rt, job)?;
            let file = read_job_file(rt, job)?;
            write_formatted(rt, job, target, &file)
        }
    }
}

// Looks at a job file before it is read. What is not a regular file is refused here, since a FIFO would be waited for until it
// has a writer. Another reason why the file may not be replaced counts only if its text is not formatted.
fn target_of<R: Files + AllocGlobal>(
    rt: &R,
    job: &str,
) -> Result<Result<Target, ReplaceFault>, Stop> {
    match Target::of(rt, job) {
        Err(ReplaceFault::NotRegular { reason }) => Err(Stop::JobFileKept { reason }),
        target => Ok(target),
    }
}

// Writes the formatted text of a job text, and returns the status.
pub(crate) fn print_formatted<R: Print + Eprint + AllocGlobal>(
    rt: &R,
    job: &str,
    text: &[u8],
) -> Result<u8, Stop>
    ensures { IfOk result (Tells status_of (IsAnswer text.now)) }
{
    let answer = format(rt.alloc(), text)?;
    let verdict = put_answer(rt, answer)?;
    match verdict {
        FormatVerdict::Formatted => {}
        FormatVerdict::JobRefused(fault) => tell_refusal(rt, job, text, fault),
        FormatVerdict::TooLong(bytes) => tell_too_long(rt, bytes),
    }
    Ok(verdict.status())
}

// Compares a job text with its formatted text, prints where it differs, and returns the status.
fn compare<R: Eprint + AllocGlobal>(rt: &R, job: &str, text: &[u8]) -> Result<u8, Stop>
    ensures { IfOk result (TellsFormatCheck text.now) }
{
    let check = match check_format(rt.alloc(), text) {
        Ok(check) => check,
        Err(_) => return Err(Stop::NoMemory),
    };
    match check {
        FormatCheck::Same => {}
        FormatCheck::Differs(place) => tell_difference(rt, job, text, place),
        FormatCheck::JobRefused(fault) => tell_refusal(rt, job, text, fault),
        FormatCheck::TooLong(bytes) => tell_too_long(rt, bytes),
    }
    Ok(check.status())
}

// Replaces the job text of a job file by its formatted text if they differ, and returns the status. A text that is refused, or
// whose formatted text is too long, stays as it is. The target is the file as it was before it was read.
fn write_formatted<R: Files + Eprint + AllocGlobal>(
    rt: &R,
    job: &str,
    target: Result<Target, ReplaceFault>,
    file: &JobFile,
) -> Result<u8, Stop> {
    let text = file.text.as_slice();
    match format_text(rt.alloc(), text) {
        Ok(formatted) => {
            if formatted.as_slice() != text {
                let Ok(bytes) = with_held(formatted, file) else {
                    return Err(Stop::NoMemory);
                };
                replace_job_file(rt, target, bytes.as_slice())?;
            }
            Ok(0)
        }
        Err(FormatFault::Refused(fault)) => {
            tell_refusal(rt, job, text, fault);
            Ok(2)
        }
        Err(FormatFault::TooLong(bytes)) => {
            tell_too_long(rt, bytes);
            Ok(2)
        }
        Err(FormatFault::NoMemory) => Err(Stop::NoMemory),
    }
}

// Replaces the bytes of a job file, if it may be replaced.
fn replace_job_file<R: Files + AllocGlobal>(
    rt: &R,
    target: Result<Target, ReplaceFault>,
    bytes: &[u8],
) -> Result<(), Stop> {
    let replaced = match target {
        Ok(target) => target.replace(rt, bytes),
        Err(fault) => Err(fault),
    };
    match replaced {
        Ok(()) => Ok(()),
        Err(ReplaceFault::NotRegular { reason } | ReplaceFault::System { reason }) => {
            Err(Stop::JobFileKept { reason })
        }
        Err(ReplaceFault::NoMemory) => Err(Stop::NoMemory),
    }
}

// Prints to standard error that a job text differs from its formatted text, from a place on. If memory or a write fails here
// nothing more is printed.
fn tell_difference<R: Eprint + AllocGlobal>(rt: &R, job: &str, text: &[u8], place: usize) {
    let Ok(name) = shown_name(rt.alloc(), job) else {
        return;
    };
    if let Ok(message) = pointed_message(rt.alloc(), name.as_str(), text, place, NOT_FORMATTED) {
        let _ = rt.eprint(message.as_str());
    }
}

// Prints to standard error how long a formatted text would be. If memory or a write fails here nothing more is printed.
fn tell_too_long<R: Eprint + AllocGlobal>(rt: &R, bytes: usize) {
    let message = format!(in rt.alloc();
        "error: the formatted text would have {bytes} bytes: a job text has at most 65536\n"
    );
    if let Ok(message) = message {
        let _ = rt.eprint(message.as_str());
    }
}
