ghost use Rattle.std.specs.Prelude.{◌≡◌, IfOk, IsTrue, MatchResult};
ghost use Rattle.job_tree.specs.Formats.{in_format, newer};
ghost use Rattle.job_reader.specs.Refusals.{IsFair};
ghost use Rattle.job_answers.specs.Checking.{IsAnswer};
ghost use Rattle.job_answers.specs.Statuses.{check_status_of};
ghost use Rattle.nursery.specs.Statuses.{Tells, IsUpgrade, TellsUpgrade};

use crate::answers::tell_refusal;
use crate::formats::print_formatted;
use crate::lints::refuse;
use crate::sources::{print_held, read_job_file};
use crate::stop::Stop;
use cli::DEFAULT_LIMIT;
use commands::{Output, output_of};
use expect_text::first_difference;
use job_answers::{CheckVerdict, Question, Settings, WriteOut, upgrade};
use job_meaning::Clock;
use job_reader::{Format, JobFault, read_job, write_job};
use std::alloc::{AllocError, Global};
use std::io;
use std::rt::Files;
use std::thread::Threads;

// Writes the formatted or the canonical text of the same job in a newer format, and returns the status. Standard error says
// whether its report changes. The input that a feed holds follows as it is.
pub(crate) fn upgrade_job<R: Files + Input + Print + Eprint + Threads + Sync + AllocGlobal>(
    rt: &R,
    job: &str,
    format: Format,
    canonical: bool,
) -> Result<u8, Stop> {
    let file = read_job_file(rt, job)?;
    let text = file.text.as_slice();
    let status = if canonical {
        print_canonical(rt, job, text, format)?
    } else {
        print_upgraded(rt, job, text, format)?
    };
    let status = print_held(rt, status, &file)?;
    if status == 0 {
        tell_change(rt, text, format);
    }
    Ok(status)
}

// Writes the formatted text of a job in a newer format, and returns the status.
fn print_upgraded<R: Print + Eprint + AllocGlobal>(
    rt: &R,
    job: &str,
    text: &[u8],
    format: Format,
) -> Result<u8, Stop>
    ensures { IfOk result (TellsUpgrade format text.now) }
{
    match upgraded_text(rt.alloc(), text, format) {
        Ok(upgraded) => print_formatted(rt, job, upgraded.as_slice()),
        Err(fault) => refuse(rt, job, text, fault),
    }
}

// Returns a text of the same job in a newer format: the text itself, with its comments, if it is in that format or in a newer
// one, and otherwise the canonical text.
fn upgraded_text(alloc: Global, text: &[u8], format: Format) -> Result<Vec<u8>, JobFault>
    ensures { MatchResult result (λ upgraded. IsUpgrade format text.now upgraded.items) (IsFair text.now) }
{
    let job = read_job(alloc, text)?;
    if is_no_older(job.text_format(), format) {
        return Ok(Vec::from_slice(alloc, text)?);
    }
    Ok(write_job(alloc, &job.in_format(format))?)
}

// Returns whether a format is another one or a newer one.
fn is_no_older(own: Format, format: Format) -> bool
    ensures { IsTrue result → newer format own ≡ own }
{
    match own {
        Format::One => format == Format::One,
        Format::Two => format != Format::Three,
        Format::Three => true,
    }
}

// Writes the canonical text of a job in a newer format, and returns the status.
fn print_canonical<R: Print + Eprint + AllocGlobal>(
    rt: &R,
    job: &str,
    text: &[u8],
    format: Format,
) -> Result<u8, Stop>
    ensures { IfOk result (Tells check_status_of (IsAnswer (in_format format) text.now)) }
{
    let mut out = WriteOut::new(io::writer(rt));
    let verdict = upgrade(rt.alloc(), text, format, &mut out)?;
    if let CheckVerdict::JobRefused(fault) = verdict {
        tell_refusal(rt, job, text, fault);
    }
    Ok(verdict.status())
}

// Prints to standard error whether the report of a job over an empty input is another one in a format that counts time in
// another way. The text is on standard output already, so if memory or a write fails here nothing more is printed.
fn tell_change<R: Eprint + Threads + Sync + AllocGlobal>(rt: &R, text: &[u8], format: Format) {
    let alloc = rt.alloc();
    let Ok(job) = read_job(alloc, text) else {
        return;
    };
    let clock = Clock::of(job.text_format());
    let job = job.in_format(format);
    if Clock::of(job.text_format()) == clock {
        return;
    }
    let Ok(upgraded) = write_job(alloc, &job) else {
        return;
    };
    let (Ok(before), Ok(after)) = (
        empty_report(rt, text),
        empty_report(rt, upgraded.as_slice()),
    ) else {
        return;
    };
    let Ok(change) = change_text(alloc, before.as_slice(), after.as_slice()) else {
        return;
    };
    if let Ok(change) = String::from_utf8(change) {
        let _ = rt.eprint(change.as_str());
    }
}

// Returns the report of a job text over an empty input.
fn empty_report<R: Threads + Sync + AllocGlobal>(
    rt: &R,
    text: &[u8],
) -> Result<Vec<u8>, AllocError> {
    let Some(settings) = Settings::new(1, DEFAULT_LIMIT) else {
        unreachable!()
    };
    let question = Question {
        text,
        input: &[],
        settings,
    };
    output_of(rt, rt.alloc(), &question, Output::Report)
}

// Returns whether two reports are the same, and otherwise their first lines that differ.
fn change_text(alloc: Global, before: &[u8], after: &[u8]) -> Result<Vec<u8>, AllocError> {
    let mut text = Vec::new(alloc);
    let Some(difference) = first_difference(before, after) else {
        text.extend_from_slice(b"over an empty input the report is the same in format 3\n")?;
        return Ok(text);
    };
    text.extend_from_slice(
        b"over an empty input the report is another one in format 3; the first lines that differ:\n",
    )?;
    push_line(&mut text, b"- ", difference.kept)?;
    push_line(&mut text, b"+ ", difference.written)?;
    Ok(text)
}

// Appends a line after a mark, if there is one.
fn push_line(out: &mut Vec<u8>, mark: &[u8], line: Option<&[u8]>) -> Result<(), AllocError> {
    if let Some(line) = line {
        out.extend_from_slice(mark)?;
        out.extend_from_slice(line)?;
        out.extend_from_slice(b"\n")?;
    }
    Ok(())
}
