ghost use Rattle.std.specs.Prelude.{◌≡◌, ◌≤◌, List, ℕ, length, not, IfOk};
ghost use Rattle.std.specs.Option.{is_some};
ghost use Rattle.std.specs.Str.{bytes_eq};
ghost use Rattle.job_meaning.specs.declared.limits.TheConstants.{MAX_INPUT};
ghost use Rattle.commands.specs.Outputs.{IsOutput};
ghost use Rattle.feed_tests.specs.Comparing.{Compares, IsKept};

use crate::kept::{Unread, name_beside, read_kept, shown_line};
use crate::showing::show;
use crate::stop::TestStop;
use crate::tally::Outcome;
use crate::testing::{Feed, complain};
use cli::{ReplaceFault, Target, shown_name};
use commands::{Output, output_of};
use expect_text::{Difference, first_difference, law_no_difference};
use std::alloc::{AllocError, Global};
use std::rt::Files;
use std::thread::Threads;

// Compares an output of a feed with the file that is kept of it, and returns what that came to, or `None` if there is none.
pub(crate) fn test_output<R: Files + Print + Eprint + Threads + Sync + AllocGlobal>(
    rt: &R,
    feed: &Feed<'_, '_>,
    kind: Output,
) -> Result<Option<Outcome>, TestStop>
    requires { length feed.now.question.input.now ≤ MAX_INPUT }
{
    let file = match open_kept(rt, feed, kind.extension())? {
        Beside::Kept(file) => file,
        Beside::Untested => return Ok(Some(Outcome::Fault)),
        Beside::Missing => return Ok(None),
    };
    let KeptFile {
        name,
        target,
        bytes,
    } = file;
    let outcome = test_kept(rt, feed, kind, name.as_str(), target, bytes.as_slice())?;
    Ok(Some(outcome))
}

/// A file that is kept beside a feed.
#[derive(Drop)]
pub(crate) struct KeptFile {
    /// Its name.
    pub name: String,
    /// The file as it was before it was read, to be replaced, or why it cannot be.
    pub target: Result<Target, ReplaceFault>,
    /// Its bytes.
    pub bytes: Vec<u8>,
}

/// What there is of a file beside a feed.
#[derive(Drop)]
pub(crate) enum Beside {
    /// The file.
    Kept(KeptFile),
    /// A file that cannot be tested, which standard error says.
    Untested,
    /// No file.
    Missing,
}

// Reads the file with this extension beside a feed. If it cannot be read, or is to be replaced and cannot be, prints that to
// standard error.
pub(crate) fn open_kept<R: Files + Eprint + AllocGlobal>(
    rt: &R,
    feed: &Feed<'_, '_>,
    extension: &str,
) -> Result<Beside, TestStop> {
    let name = name_beside(rt.alloc(), feed.stem, extension)?;
    let target = match Target::of(rt, name.as_str()) {
        Err(ReplaceFault::NotRegular { reason }) if feed.accept => {
            // It is not read either: a FIFO would be waited for until it has a writer.
            tell_not_kept(rt, name.as_str(), reason.as_str())?;
            return Ok(Beside::Untested);
        }
        target => target,
    };
    match read_kept(rt, name.as_str()) {
        Ok(bytes) => Ok(Beside::Kept(KeptFile {
            name,
            target,
            bytes,
        })),
        Err(Unread::Missing) => Ok(Beside::Missing),
        Err(Unread::NoMemory) => Err(TestStop::NoMemory),
        Err(Unread::Fault(line)) => {
            complain(rt, line.as_str());
            Ok(Beside::Untested)
        }
    }
}

// Compares an output of a feed with the bytes that are kept of it, and returns what that came to. The target is the file with
// these bytes, as it was before it was read.
fn test_kept<R: Files + Print + Eprint + Threads + Sync + AllocGlobal>(
    rt: &R,
    feed: &Feed<'_, '_>,
    kind: Output,
    name: &str,
    target: Result<Target, ReplaceFault>,
    kept: &[u8],
) -> Result<Outcome, TestStop>
    requires { length feed.now.question.input.now ≤ MAX_INPUT }
    ensures { IfOk result (λ outcome. (now : List ℕ) × IsOutput feed.now.question.text.now feed.now.question.input.now feed.now.question.settings.limit kind now
        × Compares feed.now.accept kept.now now outcome) }
{
    let now = output_of(rt, rt.alloc(), &feed.question, kind)?;
    compare(rt, feed.accept, name, target, kept, now.as_slice())
}

// Prints that an output is as it was kept, or where it differs, or keeps it.
pub(crate) fn compare<R: Files + Print + Eprint + AllocGlobal>(
    rt: &R,
    accept: bool,
    name: &str,
    target: Result<Target, ReplaceFault>,
    kept: &[u8],
    now: &[u8],
) -> Result<Outcome, TestStop>
    ensures { IfOk result (Compares accept kept.now now.now) }
{
    let Some(difference) = difference_of(kept, now) else {
        let shown = shown_name(rt.alloc(), name)?;
        let line = format!(in rt.alloc(); "{shown}: passed\n")?;
        show(rt, line.as_bytes())?;
        return Ok(Outcome::Passed);
    };
    if accept {
        return keep(rt, name, target, now);
    }
    let lines = difference_lines(rt.alloc(), name, &difference)?;
    show(rt, lines.as_bytes())?;
    Ok(Outcome::Failed)
}

// Returns the first line at which an output differs from the one that was kept, or `None` if the two are the same.
fn difference_of<'a>(kept: &'a [u8], now: &'a [u8]) -> Option<Difference<'a>>
    ensures { is_some result ≡ not (bytes_eq kept.now now.now) }
{
    law_no_difference();
    first_difference(kept, now)
}

// Returns the lines that show where an output differs from the one that was kept.
fn difference_lines(
    alloc: Global,
    name: &str,
    difference: &Difference<'_>,
) -> Result<String, AllocError> {
    let line = difference.line;
    let kept = side(alloc, difference.kept)?;
    let now = side(alloc, difference.written)?;
    let shown = shown_name(alloc, name)?;
    format!(in alloc; "{shown}: failed: line {line} differs\n  kept: {kept}\n  now:  {now}\n")
}

// Returns a line as it is shown, or that there is none.
fn side(alloc: Global, line: Option<&[u8]>) -> Result<String, AllocError> {
    match line {
        Some(line) => shown_line(alloc, line),
        None => String::from_str(alloc, "(no such line)"),
    }
}

// Keeps an output in a file that may be replaced, or prints to standard error why it cannot be kept.
pub(crate) fn keep<R: Files + Print + Eprint + AllocGlobal>(
    rt: &R,
    name: &str,
    target: Result<Target, ReplaceFault>,
    bytes: &[u8],
) -> Result<Outcome, TestStop>
    ensures { IfOk result IsKept }
{
    let replaced = match target {
        Ok(target) => target.replace(rt, bytes),
        Err(fault) => Err(fault),
    };
    match replaced {
        Ok(()) => {
            let shown = shown_name(rt.alloc(), name)?;
            let line = format!(in rt.alloc(); "{shown}: accepted\n")?;
            show(rt, line.as_bytes())?;
            Ok(Outcome::Accepted)
        }
        Err(ReplaceFault::NoMemory) => Err(TestStop::NoMemory),
        Err(ReplaceFault::NotRegular { reason } | ReplaceFault::System { reason }) => {
            tell_not_kept(rt, name, reason.as_str())
        }
    }
}

// Prints to standard error that an output cannot be kept, with the line that says why.
fn tell_not_kept<R: Eprint + AllocGlobal>(
    rt: &R,
    name: &str,
    reason: &str,
) -> Result<Outcome, TestStop>
    ensures { IfOk result IsKept }
{
    let shown = shown_name(rt.alloc(), name)?;
    let line = format!(in rt.alloc(); "{shown}: cannot be written\n{reason}")?;
    complain(rt, line.as_str());
    Ok(Outcome::Fault)
}
