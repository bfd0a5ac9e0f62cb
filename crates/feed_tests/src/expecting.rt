ghost use Rattle.std.specs.Prelude.{◌≡◌, ◌==◌, ◌≤◌, length, cond, IfOk};
ghost use Rattle.feed_tests.specs.declared.tally.Outcome.TheVariants.{Passed, Failed};
ghost use Rattle.job_meaning.specs.declared.limits.TheConstants.{MAX_INPUT};

use crate::kept::{Unread, name_beside, read_kept, shown_line};
use crate::showing::{push_indented_lines, show};
use crate::stop::TestStop;
use crate::tally::Outcome;
use crate::testing::{Feed, complain};
use cli::shown_name;
use commands::{Met, Output, given_names, meets, output_of};
use expect_text::{ExpectLine, LineFault, is_without_demands, read_expectation};
use job_tree::Name;
use std::alloc::{AllocError, Global};
use std::rt::Files;
use std::thread::Threads;

// Tests a feed by the expectations that are kept beside it, and returns what that came to, or `None` if there are none.
pub(crate) fn test_expectations<R: Files + Print + Eprint + Threads + Sync + AllocGlobal>(
    rt: &R,
    feed: &Feed<'_, '_>,
) -> Result<Option<Outcome>, TestStop>
    requires { length feed.now.question.input.now ≤ MAX_INPUT }
{
    let name = name_beside(rt.alloc(), feed.stem, "expect")?;
    let bytes = match read_kept(rt, name.as_str()) {
        Ok(bytes) => bytes,
        Err(Unread::Missing) => return Ok(None),
        Err(Unread::NoMemory) => return Err(TestStop::NoMemory),
        Err(Unread::Fault(line)) => {
            complain(rt, line.as_str());
            return Ok(Some(Outcome::Fault));
        }
    };
    let outputs = outputs_of(rt, feed)?;
    let shown = shown_name(rt.alloc(), name.as_str())?;
    let lines = unmet_lines(rt, feed, shown.as_str(), &outputs, bytes.as_slice())?;
    Ok(Some(report_unmet(rt, shown.as_str(), lines.as_str())?))
}

// Writes that all is as expected, or the lines about what is not, and returns which.
fn report_unmet<R: Print + AllocGlobal>(
    rt: &R,
    name: &str,
    lines: &str,
) -> Result<Outcome, TestStop>
    ensures { IfOk result (λ outcome. outcome ≡ cond (length lines.now == 0) Passed Failed) }
{
    if lines.is_empty() {
        let line = format!(in rt.alloc(); "{name}: passed\n")?;
        show(rt, line.as_bytes())?;
        return Ok(Outcome::Passed);
    }
    show(rt, lines.as_bytes())?;
    Ok(Outcome::Failed)
}

// The texts in which patterns are looked for, and the names with which their lines can begin.
#[derive(Drop)]
struct Outputs {
    report: Vec<u8>,
    story: Vec<u8>,
    names: Vec<Name>,
}

// Returns the report and the story of a feed, and the names that its job text gives.
fn outputs_of<R: Threads + Sync + AllocGlobal>(
    rt: &R,
    feed: &Feed<'_, '_>,
) -> Result<Outputs, AllocError>
    requires { length feed.now.question.input.now ≤ MAX_INPUT }
{
    let (alloc, question) = (rt.alloc(), &feed.question);
    Ok(Outputs {
        report: output_of(rt, alloc, question, Output::Report)?,
        story: output_of(rt, alloc, question, Output::Story)?,
        names: given_names(alloc, question.text)?,
    })
}

// A line of a file of expectations.
#[derive(Clone, Copy)]
struct KeptLine<'l> {
    // The name of the file, as messages show it.
    name: &'l str,
    // The number of the line, counted from 1.
    number: usize,
    bytes: &'l [u8],
}

// Returns the lines about what is not as expected; none if all is. A file that demands nothing is not as expected.
fn unmet_lines<R: Threads + Sync + AllocGlobal>(
    rt: &R,
    feed: &Feed<'_, '_>,
    name: &str,
    outputs: &Outputs,
    expectations: &[u8],
) -> Result<String, TestStop>
    requires { length feed.now.question.input.now ≤ MAX_INPUT }
{
    if is_without_demands(expectations) {
        return Ok(format!(in rt.alloc(); "{name}: failed: no line of it is an expectation\n")?);
    }
    let mut lines = String::new(rt.alloc());
    'lines: for (i, bytes) in expectations.split(|b| *b == b'\n').enumerate() {
        let line = KeptLine {
            name,
            number: i.saturating_add(1),
            bytes,
        };
        push_unmet(rt, feed, &mut lines, outputs, &line)?;
    }
    Ok(lines)
}

// Appends the lines about one line of a file of expectations, if it is not met.
fn push_unmet<R: Threads + Sync + AllocGlobal>(
    rt: &R,
    feed: &Feed<'_, '_>,
    lines: &mut String,
    outputs: &Outputs,
    line: &KeptLine<'_>,
) -> Result<(), TestStop>
    requires { length feed.now.question.input.now ≤ MAX_INPUT }
{
    let (alloc, name, number) = (rt.alloc(), line.name, line.number);
    let said = shown_line(alloc, line.bytes)?;
    match read_expectation(alloc, outputs.names.as_slice(), line.bytes)? {
        ExpectLine::Nothing => Ok(()),
        ExpectLine::Faulty(fault) => {
            let text = fault_line(alloc, name, number, said.as_str(), fault)?;
            lines.push_str(text.as_str())?;
            Ok(())
        }
        ExpectLine::Expects(expectation) => {
            let met = meets(
                rt,
                alloc,
                &feed.question,
                expectation,
                outputs.report.as_slice(),
                outputs.story.as_slice(),
            )?;
            let text = met_text(alloc, name, number, said.as_str(), outputs, met)?;
            lines.push_str(text.as_str())?;
            Ok(())
        }
    }
}

// Returns the line that says what is wrong with a line of a file of expectations.
fn fault_line(
    alloc: Global,
    name: &str,
    number: usize,
    said: &str,
    fault: LineFault,
) -> Result<String, AllocError> {
    match fault {
        LineFault::UnknownWord => format!(in alloc;
            "{name}:{number}: failed: `{said}`: demands begin with `races:` or `faults:`, and no line of a report or a story begins so\n"
        ),
        LineFault::WrongDemand => format!(in alloc;
            "{name}:{number}: failed: `{said}` is neither `races: none` nor `faults:` with `no stuck`, `no cut` and `no lost`\n"
        ),
        LineFault::NegatedDemand => format!(in alloc;
            "{name}:{number}: failed: `{said}`: only a pattern can be negated, not a demand with `races:` or `faults:`\n"
        ),
        LineFault::NoSuchLine => format!(in alloc;
            "{name}:{number}: failed: `{said}`: no line of this job's report or story begins so; `*` in front stands for any beginning\n"
        ),
    }
}

// Returns what is printed about an expectation; nothing if it is met.
fn met_text(
    alloc: Global,
    name: &str,
    number: usize,
    said: &str,
    outputs: &Outputs,
    met: Met,
) -> Result<String, AllocError> {
    match met {
        Met::Yes => Ok(String::new(alloc)),
        Met::Missing => format!(in alloc;
            "{name}:{number}: failed: no line of the report or the story matches `{said}`\n"
        ),
        Met::Found { story, line } => {
            let (text, bytes) = if story {
                ("story", outputs.story.as_slice())
            } else {
                ("report", outputs.report.as_slice())
            };
            let found = shown_line(alloc, nth_line(bytes, line))?;
            format!(in alloc;
                "{name}:{number}: failed: `{said}`: line {line} of the {text} matches\n  {found}\n"
            )
        }
        Met::Denied(denied) => {
            let mut text = format!(in alloc; "{name}:{number}: failed: `{said}`\n")?;
            push_indented_lines(alloc, &mut text, denied.as_slice())?;
            Ok(text)
        }
        Met::Untold => format!(in alloc;
            "{name}:{number}: failed: `{said}`: the job is refused, does not end by the limit, or has too large a number of ticks\n"
        ),
    }
}

// Returns the line with a number, counted from 1, or no bytes if there is none.
fn nth_line(text: &[u8], number: usize) -> &[u8] {
    match text.split(|b| *b == b'\n').nth(number.saturating_sub(1)) {
        Some(line) => line,
        None => text.split_at(0).0,
    }
}
