ghost use Rattle.std.specs.Prelude.{◌≡◌, ◌≤◌, length, IfOk};
ghost use Rattle.job_meaning.specs.declared.limits.TheConstants.{MAX_INPUT};
ghost use Rattle.feed_tests.specs.declared.tally.Tally.{Tally};
ghost use Rattle.feed_tests.specs.Comparing.{IsKept};
ghost use Rattle.feed_tests.specs.Tallies.{tally_status};

use crate::comparing::{keep, test_output};
use crate::expecting::test_expectations;
use crate::feeds::find_feeds;
use crate::kept::{Unread, name_beside, read_kept};
use crate::showing::show;
use crate::stop::TestStop;
use crate::sweeps::test_sweep;
use crate::tally::{Outcome, Tally};
use basics::split_feed;
use cli::{Target, reason_line, shown_name};
use commands::{Output, output_of};
use job_answers::{MAX_INPUT, Question, Settings};
use std::io::ErrorKind;
use std::rt::Files;
use std::thread::Threads;

/// Tests the feeds of some files and folders: writes a line for each file that is kept beside a feed, and the counts, and returns
/// the exit status. With `accept`, what differs replaces the old file, and a feed with nothing beside it has its report kept. If
/// something cannot be read or written, or a feed has nothing to compare with, that is a line on standard error, and the others
/// are still tested.
///
/// The status is 1 if something differs or is not as expected, 4 if nothing does and something could not be tested, and otherwise
/// 0. The tests stop with an error if memory runs out or standard output did not take all bytes.
pub fn test_paths<R>(
    rt: &R,
    paths: &[String],
    accept: bool,
    settings: Settings,
) -> Result<u8, TestStop>
where
    R: Files + Print + Eprint + Threads + Sync + AllocGlobal + Clone + Drop,
    ensures { IfOk result (λ status. (tally : Tally) × (status ≡ tally_status tally)) }
{
    let mut tally = Tally::new();
    'paths: for path in paths {
        test_path(rt, path.as_str(), accept, settings, &mut tally)?;
    }
    report_counts(rt, tally)
}

// Writes the line with the counts, and returns the exit status.
fn report_counts<R: Print + AllocGlobal>(rt: &R, tally: Tally) -> Result<u8, TestStop>
    ensures { IfOk result (λ status. status ≡ tally_status tally) }
{
    let line = tally.line(rt.alloc())?;
    show(rt, line.as_bytes())?;
    Ok(tally.status())
}

// Tests the feeds of a file or folder.
fn test_path<R>(
    rt: &R,
    path: &str,
    accept: bool,
    settings: Settings,
    tally: &mut Tally,
) -> Result<(), TestStop>
where
    R: Files + Print + Eprint + Threads + Sync + AllocGlobal + Clone + Drop,
{
    let found = find_feeds(rt, path)?;
    complain_of(rt, found.faults.as_slice(), tally);
    test_feeds(rt, found.feeds.as_slice(), accept, settings, tally)
}

// Tests some feeds.
fn test_feeds<R: Files + Print + Eprint + Threads + Sync + AllocGlobal>(
    rt: &R,
    names: &[String],
    accept: bool,
    settings: Settings,
    tally: &mut Tally,
) -> Result<(), TestStop> {
    'feeds: for name in names {
        test_feed(rt, name.as_str(), accept, settings, tally)?;
    }
    Ok(())
}

// Prints to standard error for each of some paths why it is not tested, and counts it.
fn complain_of<R: Eprint>(rt: &R, lines: &[String], tally: &mut Tally) {
    'lines: for line in lines {
        complain(rt, line.as_str());
        tally.count(Outcome::Fault);
    }
}

// Prints to standard error why something is not tested.
pub(crate) fn complain<R: Eprint>(rt: &R, line: &str) {
    let _ = rt.eprint(line);
}

/// A feed that is tested.
#[derive(Clone, Copy)]
pub(crate) struct Feed<'n, 'q> {
    /// Its name without `.feed`.
    pub stem: &'n str,
    /// Its job text, its input, which is no longer than an input may be, and how it is run.
    pub question: Question<'q>,
    /// Whether new outputs are kept.
    pub accept: bool,
}

// Tests a feed by the files that are kept beside it.
fn test_feed<R: Files + Print + Eprint + Threads + Sync + AllocGlobal>(
    rt: &R,
    name: &str,
    accept: bool,
    settings: Settings,
    tally: &mut Tally,
) -> Result<(), TestStop> {
    let bytes = match read_kept(rt, name) {
        Ok(bytes) => bytes,
        Err(Unread::NoMemory) => return Err(TestStop::NoMemory),
        Err(Unread::Fault(line)) => {
            complain(rt, line.as_str());
            tally.count(Outcome::Fault);
            return Ok(());
        }
        Err(Unread::Missing) => {
            let line = reason_line(rt.alloc(), name, ErrorKind::NotFound);
            complain(rt, line.as_str());
            tally.count(Outcome::Fault);
            return Ok(());
        }
    };
    let (text, input) = split_feed(bytes.as_slice());
    if input.len() > MAX_INPUT {
        let shown = shown_name(rt.alloc(), name)?;
        let line = format!(in rt.alloc(); "{shown}: its input is too long\n")?;
        complain(rt, line.as_str());
        tally.count(Outcome::Fault);
        return Ok(());
    }
    let stem = name.strip_suffix(".feed").unwrap_or(name);
    let question = Question {
        text,
        input,
        settings,
    };
    let feed = Feed {
        stem,
        question,
        accept,
    };
    test_parts(rt, &feed, tally)
}

// Tests a feed by each file that is kept beside it.
fn test_parts<R: Files + Print + Eprint + Threads + Sync + AllocGlobal>(
    rt: &R,
    feed: &Feed<'_, '_>,
    tally: &mut Tally,
) -> Result<(), TestStop>
    requires { length feed.now.question.input.now ≤ MAX_INPUT }
{
    let has_output = test_outputs(rt, feed, tally)?;
    let swept = test_sweep(rt, feed)?;
    let has_sweep = tally.count_any(swept);
    let expected = test_expectations(rt, feed)?;
    if tally.count_any(expected) || has_sweep || has_output {
        return Ok(());
    }
    let outcome = test_nothing(rt, feed)?;
    tally.count(outcome);
    Ok(())
}

// Tests a feed by each output that is kept beside it, and returns whether there is one.
fn test_outputs<R: Files + Print + Eprint + Threads + Sync + AllocGlobal>(
    rt: &R,
    feed: &Feed<'_, '_>,
    tally: &mut Tally,
) -> Result<bool, TestStop>
    requires { length feed.now.question.input.now ≤ MAX_INPUT }
{
    let mut has_output = false;
    'outputs: for kind in Output::all() {
        let outcome = test_output(rt, feed, kind)?;
        has_output |= tally.count_any(outcome);
    }
    Ok(has_output)
}

// Keeps the report of a feed with nothing beside it if new outputs are kept, or prints to standard error that nothing is kept.
fn test_nothing<R: Files + Print + Eprint + Threads + Sync + AllocGlobal>(
    rt: &R,
    feed: &Feed<'_, '_>,
) -> Result<Outcome, TestStop>
    requires { length feed.now.question.input.now ≤ MAX_INPUT }
    ensures { IfOk result IsKept }
{
    let (alloc, stem) = (rt.alloc(), feed.stem);
    if feed.accept {
        let now = output_of(rt, alloc, &feed.question, Output::Report)?;
        let name = name_beside(alloc, stem, "report")?;
        let target = Target::of(rt, name.as_str());
        return keep(rt, name.as_str(), target, now.as_slice());
    }
    let shown = shown_name(alloc, stem)?;
    let line = format!(in alloc;
        "{shown}.feed: nothing is kept beside it: no .report, .story, .chart, .faults, .races, .sweep or .expect (`--accept` keeps a report)\n"
    )?;
    complain(rt, line.as_str());
    Ok(Outcome::Fault)
}
