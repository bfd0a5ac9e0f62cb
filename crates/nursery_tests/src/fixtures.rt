//! What the tests of this crate share: job texts, and serving them under each order of picks.

use job_answers::{CheckVerdict, ServeFault, Verdict, check, serve, upgrade};
use job_reader::{Format, Job};
use job_report::{MemOut, Out};
use job_runner::{Forward, Gate, MAX_INPUT, NoGate, Pick, Reverse, Run, Settings, Turn, run};
use std::alloc::{AllocError, Global};
use std::process::Abort;
use std::test::Fail;
use std::thread::Threads;

/// A worked job: the steps of the job `main`, its input, and its report.
pub(crate) type Row = (&'static str, &'static [u8], &'static [u8]);

/// The first line of a job text of format 1.
pub(crate) const FORMAT_1: &[u8] = b"trio-job 1\n";

/// The first line of a job text of format 2.
pub(crate) const FORMAT_2: &[u8] = b"trio-job 2\n";

/// The first line of a job text of format 3.
pub(crate) const FORMAT_3: &[u8] = b"trio-job 3\n";

/// Two lines, of which the first holds `er`.
pub(crate) const TWO_LINES: &[u8] = b"error\nok\n";

/// Three lines, of which each half begins with its longest.
pub(crate) const HALVES: &[u8] = b"aa\nb\ncccc\n";

/// The last tick at which the jobs of these tests may end.
pub(crate) const LIMIT: u64 = 100;

// The failure of a row of a table, with its number from 0 on.
pub(crate) fn wrong(row: usize) -> Fail {
    Fail::from(("row", row))
}

// Fails if a text is not as expected, and prints its name and what it is.
pub(crate) fn same(name: &str, found: &[u8], expected: &[u8]) -> Result<(), Fail> {
    if found == expected {
        return Ok(());
    }
    match str::from_utf8(found) {
        Ok(text) => Err((name, text))?,
        Err(_) => Err((name, "is no text"))?,
    }
}

// Fails if a command has another status than expected, or wrote something else, and prints the name of what was requested.
pub(crate) fn same_answer(
    name: &str,
    answer: &(u8, MemOut),
    status: u8,
    expected: &[u8],
) -> Result<(), Fail> {
    let (given, out) = answer;
    same(name, out.taken(), expected)?;
    if *given != status {
        Err((name, *given))?;
    }
    Ok(())
}

// Returns the pieces of a text, one after another.
pub(crate) fn joined_text(alloc: Global, pieces: &[&[u8]]) -> Result<Vec<u8>, AllocError> {
    let mut text = Vec::new(alloc);
    for piece in pieces {
        text.extend_from_slice(piece)?;
    }
    Ok(text)
}

// Returns the text of the job `main` of these steps, after the first line of its format.
pub(crate) fn job_text(
    alloc: Global,
    first_line: &[u8],
    steps: &[u8],
) -> Result<Vec<u8>, AllocError> {
    joined_text(alloc, &[first_line, b"job main { ", steps, b" }"])
}

// Returns the run of a job by some workers.
pub(crate) fn run_of<'a, R: Abort + Threads + Sync + AllocGlobal, P: Pick, G: Gate + Sync>(
    rt: &R,
    job: &'a Job,
    input: &'a [u8],
    workers: usize,
    picker: &mut P,
    gate: &G,
) -> Result<Run<'a>, Fail> {
    assert!(rt; input.len() <= MAX_INPUT);
    let settings = Settings::new(workers, LIMIT).ok_or("settings")?;
    let done = run(rt, rt.alloc(), job, input, settings, picker, gate)?;
    Ok(done)
}

// Calls `serve` with a writer that has not failed.
pub(crate) fn serve_into<R: Abort + Threads + Sync + AllocGlobal, P: Pick, G: Gate + Sync, W: Out>(
    rt: &R,
    text: &[u8],
    input: &[u8],
    settings: Settings,
    picker: &mut P,
    gate: &G,
    out: &mut W,
) -> Result<Verdict, ServeFault> {
    assert!(rt; input.len() <= MAX_INPUT);
    assert!(rt; out.failures() == 0);
    serve(rt, rt.alloc(), text, input, settings, picker, gate, out)
}

// Makes a call that writes to `out`. If memory runs out nothing was sent, and the call is made again. The call is one of a helper
// that says nothing of its result, so that a proof carries no facts about it.
macro_rules! call_again {
    ($rt:ident, $out:ident, $call:expr) => {
        match $call {
            Err(job_answers::ServeFault::NoMemory) => {
                assert!($rt; $out.taken().is_empty());
                $call
            }
            answer => answer,
        }
    };
}

pub(crate) use call_again;

// Serves a text, again if memory runs out.
pub(crate) fn serve_again<R: Abort + Threads + Sync + AllocGlobal, P: Pick>(
    rt: &R,
    text: &[u8],
    input: &[u8],
    settings: Settings,
    picker: &mut P,
    out: &mut MemOut,
) -> Result<Verdict, ServeFault> {
    call_again!(
        rt,
        out,
        serve_into(rt, text, input, settings, picker, &NoGate, out)
    )
}

// Returns what `serve` writes for a text with these settings, and the status of its verdict, which is 5 for a fault.
pub(crate) fn serve_answer<R: Abort + Threads + Sync + AllocGlobal, P: Pick>(
    rt: &R,
    text: &[u8],
    input: &[u8],
    workers: usize,
    picker: &mut P,
) -> Result<(u8, MemOut), Fail> {
    let settings = Settings::new(workers, LIMIT).ok_or("settings")?;
    let mut out = MemOut::new(rt.alloc(), 1_000_000, 7, None)?;
    let status = match serve_again(rt, text, input, settings, picker, &mut out) {
        Ok(verdict) => verdict.status(),
        Err(_fault) => 5,
    };
    Ok((status, out))
}

/// Which job text is requested.
#[derive(Clone, Copy)]
pub(crate) enum Asked {
    /// The canonical text.
    Checked,
    /// The canonical text of the same job in a newer format.
    Upgraded(Format),
}

// Requests a job text with a writer that has not failed.
fn request_into(
    rt: &(impl Abort + AllocGlobal),
    asked: Asked,
    text: &[u8],
    out: &mut MemOut,
) -> Result<CheckVerdict, ServeFault> {
    assert!(rt; out.failures() == 0);
    match asked {
        Asked::Checked => check(rt.alloc(), text, out),
        Asked::Upgraded(format) => upgrade(rt.alloc(), text, format, out),
    }
}

// Requests a job text, again if memory runs out.
pub(crate) fn request_again(
    rt: &(impl Abort + AllocGlobal),
    asked: Asked,
    text: &[u8],
    out: &mut MemOut,
) -> Result<CheckVerdict, ServeFault> {
    call_again!(rt, out, request_into(rt, asked, text, out))
}

// Returns what `check` or `upgrade` writes for a text, and the status of its verdict.
pub(crate) fn text_answer(
    rt: &(impl Abort + AllocGlobal),
    asked: Asked,
    text: &[u8],
) -> Result<(u8, MemOut), Fail> {
    let mut out = MemOut::new(rt.alloc(), 65_537, 100, None)?;
    let verdict = request_again(rt, asked, text, &mut out)?;
    Ok((verdict.status(), out))
}

// Checks what `serve` writes for a text with the limit 100, by some workers in one order of picks.
fn assert_serves_in<R: Abort + Threads + Sync + AllocGlobal, P: Pick>(
    rt: &R,
    name: &str,
    text: &[u8],
    input: &[u8],
    workers: usize,
    picker: &mut P,
    expected: &[u8],
) -> Result<(), Fail> {
    let (status, out) = serve_answer(rt, text, input, workers, picker)?;
    if status > 3 {
        Err((name, status))?;
    }
    same(name, out.taken(), expected)
}

// Checks what `serve` writes for a text with the limit 100, by 1 and 64 workers in each order of picks.
pub(crate) fn assert_serves<R: Abort + Threads + Sync + AllocGlobal>(
    rt: &R,
    name: &str,
    text: &[u8],
    input: &[u8],
    expected: &[u8],
) -> Result<(), Fail> {
    for workers in [1, 64] {
        assert_serves_in(rt, name, text, input, workers, &mut Forward, expected)?;
        assert_serves_in(rt, name, text, input, workers, &mut Reverse, expected)?;
        let mut turn = Turn { calls: 0 };
        assert_serves_in(rt, name, text, input, workers, &mut turn, expected)?;
    }
    Ok(())
}

// Checks the reports of worked jobs in a format.
pub(crate) fn assert_rows<R: Abort + Threads + Sync + AllocGlobal>(
    rt: &R,
    first_line: &[u8],
    rows: &[Row],
) -> Result<(), Fail> {
    for i in 0..rows.len() {
        let (steps, input, report) = rows[i];
        let text = job_text(rt.alloc(), first_line, steps.as_bytes())?;
        assert_serves(rt, steps, text.as_slice(), input, report)?;
    }
    Ok(())
}

// Checks the reports of worked jobs, which are the same in formats 1 and 2.
pub(crate) fn assert_rows_in_both_formats<R: Abort + Threads + Sync + AllocGlobal>(
    rt: &R,
    rows: &[Row],
) -> Result<(), Fail> {
    assert_rows(rt, FORMAT_1, rows)?;
    assert_rows(rt, FORMAT_2, rows)
}

// Checks what `serve` writes for a text, and the status of its verdict.
pub(crate) fn assert_answers<R: Abort + Threads + Sync + AllocGlobal>(
    rt: &R,
    text: &str,
    input: &[u8],
    status: u8,
    expected: &[u8],
) -> Result<(), Fail> {
    let answer = serve_answer(rt, text.as_bytes(), input, 1, &mut Forward)?;
    same_answer(text, &answer, status, expected)
}
