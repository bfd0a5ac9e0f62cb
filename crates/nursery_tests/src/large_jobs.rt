//! Large jobs: blocks as deep as they are allowed, and thousands of tasks.

use crate::fixtures::{FORMAT_1, FORMAT_2, assert_serves, job_text, serve_answer};
use crate::nested_jobs::{nested_steps, push_down, push_each, push_up, scopes_report};
use job_report::Out;
use job_runner::Forward;
use std::alloc::{AllocError, Global};
use std::process::Abort;
use std::test::Fail;
use std::thread::Threads;

// Checks the report of a job without input in formats 1 and 2.
fn assert_reports<R: Abort + Threads + Sync + AllocGlobal>(
    rt: &R,
    name: &str,
    steps: &[u8],
    report: &[u8],
) -> Result<(), Fail> {
    for first_line in [FORMAT_1, FORMAT_2] {
        let text = job_text(rt.alloc(), first_line, steps)?;
        assert_serves(rt, name, text.as_slice(), b"", report)?;
    }
    Ok(())
}

// Returns the report of the job of 31 nested nurseries around `raise A`.
fn nurseries_report(alloc: Global) -> Result<Vec<u8>, AllocError> {
    let mut report = Vec::from_slice(alloc, b"job main 0\ntask main 0 0 raised ")?;
    push_up(&mut report, b"n", b"[")?;
    report.extend_from_slice(b"A(main@0)")?;
    push_each(&mut report, b"]")?;
    report.extend_from_slice(b"\n")?;
    push_down(&mut report, b"  nursery n", b" 0 passed\n")?;
    Ok(report)
}

#[test]
fn thirty_one_nested_scopes(rt: HostRuntime) -> Result<(), Fail> {
    let steps = nested_steps(rt.alloc(), b"scope s", b"sleep 1;")?;
    let report = scopes_report(rt.alloc())?;
    assert_reports(&rt, "scopes", steps.as_slice(), report.as_slice())
}

#[test]
fn thirty_one_nested_nurseries_around_a_raise(rt: HostRuntime) -> Result<(), Fail> {
    let steps = nested_steps(rt.alloc(), b"nursery n", b"raise A;")?;
    let report = nurseries_report(rt.alloc())?;
    assert_reports(&rt, "nurseries", steps.as_slice(), report.as_slice())
}

// Returns how many lines a report has.
fn lines_of(report: &[u8]) -> u64 {
    let mut lines = 0u64;
    for byte in report {
        lines = lines.wrapping_add(u64::from(*byte == b'\n'));
    }
    lines
}

#[test]
fn four_thousand_tasks(rt: HostRuntime) -> Result<(), Fail> {
    let steps =
        b"nursery n { start a over 64 { nursery m { start b over 64 { sleep 1; sleep 1; sleep 1; } } } }";
    let text = job_text(rt.alloc(), FORMAT_1, steps)?;
    let (status, out) = serve_answer(&rt, text.as_slice(), b"", 1, &mut Forward)?;
    assert!(rt; status == 0);
    let first = b"job main 3\ntask main 0 3 done\n  nursery n 3 passed\ntask a.0 0 3 done\n";
    assert!(rt; out.taken().starts_with(first));
    assert!(rt; out.taken().ends_with(b"\ntask b.63.63 0 3 done\n"));
    // The job, 4,161 tasks and 65 nurseries.
    assert!(rt; lines_of(out.taken()) == 4_227);
    Ok(())
}
