//! Jobs that were upgraded to format 2: for the text that `upgrade` writes, `serve` writes the report of the text that
//! was upgraded.

use crate::fixtures::{Asked, FORMAT_1, Row, job_text, same, serve_answer, text_answer};
use crate::nested_jobs::{nested_job, scopes_report};
use crate::worked_jobs::{HANDLERS, NURSERIES, PARTS, PLAIN, SCOPES};
use job_reader::Format;
use job_report::{MemOut, Out};
use job_runner::Forward;
use std::process::Abort;
use std::test::Fail;
use std::thread::Threads;

// Returns what `serve` writes for the upgrade of a text.
fn serve_upgrade<R: Abort + Threads + Sync + AllocGlobal>(
    rt: &R,
    text: &[u8],
    input: &[u8],
) -> Result<MemOut, Fail> {
    let (_fine, upgraded) = text_answer(rt, Asked::Upgraded(Format::Two), text)?;
    let (_status, out) = serve_answer(rt, upgraded.taken(), input, 1, &mut Forward)?;
    Ok(out)
}

// Checks the report of the upgrade of a text.
fn assert_upgraded<R: Abort + Threads + Sync + AllocGlobal>(
    rt: &R,
    name: &str,
    text: &[u8],
    input: &[u8],
    report: &[u8],
) -> Result<(), Fail> {
    let out = serve_upgrade(rt, text, input)?;
    same(name, out.taken(), report)
}

// Checks the reports of the upgrades of worked jobs of format 1.
fn assert_upgraded_rows<R: Abort + Threads + Sync + AllocGlobal>(
    rt: &R,
    rows: &[Row],
) -> Result<(), Fail> {
    for i in 0..rows.len() {
        let (steps, input, report) = rows[i];
        let text = job_text(rt.alloc(), FORMAT_1, steps.as_bytes())?;
        assert_upgraded(rt, steps, text.as_slice(), input, report)?;
    }
    Ok(())
}

#[test]
fn upgraded_plain_steps_and_scopes_have_their_reports(rt: HostRuntime) -> Result<(), Fail> {
    assert_upgraded_rows(&rt, PLAIN)?;
    assert_upgraded_rows(&rt, SCOPES)
}

#[test]
fn upgraded_handlers_and_nurseries_have_their_reports(rt: HostRuntime) -> Result<(), Fail> {
    assert_upgraded_rows(&rt, HANDLERS)?;
    assert_upgraded_rows(&rt, NURSERIES)
}

#[test]
fn upgraded_parts_have_their_reports(rt: HostRuntime) -> Result<(), Fail> {
    assert_upgraded_rows(&rt, PARTS)
}

#[test]
fn upgraded_nested_scopes_have_their_report(rt: HostRuntime) -> Result<(), Fail> {
    let report = scopes_report(rt.alloc())?;
    let text = nested_job(rt.alloc(), b"scope s", b"sleep 1;")?;
    assert_upgraded(&rt, "scopes", text.as_slice(), b"", report.as_slice())
}
