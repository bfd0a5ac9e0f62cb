//! What `serve` writes of worked jobs, which is the same under each order of picks, by 1 and by 64 workers.

use crate::fixtures::{
    FORMAT_1, FORMAT_2, TWO_LINES, assert_answers, assert_rows, assert_rows_in_both_formats,
    job_text, run_of, same, serve_answer,
};
use crate::worked_jobs::{HANDLERS, NURSERIES, OF_FORMAT_2, PARTS, PLAIN, SCOPES};
use job_answers::{CheckVerdict, Verdict};
use job_reader::read_job;
use job_report::{Out, report};
use job_runner::{Forward, NoGate};
use std::test::Fail;

#[test]
fn plain_steps_are_reported(rt: HostRuntime) -> Result<(), Fail> {
    assert_rows_in_both_formats(&rt, PLAIN)
}

#[test]
fn scopes_and_deadlines_are_reported(rt: HostRuntime) -> Result<(), Fail> {
    assert_rows_in_both_formats(&rt, SCOPES)
}

#[test]
fn handlers_and_cleanup_are_reported(rt: HostRuntime) -> Result<(), Fail> {
    assert_rows_in_both_formats(&rt, HANDLERS)
}

#[test]
fn nurseries_and_their_groups_are_reported(rt: HostRuntime) -> Result<(), Fail> {
    assert_rows_in_both_formats(&rt, NURSERIES)
}

#[test]
fn parts_of_the_input_are_reported(rt: HostRuntime) -> Result<(), Fail> {
    assert_rows_in_both_formats(&rt, PARTS)
}

#[test]
fn passes_and_nurseries_of_format_2_are_reported(rt: HostRuntime) -> Result<(), Fail> {
    assert_rows(&rt, FORMAT_2, OF_FORMAT_2)
}

// The report of a job that finds one line.
const FOUND: &[u8] = b"job main 0\ntask main 0 0 done\n  line 0+5 error\n";

#[test]
fn a_run_has_its_report(rt: HostRuntime) -> Result<(), Fail> {
    let job = read_job(rt.alloc(), b"trio-job 1\njob main { find \"er\"; }")?;
    let done = run_of(&rt, &job, TWO_LINES, 1, &mut Forward, &NoGate)?;
    let text = report(rt.alloc(), &done)?;
    same("the report", text.as_slice(), FOUND)
}

// A job text, the status of its verdict over two lines, and what is written.
const ENDS: &[(&str, u8, &[u8])] = &[
    ("trio-job 1\njob main { find \"er\"; }", 0, FOUND),
    (
        "trio-job 1\njob main { sleep 100; }",
        0,
        b"job main 100\ntask main 0 100 done\n",
    ),
    (
        "trio-job 1\njob main { raise A; }",
        1,
        b"job main 0\ntask main 0 0 raised A(main@0)\n",
    ),
    (
        "trio-job 1\njob main { cancel x; }",
        2,
        b"refused J9 NotEnclosing at 29\n",
    ),
    ("trio-job 1\njob main { sleep 101; }", 3, b"limit 100\n"),
    ("trio-job 1\njob main { forever; }", 3, b"limit 100\n"),
];

#[test]
fn serve_returns_how_the_job_ended(rt: HostRuntime) -> Result<(), Fail> {
    for i in 0..ENDS.len() {
        let (text, status, expected) = ENDS[i];
        assert_answers(&rt, text, TWO_LINES, status, expected)?;
    }
    Ok(())
}

#[test]
fn a_verdict_has_its_status(rt: HostRuntime) {
    let statuses = [
        Verdict::Done.status(),
        Verdict::Raised.status(),
        Verdict::Limit.status(),
        CheckVerdict::Fine.status(),
    ];
    assert!(rt; statuses == [0, 1, 3, 0]);
}

// Eleven tasks, each with a handler that is cancelled while a part of its group is left.
const CANCELLED_HANDLERS: &[u8] = b"scope o after 3 { nursery m { start p over 11 { try {
  nursery n { start a { sleep 1; raise A; } scope s after 1 fail { forever; } }
} except A { forever; } } } }";

// How the report of these ends: with the last of the tasks, and the member of its nursery.
const LAST_HANDLER: &[u8] = b"
task p.10 0 3 raised *[Cancelled, n.10[TooSlow(s.10@1)]]
  scope s.10 1 caught
  nursery n.10 1 passed
task a.10 0 1 raised A(a.10@1)
";

#[test]
fn a_cancelled_handler_is_shown_with_the_rest(rt: HostRuntime) -> Result<(), Fail> {
    let text = job_text(rt.alloc(), FORMAT_1, CANCELLED_HANDLERS)?;
    let (status, out) = serve_answer(&rt, text.as_slice(), b"", 1, &mut Forward)?;
    assert!(rt; status == 1);
    assert!(rt; out.taken().ends_with(LAST_HANDLER));
    Ok(())
}
