//! Jobs of format 3, in which time is counted by rounds, with their whole reports. The reports were worked out by hand from
//! docs/RULES.md, never copied from a run. Where Trio has one outcome, the report is that outcome.

use crate::fixtures::{FORMAT_3, Row, assert_rows};
use std::test::Fail;

// What a cancellation, a deadline and a checkpoint do by rounds.
const ROUNDS: &[Row] = &[
    // a sibling fails
    (
        "nursery n { start a { sleep 4; raise X; } start b { try { forever; } finally { scope f after 5 shield { sleep 3; } } } }",
        b"",
        b"job main 7
task main 0 7 raised n[X(a@4)]
  nursery n 7 caught
task a 0 4 raised X(a@4)
task b 0 7 cancelled
  scope f 7 passed
",
    ),
    // a deadline beside a sleep of the same length
    (
        "scope s after 3 { sleep 3; }",
        b"",
        b"job main 3
task main 0 3 done
  scope s 3 caught
",
    ),
    // a cancelled task cleans up in the same tick
    (
        "nursery n { start a { sleep 2; cancel n; } start b { try { forever; } except X { } finally { checkpoint; } } }",
        b"",
        b"job main 2
task main 0 2 done
  nursery n 2 caught
task a 0 2 done
task b 0 2 cancelled
",
    ),
    // its own cancel, no checkpoint after it
    (
        "scope s { cancel s; }",
        b"",
        b"job main 0
task main 0 0 done
  scope s 0 passed
",
    ),
    // its own cancel, then a checkpoint
    (
        "scope s { cancel s; checkpoint; }",
        b"",
        b"job main 0
task main 0 0 done
  scope s 0 caught
",
    ),
    // its own cancel of what is outside, where a scope is left
    (
        "scope a { scope b after 1 { try { forever; } finally { cancel a; } } }",
        b"",
        b"job main 1
task main 0 1 done
  scope b 1 passed
  scope a 1 caught
",
    ),
    // a deadline that is over on entry
    (
        "scope s after 0 { sleep 5; }",
        b"",
        b"job main 0
task main 0 0 done
  scope s 0 caught
",
    ),
    // a deadline that is over on entry, no checkpoint
    (
        "scope s after 0 { raise X; }",
        b"",
        b"job main 0
task main 0 0 raised X(main@0)
  scope s 0 passed
",
    ),
    // a deeper task starts a round later
    (
        "nursery n { start a { checkpoint; raise X; } start b { nursery m { start c { checkpoint; raise Y; } } } }",
        b"",
        b"job main 0
task main 0 0 raised n[X(a@0)]
  nursery n 0 caught
task a 0 0 raised X(a@0)
task b 0 0 raised m[Cancelled]
  nursery m 0 passed
task c 0 0 cancelled
",
    ),
    // checkpoints count rounds
    (
        "nursery n { start a { checkpoint; checkpoint; cancel n; } start b { checkpoint; raise X; } }",
        b"",
        b"job main 0
task main 0 0 raised n[X(b@0)]
  nursery n 0 caught
task a 0 0 cancelled
task b 0 0 raised X(b@0)
",
    ),
    // a fallback beside a deadline
    (
        "try { scope first after 5 fail { sleep 6; } } except TooSlow { scope second after 5 { sleep 4; } }",
        b"",
        b"job main 9
task main 0 9 done
  scope first 5 caught
  scope second 9 passed
",
    ),
    // a checkpoint cancelled by a deadline, a member fails
    (
        "nursery n{start a{raise X;}scope s at 0{checkpoint;}}",
        b"",
        b"job main 0
task main 0 0 raised n[X(a@0)]
  scope s 0 passed
  nursery n 0 caught
task a 0 0 raised X(a@0)
",
    ),
    // own: a pace of no tick takes one round where it is cancelled
    (
        "nursery n{start a{scope s after 0{pace 2;}}start b{checkpoint;raise X;}}",
        b"",
        b"job main 0
task main 0 0 raised n[X(b@0)]
  nursery n 0 passed
task a 0 0 done
  scope s 0 caught
task b 0 0 raised X(b@0)
",
    ),
    // its own cancel, then pace
    (
        "nursery n{cancel n;pace 1;}",
        b"",
        b"job main 0
task main 0 0 done
  nursery n 0 caught
",
    ),
    // race: both fail in one round
    (
        "nursery n { start a { sleep 1; raise X; } start b { sleep 1; raise Y; } }",
        b"",
        b"job main 1
task main 0 1 raised n[X(a@1), Y(b@1)]
  nursery n 1 passed
task a 0 1 raised X(a@1)
task b 0 1 raised Y(b@1)
",
    ),
];

// A supervisor that starts two tasks up to three times. Each restart ends in the tick in which the failure is seen, so the budget
// of 22 ticks is enough.
const SUPERVISOR: &[Row] = &[(
    "scope budget after 22 fail { try { repeat 3 { try { nursery child { start worker { sleep 4; raise Crash; } start metrics { try { forever; } finally { scope flush after 3 shield { sleep 1; } } } } } except Crash { sleep 2; } } raise GaveUp; } except GaveUp { } }",
    b"",
    b"job main 21
task main 0 21 done
  nursery child.0 5 caught
  nursery child.1 12 caught
  nursery child.2 19 caught
  scope budget 21 passed
task worker.0 0 4 raised Crash(worker.0@4)
task metrics.0 0 5 cancelled
  scope flush.0 5 passed
task worker.1 7 11 raised Crash(worker.1@11)
task metrics.1 7 12 cancelled
  scope flush.1 12 passed
task worker.2 14 18 raised Crash(worker.2@18)
task metrics.2 14 19 cancelled
  scope flush.2 19 passed
",
)];

#[test]
fn jobs_of_format_3_have_their_reports(rt: HostRuntime) -> Result<(), Fail> {
    assert_rows(&rt, FORMAT_3, ROUNDS)
}

#[test]
fn a_supervisor_of_format_3_has_its_report(rt: HostRuntime) -> Result<(), Fail> {
    assert_rows(&rt, FORMAT_3, SUPERVISOR)
}
