//! Jobs of format 3 with events, with tasks that a loop starts, and with loops over cuts, with their whole reports. The reports
//! were worked out by hand from docs/RULES.md, never copied from a run. Where Trio has one outcome, the report is that outcome.

use crate::fixtures::{FORMAT_3, Row, TWO_LINES, assert_rows};
use std::test::Fail;

// When a wait for an event ends.
const EVENTS: &[Row] = &[
    // readiness
    (
        "event up { nursery n { start server { sleep 3; set up; sleep 2; } start client over 2 { wait up; sleep 1; } } }",
        b"",
        b"job main 5
task main 0 5 done
  nursery n 5 passed
task server 0 5 done
task client.0 0 4 done
  wait up 3
task client.1 0 4 done
  wait up 3
",
    ),
    // it is set already
    (
        "event e { set e; wait e; wait e; sleep 1; wait e; }",
        b"",
        b"job main 1
task main 0 1 done
  wait e 0
  wait e 0
  wait e 1
",
    ),
    // a deadline in the tick of the set
    (
        "event e { nursery n { start a { sleep 3; set e; } scope s after 3 { wait e; } } }",
        b"",
        b"job main 3
task main 0 3 done
  scope s 3 caught
  nursery n 3 passed
task a 0 3 done
",
    ),
    // two hops in one tick
    (
        "event e { event f { nursery n { start a { wait e; set f; } start b { wait f; } set e; } } }",
        b"",
        b"job main 0
task main 0 0 done
  nursery n 0 passed
task a 0 0 done
  wait e 0
task b 0 0 done
  wait f 0
",
    ),
    // a graceful stop
    (
        "event stop { nursery n { start worker over 2 { nursery body { start beat { repeat 100 { sleep 3; } } wait stop; cancel body; } sleep 1; } start signal { sleep 7; set stop; } } }",
        b"",
        b"job main 8
task main 0 8 done
  nursery n 8 passed
task worker.0 0 8 done
  wait stop 7
  nursery body.0 7 caught
task beat.0 0 7 cancelled
task worker.1 0 8 done
  wait stop 7
  nursery body.1 7 caught
task beat.1 0 7 cancelled
task signal 0 7 done
",
    ),
    // the waiter is cancelled
    (
        "event e { nursery n after 2 { start a { wait e; } } }",
        b"",
        b"job main 2
task main 0 2 done
  nursery n 2 caught
task a 0 2 cancelled
",
    ),
    // one for each pass
    (
        "repeat 2 { event e { nursery n { start a { sleep 1; set e; } wait e; } } }",
        b"",
        b"job main 2
task main 0 2 done
  wait e.0 1
  nursery n.0 1 passed
  wait e.1 2
  nursery n.1 2 passed
task a.0 0 1 done
task a.1 1 2 done
",
    ),
    // hedged requests
    (
        "event won { nursery n { start first { sleep 5; set won; } start second { sleep 2; sleep 4; set won; } wait won; cancel n; } }",
        b"",
        b"job main 5
task main 0 5 done
  wait won 5
  nursery n 5 caught
task first 0 5 done
task second 0 5 cancelled
",
    ),
    // set, and a deadline that is over
    (
        "event e{set e;scope s after 0{wait e;}}",
        b"",
        b"job main 0
task main 0 0 done
  scope s 0 caught
",
    ),
    // race: set and cancelled in one round
    (
        "event e{nursery n{start a{wait e;}start b{checkpoint;cancel n;}checkpoint;checkpoint;set e;}}",
        b"",
        b"job main 0
task main 0 0 done
  nursery n 0 passed
task a 0 0 done
  wait e 0
task b 0 0 done
",
    ),
];

// What is started in each pass of a loop.
const LOOPS: &[Row] = &[
    // starts in a loop
    (
        "nursery serve { repeat 3 { start handler { scope patience after 3 { sleep 4; } } sleep 2; } }",
        b"",
        b"job main 7
task main 0 7 done
  nursery serve 7 passed
task handler.0 0 3 done
  scope patience.0 3 caught
task handler.1 2 5 done
  scope patience.1 5 caught
task handler.2 4 7 done
  scope patience.2 7 caught
",
    ),
    // over cuts
    (
        "nursery n { repeat 2 { start t over 2 { sleep 1; } sleep 3; } }",
        b"",
        b"job main 6
task main 0 6 done
  nursery n 6 passed
task t.0.0 0 1 done
task t.0.1 0 1 done
task t.1.0 3 4 done
task t.1.1 3 4 done
",
    ),
    // a failing handler stops the loop
    (
        "nursery serve { repeat 5 { start handler { sleep 3; raise X; } sleep 2; } }",
        b"",
        b"job main 3
task main 0 3 raised serve[X(handler.0@3)]
  nursery serve 3 caught
task handler.0 0 3 raised X(handler.0@3)
task handler.1 2 3 cancelled
",
    ),
];

// Loops over the cuts of the task's part.
const CUTS: &[Row] = &[
    // each pass has its cut, and the steps after the loop have the whole part again
    (
        "repeat over 2 { head 1; sleep 1; } find \"o\";",
        TWO_LINES,
        b"job main 2
task main 0 2 done
  line 0+5 error
  line 6+2 ok
  line 0+5 error
  line 6+2 ok
",
    ),
    // a cut of a cut, and children of a pass
    (
        "repeat over 2 { nursery n { start t over 2 { longest; } start u { head 9; sleep 2; } } }",
        b"a\nbb\nc\ndd\n",
        b"job main 4
task main 0 4 done
  nursery n.0 2 passed
  nursery n.1 4 passed
task t.0.0 0 0 done
  line 0+1 a
task t.0.1 0 0 done
  line 2+2 bb
task u.0 0 2 done
  line 0+1 a
  line 2+2 bb
task t.1.0 2 2 done
  line 5+1 c
task t.1.1 2 2 done
  line 7+2 dd
task u.1 2 4 done
  line 5+1 c
  line 7+2 dd
",
    ),
    // a pace counts the lines of the cut, and an exception ends the loop
    (
        "try { repeat over 3 { pace 1; need \"b\" Missing; } } except Missing { longest; }",
        b"ab\nb\nc\n",
        b"job main 3
task main 0 3 done
  line 0+2 ab
  line 3+1 b
  line 0+2 ab
",
    ),
    // a deadline for each part, one after the other
    (
        "repeat over 3 { try { scope limit after 4 fail { pace 1; find \"ERROR\"; } } except TooSlow { head 1; } }",
        b"start of day\nERROR disk\nok\nok\nok\nERROR net\nok\nERROR mail\nend of day\n",
        b"job main 8
task main 0 8 done
  line 13+10 ERROR disk
  scope limit.0 2 passed
  scope limit.1 6 caught
  line 24+2 ok
  line 46+10 ERROR mail
  scope limit.2 8 passed
",
    ),
    // an empty part has empty cuts
    (
        "repeat over 64 { longest; }",
        b"",
        b"job main 0\ntask main 0 0 done\n",
    ),
];

#[test]
fn jobs_with_events_have_their_reports(rt: HostRuntime) -> Result<(), Fail> {
    assert_rows(&rt, FORMAT_3, EVENTS)
}

#[test]
fn jobs_with_starts_in_loops_have_their_reports(rt: HostRuntime) -> Result<(), Fail> {
    assert_rows(&rt, FORMAT_3, LOOPS)
}

#[test]
fn jobs_with_loops_over_cuts_have_their_reports(rt: HostRuntime) -> Result<(), Fail> {
    assert_rows(&rt, FORMAT_3, CUTS)
}
