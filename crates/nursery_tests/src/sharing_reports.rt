//! Jobs of format 3 with limiters and channels, with their whole reports. The reports were worked out by hand from docs/RULES.md,
//! never copied from a run. Where Trio has one outcome, the report is that outcome; where tasks ask in one round, it may have
//! several.

use crate::fixtures::{FORMAT_3, Row, assert_rows};
use std::test::Fail;

// Who gets a token, and when.
const LIMITERS: &[Row] = &[
    // two tokens, three clients
    (
        "limiter pool 2 { nursery n { start a { acquire pool { sleep 4; } } start b { sleep 1; acquire pool { sleep 4; } } start c { sleep 2; acquire pool { sleep 1; } } } }",
        b"",
        b"job main 5
task main 0 5 done
  nursery n 5 passed
task a 0 4 done
  acquire pool 0
task b 0 5 done
  acquire pool 1
task c 0 5 done
  acquire pool 4
",
    ),
    // one gives up, the next gets the token
    (
        "limiter l 1 { nursery n { start a { acquire l { sleep 3; } } start b { sleep 1; scope s after 1 { acquire l { } } } start c { sleep 2; acquire l { } } } }",
        b"",
        b"job main 3
task main 0 3 done
  nursery n 3 passed
task a 0 3 done
  acquire l 0
task b 0 2 done
  scope s 2 caught
task c 0 3 done
  acquire l 3
",
    ),
    // a deadline in the tick of the release
    (
        "limiter l 1 { nursery n { start a { acquire l { sleep 3; } } start b { sleep 1; scope s after 2 { acquire l { } } } } }",
        b"",
        b"job main 3
task main 0 3 done
  nursery n 3 passed
task a 0 3 done
  acquire l 0
task b 0 3 done
  scope s 3 caught
",
    ),
    // a cancelled holder gives its token back
    (
        "limiter l 1 { nursery n { start a { scope s after 2 { acquire l { forever; } } } start b { sleep 1; acquire l { sleep 1; } } } }",
        b"",
        b"job main 3
task main 0 3 done
  nursery n 3 passed
task a 0 2 done
  acquire l 0
  scope s 2 caught
task b 0 3 done
  acquire l 2
",
    ),
    // cancelled before it asks
    (
        "limiter l 1 { scope s after 0 { acquire l { } } acquire l { } }",
        b"",
        b"job main 0
task main 0 0 done
  scope s 0 caught
  acquire l 0
",
    ),
    // a deadlock with a way out
    (
        "limiter a 1 { limiter b 1 { nursery n { start left { acquire a { sleep 1; scope s after 4 { acquire b { } } } } start right { acquire b { sleep 2; acquire a { sleep 1; } } } } } }",
        b"",
        b"job main 6
task main 0 6 done
  nursery n 6 passed
task left 0 5 done
  acquire a 0
  scope s 5 caught
task right 0 6 done
  acquire b 0
  acquire a 5
",
    ),
    // its own cancel, then a token
    (
        "limiter l 1{nursery n{cancel n;acquire l{}}}",
        b"",
        b"job main 0
task main 0 0 done
  nursery n 0 caught
",
    ),
    // a token, cancelled from outside
    (
        "limiter l 1{nursery n{start a{acquire l{}}raise X;}}",
        b"",
        b"job main 0
task main 0 0 raised n[X(main@0)]
  nursery n 0 caught
task a 0 0 cancelled
",
    ),
    // who gets the token
    (
        "limiter l 1 { nursery n { start t over 3 { acquire l { sleep 1; } } } }",
        b"",
        b"job main 3
task main 0 3 done
  nursery n 3 passed
task t.0 0 1 done
  acquire l 0
task t.1 0 2 done
  acquire l 1
task t.2 0 3 done
  acquire l 2
",
    ),
];

// What is sent and received, and when.
const CHANNELS: &[Row] = &[
    // back-pressure
    (
        "channel q 1 { nursery n { start producer { repeat 4 { sleep 1; send q; } close q; } start consumer { try { repeat 9 { receive q { sleep 3; } } } except EndOfChannel { } } } }",
        b"",
        b"job main 13
task main 0 13 done
  nursery n 13 passed
task producer 0 7 done
  send q 1
  send q 2
  send q 4
  send q 7
task consumer 0 13 done
  receive q 1
  receive q 4
  receive q 7
  receive q 10
",
    ),
    // a rendezvous
    (
        "channel q 0 { nursery n { start s { send q; sleep 1; } start r { sleep 5; receive q { } } } }",
        b"",
        b"job main 6
task main 0 6 done
  nursery n 6 passed
task s 0 6 done
  send q 5
task r 0 5 done
  receive q 5
",
    ),
    // closed while a receiver waits
    (
        "channel q 0 { nursery n { start r { receive q { } } start s { sleep 1; close q; } } }",
        b"",
        b"job main 1
task main 0 1 raised n[EndOfChannel(r@1)]
  nursery n 1 passed
task r 0 1 raised EndOfChannel(r@1)
task s 0 1 done
",
    ),
    // what is in the buffer is still received
    (
        "channel q 2 { send q; send q; close q; receive q { } receive q { } try { receive q { } } except EndOfChannel { } }",
        b"",
        b"job main 0
task main 0 0 done
  send q 0
  send q 0
  receive q 0
  receive q 0
",
    ),
    // send after close
    (
        "channel q 1 { close q; send q; }",
        b"",
        b"job main 0
task main 0 0 raised ClosedResource(main@0)
",
    ),
    // a receiver is cancelled
    (
        "channel q 0 { nursery n { start r { scope s after 2 { receive q { } } } sleep 3; scope t after 2 { send q; } } }",
        b"",
        b"job main 5
task main 0 5 done
  scope t 5 caught
  nursery n 5 passed
task r 0 2 done
  scope s 2 caught
",
    ),
    // its own cancel outside a shield
    (
        "channel q 2{nursery n{start a{cancel n;scope s shield{send q;}}}}",
        b"",
        b"job main 0
task main 0 0 done
  nursery n 0 passed
task a 0 0 done
  send q 0
  scope s 0 passed
",
    ),
    // cancelled before it asks, two rounds
    (
        "channel q 0{nursery n{start a{scope s after 0{receive q{}}}checkpoint;raise X;}}",
        b"",
        b"job main 0
task main 0 0 raised n[X(main@0)]
  nursery n 0 caught
task a 0 0 cancelled
  scope s 0 passed
",
    ),
    // a queue is left before the acts of the round
    (
        "channel q 0{nursery n after 2{start a{scope s at 1{receive q{}}send q;}}}",
        b"",
        b"job main 2
task main 0 2 done
  nursery n 2 caught
task a 0 2 cancelled
  scope s 1 caught
",
    ),
    // the root acts first
    (
        "channel q 2{nursery n{start a{send q;}checkpoint;close q;}}",
        b"",
        b"job main 0
task main 0 0 raised n[ClosedResource(a@0)]
  nursery n 0 passed
task a 0 0 raised ClosedResource(a@0)
",
    ),
    // close is an act
    (
        "channel q 1{nursery n{start a{send q;}start b{close q;}}}",
        b"",
        b"job main 0
task main 0 0 done
  nursery n 0 passed
task a 0 0 done
  send q 0
task b 0 0 done
",
    ),
];

#[test]
fn jobs_with_limiters_have_their_reports(rt: HostRuntime) -> Result<(), Fail> {
    assert_rows(&rt, FORMAT_3, LIMITERS)
}

#[test]
fn jobs_with_channels_have_their_reports(rt: HostRuntime) -> Result<(), Fail> {
    assert_rows(&rt, FORMAT_3, CHANNELS)
}
