//! The charts that `chart` writes of worked jobs: the same under each order of picks, by 1 and by 64 workers.

use crate::fixtures::{LIMIT, call_again, same, same_answer};
use commands::{ChartForm, chart};
use job_answers::{ServeFault, Verdict};
use job_report::{MemOut, Out, Question, send_answer};
use job_runner::{Forward, NoGate, Pick, Reverse, Settings};
use std::process::Abort;
use std::test::Fail;
use std::thread::Threads;

// Calls `chart` with a writer that has not failed.
fn chart_into<R: Abort + Threads + Sync + AllocGlobal, P: Pick>(
    rt: &R,
    text: &[u8],
    form: ChartForm,
    settings: Settings,
    picker: &mut P,
    out: &mut MemOut,
) -> Result<Verdict, ServeFault> {
    assert!(rt; out.failures() == 0);
    let alloc = rt.alloc();
    let question = Question {
        text,
        input: b"",
        settings,
    };
    let answer = chart(rt, alloc, &question, form, picker, &NoGate)?;
    let verdict = send_answer(answer, out)?;
    Ok(verdict)
}

// Calls `chart`, again if memory runs out.
fn chart_again<R: Abort + Threads + Sync + AllocGlobal, P: Pick>(
    rt: &R,
    text: &[u8],
    form: ChartForm,
    settings: Settings,
    picker: &mut P,
    out: &mut MemOut,
) -> Result<Verdict, ServeFault> {
    call_again!(rt, out, chart_into(rt, text, form, settings, picker, out))
}

// Returns the status and the chart of a job text.
fn chart_of<R: Abort + Threads + Sync + AllocGlobal, P: Pick>(
    rt: &R,
    text: &[u8],
    form: ChartForm,
    workers: usize,
    picker: &mut P,
) -> Result<(u8, MemOut), Fail> {
    let settings = Settings::new(workers, LIMIT).ok_or("settings")?;
    let mut out = MemOut::new(rt.alloc(), 1_000_000, 7, None)?;
    let verdict = chart_again(rt, text, form, settings, picker, &mut out)?;
    Ok((verdict.status(), out))
}

const FAILS: &str =
    "trio-job 1\njob m { nursery n { start a { sleep 2; raise A; } start b { forever; } } }";

const WHOLE: &[u8] = b"             0  2 3
m            |----| raised n[A(a@2)]
  nursery n  (====x caught
a            |--! raised A(a@2)
b            |----x cancelled
";

const CLEANS: &str =
    "trio-job 1\njob m { scope s after 1 { try { forever; } finally { scope c shield { sleep 8; } } } }";

const CLEANED: &[u8] = b"           0 1    9
m          |-x----| done
  scope s  (=x====) caught
  scope c    (====) passed
";

const LATE: &[u8] = b"   0       100
m  |-------- running
limit 100
";

// There is space for two ticks.
const NARROW: &str = "trio-job 1\njob m { sleep 1; sleep 1; raise A; }";

const NARROWED: &[u8] = b"   0 2
    1
m  |-! raised A(m@2)
";

// A server that sets an event in tick 3, and two tasks that wait for it.
const READY: &str =
    "trio-job 3\njob m { event up { nursery n { start server { sleep 3; set up; sleep 2; } start client over 2 { wait up; sleep 1; } } } }";

const SERVED: &[u8] = b"             0  3 4 5
m            |------| done
  nursery n  (======) passed
server       |--+---| done
client.0     |----| done
client.1     |----| done
";

// A job text, the width of its chart, the status, and the chart.
const CHARTS: &[(&str, usize, u8, &[u8])] = &[
    ("trio-job 1\njob m { }", 80, 0, b"   0\nm  | done\n"),
    (FAILS, 80, 1, WHOLE),
    (CLEANS, 80, 0, CLEANED),
    (NARROW, 20, 1, NARROWED),
    (
        "trio-job 1\njob m { cancel x; }",
        80,
        2,
        b"refused J9 NotEnclosing at 26\n",
    ),
    ("trio-job 1\njob m { sleep 101; }", 80, 3, LATE),
    (READY, 80, 0, SERVED),
    ("trio-job 3\njob m { event e { wait e; } }", 80, 3, LATE),
];

// Checks the status and the chart of a row, by some workers in one order of picks.
fn assert_chart<R: Abort + Threads + Sync + AllocGlobal, P: Pick>(
    rt: &R,
    row: &(&str, usize, u8, &[u8]),
    workers: usize,
    picker: &mut P,
) -> Result<(), Fail> {
    let (text, width, status, expected) = *row;
    let answer = chart_of(
        rt,
        text.as_bytes(),
        ChartForm::Text { width },
        workers,
        picker,
    )?;
    same_answer(text, &answer, status, expected)
}

#[test]
fn a_chart_has_a_row_for_each_bar(rt: HostRuntime) -> Result<(), Fail> {
    for i in 0..CHARTS.len() {
        assert_chart(&rt, &CHARTS[i], 1, &mut Forward)?;
        assert_chart(&rt, &CHARTS[i], 64, &mut Reverse)?;
    }
    Ok(())
}

// Returns whether some bytes begin and end so.
fn is_between(bytes: &[u8], first: &[u8], last: &[u8]) -> bool {
    bytes.starts_with(first) && bytes.ends_with(last)
}

#[test]
fn a_drawing_is_an_svg_document(rt: HostRuntime) -> Result<(), Fail> {
    let form = ChartForm::Svg { width: 80 };
    let (status, out) = chart_of(&rt, FAILS.as_bytes(), form, 1, &mut Forward)?;
    assert!(rt; status == 1);
    assert!(rt;
        is_between(
            out.taken(),
            b"<svg xmlns=\"http://www.w3.org/2000/svg\"",
            b"</svg>"
        )
    );
    Ok(())
}

// What the drawing of the server has: an arrow from its row to that of each task that waits.
const SERVED_ARROWS: &str =
    "<line class=\"arrow\" x1=\"158\" y1=\"104\" x2=\"158\" y2=\"128\"><title>tick 3
  server  sets event up
  server  sleeps until 5
</title></line><line class=\"arrow\" x1=\"158\" y1=\"104\" x2=\"158\" y2=\"152\"><title>tick 3
  server  sets event up
  server  sleeps until 5
</title></line>";

#[test]
fn an_event_that_is_set_has_arrows_to_the_waits(rt: HostRuntime) -> Result<(), Fail> {
    let form = ChartForm::Svg { width: 80 };
    let (status, out) = chart_of(&rt, READY.as_bytes(), form, 1, &mut Forward)?;
    assert!(rt; status == 0);
    let drawn = str::from_utf8(out.taken()).unwrap_or("?");
    assert!(rt; drawn.contains(SERVED_ARROWS));
    Ok(())
}

// A task that holds the only token of a limiter until tick 3, and another one that waits for it.
const POOL: &str =
    "trio-job 3\njob m { limiter l 1 { nursery n { start a { acquire l { sleep 3; } } start b { acquire l { } } } } }";

// An arrow from the task that gives the token back to the one that gets it.
const POOL_ARROW: &str =
    "<line class=\"arrow\" x1=\"158\" y1=\"104\" x2=\"158\" y2=\"128\"><title>tick 3
  a  gives its token of l back
  a  ends: done
</title></line>";

// A task that receives twice, and one that sends once and closes the channel.
const QUEUE: &str =
    "trio-job 3\njob m { channel q 0 { nursery n { start r { receive q { } try { receive q { } } except EndOfChannel { } } start s { sleep 3; send q; sleep 1; close q; } } } }";

// Arrows from the task that sends, and closes the channel, to the one that receives.
const QUEUE_ARROWS: &str =
    "<line class=\"arrow\" x1=\"158\" y1=\"128\" x2=\"158\" y2=\"104\"><title>tick 3
  s  sends to q
  s  sleeps until 4
</title></line><line class=\"arrow\" x1=\"186\" y1=\"128\" x2=\"186\" y2=\"104\"><title>tick 4
  s  closes q
  s  ends: done
</title></line>";

#[test]
fn waits_in_queues_have_arrows_from_who_ended_them(rt: HostRuntime) -> Result<(), Fail> {
    let form = ChartForm::Svg { width: 80 };
    let (_, pool) = chart_of(&rt, POOL.as_bytes(), form, 1, &mut Forward)?;
    assert!(rt;
        str::from_utf8(pool.taken())
            .unwrap_or("?")
            .contains(POOL_ARROW)
    );
    let (_, queue) = chart_of(&rt, QUEUE.as_bytes(), form, 1, &mut Forward)?;
    assert!(rt;
        str::from_utf8(queue.taken())
            .unwrap_or("?")
            .contains(QUEUE_ARROWS)
    );
    Ok(())
}

// The first ten bytes of the chart.
const FRONT: &[u8] = b"          ";

#[test]
fn a_writer_that_fails_has_the_beginning_of_a_chart(rt: HostRuntime) -> Result<(), Fail> {
    let settings = Settings::new(1, LIMIT).ok_or("settings")?;
    let mut out = MemOut::new(rt.alloc(), 10, 7, None)?;
    let form = ChartForm::Text { width: 80 };
    let stopped = chart_again(
        &rt,
        FAILS.as_bytes(),
        form,
        settings,
        &mut Forward,
        &mut out,
    );
    assert!(rt; matches!(stopped, Err(ServeFault::Send { sent: 10 })));
    same("the chart", out.taken(), FRONT)
}
