//! The stories that `explain` writes of worked jobs: the same under each order of picks, by 1 and by 64 workers.

use crate::fixtures::{LIMIT, call_again, same, same_answer};
use job_answers::{ServeFault, StoryVerdict, explain, running_at_limit};
use job_report::{MemOut, Out, Question, send_answer};
use job_runner::{Forward, NoGate, Pick, Reverse, Settings};
use std::process::Abort;
use std::test::Fail;
use std::thread::Threads;

// Calls `explain` with a writer that has not failed.
fn explain_into<R: Abort + Threads + Sync + AllocGlobal, P: Pick>(
    rt: &R,
    text: &[u8],
    task: Option<&[u8]>,
    settings: Settings,
    picker: &mut P,
    out: &mut MemOut,
) -> Result<StoryVerdict, ServeFault> {
    assert!(rt; out.failures() == 0);
    let alloc = rt.alloc();
    let question = Question {
        text,
        input: b"",
        settings,
    };
    let answer = explain(rt, alloc, &question, task, picker, &NoGate)?;
    let verdict = send_answer(answer, out)?;
    Ok(verdict)
}

// Calls `explain`, again if memory runs out.
fn explain_again<R: Abort + Threads + Sync + AllocGlobal, P: Pick>(
    rt: &R,
    text: &[u8],
    task: Option<&[u8]>,
    settings: Settings,
    picker: &mut P,
    out: &mut MemOut,
) -> Result<StoryVerdict, ServeFault> {
    call_again!(rt, out, explain_into(rt, text, task, settings, picker, out))
}

// Returns the status and the story of a job text, or of a task.
fn story_of<R: Abort + Threads + Sync + AllocGlobal, P: Pick>(
    rt: &R,
    text: &[u8],
    task: Option<&[u8]>,
    workers: usize,
    picker: &mut P,
) -> Result<(u8, MemOut), Fail> {
    let settings = Settings::new(workers, LIMIT).ok_or("settings")?;
    let mut out = MemOut::new(rt.alloc(), 1_000_000, 7, None)?;
    let verdict = explain_again(rt, text, task, settings, picker, &mut out)?;
    Ok((verdict.status(), out))
}

const FAILS: &str =
    "trio-job 1\njob m { nursery n { start a { sleep 2; raise A; } start b { forever; } } }";

const WHOLE: &[u8] = b"tick 0
  m  starts
  m  enters nursery n
  a  starts in nursery n
  a  sleeps until 2
  b  starts in nursery n
  b  sleeps forever
  m  waits for nursery n
tick 2
  a  raises A
  a  ends: raised A(a@2); nursery n is cancelled from 3
tick 3
  b  is cancelled while sleeping since 0 by nursery n (a failed at 2)
  b  ends: cancelled
  m  leaves nursery n: cancellation caught, n[A(a@2)] propagates
  m  ends: raised n[A(a@2)]
";

const OF_A: &[u8] = b"tick 0
  a  starts in nursery n
  a  sleeps until 2
tick 2
  a  raises A
  a  ends: raised A(a@2); nursery n is cancelled from 3
";

const LATE: &[u8] = b"tick 0
  m  starts
  m  sleeps until 101
limit 100
  m  sleeping until 101 since 0
";

// Three clients of a limiter with one token.
const POOL: &str =
    "trio-job 3\njob m { limiter l 1 { nursery n { start a { acquire l { sleep 3; } } start b { acquire l { } } start c { acquire l { } } } } }";

const POOLED: &[u8] = b"tick 0
  m  starts
  m  enters limiter l (1 token)
  m  enters nursery n
  m  waits for nursery n
  a  starts in nursery n
  b  starts in nursery n
  b  waits for a token of l (1 of 1 in use, first in the queue)
  c  starts in nursery n
  c  waits for a token of l (1 of 1 in use, second in the queue)
  a  gets a token of l at once
  a  sleeps until 3
tick 3
  a  gives its token of l back
  a  ends: done
  b  gets a token of l (given back by a)
  b  gives its token of l back
  b  ends: done
  c  gets a token of l (given back by b)
  c  gives its token of l back
  c  ends: done
  m  leaves nursery n: completed
  m  ends: done
";

const OF_B: &[u8] = b"tick 0
  b  starts in nursery n
  b  waits for a token of l (1 of 1 in use, first in the queue)
tick 3
  b  gets a token of l (given back by a)
  b  gives its token of l back
  b  ends: done
";

// A task that receives twice, and one that sends once and closes the channel.
const QUEUE: &str =
    "trio-job 3\njob m { channel q 0 { nursery n { start r { receive q { } try { receive q { } } except EndOfChannel { } } start s { sleep 3; send q; sleep 1; close q; } } } }";

const QUEUED: &[u8] = b"tick 0
  m  starts
  m  enters channel q (0 places)
  m  enters nursery n
  m  waits for nursery n
  r  starts in nursery n
  r  waits to receive from q (empty)
  s  starts in nursery n
  s  sleeps until 3
tick 3
  r  receives from q (sent by s)
  r  waits to receive from q (empty)
  s  sends to q
  s  sleeps until 4
tick 4
  s  closes q
  s  ends: done
  r  finds q closed and empty (closed by s)
  r  handles EndOfChannel(r@4)
  r  ends: done
  m  leaves nursery n: completed
  m  ends: done
";

// Two tasks that ask for the tokens of two limiters in two orders.
const STUCK: &str =
    "trio-job 3\njob m { limiter a 1 { limiter b 1 { nursery n { start l { acquire a { sleep 1; acquire b { } } } start r { acquire b { sleep 2; acquire a { } } } } } } }";

const DEADLOCKED: &[u8] = b"tick 0
  m  starts
  m  enters limiter a (1 token)
  m  enters limiter b (1 token)
  m  enters nursery n
  m  waits for nursery n
  l  starts in nursery n
  r  starts in nursery n
  l  gets a token of a at once
  l  sleeps until 1
  r  gets a token of b at once
  r  sleeps until 2
tick 1
  l  waits for a token of b (1 of 1 in use, first in the queue)
tick 2
  r  waits for a token of a (1 of 1 in use, first in the queue)
limit 100
  m  waiting for nursery n since 0
  l  waiting for a token of b since 1
  r  waiting for a token of a since 2
deadlock: l holds a and waits for b; r holds b and waits for a
";

// A job text, the task that is requested, the status, and the story.
const STORIES: &[(&str, Option<&[u8]>, u8, &[u8])] = &[
    (
        "trio-job 1\njob m { }",
        None,
        0,
        b"tick 0\n  m  starts\n  m  ends: done\n",
    ),
    (FAILS, None, 1, WHOLE),
    (FAILS, Some(b"a"), 1, OF_A),
    (FAILS, Some(b"c"), 2, b""),
    (
        "trio-job 1\njob m { cancel x; }",
        None,
        2,
        b"refused J9 NotEnclosing at 26\n",
    ),
    ("trio-job 1\njob m { sleep 101; }", None, 3, LATE),
    (POOL, None, 0, POOLED),
    (POOL, Some(b"b"), 0, OF_B),
    (QUEUE, None, 0, QUEUED),
    (STUCK, None, 3, DEADLOCKED),
];

// Checks the status and the story of a row, by some workers in one order of picks.
fn assert_story<R: Abort + Threads + Sync + AllocGlobal, P: Pick>(
    rt: &R,
    row: &(&str, Option<&[u8]>, u8, &[u8]),
    workers: usize,
    picker: &mut P,
) -> Result<(), Fail> {
    let (text, task, status, expected) = *row;
    let answer = story_of(rt, text.as_bytes(), task, workers, picker)?;
    same_answer(text, &answer, status, expected)
}

#[test]
fn explain_writes_the_story(rt: HostRuntime) -> Result<(), Fail> {
    for i in 0..STORIES.len() {
        assert_story(&rt, &STORIES[i], 1, &mut Forward)?;
        assert_story(&rt, &STORIES[i], 64, &mut Reverse)?;
    }
    Ok(())
}

// The text of the label of the task that is nearest to `raeder`.
const NEAREST: &[u8] = b"reader";

// The first ten bytes of the story.
const FRONT: &[u8] = b"tick 0\n  m";

// What the tasks are doing at tick 1.
const RUNNING: &[u8] = b"  m  waiting for nursery n since 0
  a  sleeping until 2 since 0
  b  sleeping forever since 0
";

#[test]
fn the_nearest_task_is_named(rt: HostRuntime) -> Result<(), Fail> {
    let settings = Settings::new(1, LIMIT).ok_or("settings")?;
    let mut out = MemOut::new(rt.alloc(), 1_000, 7, None)?;
    let text = b"trio-job 1\njob main { nursery n { start reader { } start p over 2 { } } }";
    let verdict = explain_again(&rt, text, Some(b"raeder"), settings, &mut Forward, &mut out)?;
    let StoryVerdict::NoTask { nearest } = verdict else {
        return Err(Fail::from("a story"));
    };
    same("the nearest task", nearest.as_slice(), NEAREST)
}

#[test]
fn a_writer_that_fails_has_the_beginning_of_a_story(rt: HostRuntime) -> Result<(), Fail> {
    let settings = Settings::new(1, LIMIT).ok_or("settings")?;
    let mut out = MemOut::new(rt.alloc(), 10, 7, None)?;
    let stopped = explain_again(
        &rt,
        FAILS.as_bytes(),
        None,
        settings,
        &mut Forward,
        &mut out,
    );
    assert!(rt; matches!(stopped, Err(ServeFault::Send { sent: 10 })));
    same("the story", out.taken(), FRONT)
}

#[test]
fn what_still_runs_at_the_limit_is_listed(rt: HostRuntime) -> Result<(), Fail> {
    let settings = Settings::new(1, 1).ok_or("settings")?;
    let question = Question {
        text: FAILS.as_bytes(),
        input: b"",
        settings,
    };
    let lines = running_at_limit(&rt, rt.alloc(), &question, &mut Forward, &NoGate)?;
    same("what still runs", lines.as_slice(), RUNNING)
}
