//! What `sweep` writes of worked jobs: the same by 1, 3 and 64 threads; and why a text does not have the number that is meant.

use crate::fixtures::{LIMIT, call_again, same, same_answer, wrong};
use basics::place_at;
use commands::{Form, SweepVerdict, sweep};
use job_answers::ServeFault;
use job_edits::Target;
use job_report::{MemOut, Out, Question, send_answer};
use job_runner::{NoGate, Settings};
use job_tree::Name;
use refusal_text::pointed_message;
use std::alloc::{AllocError, Global};
use std::process::Abort;
use std::test::Fail;
use std::thread::Threads;
use trials::Missing;

// Calls `sweep` with a writer that has not failed.
fn sweep_into<R: Abort + Threads + Sync + AllocGlobal>(
    rt: &R,
    text: &[u8],
    settings: Settings,
    target: Target,
    values: &[u64],
    out: &mut MemOut,
) -> Result<SweepVerdict, ServeFault> {
    assert!(rt; out.failures() == 0);
    let alloc = rt.alloc();
    let question = Question {
        text,
        input: b"",
        settings,
    };
    let answer = sweep(rt, alloc, &question, target, values, Form::Text, &NoGate)?;
    let verdict = send_answer(answer, out)?;
    Ok(verdict)
}

// Calls `sweep`, again if memory runs out.
fn sweep_again<R: Abort + Threads + Sync + AllocGlobal>(
    rt: &R,
    text: &[u8],
    workers: usize,
    target: Target,
    values: &[u64],
    out: &mut MemOut,
) -> Result<SweepVerdict, Fail> {
    let settings = Settings::new(workers, LIMIT).ok_or("settings")?;
    let answer = call_again!(rt, out, sweep_into(rt, text, settings, target, values, out));
    Ok(answer?)
}

// The number that is meant: that of a scope, nursery, limiter or channel, or the number at a line and a column.
#[derive(Clone, Copy)]
enum Asked {
    Of(&'static str),
    At(usize, usize),
}

// Returns the same as a target.
fn target_of(asked: Asked) -> Result<Target, Fail> {
    match asked {
        Asked::Of(name) => {
            let name = Name::new(name.as_bytes()).ok_or("name")?;
            Ok(Target::NumberOf(name))
        }
        Asked::At(line, column) => Ok(Target::At { line, column }),
    }
}

// Returns the status of a sweep, and what it writes.
fn answer_of<R: Abort + Threads + Sync + AllocGlobal>(
    rt: &R,
    text: &str,
    workers: usize,
    asked: Asked,
    values: &[u64],
) -> Result<(u8, MemOut), Fail> {
    let target = target_of(asked)?;
    let mut out = MemOut::new(rt.alloc(), 100_000, 7, None)?;
    let verdict = sweep_again(rt, text.as_bytes(), workers, target, values, &mut out)?;
    Ok((verdict.status(), out))
}

const LATE: &str = "trio-job 1\njob m { scope s after 2 fail { sleep 3; } }";

// According to docs/RULES.md, a sleeper that is due in the tick of its deadline is cancelled.
const OF_LATE: &[u8] = b"as it is  raised TooSlow(s), ends 2
1..3      raised TooSlow(s), ends 1..3
4..5      done, ends 3
5 values: 0 stuck, 0 cut a cleanup
";

const PACED: &str = "trio-job 1\njob m { sleep 99; pace 1; sleep 1; }";

const OF_PACED: &[u8] = b"as it is  done, ends 100
0..1      done, ends 99..100
2         stuck at 100
3 values: 1 stuck, 0 cut a cleanup
";

#[test]
fn a_deadline_takes_each_value(rt: HostRuntime) -> Result<(), Fail> {
    for workers in [1, 3, 64] {
        let answer = answer_of(&rt, LATE, workers, Asked::Of("s"), &[1, 2, 3, 4, 5])?;
        same_answer(LATE, &answer, 0, OF_LATE)?;
    }
    Ok(())
}

const LIMITED: &str =
    "trio-job 3\njob m { limiter l 1 { nursery n { start t over 2 { acquire l { sleep 2; } } } } }";

const OF_LIMITED: &[u8] = b"as it is  done, ends 4
0         refused
1..3      done, ends 2..4
4 values: 0 stuck, 0 cut a cleanup, 1 refused
";

#[test]
fn a_limiter_has_each_number_of_tokens(rt: HostRuntime) -> Result<(), Fail> {
    let answer = answer_of(&rt, LIMITED, 2, Asked::Of("l"), &[0, 1, 2, 3])?;
    same_answer(LIMITED, &answer, 0, OF_LIMITED)
}

#[test]
fn the_number_at_a_place_takes_each_value(rt: HostRuntime) -> Result<(), Fail> {
    let answer = answer_of(&rt, PACED, 2, Asked::At(2, 33), &[0, 1, 2])?;
    same_answer(PACED, &answer, 0, OF_PACED)
}

#[test]
fn a_refused_text_has_its_refusal(rt: HostRuntime) -> Result<(), Fail> {
    let text = "trio-job 1\njob m { cancel x; }";
    let answer = answer_of(&rt, text, 1, Asked::Of("s"), &[1])?;
    same_answer(text, &answer, 2, b"refused J9 NotEnclosing at 26\n")
}

// Returns why the text does not have the number that is meant, in words. Nothing is written.
fn reason_of<R: Abort + Threads + Sync + AllocGlobal>(
    rt: &R,
    text: &str,
    asked: Asked,
) -> Result<String, Fail> {
    let target = target_of(asked)?;
    let mut out = MemOut::new(rt.alloc(), 100_000, 7, None)?;
    let verdict = sweep_again(rt, text.as_bytes(), 1, target, &[1], &mut out)?;
    assert!(rt; verdict.status() == 2);
    assert!(rt; out.taken().is_empty());
    match verdict {
        SweepVerdict::NoTarget(missing) => words_of(rt.alloc(), &missing),
        SweepVerdict::Lines | SweepVerdict::JobRefused(_) => Err("the number is there")?,
    }
}

// Returns a reason in words.
fn words_of(alloc: Global, missing: &Missing) -> Result<String, Fail> {
    match missing {
        Missing::NoBlock { nearest } => Ok(nearest_words(alloc, nearest)?),
        Missing::NoDeadline => Ok(String::from_str(alloc, "no deadline")?),
        Missing::NoPlace => Ok(String::from_str(alloc, "no place")?),
        Missing::NoNumber { at } => Ok(format!(in alloc; "no number at {at}")?),
    }
}

// Returns the nearest name in words.
fn nearest_words(alloc: Global, nearest: &Option<Name>) -> Result<String, AllocError> {
    match nearest {
        Some(name) => {
            let name = str::from_utf8(name.bytes()).unwrap_or("?");
            format!(in alloc; "the nearest is {name}")
        }
        None => String::from_str(alloc, "none is near"),
    }
}

const BLOCKS: &str = "trio-job 1\njob m { scope limit { } nursery calls { } }";

// A job text, the number that is meant, and why the text does not have it.
const REASONS: &[(&str, Asked, &str)] = &[
    (BLOCKS, Asked::Of("call"), "the nearest is calls"),
    ("trio-job 1\njob m { }", Asked::Of("call"), "none is near"),
    (BLOCKS, Asked::Of("limit"), "no deadline"),
    (
        "trio-job 3\njob m { limiter pool 1 { } }",
        Asked::Of("poll"),
        "the nearest is pool",
    ),
    (BLOCKS, Asked::At(3, 1), "no place"),
    (BLOCKS, Asked::At(2, 5), "no number at 15"),
];

#[test]
fn a_missing_number_is_refused_with_the_reason(rt: HostRuntime) -> Result<(), Fail> {
    for i in 0..REASONS.len() {
        let (text, asked, reason) = REASONS[i];
        let found = reason_of(&rt, text, asked)?;
        same(text, found.as_bytes(), reason.as_bytes())?;
    }
    Ok(())
}

// A line and a column of the text below, and the place there.
const PLACES: &[(usize, usize, Option<usize>)] = &[
    (1, 1, Some(0)),
    (1, 3, Some(2)),
    (2, 1, Some(3)),
    (3, 2, Some(5)),
    (1, 4, None),
    (4, 1, None),
    (0, 1, None),
];

#[test]
fn places_have_a_line_and_a_column() -> Result<(), Fail> {
    for i in 0..PLACES.len() {
        let (line, column, place) = PLACES[i];
        if place_at(b"ab\n\nc", line, column) != place {
            return Err(wrong(i));
        }
    }
    Ok(())
}

#[test]
fn a_place_is_pointed_at(rt: HostRuntime) -> Result<(), Fail> {
    let message = pointed_message(rt.alloc(), "f", b"one\ntwo\n", 5, "here")?;
    same("the message", message.as_bytes(), b"f:2:2: here\ntwo\n ^\n")
}
