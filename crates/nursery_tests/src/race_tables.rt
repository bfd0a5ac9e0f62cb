//! What `races` writes of worked jobs: the same by 1, 3 and 64 threads; the lines of it that are denied; and why nothing is
//! written.

use crate::fixtures::{LIMIT, call_again, same, same_answer};
use commands::{Form, RacesVerdict, races};
use job_answers::ServeFault;
use job_report::{MemOut, Out, Question, send_answer};
use job_runner::{NoGate, Settings};
use std::process::Abort;
use std::test::Fail;
use std::thread::Threads;

// Calls `races` over three lines with a writer that has not failed. Races are denied.
fn races_into<R: Abort + Threads + Sync + AllocGlobal>(
    rt: &R,
    text: &[u8],
    settings: Settings,
    out: &mut MemOut,
) -> Result<RacesVerdict, ServeFault> {
    assert!(rt; out.failures() == 0);
    let question = Question {
        text,
        input: b"GET /a\nGET /b\nGET /c\n",
        settings,
    };
    let answer = races(rt, rt.alloc(), &question, true, Form::Text, &NoGate)?;
    let verdict = send_answer(answer, out)?;
    Ok(verdict)
}

// Calls `races` over three lines with a writer that has not failed, and calls it again if memory runs out.
fn races_again<R: Abort + Threads + Sync + AllocGlobal>(
    rt: &R,
    text: &[u8],
    workers: usize,
    out: &mut MemOut,
) -> Result<RacesVerdict, Fail> {
    let settings = Settings::new(workers, LIMIT).ok_or("settings")?;
    let answer = call_again!(rt, out, races_into(rt, text, settings, out));
    Ok(answer?)
}

// Returns the status of a table, and the table.
fn table_of<R: Abort + Threads + Sync + AllocGlobal>(
    rt: &R,
    text: &[u8],
    workers: usize,
) -> Result<(u8, MemOut), Fail> {
    let mut out = MemOut::new(rt.alloc(), 100_000, 7, None)?;
    let verdict = races_again(rt, text, workers, &mut out)?;
    Ok((verdict.status(), out))
}

// Returns the lines of a table that are denied.
fn denied_of<R: Abort + Threads + Sync + AllocGlobal>(
    rt: &R,
    text: &[u8],
    workers: usize,
) -> Result<Vec<u8>, Fail> {
    let mut out = MemOut::new(rt.alloc(), 100_000, 7, None)?;
    match races_again(rt, text, workers, &mut out)? {
        RacesVerdict::Lines { denied } => Ok(denied),
        _ => Err("no table")?,
    }
}

const MEETS: &str =
    "trio-job 1\njob copies { nursery n { start worker over 3 { sleep 2; find \"GET\"; cancel n; } } }";

const OF_MEETS: &[u8] = b"2:26  start worker over 3  copies  worker.0 and worker.1 meet at 2
3 hairs: 1 races
";

const LATE: &str = "trio-job 1
job fallback { scope budget after 8 fail {
  try { nursery both { start a { sleep 4; raise Refused; } start b { sleep 20; } } }
  except Refused { sleep 3; find \"cache\"; } } }";

const OF_LATE: &[u8] = b"    finer  fallback: raised TooSlow(budget) -> done
10 hairs: 1 races
";

const LOST: &str = "trio-job 1
job res { nursery n { start use { sleep 4; raise Bad; } start unshielded { try { sleep 2; raise DiskFull; } finally { sleep 2; } } } }";

const OF_LOST: &[u8] =
    b" 2:23  start use         later    res: raised n[Bad(use), DiskFull(unshielded)] -> raised n[DiskFull(unshielded)]; use: raised Bad(use) -> cancelled
 2:35  sleep 4           earlier  res: raised n[Bad(use), DiskFull(unshielded)] -> raised n[Bad(use)]; unshielded: raised DiskFull(unshielded) -> cancelled
 2:35  sleep 4           later    res: raised n[Bad(use), DiskFull(unshielded)] -> raised n[DiskFull(unshielded)]; use: raised Bad(use) -> cancelled
 2:57  start unshielded  later    res: raised n[Bad(use), DiskFull(unshielded)] -> raised n[Bad(use)]; unshielded: raised DiskFull(unshielded) -> cancelled
 2:82  sleep 2           earlier  res: raised n[Bad(use), DiskFull(unshielded)] -> raised n[DiskFull(unshielded)]; use: raised Bad(use) -> cancelled
 2:82  sleep 2           later    res: raised n[Bad(use), DiskFull(unshielded)] -> raised n[Bad(use)]; unshielded: raised DiskFull(unshielded) -> cancelled
2:119  sleep 2           earlier  res: raised n[Bad(use), DiskFull(unshielded)] -> raised n[DiskFull(unshielded)]; use: raised Bad(use) -> cancelled
2:119  sleep 2           later    res: raised n[Bad(use), DiskFull(unshielded)] -> raised n[Bad(use)]; unshielded: raised DiskFull(unshielded) -> cancelled
8 hairs: 8 races
";

const BOTH: &str = "trio-job 1
job both {
  nursery pair {
    start a { sleep 5; cancel pair; }
    start b { sleep 5; }
  }
}";

const OF_BOTH: &[u8] = b"4:15  sleep 5  earlier  both: other lines or scopes; b: done -> cancelled
 5:5  start b  later    both: other lines or scopes; b: done -> cancelled
5:15  sleep 5  later    both: other lines or scopes; b: done -> cancelled
6 hairs: 3 races
";

// An event that is set in the round in which the nursery of its waiter is cancelled.
const ROUND: &str = "trio-job 3
job m{event e{nursery n{start a{wait e;}start b{checkpoint;cancel n;}checkpoint;checkpoint;set e;}}}";

const OF_ROUND: &[u8] = b"2:25  start a     later  m: other lines or scopes; a: done -> cancelled
2:33  wait e      later  m: other lines or scopes; a: done -> cancelled
2:70  checkpoint  later  m: other lines or scopes; a: done -> cancelled
2:81  checkpoint  later  m: other lines or scopes; a: done -> cancelled
2:92  set e       later  m: other lines or scopes; a: done -> cancelled
7 hairs: 5 races
";

const LOOPS: &str = "trio-job 3
job m{nursery n{repeat 3{start w{sleep 1;cancel n;}}}}";

const OF_LOOPS: &[u8] = b"2:26  start w  copies  w.0 and w.1 meet at 1
3 hairs: 1 races
";

// A channel that is closed in the round in which something is sent.
const CLOSES: &str = "trio-job 3
job m{channel q 2{nursery n{start a{send q;}checkpoint;close q;}}}";

const OF_CLOSES: &[u8] =
    b"2:45  checkpoint  later  m: raised n[ClosedResource(a)] -> done; a: raised ClosedResource(a) -> done
2:56  close q     later  m: raised n[ClosedResource(a)] -> done; a: raised ClosedResource(a) -> done
4 hairs: 2 races
";

// A job text, the status, and what is written.
const TABLES: &[(&str, u8, &[u8])] = &[
    (MEETS, 1, OF_MEETS),
    (ROUND, 1, OF_ROUND),
    (LOOPS, 1, OF_LOOPS),
    (CLOSES, 1, OF_CLOSES),
    (
        "trio-job 3\njob m { limiter l 1 { acquire l { } } }",
        0,
        b"2 hairs: no race\n",
    ),
    (
        "trio-job 3\njob m { event e { set e; wait e; } }",
        0,
        b"2 hairs: no race\n",
    ),
    (LATE, 1, OF_LATE),
    (LOST, 1, OF_LOST),
    (BOTH, 1, OF_BOTH),
    (
        "trio-job 1\njob m { sleep 3; checkpoint; }",
        0,
        b"3 hairs: no race\n",
    ),
    ("trio-job 1\njob m { sleep 101; }", 3, b"limit 100\n"),
    (
        "trio-job 1\njob m { scope s after 100000001 { sleep 1; } }",
        2,
        b"",
    ),
    (
        "trio-job 1\njob m { cancel x; }",
        2,
        b"refused J9 NotEnclosing at 26\n",
    ),
];

// Checks the status and the table of a row by 1, 3 and 64 threads.
fn assert_table<R: Abort + Threads + Sync + AllocGlobal>(
    rt: &R,
    row: &(&str, u8, &[u8]),
) -> Result<(), Fail> {
    let (text, status, expected) = *row;
    for workers in [1, 3, 64] {
        let answer = table_of(rt, text.as_bytes(), workers)?;
        same_answer(text, &answer, status, expected)?;
    }
    Ok(())
}

#[test]
fn races_are_listed_in_the_order_of_their_places(rt: HostRuntime) -> Result<(), Fail> {
    for i in 0..TABLES.len() {
        assert_table(&rt, &TABLES[i])?;
    }
    Ok(())
}

#[test]
fn denied_races_are_reported_without_the_counts(rt: HostRuntime) -> Result<(), Fail> {
    let denied = denied_of(&rt, MEETS.as_bytes(), 2)?;
    let (lines, _) = OF_MEETS.split_at(OF_MEETS.len() - 17);
    same("what is denied", denied.as_slice(), lines)
}
