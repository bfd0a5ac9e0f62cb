//! What `faults` writes of worked jobs: the same by 1, 3 and 64 threads; and the lines of it that are denied.

use crate::fixtures::{LIMIT, call_again, same, same_answer};
use commands::{FaultsVerdict, Form, faults};
use job_answers::ServeFault;
use job_report::{MemOut, Out, Question, send_answer};
use job_runner::{NoGate, Settings};
use job_tree::Name;
use outcomes::{Deny, Options};
use std::alloc::Global;
use std::process::Abort;
use std::test::Fail;
use std::thread::Threads;

// What a build may deny, all of it.
const ALL: Deny = Deny {
    stuck: true,
    cut: true,
    lost: true,
};

// Returns the options with which a step that fails raises an exception with this name, and all is denied.
fn options_of(alloc: Global, name: &[u8]) -> Result<Options, Fail> {
    let mut names = Vec::new(alloc);
    names.push(Name::new(name).ok_or("name")?)?;
    Ok(Options {
        names,
        each: false,
        brief: false,
        deny: ALL,
    })
}

// Calls `faults` with a writer that has not failed.
fn faults_into<R: Abort + Threads + Sync + AllocGlobal>(
    rt: &R,
    text: &[u8],
    settings: Settings,
    options: &Options,
    out: &mut MemOut,
) -> Result<FaultsVerdict, ServeFault> {
    assert!(rt; out.failures() == 0);
    let alloc = rt.alloc();
    let question = Question {
        text,
        input: b"",
        settings,
    };
    let answer = faults(rt, alloc, &question, options, Form::Text, &NoGate)?;
    let verdict = send_answer(answer, out)?;
    Ok(verdict)
}

// Calls `faults`, again if memory runs out.
fn faults_again<R: Abort + Threads + Sync + AllocGlobal>(
    rt: &R,
    text: &[u8],
    workers: usize,
    out: &mut MemOut,
) -> Result<FaultsVerdict, Fail> {
    let settings = Settings::new(workers, LIMIT).ok_or("settings")?;
    let options = options_of(rt.alloc(), b"Fault")?;
    let answer = call_again!(rt, out, faults_into(rt, text, settings, &options, out));
    Ok(answer?)
}

// Returns the status of a table, and the table.
fn table_of<R: Abort + Threads + Sync + AllocGlobal>(
    rt: &R,
    text: &[u8],
    workers: usize,
) -> Result<(u8, MemOut), Fail> {
    let mut out = MemOut::new(rt.alloc(), 100_000, 7, None)?;
    let verdict = faults_again(rt, text, workers, &mut out)?;
    Ok((verdict.status(), out))
}

// Returns the lines of a table that are denied.
fn denied_of<R: Abort + Threads + Sync + AllocGlobal>(
    rt: &R,
    text: &[u8],
    workers: usize,
) -> Result<Vec<u8>, Fail> {
    let mut out = MemOut::new(rt.alloc(), 100_000, 7, None)?;
    match faults_again(rt, text, workers, &mut out)? {
        FaultsVerdict::Lines { denied } => Ok(denied),
        _ => Err("a refusal")?,
    }
}

const FAILS: &str = "trio-job 1\njob m { sleep 2; raise Boom; }";

const HANGS: &[u8] = b"2:9  sleep 2  hangs       stuck at 100; sleeping forever: m\n";

const OF_FAILS: &[u8] = b"              as it is    2 raised Boom(m@2)
2:9  sleep 2  fails       0 raised Fault(m@0)
2:9  sleep 2  fails late  2 raised Fault(m@2)
2:9  sleep 2  hangs       stuck at 100; sleeping forever: m
2:9  sleep 2  cancelled   1 done
4 faults: 1 stuck, 0 cut a cleanup, 0 lost, 0 not reached
";

const CLEANS: &str =
    "trio-job 1\njob m { try { checkpoint; } finally { raise Other; } need \"x\" Gone; }";

const LOSES: &[u8] = b"2:15  checkpoint     fails      0 raised Other(m@0); fault lost\n";

const OF_CLEANS: &[u8] = b"                     as it is   0 raised Other(m@0)
2:15  checkpoint     fails      0 raised Other(m@0); fault lost
2:15  checkpoint     hangs      stuck at 100; sleeping forever: m
2:15  checkpoint     cancelled  0 raised Other(m@0)
2:54  need \"x\" Gone  misses     0 raised Other(m@0); not reached
4 faults: 1 stuck, 0 cut a cleanup, 1 lost, 1 not reached
";

const WAITS: &str = "trio-job 3\njob m { event e { set e; wait e; } }";

const OF_WAITS: &[u8] = b"              as it is    0 done
2:26  wait e  fails       0 raised Fault(m@0)
2:26  wait e  fails late  0 raised Fault(m@0)
2:26  wait e  hangs       stuck at 100; sleeping forever: m
2:26  wait e  cancelled   0 done
4 faults: 1 stuck, 0 cut a cleanup, 0 lost, 0 not reached
";

const HOLDS: &str = "trio-job 3\njob m { limiter l 1 { acquire l { sleep 1; } } }";

const OF_HOLDS: &[u8] = b"                 as it is    1 done
2:23  acquire l  fails       0 raised Fault(m@0)
2:23  acquire l  fails late  0 raised Fault(m@0)
2:23  acquire l  hangs       stuck at 100; sleeping forever: m
2:23  acquire l  cancelled   0 done
2:35  sleep 1    fails       0 raised Fault(m@0)
2:35  sleep 1    fails late  1 raised Fault(m@1)
2:35  sleep 1    hangs       stuck at 100; sleeping forever: m
2:35  sleep 1    cancelled   0 done
8 faults: 2 stuck, 0 cut a cleanup, 0 lost, 0 not reached
";

const SENDS: &str = "trio-job 3\njob m { channel q 1 { send q; receive q { } close q; } }";

const OF_SENDS: &[u8] = b"                 as it is    0 done
2:23  send q     fails       0 raised Fault(m@0)
2:23  send q     fails late  0 raised Fault(m@0)
2:23  send q     hangs       stuck at 100; sleeping forever: m
2:23  send q     cancelled   0 done
2:31  receive q  fails       0 raised Fault(m@0)
2:31  receive q  fails late  0 raised Fault(m@0)
2:31  receive q  hangs       stuck at 100; sleeping forever: m
2:31  receive q  cancelled   0 done
8 faults: 2 stuck, 0 cut a cleanup, 0 lost, 0 not reached
";

// A job text, the status, and what is written.
const TABLES: &[(&str, u8, &[u8])] = &[
    (FAILS, 1, OF_FAILS),
    (WAITS, 1, OF_WAITS),
    (HOLDS, 1, OF_HOLDS),
    (SENDS, 1, OF_SENDS),
    (CLEANS, 1, OF_CLEANS),
    (
        "trio-job 1\njob m { }",
        0,
        b"    as it is  0 done\n0 faults: 0 stuck, 0 cut a cleanup, 0 lost, 0 not reached\n",
    ),
    (
        "trio-job 1\njob m { cancel x; }",
        2,
        b"refused J9 NotEnclosing at 26\n",
    ),
];

// Checks the status and the table of a row by 1, 3 and 64 threads.
fn assert_table<R: Abort + Threads + Sync + AllocGlobal>(
    rt: &R,
    row: &(&str, u8, &[u8]),
) -> Result<(), Fail> {
    let (text, status, expected) = *row;
    for workers in [1, 3, 64] {
        let answer = table_of(rt, text.as_bytes(), workers)?;
        same_answer(text, &answer, status, expected)?;
    }
    Ok(())
}

#[test]
fn faults_are_listed_in_the_order_of_their_places(rt: HostRuntime) -> Result<(), Fail> {
    for i in 0..TABLES.len() {
        assert_table(&rt, &TABLES[i])?;
    }
    Ok(())
}

#[test]
fn denied_lines_are_reported_unchanged(rt: HostRuntime) -> Result<(), Fail> {
    let hangs = denied_of(&rt, FAILS.as_bytes(), 1)?;
    same("what is denied", hangs.as_slice(), HANGS)?;
    let loses = denied_of(&rt, CLEANS.as_bytes(), 2)?;
    assert!(rt; loses.as_slice().starts_with(LOSES));
    Ok(())
}
