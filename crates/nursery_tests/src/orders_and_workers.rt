//! Turns and requests of a run: which picks are requested, how many turns the tasks have, and when a gate is called.

ghost use Rattle.std.specs.Prelude.{◌<◌};

use crate::fixtures::{HALVES, LIMIT, run_of, same, serve_into, wrong};
use crate::nested_jobs::nested_job;
use job_reader::read_job;
use job_report::{MemOut, Out};
use job_runner::{
    Forward, Gate, NoGate, Outcome, Pick, Record, Reverse, ScopeFrom, Settings, Turn,
};
use std::process::Abort;
use std::sync::atomic::{AtomicU64, Ordering};
use std::test::Fail;
use std::thread::Threads;

// Checks the ticks in which tasks started and ended.
fn assert_ticks(records: &[Record<'_>], ticks: &[(u64, u64)]) -> Result<(), Fail> {
    if records.len() != ticks.len() {
        Err(("tasks", records.len()))?;
    }
    for i in 0..ticks.len() {
        if ticks_of(records.get(i)) != ticks[i] {
            return Err(wrong(i));
        }
    }
    Ok(())
}

// Returns the ticks in which a task started and ended.
fn ticks_of(record: Option<&Record<'_>>) -> (u64, u64) {
    match record {
        Some(record) => (record.from_tick, record.to_tick),
        None => (u64::MAX, u64::MAX),
    }
}

// Returns whether a task of that name with these indices ended without an exception.
fn is_done(record: Option<&Record<'_>>, name: &[u8], indices: &[u64]) -> bool {
    match record {
        Some(record) => {
            *record.label.name().bytes() == *name
                && *record.label.indices() == *indices
                && matches!(record.outcome, Outcome::Done)
        }
        None => false,
    }
}

// Checks how many turns a job takes in the order of a picker, with 64 workers, and the ticks of its tasks, of which the last
// ends without an exception.
fn assert_turns<R: Abort + Threads + Sync + AllocGlobal, P: Pick>(
    rt: &R,
    text: &[u8],
    picker: &mut P,
    turns: u64,
    ticks: &[(u64, u64)],
    (name, indices): (&[u8], &[u64]),
) -> Result<(), Fail> {
    let job = read_job(rt.alloc(), text)?;
    let done = run_of(rt, &job, b"", 64, picker, &NoGate)?;
    assert!(rt; done.turns() == turns);
    assert!(rt; is_done(done.records().last(), name, indices));
    assert_ticks(done.records(), ticks)
}

// The name and the indices of the root.
const MAIN: (&[u8], &[u64]) = (b"main", &[]);

const SIBLING_FAILS: &[u8] = b"trio-job 1
job main { nursery n {
  start a { sleep 2; raise Boom; } start b { sleep 10; } start c { sleep 2; }
} }";

#[test]
fn each_order_takes_the_same_turns(rt: HostRuntime) -> Result<(), Fail> {
    let ticks = &[(0, 3), (0, 2), (0, 3), (0, 2)];
    let last = (b"c".as_slice(), [].as_slice());
    assert_turns(&rt, SIBLING_FAILS, &mut Forward, 8, ticks, last)?;
    assert_turns(&rt, SIBLING_FAILS, &mut Reverse, 8, ticks, last)?;
    let mut turn = Turn { calls: 0 };
    assert_turns(&rt, SIBLING_FAILS, &mut turn, 8, ticks, last)?;
    assert!(rt; turn.calls == 8);
    Ok(())
}

#[test]
fn a_nursery_without_tasks_takes_two_turns(rt: HostRuntime) -> Result<(), Fail> {
    let text = b"trio-job 1\njob main { nursery n { } }";
    assert_turns(&rt, text, &mut Forward, 2, &[(0, 0)], MAIN)
}

#[test]
fn nested_scopes_take_no_turn(rt: HostRuntime) -> Result<(), Fail> {
    let text = nested_job(rt.alloc(), b"scope s", b"sleep 1;")?;
    assert_turns(&rt, text.as_slice(), &mut Forward, 2, &[(0, 1)], MAIN)
}

#[test]
fn many_tasks_take_four_turns_each(rt: HostRuntime) -> Result<(), Fail> {
    let text = b"trio-job 1
job main { nursery n { start a over 64 { nursery m {
  start b over 64 { sleep 1; sleep 1; sleep 1; }
} } } }";
    let ticks = vec![in rt.alloc(); (0, 3); 4161]?;
    let last = (b"b".as_slice(), [63, 63].as_slice());
    assert_turns(&rt, text, &mut Forward, 16_514, ticks.as_slice(), last)
}

// How many are left, and which are picked from the last to the first and in turn, one call after another.
const PICKS: &[(usize, usize, usize)] = &[
    (3, 2, 0),
    (3, 2, 1),
    (3, 2, 2),
    (3, 2, 0),
    (5, 4, 4),
    (1, 0, 0),
];

// Returns which of some are picked, and 99 if none is left.
fn picked<P: Pick>(picker: &mut P, left: usize) -> usize {
    if left == 0 {
        return 99;
    }
    picker.pick(left)
}

#[test]
fn orders_pick_their_places(rt: HostRuntime) -> Result<(), Fail> {
    let mut turn = Turn { calls: 0 };
    for i in 0..PICKS.len() {
        let (left, last, place) = PICKS[i];
        if picked(&mut Reverse, left) != last || picked(&mut turn, left) != place {
            return Err(wrong(i));
        }
    }
    let mut turn = Turn { calls: u64::MAX };
    assert!(rt; turn.pick(10) == 5);
    assert!(rt; turn.pick(10) == 0);
    Ok(())
}

// How many workers, a limit, and whether there are such settings.
const SETTINGS: &[(usize, u64, bool)] = &[
    (0, 1, false),
    (65, 1, false),
    (1, 4_294_967_296, false),
    (64, 4_294_967_295, true),
];

#[test]
fn settings_have_their_ranges() -> Result<(), Fail> {
    for i in 0..SETTINGS.len() {
        let (workers, limit, fits) = SETTINGS[i];
        if Settings::new(workers, limit).is_some() != fits {
            return Err(wrong(i));
        }
    }
    Ok(())
}

// The tick from which each of a job's scopes and nurseries was cancelled, by its name.
const CANCELLED_FROM: &[(&[u8], &[(&[u8], Option<u64>)])] = &[
    (SIBLING_FAILS, &[(b"n", Some(3))]),
    (
        b"trio-job 1\njob main { scope s after 4 { try { forever; } finally { scope g shield { sleep 3; } sleep 1; } } }",
        &[(b"s", Some(4)), (b"g", None)],
    ),
];

// Checks from which ticks scopes were cancelled.
fn assert_cancelled_from(
    cancelled_from: &[ScopeFrom],
    wanted: &[(&[u8], Option<u64>)],
) -> Result<(), Fail> {
    if cancelled_from.len() != wanted.len() {
        Err(("scopes", cancelled_from.len()))?;
    }
    for i in 0..wanted.len() {
        let (name, seen) = wanted[i];
        if !is_from(cancelled_from.get(i), name, seen) {
            return Err(wrong(i));
        }
    }
    Ok(())
}

// Checks from which ticks the scopes of a job were cancelled.
fn assert_cancelled_from_of<R: Abort + Threads + Sync + AllocGlobal>(
    rt: &R,
    text: &[u8],
    wanted: &[(&[u8], Option<u64>)],
) -> Result<(), Fail> {
    let job = read_job(rt.alloc(), text)?;
    let done = run_of(rt, &job, b"", 1, &mut Forward, &NoGate)?;
    assert_cancelled_from(done.cancelled_from(), wanted)
}

// Returns whether a scope of that name was cancelled from that tick.
fn is_from(from: Option<&ScopeFrom>, name: &[u8], seen: Option<u64>) -> bool {
    match from {
        Some(from) => *from.label.name().bytes() == *name && from.seen == seen,
        None => false,
    }
}

#[test]
fn a_run_has_the_ticks_from_which_its_scopes_were_cancelled(rt: HostRuntime) -> Result<(), Fail> {
    for i in 0..CANCELLED_FROM.len() {
        let (text, cancelled_from) = CANCELLED_FROM[i];
        assert_cancelled_from_of(&rt, text, cancelled_from)?;
    }
    Ok(())
}

// How often a gate checks whether both requests were begun.
const LOOKS: u32 = 100_000_000;

// A job of two tasks, each with two requests over its half.
const TWO_TASKS: &[u8] =
    b"trio-job 1\njob main { nursery n { start p over 2 { longest; head 1; } } }";

// Two tasks, each with a request over its half, in which it finds nothing.
const TWO_SEARCHES: &[u8] =
    b"trio-job 1\njob main { nursery n { start p over 2 { find \"x\"; } } }";

const TWO_REPORTS: &[u8] = b"job main 0
task main 0 0 done
  nursery n 0 passed
task p.0 0 0 done
task p.1 0 0 done
";

// A gate at which the first two requests of a batch wait for one another, though not forever.
#[derive(Drop)]
struct Both {
    first: AtomicU64,
    second: AtomicU64,
    missed: AtomicU64,
}

impl Gate for Both {
    fn before(&self, i: usize) {
        match i {
            0 => self.first.store(1, Ordering::SeqCst),
            1 => self.second.store(1, Ordering::SeqCst),
            _ => (),
        }
        if !self.have_begun() {
            self.missed.store(1, Ordering::SeqCst);
        }
    }

    fn after(&self, _i: usize) {}
}

impl Both {
    fn new() -> Both {
        Both {
            first: AtomicU64::new(0),
            second: AtomicU64::new(0),
            missed: AtomicU64::new(0),
        }
    }

    // Returns whether both requests were begun, and neither waited in vain.
    fn have_met(&self) -> bool {
        self.have_begun() && self.missed.load(Ordering::SeqCst) == 0
    }

    // Checks until both requests were begun, or for a limited number of times.
    fn have_begun(&self) -> bool {
        for _ in 0..LOOKS {
            if self.first.load(Ordering::SeqCst) == 1 && self.second.load(Ordering::SeqCst) == 1 {
                return true;
            }
        }
        false
    }
}

#[test]
fn two_workers_serve_at_once(rt: HostRuntime) -> Result<(), Fail> {
    let gate = Both::new();
    let settings = Settings::new(2, LIMIT).ok_or("settings")?;
    // each half pays for a thread
    let lines = vec![in rt.alloc(); b'\n'; 524_288]?;
    let mut out = MemOut::new(rt.alloc(), 65_536, 4_096, None)?;
    serve_into(
        &rt,
        TWO_SEARCHES,
        lines.as_slice(),
        settings,
        &mut Forward,
        &gate,
        &mut out,
    )?;
    assert!(rt; gate.have_met());
    same("two workers", out.taken(), TWO_REPORTS)
}

// A picker that picks the first, and notes how many were left each time, as the digits of a number.
#[derive(Clone, Copy)]
struct Noting {
    noted: u64,
}

impl Pick for Noting {
    fn pick(&mut self, left: usize) -> usize
        requires { 0 < left }
        ensures { result < left }
    {
        self.noted = self.noted.wrapping_mul(10).wrapping_add(left as u64);
        0
    }
}

// A gate that counts its calls.
#[derive(Drop)]
struct Counting {
    before: AtomicU64,
    after: AtomicU64,
}

impl Counting {
    fn new() -> Counting {
        Counting {
            before: AtomicU64::new(0),
            after: AtomicU64::new(0),
        }
    }

    // Returns how often it was called before and after a request.
    fn counts(&self) -> (u64, u64) {
        (
            self.before.load(Ordering::SeqCst),
            self.after.load(Ordering::SeqCst),
        )
    }
}

impl Gate for Counting {
    fn before(&self, _i: usize) {
        self.before.fetch_add(1, Ordering::SeqCst);
    }

    fn after(&self, _i: usize) {
        self.after.fetch_add(1, Ordering::SeqCst);
    }
}

// Checks the calls of a run to its picker and its gate: how many were left at each turn, in how many turns, and how many
// requests there were.
fn assert_goes<R: Abort + Threads + Sync + AllocGlobal>(
    rt: &R,
    text: &[u8],
    input: &[u8],
    noted: u64,
    turns: u64,
    requests: u64,
) -> Result<(), Fail> {
    let job = read_job(rt.alloc(), text)?;
    let gate = Counting::new();
    let mut picker = Noting { noted: 0 };
    let done = run_of(rt, &job, input, 2, &mut picker, &gate)?;
    assert!(rt; done.turns() == turns);
    assert!(rt; picker.noted == noted);
    let (before, after) = gate.counts();
    assert!(rt; before == requests && after == requests);
    Ok(())
}

#[test]
fn each_turn_is_picked_and_each_request_is_gated(rt: HostRuntime) -> Result<(), Fail> {
    let two_fail = b"trio-job 1
job main { nursery n { start a { sleep 2; raise A; } start b { sleep 2; raise B; } } }";
    assert_goes(&rt, two_fail, b"", 121_211, 6, 0)?;
    assert_goes(&rt, TWO_TASKS, HALVES, 12_121_211, 8, 4)
}

#[test]
fn a_request_within_nested_scopes_is_gated_once(rt: HostRuntime) -> Result<(), Fail> {
    let text = nested_job(rt.alloc(), b"scope s", b"find \"a\"; sleep 1;")?;
    assert_goes(&rt, text.as_slice(), b"a", 111, 3, 1)
}
