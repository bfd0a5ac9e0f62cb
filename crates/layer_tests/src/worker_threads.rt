//! `workers`: the workers' answers come in the order of the requests, for every number of workers and every gate.

use crate::fixtures::{push_bytes, push_number, same};
use input_lines::{Answer, Kernel, Part, Request};
use std::alloc::{AllocError, Global};
use std::sync::atomic::{AtomicU64, Ordering};
use std::test::Fail;
use std::thread::Threads;
use workers::{Bench, Content, Gate, NoGate, Slot, work};

// Three lines of two, one and four bytes.
const BUFFER: &[u8] = b"aa\nb\ncccc\n";

// A hundred empty lines.
const LINES: &[u8] = &[b'\n'; 100];

// How often a gate checks whether both requests were begun.
const LOOKS: u32 = 100_000_000;

// The counts of the first line, of the two lines after it, and of nothing.
fn counts<'a>(buffer: &'a [u8]) -> [Request<'a>; 3] {
    let whole = Part::whole(buffer);
    let (first, rest) = whole.first_of(3);
    [first, rest, whole.cut(64, 63)].map(|part| Request {
        kernel: Kernel::Count,
        part,
    })
}

// Answers as text: each count with a space after it.
fn text_of_answers(alloc: Global, answers: &[Answer<'_>]) -> Result<Vec<u8>, AllocError> {
    let mut text = Vec::new(alloc);
    for answer in answers {
        match answer {
            Answer::Count(lines) => push_number(&mut text, *lines)?,
            _ => push_bytes(&mut text, b"?")?,
        }
        push_bytes(&mut text, b" ")?;
    }
    Ok(text)
}

// The answers to the first two requests by two workers, as text.
fn text_by_two<R: Threads + Sync + AllocGlobal>(rt: &R, gate: &Both) -> Result<Vec<u8>, Fail> {
    let answers = work(rt, rt.alloc(), 2, &counts(BUFFER)[..2], gate)?;
    let text = text_of_answers(rt.alloc(), answers.as_slice())?;
    Ok(text)
}

#[test]
fn workers_answer_in_the_order_of_the_requests(rt: HostRuntime) -> Result<(), Fail> {
    let requests = counts(BUFFER);
    for workers in [1, 2, 3, 64] {
        let answers = work(&rt, rt.alloc(), workers, &requests, &NoGate)?;
        let text = text_of_answers(rt.alloc(), answers.as_slice())?;
        same(text.as_slice(), b"1 2 0 ")?;
    }
    Ok(())
}

#[test]
fn no_requests_have_no_answers(rt: HostRuntime) -> Result<(), Fail> {
    let answers = work(&rt, rt.alloc(), 64, &[], &NoGate)?;
    assert!(rt; answers.is_empty());
    Ok(())
}

// The count in a slot, if there is one.
fn count_in(slot: &Slot<'_>) -> Option<u64> {
    match &slot.content {
        Content::Done(Answer::Count(lines)) => Some(*lines),
        _ => None,
    }
}

// What two benches write into one row.
fn fill_by_two(alloc: Global) -> [Option<u64>; 2] {
    let requests = counts(BUFFER);
    let mut row = [
        Slot {
            content: Content::Empty,
        },
        Slot {
            content: Content::Empty,
        },
    ];
    let (first, second) = Bench::new(&requests[..2], &mut row).cut(1);
    first.fill(alloc);
    second.fill(alloc);
    [count_in(&row[0]), count_in(&row[1])]
}

#[test]
fn two_benches_fill_one_row(rt: HostRuntime) {
    assert!(rt; fill_by_two(rt.alloc()) == [Some(1), Some(2)]);
}

#[test]
fn a_bench_takes_what_is_put(rt: HostRuntime) -> Result<(), Fail> {
    let requests = counts(BUFFER);
    let mut row = [Slot {
        content: Content::Empty,
    }];
    let mut bench = Bench::new(&requests[..1], &mut row);
    bench.put(
        0,
        Slot {
            content: Content::NoMemory,
        },
    );
    assert!(rt; matches!(&row[0].content, Content::NoMemory));
    Ok(())
}

// A gate that counts its calls, and at which each of two requests waits for the other, though not forever.
#[derive(Drop)]
struct Both {
    begun: [AtomicU64; 2],
    missed: AtomicU64,
    before: AtomicU64,
    after: AtomicU64,
}

impl Gate for Both {
    fn before(&self, i: usize) {
        self.before.fetch_add(1, Ordering::SeqCst);
        if i < 2 {
            self.begun[i].store(1, Ordering::SeqCst);
        }
        if !self.await_both() {
            self.missed.store(1, Ordering::SeqCst);
        }
    }

    fn after(&self, _i: usize) {
        self.after.fetch_add(1, Ordering::SeqCst);
    }
}

impl Both {
    // A gate at which no request was begun.
    fn new() -> Both {
        Both {
            begun: [AtomicU64::new(0), AtomicU64::new(0)],
            missed: AtomicU64::new(0),
            before: AtomicU64::new(0),
            after: AtomicU64::new(0),
        }
    }

    // Whether this many requests were begun, the first two among them, and ended.
    fn has_seen(&self, requests: u64) -> bool {
        self.before.load(Ordering::SeqCst) == requests
            && self.after.load(Ordering::SeqCst) == requests
            && self.begun[0].load(Ordering::SeqCst) == 1
            && self.begun[1].load(Ordering::SeqCst) == 1
    }

    // Checks until both requests were begun, or for a limited number of times.
    fn await_both(&self) -> bool {
        for _ in 0..LOOKS {
            if self.begun[0].load(Ordering::SeqCst) == 1
                && self.begun[1].load(Ordering::SeqCst) == 1
            {
                return true;
            }
        }
        false
    }
}

#[test]
fn two_workers_compute_at_once(rt: HostRuntime) -> Result<(), Fail> {
    let gate = Both::new();
    let text = text_by_two(&rt, &gate)?;
    assert!(rt; gate.has_seen(2) && gate.missed.load(Ordering::SeqCst) == 0);
    same(text.as_slice(), b"1 2 ")
}

// Requests for the counts of no line, of one, and so on, up to 99 lines.
fn hundred_requests(alloc: Global) -> Result<Vec<Request<'static>>, AllocError> {
    let mut requests = Vec::new(alloc);
    for lines in 0..LINES.len() {
        requests.push(Request {
            kernel: Kernel::Count,
            part: Part::whole(&LINES[..lines]),
        })?;
    }
    Ok(requests)
}

// Whether answers are the counts from 0 on, in order.
fn count_up(answers: &[Answer<'_>]) -> bool {
    let mut lines: u64 = 0;
    for answer in answers {
        match answer {
            Answer::Count(found) if *found == lines => lines = lines.wrapping_add(1),
            _ => return false,
        }
    }
    true
}

// Whether three workers answer these requests by the counts from 0 to 99.
fn count_up_by_three<R: Threads + Sync + AllocGlobal>(rt: &R, gate: &Both) -> Result<bool, Fail> {
    let requests = hundred_requests(rt.alloc())?;
    if requests.len() > 2_000_000 {
        return Ok(false);
    }
    let answers = work(rt, rt.alloc(), 3, requests.as_slice(), gate)?;
    Ok(answers.len() == 100 && count_up(answers.as_slice()))
}

#[test]
fn three_workers_answer_a_hundred_requests(rt: HostRuntime) -> Result<(), Fail> {
    let gate = Both::new();
    assert!(rt; count_up_by_three(&rt, &gate)?);
    assert!(rt; gate.has_seen(100));
    Ok(())
}
