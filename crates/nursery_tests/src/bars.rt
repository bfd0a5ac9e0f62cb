//! `chart`: bars whose scope is cancelled by a limit or after it, and the ticks at which something happens.

use crate::fixtures::wrong;
use crate::story_events::{cancelled_from_of, push_entry, push_start, walk};
use chart::{StoryIndex, all_ticks};
use job_meaning::{Clock, ROUNDS_IN_A_TICK};
use job_story::{CancelledFrom, Event};
use std::alloc::Global;
use std::test::Fail;

// The last tick of a story that is cut off.
const LIMIT: u64 = 3;

// A story of a task that starts in one moment and enters a scope in another.
fn start_and_entry(alloc: Global, started: u64, entered: u64) -> Result<Vec<Event>, Fail> {
    let mut events = Vec::new(alloc);
    push_start(alloc, &mut events, started)?;
    push_entry(alloc, &mut events, entered)?;
    Ok(events)
}

// From which moment the last bar of a story says that its scope is cancelled.
fn cancelled_of_last(
    alloc: Global,
    clock: Clock,
    cancelled_from: &CancelledFrom,
    walked: &[&Event],
) -> Result<Option<u64>, Fail> {
    let index = StoryIndex::of(alloc, walked)?;
    let bars = index.bars(alloc, clock, cancelled_from, Some(LIMIT))?;
    match bars.last() {
        Some(bar) => Ok(bar.cancelled),
        None => Err("no bar")?,
    }
}

// From which moment the bar of a scope says that it is cancelled, if the scope is entered in the first moment of the story and
// not left by the limit, and the table has this moment.
fn cancelled_of_open(alloc: Global, clock: Clock, from: u64) -> Result<Option<u64>, Fail> {
    let events = start_and_entry(alloc, 0, 0)?;
    let walked = walk(alloc, events.as_slice())?;
    let cancelled_from = cancelled_from_of(alloc, from)?;
    cancelled_of_last(alloc, clock, &cancelled_from, walked.as_slice())
}

// The first round of tick 2.
const TWO: u64 = 2 * ROUNDS_IN_A_TICK;

// The first moment after the limit by rounds.
const AFTER: u64 = (LIMIT + 1) * ROUNDS_IN_A_TICK;

// A clock, the moment from which a scope is cancelled, and the moment that its bar has.
const CANCELLATIONS: &[(Clock, u64, Option<u64>)] = &[
    (Clock::ByTicks, LIMIT, Some(LIMIT)),
    (Clock::ByTicks, LIMIT + 1, None),
    (Clock::ByRounds, AFTER - 1, Some(AFTER - 1)),
    (Clock::ByRounds, AFTER, None),
];

// Fails at the first row whose bar has another moment.
fn cancellations_are_shown(alloc: Global) -> Result<(), Fail> {
    for i in 0..CANCELLATIONS.len() {
        let (clock, from, expected) = CANCELLATIONS[i];
        if cancelled_of_open(alloc, clock, from)? != expected {
            return Err(wrong(i));
        }
    }
    Ok(())
}

#[test]
fn a_bar_is_cancelled_by_the_last_round_of_the_limit(rt: HostRuntime) -> Result<(), Fail> {
    cancellations_are_shown(rt.alloc())
}

// A clock, the moments in which a task starts and enters a scope, and the ticks of these two and the limit.
const TICKS: &[(Clock, u64, u64, [u64; 3])] = &[
    (Clock::ByRounds, TWO + 1, TWO + 5, [2, 2, LIMIT]),
    (Clock::ByTicks, 1, 2, [1, 2, LIMIT]),
];

// Whether a story has these ticks.
fn has_ticks(
    alloc: Global,
    clock: Clock,
    events: &[Event],
    expected: &[u64],
) -> Result<bool, Fail> {
    let walked = walk(alloc, events)?;
    let ticks = all_ticks(alloc, clock, walked.as_slice(), Some(LIMIT))?;
    Ok(ticks.as_slice() == expected)
}

#[test]
fn each_round_of_a_tick_gives_the_tick(rt: HostRuntime) -> Result<(), Fail> {
    for i in 0..TICKS.len() {
        let (clock, started, entered, expected) = TICKS[i];
        let events = start_and_entry(rt.alloc(), started, entered)?;
        if !has_ticks(rt.alloc(), clock, events.as_slice(), expected.as_slice())? {
            return Err(wrong(i));
        }
    }
    Ok(())
}
