//! `race_text`: copies of a task meet by the ticks of their events, in whichever rounds of these ticks they act; and they meet where
//! both wait for one limiter.

use crate::fixtures::wrong;
use crate::story_events::{label, walk, word};
use exceptions::Label;
use job_meaning::{Clock, ROUNDS_IN_A_TICK};
use job_story::{Event, Happening, Range, What};
use job_tree::Ask;
use race_text::meeting_of;
use std::alloc::Global;
use std::test::Fail;

// Appends an event of a copy of `w`.
fn push_of_copy(
    alloc: Global,
    events: &mut Vec<Event>,
    copy: u64,
    moment: u64,
    what: What,
) -> Result<(), Fail> {
    let task = copy_label(alloc, copy)?;
    events.push(Event {
        tick: moment,
        task,
        what,
    })?;
    Ok(())
}

// The label of a copy of `w`.
fn copy_label(alloc: Global, copy: u64) -> Result<Label, Fail> {
    let label = label(alloc, b"w")?;
    let label = label.with_index(copy)?;
    Ok(label)
}

// Appends the start of a copy, in the first moment of all.
fn push_start(alloc: Global, events: &mut Vec<Event>, copy: u64) -> Result<(), Fail> {
    let part = Range { from: 0, to: 0 };
    push_of_copy(alloc, events, copy, 0, What::Starts { home: None, part })
}

// Appends the end of a copy, without an exception.
fn push_end(alloc: Global, events: &mut Vec<Event>, copy: u64, moment: u64) -> Result<(), Fail> {
    let ends = What::Ends {
        home: None,
        exc: None,
    };
    push_of_copy(alloc, events, copy, moment, ends)
}

// Appends a `cancel` of a copy.
fn push_cancel(alloc: Global, events: &mut Vec<Event>, copy: u64, moment: u64) -> Result<(), Fail> {
    let label = label(alloc, b"n")?;
    let cancels = Happening::Cancels { label: Some(label) };
    push_of_copy(alloc, events, copy, moment, What::Happens(cancels))
}

// Appends that a copy waits for a token of the limiter of this name.
fn push_wait(
    alloc: Global,
    events: &mut Vec<Event>,
    copy: u64,
    moment: u64,
    limiter: &[u8],
) -> Result<(), Fail> {
    let object = label(alloc, limiter)?;
    let part = Range { from: 0, to: 0 };
    let queues = Happening::Queues {
        ask: Ask::Acquire,
        object,
        part,
        left: None,
    };
    push_of_copy(alloc, events, copy, moment, What::Happens(queues))
}

// The story of two copies, of which one cancels something in a moment and the other one ends in another moment.
fn story_of_two(alloc: Global, cancels: u64, ends: u64) -> Result<Vec<Event>, Fail> {
    let mut events = Vec::new(alloc);
    push_start(alloc, &mut events, 0)?;
    push_cancel(alloc, &mut events, 0, cancels)?;
    push_end(alloc, &mut events, 0, cancels)?;
    push_start(alloc, &mut events, 1)?;
    push_end(alloc, &mut events, 1, ends)?;
    Ok(events)
}

// The story of two copies, of which one waits for the limiter `p` from a moment on, and the other one for this limiter from another
// moment on.
fn story_of_waits(
    alloc: Global,
    first: u64,
    second: u64,
    other: &[u8],
) -> Result<Vec<Event>, Fail> {
    let mut events = Vec::new(alloc);
    push_start(alloc, &mut events, 0)?;
    push_wait(alloc, &mut events, 0, first, b"p")?;
    push_end(alloc, &mut events, 0, first)?;
    push_start(alloc, &mut events, 1)?;
    push_wait(alloc, &mut events, 1, second, other)?;
    push_end(alloc, &mut events, 1, second)?;
    Ok(events)
}

// The tick in which two copies of `w` meet in a story, or `None` if they do not meet.
fn met_in(alloc: Global, clock: Clock, hair: u64, events: &[Event]) -> Result<Option<u64>, Fail> {
    let name = word(b"w")?;
    let walked = walk(alloc, events)?;
    let met = meeting_of(alloc, clock, hair, name, walked.as_slice())?;
    match met {
        Some(meeting) => Ok(Some(meeting.tick)),
        None => Ok(None),
    }
}

// The first moment of tick 20.
const TWENTY: u64 = 20 * ROUNDS_IN_A_TICK;

// A clock, the length of a hair, the moment in which one copy cancels something, the moment in which the other one ends, and
// the tick in which they meet.
const MEETINGS: &[(Clock, u64, u64, u64, Option<u64>)] = &[
    (Clock::ByTicks, 1, 20, 21, Some(20)),
    (Clock::ByTicks, 1, 21, 20, Some(21)),
    (Clock::ByTicks, 1, 20, 22, None),
    (Clock::ByRounds, 0, TWENTY + 1, TWENTY + 3, Some(20)),
    (Clock::ByRounds, 1, TWENTY + 3, TWENTY + 1, Some(20)),
    (
        Clock::ByRounds,
        1,
        TWENTY + 1,
        TWENTY + ROUNDS_IN_A_TICK + 3,
        Some(20),
    ),
    (
        Clock::ByRounds,
        1,
        TWENTY + ROUNDS_IN_A_TICK + 3,
        TWENTY + 1,
        Some(21),
    ),
    (
        Clock::ByRounds,
        0,
        TWENTY + 1,
        TWENTY + ROUNDS_IN_A_TICK,
        None,
    ),
    (
        Clock::ByRounds,
        1,
        TWENTY + 1,
        TWENTY + 2 * ROUNDS_IN_A_TICK,
        None,
    ),
];

// Fails at the first row whose copies meet in another tick.
fn copies_meet(alloc: Global) -> Result<(), Fail> {
    for i in 0..MEETINGS.len() {
        let (clock, hair, cancels, ends, expected) = MEETINGS[i];
        let events = story_of_two(alloc, cancels, ends)?;
        if met_in(alloc, clock, hair, events.as_slice())? != expected {
            return Err(wrong(i));
        }
    }
    Ok(())
}

#[test]
fn copies_meet_by_ticks(rt: HostRuntime) -> Result<(), Fail> {
    copies_meet(rt.alloc())
}

// The length of a hair, the moment from which one copy waits for `p`, the moment from which the other one waits, for which limiter,
// and the tick in which they meet. Each concerns the other, so the earlier one is told.
const WAITS: &[(u64, u64, u64, &'static [u8], Option<u64>)] = &[
    (0, 20, 20, b"p", Some(20)),
    (1, 20, 21, b"p", Some(20)),
    (1, 21, 20, b"p", Some(20)),
    (1, 20, 22, b"p", None),
    (1, 20, 21, b"q", None),
];

// Fails at the first row whose copies meet in another tick.
fn waiters_meet(alloc: Global) -> Result<(), Fail> {
    for i in 0..WAITS.len() {
        let (hair, first, second, other, expected) = WAITS[i];
        let events = story_of_waits(alloc, first, second, other)?;
        if met_in(alloc, Clock::ByTicks, hair, events.as_slice())? != expected {
            return Err(wrong(i));
        }
    }
    Ok(())
}

#[test]
fn copies_that_wait_for_one_limiter_meet(rt: HostRuntime) -> Result<(), Fail> {
    waiters_meet(rt.alloc())
}
