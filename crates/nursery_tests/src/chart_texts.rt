//! `chart`: what happens in different rounds of a tick is shown in the column of the tick, and an event that is set as a `+`. The
//! expected charts are drawn by hand.

use crate::fixtures::same;
use crate::story_events::{
    cancelled_from_of, label, push_entry, push_event, push_start, walk, word,
};
use chart::{StoryIndex, chart_text};
use job_meaning::{Clock, ROUNDS_IN_A_TICK};
use job_story::{CancelledFrom, During, Event, Happening, Kind, What};
use std::alloc::Global;
use std::test::Fail;

// The first round of tick 2.
const TWO: u64 = 2 * ROUNDS_IN_A_TICK;

// Appends that a task is cancelled at a checkpoint by the scope `s`.
fn push_cancelled(alloc: Global, events: &mut Vec<Event>, moment: u64) -> Result<(), Fail> {
    let label = label(alloc, b"s")?;
    let is_cancelled = Happening::IsCancelled {
        by: Some(label),
        during: During::Checkpoint,
        in_cleanup: false,
    };
    push_event(alloc, events, moment, What::Happens(is_cancelled))
}

// Appends that a task leaves the scope `s`, which caught its cancellation.
fn push_exit(alloc: Global, events: &mut Vec<Event>, moment: u64) -> Result<(), Fail> {
    let label = label(alloc, b"s")?;
    let leaves = Happening::Leaves {
        kind: Kind::Scope { fail: false },
        label,
        inside: None,
        caught: true,
        outside: None,
    };
    push_event(alloc, events, moment, What::Happens(leaves))
}

// Appends that a task ends without an exception.
fn push_end(alloc: Global, events: &mut Vec<Event>, moment: u64) -> Result<(), Fail> {
    let ends = What::Ends {
        home: None,
        exc: None,
    };
    push_event(alloc, events, moment, ends)
}

// The story of a task that cancels its own scope in round 0 of tick 2, sees it at the next checkpoint, and is over in round 2.
fn story_by_rounds(alloc: Global) -> Result<Vec<Event>, Fail> {
    let mut events = Vec::new(alloc);
    push_start(alloc, &mut events, 0)?;
    push_entry(alloc, &mut events, 0)?;
    push_cancelled(alloc, &mut events, TWO)?;
    push_exit(alloc, &mut events, TWO + 2)?;
    push_end(alloc, &mut events, TWO + 2)?;
    Ok(events)
}

// The chart of these events by rounds.
fn chart_with(
    alloc: Global,
    cancelled_from: &CancelledFrom,
    walked: &[&Event],
) -> Result<Vec<u8>, Fail> {
    let clock = Clock::ByRounds;
    let index = StoryIndex::of(alloc, walked)?;
    let bars = index.bars(alloc, clock, cancelled_from, None)?;
    let text = chart_text(alloc, clock, 80, None, walked, bars.as_slice())?;
    Ok(text)
}

// The chart of that story, in which the scope `s` is cancelled from round 1 of tick 2.
fn chart_by_rounds(alloc: Global) -> Result<Vec<u8>, Fail> {
    let events = story_by_rounds(alloc)?;
    let walked = walk(alloc, events.as_slice())?;
    let cancelled_from = cancelled_from_of(alloc, TWO + 1)?;
    chart_with(alloc, &cancelled_from, walked.as_slice())
}

const CHART: &[u8] = b"           0  2
m          |--x done
  scope s  (==x caught
";

#[test]
fn rounds_of_a_tick_share_a_column(rt: HostRuntime) -> Result<(), Fail> {
    let text = chart_by_rounds(rt.alloc())?;
    same("the chart", text.as_slice(), CHART)
}

// Appends that a task sets the event `e`.
fn push_set(alloc: Global, events: &mut Vec<Event>, moment: u64) -> Result<(), Fail> {
    let label = label(alloc, b"e")?;
    let sets = Happening::Sets { label: Some(label) };
    push_event(alloc, events, moment, What::Happens(sets))
}

// The story of a task that sets an event in tick 2, and ends a tick later.
fn story_of_a_set(alloc: Global) -> Result<Vec<Event>, Fail> {
    let mut events = Vec::new(alloc);
    push_start(alloc, &mut events, 0)?;
    push_set(alloc, &mut events, TWO)?;
    push_end(alloc, &mut events, 3 * ROUNDS_IN_A_TICK)?;
    Ok(events)
}

// The chart of a story in which nothing is cancelled before tick 9.
fn chart_of(alloc: Global, events: &[Event]) -> Result<Vec<u8>, Fail> {
    let walked = walk(alloc, events)?;
    let cancelled_from = cancelled_from_of(alloc, 9 * ROUNDS_IN_A_TICK)?;
    chart_with(alloc, &cancelled_from, walked.as_slice())
}

const SET: &[u8] = b"   0  2 3
m  |--+-| done
";

#[test]
fn an_event_that_is_set_has_a_plus(rt: HostRuntime) -> Result<(), Fail> {
    let events = story_of_a_set(rt.alloc())?;
    let text = chart_of(rt.alloc(), events.as_slice())?;
    same("the chart", text.as_slice(), SET)
}

// The story of a task that raises an exception in the tick in which it sets an event.
fn story_of_a_raise(alloc: Global) -> Result<Vec<Event>, Fail> {
    let mut events = Vec::new(alloc);
    push_start(alloc, &mut events, 0)?;
    push_set(alloc, &mut events, TWO)?;
    let raises = Happening::Raises { name: word(b"X")? };
    push_event(alloc, &mut events, TWO, What::Happens(raises))?;
    push_end(alloc, &mut events, TWO)?;
    Ok(events)
}

const RAISE: &[u8] = b"   0  2
m  |--! done
";

#[test]
fn an_exception_hides_the_plus(rt: HostRuntime) -> Result<(), Fail> {
    let events = story_of_a_raise(rt.alloc())?;
    let text = chart_of(rt.alloc(), events.as_slice())?;
    same("the chart", text.as_slice(), RAISE)
}
