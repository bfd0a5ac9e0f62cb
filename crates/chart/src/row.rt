ghost use Rattle.std.specs.Prelude.{◌≡◌, ◌++◌, ℕ, List, ◌∷◌, IfOk, OnOk, map, if◌then◌else◌};
ghost use Rattle.job_story.specs.Held.{what_of};
ghost use Rattle.story_index.specs.Seen.{event_in};
ghost use Rattle.chart.specs.HeldBars.{bar_of, event_seen};
ghost use Rattle.chart.specs.Marks.{strokes_of, is_cross, is_dot, is_plus, ticks_where, with_cancelled, end_tick, row_of};
ghost use Rattle.chart.specs.HeldText.{strokes_held, row_held};

use crate::Bar;
use crate::mark_kinds::{is_cross, is_dot, is_plus};
use job_meaning::Clock;
use job_story::{Event, What};
use std::alloc::{AllocError, Global};

// The bytes with which a bar is drawn: its start, the line to its end, and its end.
#[derive(Clone, Copy)]
pub(crate) struct Strokes {
    pub start: u8,
    pub line: u8,
    pub end: u8,
}

const TASK: Strokes = Strokes {
    start: b'|',
    line: b'-',
    end: b'|',
};

const BLOCK: Strokes = Strokes {
    start: b'(',
    line: b'=',
    end: b')',
};

// The ticks of a bar.
#[derive(Drop)]
pub(crate) struct Row {
    pub strokes: Strokes,
    pub start: u64,
    pub end: u64,
    // Whether the bar has an end.
    pub closed: bool,
    // The ticks at which it is cancelled.
    pub crosses: Vec<u64>,
    // The ticks at which it raises an exception.
    pub dots: Vec<u64>,
    // The ticks at which it sets an event of the job or closes a channel.
    pub pluses: Vec<u64>,
}

// Returns the row of a bar in a chart with this last tick.
pub(crate) fn row_of(
    alloc: Global,
    clock: Clock,
    last: u64,
    bar: &Bar<'_, '_>,
) -> Result<Row, AllocError>
    ensures { IfOk result (λ row. row_held row ≡ row_of clock last (bar_of bar.now)) }
{
    let mut crosses = Vec::new(alloc);
    push_cancelled(&mut crosses, clock, bar.cancelled)?;
    push_crosses(&mut crosses, clock, bar.own)?;
    let mut dots = Vec::new(alloc);
    push_dots(&mut dots, clock, bar.own)?;
    let mut pluses = Vec::new(alloc);
    push_pluses(&mut pluses, clock, bar.own)?;
    Ok(Row {
        strokes: strokes_of(&bar.first.what),
        start: clock.tick_of(bar.first.tick),
        end: end_tick(clock, last, bar.last),
        closed: bar.last.is_some(),
        crosses,
        dots,
        pluses,
    })
}

// Returns the bytes with which a bar is drawn that begins with this event.
fn strokes_of(what: &What) -> Strokes
    ensures { strokes_held result ≡ strokes_of (what_of what.now) }
{
    match what {
        What::Starts { .. } => TASK,
        What::Happens(_) | What::Ends { .. } => BLOCK,
    }
}

// Returns the tick at which a bar ends, or the last one of the chart if it has no end.
fn end_tick(clock: Clock, last: u64, event: Option<&Event>) -> u64
    ensures { result ≡ end_tick clock last (event_seen event.entry) }
{
    match event {
        Some(event) => clock.tick_of(event.tick),
        None => last,
    }
}

// Appends the tick of the moment from which a scope or nursery is cancelled, if there is one. A cross is drawn there if something
// happens at that tick.
fn push_cancelled(
    ticks: &mut Vec<u64>,
    clock: Clock,
    cancelled: Option<u64>,
) -> Result<(), AllocError>
    ensures { OnOk result ((others : List ℕ) → ticks.new.items ++ others ≡ ticks.old.items ++ with_cancelled clock cancelled others) }
{
    if let Some(moment) = cancelled {
        ticks.push(clock.tick_of(moment))?;
    }
    Ok(())
}

// Appends the tick of each event with which a task is cancelled.
fn push_crosses(ticks: &mut Vec<u64>, clock: Clock, events: &[&Event]) -> Result<(), AllocError>
    ensures { OnOk result (ticks.new.items ≡ ticks.old.items ++ ticks_where clock is_cross (map event_in events.now)) }
{
    'events: for event in events {
        push_if(ticks, is_cross(&event.what), clock.tick_of(event.tick))?;
    }
    Ok(())
}

// Appends the tick of each event with which a task raises an exception.
fn push_dots(ticks: &mut Vec<u64>, clock: Clock, events: &[&Event]) -> Result<(), AllocError>
    ensures { OnOk result (ticks.new.items ≡ ticks.old.items ++ ticks_where clock is_dot (map event_in events.now)) }
{
    'events: for event in events {
        push_if(ticks, is_dot(&event.what), clock.tick_of(event.tick))?;
    }
    Ok(())
}

// Appends the tick of each event with which a task sets an event of the job or closes a channel.
fn push_pluses(ticks: &mut Vec<u64>, clock: Clock, events: &[&Event]) -> Result<(), AllocError>
    ensures { OnOk result (ticks.new.items ≡ ticks.old.items ++ ticks_where clock is_plus (map event_in events.now)) }
{
    'events: for event in events {
        push_if(ticks, is_plus(&event.what), clock.tick_of(event.tick))?;
    }
    Ok(())
}

// Appends a tick, if `wanted` is true.
fn push_if(ticks: &mut Vec<u64>, wanted: bool, tick: u64) -> Result<(), AllocError>
    ensures { OnOk result ((others : List ℕ) → ticks.new.items ++ others ≡ ticks.old.items ++ (if wanted then tick ∷ others else others)) }
{
    if wanted {
        ticks.push(tick)?;
    }
    Ok(())
}
