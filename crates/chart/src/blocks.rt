ghost use Rattle.std.specs.Prelude.{◌≡◌, ◌++◌, ◌∷◌, List, OnOk, map};
ghost use Rattle.job_story.specs.CancelledFrom.{table_in};
ghost use Rattle.job_story.specs.Held.{event_of, what_of};
ghost use Rattle.story_index.specs.Seen.{event_in};
ghost use Rattle.chart.specs.Bars as chart;
ghost use Rattle.chart.specs.Bars.{is_by, moment_between, with_block, block_bars};
ghost use Rattle.chart.specs.HeldBars.{bar_of, event_seen};
ghost use Rattle.chart.specs.Indexed.{walked_in};

use crate::bar::Bar;
use crate::index::StoryIndex;
use crate::indexing::no_events;
use job_meaning::Clock;
use job_story::{CancelledFrom, Event, Happening, What};
use std::alloc::AllocError;

// Appends a bar for each scope and nursery that is entered with one of these events, in their order.
pub(crate) fn push_blocks<'i, 'e>(
    bars: &mut Vec<Bar<'i, 'e>>,
    index: &'i StoryIndex<'_, 'e>,
    clock: Clock,
    cancelled_from: &CancelledFrom,
    until: Option<u64>,
    events: &[&'e Event],
) -> Result<(), AllocError>
    ensures { OnOk result (map bar_of bars.new.items ≡ map bar_of bars.old.items
        ++ block_bars clock (table_in cancelled_from.now) until (walked_in index.entry.now) (map event_in events.now)) }
{
    'events: for event in events {
        push_block(bars, index, clock, cancelled_from, until, event)?;
    }
    Ok(())
}

// Appends the bar of the scope or nursery that is entered with this event, if one is.
fn push_block<'i, 'e>(
    bars: &mut Vec<Bar<'i, 'e>>,
    index: &'i StoryIndex<'_, 'e>,
    clock: Clock,
    cancelled_from: &CancelledFrom,
    until: Option<u64>,
    event: &'e Event,
) -> Result<(), AllocError>
    ensures { OnOk result ((others : List chart.Bar) → map bar_of bars.new.items ++ others ≡ map bar_of bars.old.items
        ++ with_block clock (table_in cancelled_from.now) until (walked_in index.entry.now) (event_of event.entry.now) (what_of event.entry.now.what) others) }
{
    let What::Happens(Happening::Enters { label, .. }) = &event.what else {
        return Ok(());
    };
    let last = index.leaving_of(label);
    bars.push(Bar {
        first: event,
        last,
        own: no_events(),
        cancelled: moment_between(clock, until, event, last, cancelled_from.of(label)),
    })?;
    Ok(())
}

// Returns the moment, if it is not before the first event and not after the last one or the limit.
fn moment_between(
    clock: Clock,
    until: Option<u64>,
    first: &Event,
    last: Option<&Event>,
    from: Option<u64>,
) -> Option<u64>
    ensures { result ≡ moment_between clock until (event_of first.now) (event_seen last.entry) from }
{
    let Some(moment) = from else {
        return None;
    };
    if first.tick <= moment && is_by(clock, until, last, moment) {
        Some(moment)
    } else {
        None
    }
}

// Returns whether a moment is not after the last event. If there is no last event, returns whether the tick of the moment is not
// after the limit.
fn is_by(clock: Clock, until: Option<u64>, last: Option<&Event>, moment: u64) -> bool
    ensures { result ≡ is_by clock until (event_seen last.entry) moment }
{
    if let Some(last) = last {
        return moment <= last.tick;
    }
    match until {
        Some(limit) => clock.tick_of(moment) <= limit,
        None => true,
    }
}
