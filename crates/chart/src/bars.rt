ghost use Rattle.std.specs.Prelude.{◌≡◌, ◌++◌, [], IfOk, OnOk, map};
ghost use Rattle.job_story.specs.CancelledFrom.{table_in};
ghost use Rattle.job_story.specs.Held.{event_of};
ghost use Rattle.story_index.specs.Seen.{event_in};
ghost use Rattle.chart.specs.Bars.{end_in, bars_at, bars_of};
ghost use Rattle.chart.specs.HeldBars.{bar_of, event_seen};
ghost use Rattle.chart.specs.Indexed.{walked_in};

use crate::bar::Bar;
use crate::blocks::push_blocks;
use crate::index::StoryIndex;
use job_meaning::Clock;
use job_story::{CancelledFrom, Event};
use std::alloc::{AllocError, Global};

impl<'s, 'e> StoryIndex<'s, 'e> {
    /// Returns the bars of a story, with the tasks in the order in which the walk starts them, and below each its scopes and
    /// nurseries in the order in which it entered them. `clock` says how the moments of the story are counted, and
    /// `cancelled_from` has the moments from which scopes and nurseries are cancelled. `until` is the last tick of a story that
    /// is cut off at a limit, and `None` for a whole story. Returns `AllocError` if memory runs out.
    pub fn bars<'i>(
        &'i self,
        alloc: Global,
        clock: Clock,
        cancelled_from: &CancelledFrom,
        until: Option<u64>,
    ) -> Result<Vec<Bar<'i, 'e>>, AllocError>
        ensures { IfOk result (λ bars. map bar_of bars.items ≡ bars_of clock (table_in cancelled_from.now) until (walked_in self.entry.now)) }
    {
        let mut bars = Vec::new(alloc);
        'events: for event in self.walked {
            push_bars(&mut bars, self, clock, cancelled_from, until, event)?;
        }
        Ok(bars)
    }
}

// Appends the bars of the task that starts with this event, if one does.
fn push_bars<'i, 'e>(
    bars: &mut Vec<Bar<'i, 'e>>,
    index: &'i StoryIndex<'_, 'e>,
    clock: Clock,
    cancelled_from: &CancelledFrom,
    until: Option<u64>,
    event: &'e Event,
) -> Result<(), AllocError>
    ensures { OnOk result (map bar_of bars.new.items ≡ map bar_of bars.old.items
        ++ bars_at clock (table_in cancelled_from.now) until (walked_in index.entry.now) (event_of event.entry.now)) }
{
    if !event.what.is_start() {
        return Ok(());
    }
    let own = index.events_of(&event.task);
    bars.push(Bar {
        first: event,
        last: end_in(own),
        own,
        cancelled: None,
    })?;
    push_blocks(bars, index, clock, cancelled_from, until, own)
}

// Returns the first event that is the end of a task.
fn end_in<'e>(events: &[&'e Event]) -> Option<&'e Event>
    ensures { event_seen result ≡ end_in (map event_in events.now) }
{
    'events: for event in events {
        if event.what.is_end() {
            return Some(*event);
        }
    }
    None
}
