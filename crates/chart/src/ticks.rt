ghost use Rattle.std.specs.Prelude.{◌≡◌, ◌++◌, [], IfOk, OnOk, map};
ghost use Rattle.story_index.specs.Seen.{event_in};
ghost use Rattle.chart.specs.Ticks.{if_tick, ticks_of_events, all_ticks};

use job_meaning::Clock;
use job_story::Event;
use std::alloc::{AllocError, Global};

/// Returns the ticks at which something happens: the tick of each event, so that a tick occurs once for each of its events, and
/// then the limit at which a story is cut off (`until`), if there is one. `clock` says how the moments of the events are counted.
/// Returns `AllocError` if memory runs out.
pub fn all_ticks(
    alloc: Global,
    clock: Clock,
    events: &[&Event],
    until: Option<u64>,
) -> Result<Vec<u64>, AllocError>
    ensures { IfOk result (λ ticks. ticks.items ≡ all_ticks clock (map event_in events.now) until) }
{
    let mut ticks = Vec::new(alloc);
    push_events(&mut ticks, clock, events)?;
    push_tick(&mut ticks, until)?;
    Ok(ticks)
}

// Appends the tick of each event.
fn push_events(ticks: &mut Vec<u64>, clock: Clock, events: &[&Event]) -> Result<(), AllocError>
    ensures { OnOk result (ticks.new.items ≡ ticks.old.items ++ ticks_of_events clock (map event_in events.now) []) }
{
    'events: for event in events {
        ticks.push(clock.tick_of(event.tick))?;
    }
    Ok(())
}

// Appends a tick, if there is one.
fn push_tick(ticks: &mut Vec<u64>, tick: Option<u64>) -> Result<(), AllocError>
    ensures { OnOk result (ticks.new.items ≡ ticks.old.items ++ if_tick tick []) }
{
    if let Some(tick) = tick {
        ticks.push(tick)?;
    }
    Ok(())
}
