ghost use Rattle.std.specs.Prelude.{◌≡◌, ℕ, map, IfOk};
ghost use Rattle.job_meaning.specs.Clocks.{tick_of};
ghost use Rattle.job_story.specs.Held.{event_of};
ghost use Rattle.story_index.specs.Seen.{event_in};
ghost use Rattle.story_index.specs.Until.{is_until, events_until};

use job_meaning::Clock;
use job_story::Event;
use std::alloc::{AllocError, Global};

/// Returns the events up to and including the tick `until`, or all of them if it is `None`, in the same order. Returns
/// `AllocError` if memory runs out.
pub fn events_until<'e>(
    alloc: Global,
    clock: Clock,
    events: &'e [Event],
    until: Option<u64>,
) -> Result<Vec<&'e Event>, AllocError>
    ensures { IfOk result (λ shown. map event_in shown.items ≡ events_until clock until (map event_of events.now)) }
{
    let mut shown = Vec::new(alloc);
    'events: for event in events {
        if is_by(clock.tick_of(event.tick), until) {
            shown.push(event)?;
        }
    }
    Ok(shown)
}

// Returns whether a tick is not later than the last one, if there is one.
fn is_by(tick: u64, until: Option<u64>) -> bool
    ensures { (clock : Clock) (m : ℕ) → tick ≡ tick_of clock m → result ≡ is_until clock until m }
{
    match until {
        Some(last) => tick <= last,
        None => true,
    }
}
