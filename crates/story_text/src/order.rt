ghost use Rattle.std.specs.Prelude.{◌≡◌, IfOk, OnOk, map};
ghost use Rattle.job_story.specs.Events.{in_order as ordered};
ghost use Rattle.story_index.specs.Seen.{event_in};

use job_story::Event;
use std::alloc::{AllocError, Global};

/// Returns the events of a walk sorted by moment. Events of the same moment keep the order of the walk. Returns `AllocError` if
/// memory runs out.
pub fn in_order<'e>(alloc: Global, walked: &[&'e Event]) -> Result<Vec<&'e Event>, AllocError>
    ensures { IfOk result (λ sorted. map event_in sorted.items ≡ ordered (map event_in walked.now)) }
{
    let mut events = Vec::from_slice(alloc, walked)?;
    sort_by_tick(alloc, events.as_mut_slice())?;
    Ok(events)
}

// Sorts events by moment. Events of the same moment keep their order.
fn sort_by_tick(alloc: Global, events: &mut [&Event]) -> Result<(), AllocError>
    ensures { OnOk result (map event_in events.new ≡ ordered (map event_in events.old)) }
{
    events.sort_by_key(alloc, |event| event.tick)
}
