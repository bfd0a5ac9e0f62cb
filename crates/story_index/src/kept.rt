ghost use Rattle.std.specs.Prelude.{◌≡◌, List, IfOk, map};
ghost use Rattle.exceptions.specs.Exceptions as tree;
ghost use Rattle.job_story.specs.Focus.{is_among, of_tasks};
ghost use Rattle.story_index.specs.Seen.{event_in};
ghost use Rattle.story_index.specs.Holds.{holds};

use crate::task_set::TaskSet;
use job_story::Event;
use std::alloc::{AllocError, Global};

/// Returns the events that are events of one of these tasks, in the same order. Returns `AllocError` if memory runs out.
pub fn of_tasks<'e>(
    alloc: Global,
    events: &[&'e Event],
    tasks: &TaskSet<'_>,
) -> Result<Vec<&'e Event>, AllocError>
    ensures { IfOk result (λ kept. (ls : List tree.Label) → ((l : tree.Label) → holds tasks.now l ≡ is_among l ls) →
        map event_in kept.items ≡ of_tasks ls (map event_in events.now)) }
{
    let mut kept = Vec::new(alloc);
    'events: for event in events {
        if tasks.holds(&event.task) {
            kept.push(*event)?;
        }
    }
    Ok(kept)
}
