ghost use Rattle.std.specs.Prelude.{◌≡◌, None, Some, IfOk, OnOk, map, refl, if◌then◌else◌};
ghost use Rattle.std.specs.Coded.{code_by};
ghost use Rattle.std.proofs.Props.{props};
ghost use Rattle.exceptions.specs.ExcCode.{excs_code};
ghost use Rattle.exceptions.specs.Exceptions as tree;
ghost use Rattle.exceptions.specs.Exceptions.{Excs, no_parts, part, cancelled};
ghost use Rattle.job_meaning.specs.Log.{same_label};
ghost use Rattle.job_story.specs.Held.{event_of};
ghost use Rattle.job_story.specs.Limit.{last_event};
ghost use Rattle.story_index.specs.Lasts.{event_at, seen_last};
ghost use Rattle.story_index.specs.Seen.{event_in};

use exceptions::Label;
use indexmap::IndexMap;
use job_story::Event;
use std::alloc::{AllocError, Global};

/// The last event of each task among the events of a story. A look-up takes constant time.
#[derive(Drop)]
pub struct LastEvents<'s, 'e> {
    /// The events, in the order that decides which is the last.
    pub events: &'s [&'e Event],
    lasts: IndexMap<&'e Label, &'e Event>,
    // An event has a code, with an exception in it as the only part of a group, so each fact has at most one proof.
    ghost last: { (l : tree.Label) → seen_last (event_at lasts l) ≡ last_event l (map event_in events.now) None } by { Prim.hlevel (props, code_by Excs excs_code (λ exc. part exc no_parts) (elim [ no_parts ↦ cancelled | part exc parts ↦ exc ]) (λ exc. refl)) },
}

impl<'s, 'e> LastEvents<'s, 'e> {
    /// Finds the last event of each task of these events, in one pass. Returns `AllocError` if memory runs out.
    pub fn of(alloc: Global, events: &'s [&'e Event]) -> Result<LastEvents<'s, 'e>, AllocError>
        ensures { IfOk result (λ lasts. lasts.events.now ≡ events.entry.now) }
    {
        let lasts = last_events(alloc, events)?;
        Ok(LastEvents { events, lasts })
    }

    /// Returns the last event of a task, or `None` if none of the events is one of this task.
    pub fn last(&self, task: &Label) -> Option<&'e Event>
        ensures { seen_last result ≡ last_event task.now (map event_in self.now.events.now) None }
    {
        self.lasts.get(&task).copied()
    }
}

// Returns the last event of each task.
fn last_events<'e>(
    alloc: Global,
    events: &[&'e Event],
) -> Result<IndexMap<&'e Label, &'e Event>, AllocError>
    ensures { IfOk result (λ lasts. (l : tree.Label) → seen_last (event_at lasts l) ≡ last_event l (map event_in events.now) None) }
{
    let mut lasts = IndexMap::new(alloc);
    'events: for event in events {
        note_last(&mut lasts, event)?;
    }
    Ok(lasts)
}

// Records an event as the last of its task.
fn note_last<'e>(
    lasts: &mut IndexMap<&'e Label, &'e Event>,
    event: &'e Event,
) -> Result<(), AllocError>
    ensures { OnOk result ((l : tree.Label) → seen_last (event_at lasts.new l)
        ≡ (if same_label l event.entry.now.task then Some (event_of event.entry.now) else seen_last (event_at lasts.old l))) }
{
    lasts.insert(&event.task, event)?;
    Ok(())
}
