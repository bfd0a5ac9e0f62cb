ghost use Rattle.std.specs.Prelude.{◌≡◌, ◌&&◌, not, None, IfOk, OnOk, List, map, if◌then◌else◌};
ghost use Rattle.std.specs.Option.{option_copied, option_map, option_or};
ghost use Rattle.exceptions.specs.Exceptions as tree;
ghost use Rattle.job_meaning.specs.Log.{same_label};
ghost use Rattle.job_story.specs.Events as story_events;
ghost use Rattle.job_story.specs.Deadlock.{first_cycle, has_one_token, holder_after, holder_by, holder_of, limiter_after, limiter_of, most_in_cycle, wait_of, waits_to};
ghost use Rattle.job_story.specs.Held.{happening_of, what_of};
ghost use Rattle.job_story.specs.Limit.{has_ended, is_start, running_in, start_if};
ghost use Rattle.story_waits.specs.Deadlock.{KnowsWaits, holder_at, wait_in, waits_in};
ghost use Rattle.story_index.specs.Holds.{label_seen};
ghost use Rattle.story_index.specs.Lasts.{seen_last};
ghost use Rattle.story_index.specs.Seen.{event_in};

use crate::object_kinds::kinds_of;
use exceptions::Label;
use indexmap::IndexMap;
use job_story::{Event, Happening, What};
use job_tree::{Ask, ObjectKind};
use std::alloc::{AllocError, Global};
use story_index::Tasks;

/// A task that waits for the token of a limiter with one token, which another task holds.
#[derive(Clone, Copy)]
pub struct Wait<'e> {
    /// The task that waits.
    pub task: &'e Label,
    /// The limiter.
    pub limiter: &'e Label,
    /// The task that holds the token.
    pub holder: &'e Label,
}

// Which tasks wait for which after some events. Each look-up takes constant time.
#[derive(Drop)]
pub(crate) struct Waits<'s, 'e> {
    pub(crate) tasks: Tasks<'s, 'e>,
    pub(crate) kinds: IndexMap<&'e Label, ObjectKind>,
    pub(crate) holders: IndexMap<&'e Label, Option<&'e Label>>,
}

/// Returns a deadlock in which some tasks are after these events, which are in order: tasks of which each waits for the token of a
/// limiter with one token that the next one holds, and the last for one that the first holds. It is the cycle of the first task
/// that is in one of at most 64 tasks. Returns `None` if there is none, and `AllocError` if memory runs out.
pub fn find_deadlock<'e>(
    alloc: Global,
    events: &[&'e Event],
) -> Result<Option<Vec<Wait<'e>>>, AllocError>
    ensures { IfOk result (λ found. option_map waits_in found
        ≡ first_cycle (map event_in events.now) (running_in (map event_in events.now) (map event_in events.now))) }
{
    let waits = Waits::of(alloc, events)?;
    let found = first_cycle(alloc, &waits, events)?;
    Ok(found)
}

// Returns the most tasks in a cycle that is found.
fn most_in_cycle() -> usize
    ensures { result ≡ most_in_cycle }
{
    64
}

// Returns the cycle of the first task that is running and is in one.
fn first_cycle<'e>(
    alloc: Global,
    waits: &Waits<'_, 'e>,
    events: &[&'e Event],
) -> Result<Option<Vec<Wait<'e>>>, AllocError>
    requires { KnowsWaits waits.now (map event_in events.now) }
    ensures { IfOk result (λ found. option_map waits_in found
        ≡ first_cycle (map event_in events.now) (running_in (map event_in events.now) (map event_in events.now))) }
{
    'events: for event in events {
        if let Some(found) = waits.cycle_from(alloc, event)? {
            return Ok(Some(found));
        }
    }
    Ok(None)
}

impl<'s, 'e> Waits<'s, 'e> {
    // Reads events, which are in order.
    fn of(alloc: Global, events: &'s [&'e Event]) -> Result<Waits<'s, 'e>, AllocError>
        ensures { IfOk result (λ waits. KnowsWaits waits (map event_in events.entry.now)) }
    {
        let tasks = Tasks::of(alloc, events, events)?;
        let kinds = kinds_of(alloc, events)?;
        let holders = holders_of(alloc, events)?;
        Ok(Waits {
            tasks,
            kinds,
            holders,
        })
    }

    // Returns the cycle of a task that starts by this event, if it is running and in one.
    fn cycle_from(
        &self,
        alloc: Global,
        event: &'e Event,
    ) -> Result<Option<Vec<Wait<'e>>>, AllocError>
        ensures { (es : List story_events.Event) → KnowsWaits self.now es → IfOk result (λ found. (others : List tree.Label) →
            option_or (option_map waits_in found) (first_cycle es others)
            ≡ first_cycle es (start_if (is_start (what_of event.entry.now.what) && not (has_ended event.entry.now.task es)) event.entry.now.task others)) }
    {
        if !self.tasks.is_running(event) {
            return Ok(None);
        }
        let found = self.waits_to(alloc, most_in_cycle(), &event.task)?;
        Ok(found)
    }

    // Returns the waits from a task on to itself, if at most so many lead there.
    fn waits_to(
        &self,
        alloc: Global,
        most: usize,
        first: &'e Label,
    ) -> Result<Option<Vec<Wait<'e>>>, AllocError>
        ensures { (es : List story_events.Event) → KnowsWaits self.now es → IfOk result (λ found. option_map waits_in found
            ≡ waits_to most es first.entry.now first.entry.now) }
    {
        let mut waits = Vec::new(alloc);
        let mut task = first;
        let mut left = most;
        'waits: while left > 0 {
            left -= 1;
            let Some(wait) = self.wait_of(task) else {
                return Ok(None);
            };
            waits.push(wait)?;
            if first == wait.holder {
                return Ok(Some(waits));
            }
            task = wait.holder;
        }
        Ok(None)
    }

    // Returns for what a task waits, if it waits for the token of a limiter with one token that another task holds.
    fn wait_of(&self, task: &'e Label) -> Option<Wait<'e>>
        ensures { (es : List story_events.Event) → KnowsWaits self.now es → option_map wait_in result ≡ wait_of es task.entry.now }
    {
        let Some(limiter) = limiter_after(self.tasks.last(task)) else {
            return None;
        };
        let Some(holder) = self.holder_of(limiter) else {
            return None;
        };
        Some(Wait {
            task,
            limiter,
            holder,
        })
    }

    // Returns who holds the token of a limiter with one token.
    fn holder_of(&self, limiter: &Label) -> Option<&'e Label>
        ensures { (es : List story_events.Event) → KnowsWaits self.now es → label_seen result ≡ holder_of es limiter.now }
    {
        if !has_one_token(self.kinds.get(&limiter)) {
            return None;
        }
        match self.holders.get(&limiter) {
            Some(holder) => *holder,
            None => None,
        }
    }
}

// Returns whether this is a limiter with one token.
fn has_one_token(kind: Option<&ObjectKind>) -> bool
    ensures { result ≡ has_one_token (option_copied kind.entry) }
{
    match kind {
        Some(ObjectKind::Limiter(tokens)) => *tokens == 1,
        _ => false,
    }
}

// Returns the limiter for a token of which a task waits after this event.
fn limiter_after<'e>(last: Option<&'e Event>) -> Option<&'e Label>
    ensures { label_seen result ≡ limiter_after (seen_last last.entry) }
{
    let Some(event) = last else {
        return None;
    };
    match &event.what {
        What::Happens(happening) => limiter_in(happening),
        What::Starts { .. } | What::Ends { .. } => None,
    }
}

// Returns the same after this happened to it.
fn limiter_in(happening: &Happening) -> Option<&Label>
    ensures { label_seen result ≡ limiter_of (story_events.happens (happening_of happening.entry.now)) }
{
    match happening {
        Happening::Queues { ask, object, .. } => match ask {
            Ask::Acquire => Some(object),
            Ask::Send | Ask::Receive => None,
        },
        _ => None,
    }
}

// Returns who holds a token of each limiter, as if it had one.
fn holders_of<'e>(
    alloc: Global,
    events: &[&'e Event],
) -> Result<IndexMap<&'e Label, Option<&'e Label>>, AllocError>
    ensures { IfOk result (λ holders. (l : tree.Label) → holder_at holders l ≡ holder_by l None (map event_in events.now)) }
{
    let mut holders = IndexMap::new(alloc);
    'events: for event in events {
        note_holder(&mut holders, event)?;
    }
    Ok(holders)
}

// Records who holds the token of a limiter after one more event.
fn note_holder<'e>(
    holders: &mut IndexMap<&'e Label, Option<&'e Label>>,
    event: &'e Event,
) -> Result<(), AllocError>
    ensures { OnOk result ((l : tree.Label) → holder_at holders.new l
        ≡ holder_after l event.entry.now.task (what_of event.entry.now.what) (holder_at holders.old l)) }
{
    match &event.what {
        What::Happens(happening) => note_holder_in(holders, &event.task, happening),
        What::Starts { .. } | What::Ends { .. } => Ok(()),
    }
}

// Records the same after something happened to a task.
fn note_holder_in<'e>(
    holders: &mut IndexMap<&'e Label, Option<&'e Label>>,
    task: &'e Label,
    happening: &'e Happening,
) -> Result<(), AllocError>
    ensures { OnOk result ((l : tree.Label) → holder_at holders.new l
        ≡ holder_after l task.entry.now (story_events.happens (happening_of happening.entry.now)) (holder_at holders.old l)) }
{
    match happening {
        Happening::Gets { ask, object, .. } => match ask {
            Ask::Acquire => put_holder(holders, object, Some(task)),
            Ask::Send | Ask::Receive => Ok(()),
        },
        Happening::GivesTokenBack { object } => put_holder(holders, object, None),
        _ => Ok(()),
    }
}

// Sets who holds the token of a limiter.
fn put_holder<'e>(
    holders: &mut IndexMap<&'e Label, Option<&'e Label>>,
    limiter: &'e Label,
    holder: Option<&'e Label>,
) -> Result<(), AllocError>
    ensures { OnOk result ((l : tree.Label) → holder_at holders.new l
        ≡ (if same_label l limiter.entry.now then label_seen holder.entry else holder_at holders.old l)) }
{
    holders.insert(limiter, holder)?;
    Ok(())
}
