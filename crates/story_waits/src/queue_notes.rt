ghost use Rattle.std.specs.Prelude.{◌≡◌, None, Some, IfSome, IfOk, OnOk, List, [], map, if◌then◌else◌};
ghost use Rattle.std.specs.Option.{option_map, option_or};
ghost use Rattle.job_story.specs.Events as story_events;
ghost use Rattle.job_story.specs.Held.{event_of, happening_of, what_of};
ghost use Rattle.job_story.specs.Notes.{in_service, is_noted_as, joins_by, note_by, noted_in, notes_in, number_in};
ghost use Rattle.story_waits.specs.Noted.{note_in};
ghost use Rattle.story_waits.specs.QueueNotes.{held_notes, joins_in, noted_at};
ghost use Rattle.story_waits.specs.declared.queue_notes.Asker.{Asker as HeldAsker};
ghost use Rattle.story_waits.specs.QueueService.{KnowsService};
ghost use Rattle.story_index.specs.Seen.{event_in};

use crate::note::Note;
use crate::queue_service::QueueService;
use exceptions::Label;
use indexmap::IndexMap;
use job_story::{Event, Happening, What};
use std::alloc::{AllocError, Global};

// A task in a moment in which it joins a queue, or goes on from one.
#[derive(PartialEq, Eq, Hash, Drop)]
pub(crate) struct Asker<'e> {
    pub(crate) joins: bool,
    pub(crate) task: &'e Label,
    pub(crate) moment: u64,
}

/// What a story says of other tasks where a task asks something of a limiter or channel: its place in the queue, and whose doing it
/// is that it goes on. A look-up takes constant time.
#[derive(Drop)]
pub struct QueueNotes<'e> {
    pub(crate) notes: IndexMap<Asker<'e>, Option<Note<'e>>>,
}

impl<'e> QueueNotes<'e> {
    /// Reads the events of a story, all of them, in the order of the walk. They are sorted, which takes most of the time, and only
    /// tasks and what is done to limiters and channels take memory. Returns `AllocError` if memory runs out.
    pub fn of(alloc: Global, walked: &[&'e Event]) -> Result<QueueNotes<'e>, AllocError>
        ensures { IfOk result (λ notes. held_notes notes ≡ notes_in (map event_in walked.now)) }
    {
        let service = QueueService::of(alloc, walked)?;
        let notes = note_events(alloc, walked, &service)?;
        Ok(QueueNotes { notes })
    }

    /// Returns what is said of other tasks in an event, or `None` if it is none that these notes are about.
    pub fn note_of(&self, event: &Event) -> Option<Note<'e>>
        ensures { option_map note_in result ≡ held_notes self.now (event_of event.now) }
    {
        let Some(asker) = asker_of(event) else {
            return None;
        };
        match self.notes.get(&asker) {
            Some(note) => *note,
            None => None,
        }
    }
}

// Returns what is said in the events of a story.
fn note_events<'e>(
    alloc: Global,
    walked: &[&'e Event],
    service: &QueueService<'e>,
) -> Result<IndexMap<Asker<'e>, Option<Note<'e>>>, AllocError>
    requires { KnowsService service.now (map event_in walked.now) }
    ensures { IfOk result (λ notes. (e : story_events.Event) → noted_at notes e
        ≡ noted_in (map event_in walked.now) (in_service (map event_in walked.now)) 0 (map event_in walked.now) e) }
{
    let mut notes = IndexMap::new(alloc);
    'events: for i in 0..walked.len() {
        note_event(&mut notes, service, i, walked[i])?;
    }
    Ok(notes)
}

// Records what is said in the event with this number in the walk, if it is one that notes are about, and the first such one of its
// task and moment.
fn note_event<'e>(
    notes: &mut IndexMap<Asker<'e>, Option<Note<'e>>>,
    service: &QueueService<'e>,
    number: usize,
    event: &'e Event,
) -> Result<(), AllocError>
    ensures { (walked : List story_events.Event) → KnowsService service.now walked → OnOk result ((e : story_events.Event) → noted_at notes.new e
        ≡ option_or (noted_at notes.old e) (if is_noted_as e (event_of event.entry.now)
        then Some (note_by walked (in_service walked) (number_in [] number (in_service walked)) (what_of event.entry.now.what)) else None)) }
{
    let Some(asker) = asker_of(event) else {
        return Ok(());
    };
    if notes.contains_key(&asker) {
        return Ok(());
    }
    notes.insert(asker, service.note_of(number, &event.what))?;
    Ok(())
}

// Returns the task and moment of an event that notes are about, or `None` for any other event.
fn asker_of(event: &Event) -> Option<Asker<'_>>
    ensures joins { option_map joins_in result ≡ joins_by (what_of event.now.what) }
    ensures asker { IfSome result (λ (asker : HeldAsker). (event.now.task ≡ asker.task.now) × (event.now.tick ≡ asker.moment)) }
{
    let Some(joins) = joins_by(&event.what) else {
        return None;
    };
    Some(Asker {
        joins,
        task: &event.task,
        moment: event.tick,
    })
}

// Returns whether a task joins a queue in an event, or goes on from one, or `None` if it does neither.
fn joins_by(what: &What) -> Option<bool>
    ensures { result ≡ joins_by (what_of what.now) }
{
    match what {
        What::Happens(happening) => joins_in(happening),
        What::Starts { .. } | What::Ends { .. } => None,
    }
}

// Returns the same of what happens to a task.
fn joins_in(happening: &Happening) -> Option<bool>
    ensures { result ≡ joins_by (story_events.happens (happening_of happening.now)) }
{
    match happening {
        Happening::Queues { .. } => Some(true),
        Happening::Gets { .. } | Happening::FindsClosed { .. } => Some(false),
        _ => None,
    }
}
