ghost use Rattle.std.specs.Prelude.{◌≡◌, ℕ, IfOk, List, [], Option, is_none, map};
ghost use Rattle.input_lines.specs.Lines.{Range};
ghost use Rattle.job_tree.specs.declared.object.Ask.TheVariants.{Acquire};
ghost use Rattle.std.specs.Option.{option_map};
ghost use Rattle.job_story.specs.Events as story_events;
ghost use Rattle.job_story.specs.Events.{happens};
ghost use Rattle.job_story.specs.Held.{asked_of, happening_of, what_of};
ghost use Rattle.job_story.specs.Story as story;
ghost use Rattle.job_story.specs.Notes.{granted_note, in_service, kind_of, note_by, number_in};
ghost use Rattle.story_waits.specs.Moves.{turn_in};
ghost use Rattle.story_waits.specs.Noted.{note_in};
ghost use Rattle.story_waits.specs.QueueService.{KnowsService};
ghost use Rattle.story_index.specs.Seen.{event_in};

use crate::groups::Groups;
use crate::moves::{Move, Turn};
use crate::note::Note;
use crate::numbers::serve;
use crate::object_kinds::kinds_of;
use crate::service::serve_in_order;
use crate::turns::turns_in;
use exceptions::Label;
use indexmap::IndexMap;
use job_story::{Asked, Event, Happening, What};
use job_tree::{Ask, ObjectKind};
use std::alloc::{AllocError, Global};

// How limiters and channels served the tasks of a story. Each look-up takes constant time.
#[derive(Drop)]
pub(crate) struct QueueService<'e> {
    // Who made which moves.
    pub(crate) groups: Groups<'e>,
    // The numbers of the events in a queue, or among what was granted, by their numbers in the walk.
    pub(crate) numbers: IndexMap<usize, usize>,
    // What each limiter and channel is.
    pub(crate) kinds: IndexMap<&'e Label, ObjectKind>,
}

impl<'e> QueueService<'e> {
    // Reads the events of a story in the order of the walk.
    pub(crate) fn of(alloc: Global, walked: &[&'e Event]) -> Result<QueueService<'e>, AllocError>
        ensures { IfOk result (λ service. KnowsService service (map event_in walked.now)) }
    {
        let turns = turns_in_service(alloc, walked)?;
        let (groups, numbers) = serve(alloc, turns.as_slice())?;
        let kinds = kinds_of(alloc, walked)?;
        Ok(QueueService {
            groups,
            numbers,
            kinds,
        })
    }

    // Returns what is said of other tasks in the event with this number in the walk.
    pub(crate) fn note_of(&self, number: usize, what: &What) -> Option<Note<'e>>
        ensures { (walked : List story_events.Event) → KnowsService self.now walked → option_map note_in result
            ≡ note_by walked (in_service walked) (number_in [] number (in_service walked)) (what_of what.now) }
    {
        match what {
            What::Happens(happening) => self.note_in(number, happening),
            What::Starts { .. } | What::Ends { .. } => None,
        }
    }

    // Returns what is said in the event of what happens to a task.
    fn note_in(&self, number: usize, happening: &Happening) -> Option<Note<'e>>
        ensures { (walked : List story_events.Event) → KnowsService self.now walked → option_map note_in result
            ≡ note_by walked (in_service walked) (number_in [] number (in_service walked)) (happens (happening_of happening.now)) }
    {
        match happening {
            Happening::Queues { ask, object, .. } => self.note_of_queue(number, *ask, object),
            Happening::Gets {
                ask,
                object,
                at_once,
            } => self.note_of_grant(number, *ask, object, at_once),
            Happening::FindsClosed { object, .. } => {
                Note::of_closed(self.groups.tasks_at(object, Move::Closes))
            }
            _ => None,
        }
    }

    // Returns what is said of a task that joins a queue.
    fn note_of_queue(&self, number: usize, ask: Ask, object: &Label) -> Option<Note<'e>>
        ensures { (walked : List story_events.Event) (part : Range) (left : Option ℕ) → KnowsService self.now walked → option_map note_in result
            ≡ note_by walked (in_service walked) (number_in [] number (in_service walked)) (happens (story.queues ask object.now part left)) }
    {
        let Some(place) = self.numbers.get(&number) else {
            return None;
        };
        Note::of_queue(ask, self.kind_of(object), *place)
    }

    // Returns what is said of a task that is granted what it asked.
    fn note_of_grant(
        &self,
        number: usize,
        ask: Ask,
        object: &Label,
        at_once: &Option<Asked>,
    ) -> Option<Note<'e>>
        ensures { (walked : List story_events.Event) → KnowsService self.now walked → option_map note_in result
            ≡ note_by walked (in_service walked) (number_in [] number (in_service walked))
            (happens (story.gets ask object.now (option_map asked_of at_once.now))) }
    {
        let Some(of_grant) = self.numbers.get(&number) else {
            return None;
        };
        match ask {
            Ask::Acquire => self.note_of_token(*of_grant, object, at_once),
            Ask::Send => None,
            Ask::Receive => Note::of_part(
                *of_grant,
                self.groups.tasks_at(object, Move::IsGranted(Ask::Send)),
            ),
        }
    }

    // Returns what is said of a task that gets the token with this number.
    fn note_of_token(
        &self,
        number: usize,
        object: &Label,
        at_once: &Option<Asked>,
    ) -> Option<Note<'e>>
        ensures { (walked : List story_events.Event) → KnowsService self.now walked → option_map note_in result
            ≡ granted_note Acquire object.now (is_none (option_map asked_of at_once.now)) (kind_of object.now walked) number (in_service walked) }
    {
        match at_once {
            Some(_) => None,
            None => Note::of_token(
                self.kind_of(object),
                number,
                self.groups.tasks_at(object, Move::GivesBack),
            ),
        }
    }

    // Returns what a limiter or channel is.
    fn kind_of(&self, object: &Label) -> Option<ObjectKind>
        ensures { (walked : List story_events.Event) → KnowsService self.now walked → result ≡ kind_of object.now walked }
    {
        self.kinds.get(&object).copied()
    }
}

// Returns the moves in a story, in the order in which limiters and channels serve them.
fn turns_in_service<'e>(alloc: Global, walked: &[&'e Event]) -> Result<Vec<Turn<'e>>, AllocError>
    ensures { IfOk result (λ turns. map turn_in turns.items ≡ in_service (map event_in walked.now)) }
{
    let mut turns = turns_in(alloc, walked)?;
    serve_in_order(alloc, turns.as_mut_slice())?;
    Ok(turns)
}
