ghost use Rattle.std.specs.Prelude.{◌≡◌, ◌++◌, ◌∷◌, [], Bool, IfOk, OnOk, Option, List, map};
ghost use Rattle.exceptions.specs.Exceptions as tree;
ghost use Rattle.std.specs.Option.{option_map};
ghost use Rattle.job_story.specs.Events as story_events;
ghost use Rattle.job_story.specs.Events.{happens};
ghost use Rattle.job_story.specs.Held.{asked_of, during_of, happening_of, what_of};
ghost use Rattle.job_story.specs.Story as story;
ghost use Rattle.job_story.specs.Notes.{record_of, turn, turns_by, turns_in};
ghost use Rattle.story_waits.specs.Records.{KnowsStarts};
ghost use Rattle.story_waits.specs.Moves.{may_move, move_in, some_may_move, turn_in};
ghost use Rattle.story_index.specs.Seen.{event_in};

use crate::moves::{Move, Turn};
use crate::records::Records;
use exceptions::Label;
use job_story::{Asked, During, Event, Happening, What};
use job_tree::Ask;
use std::alloc::{AllocError, Global};

// The task of an event, with its place in the order of records, the number of the event in the walk, and its moment.
#[derive(Clone, Copy)]
pub(crate) struct Actor<'e> {
    pub(crate) event: usize,
    pub(crate) record_place: usize,
    pub(crate) task: &'e Label,
    pub(crate) moment: u64,
}

// Returns the moves in these events, which are in the order of the walk.
pub(crate) fn turns_in<'e>(alloc: Global, walked: &[&'e Event]) -> Result<Vec<Turn<'e>>, AllocError>
    ensures { IfOk result (λ turns. map turn_in turns.items ≡ turns_in (map event_in walked.now) 0 0 (map event_in walked.now)) }
{
    let mut turns = Vec::new(alloc);
    if !has_moves(walked) {
        return Ok(turns);
    }
    let records = Records::of(alloc, walked)?;
    let mut joined = 0;
    'events: for i in 0..walked.len() {
        let event = walked[i];
        push_event(&mut turns, &records, i, joined, event)?;
        joined = event.tick;
    }
    Ok(turns)
}

// Returns whether any of these events may have moves.
fn has_moves(walked: &[&Event]) -> bool
    ensures { result ≡ some_may_move (map event_in walked.now) }
{
    'events: for event in walked {
        if may_move(&event.what) {
            return true;
        }
    }
    false
}

// Returns whether what an event is may have moves.
fn may_move(what: &What) -> bool
    ensures { result ≡ may_move (what_of what.now) }
{
    match what {
        What::Happens(happening) => may_move_in(happening),
        What::Starts { .. } | What::Ends { .. } => false,
    }
}

// Returns whether what happens to a task may have moves.
fn may_move_in(happening: &Happening) -> bool
    ensures { result ≡ may_move (happens (happening_of happening.now)) }
{
    matches!(
        happening,
        Happening::Queues { .. }
            | Happening::Gets { .. }
            | Happening::FindsClosed { .. }
            | Happening::IsCancelled { .. }
            | Happening::Deadlocks { .. }
            | Happening::GivesTokenBack { .. }
            | Happening::ClosesChannel { .. }
    )
}

// Appends the moves in the event with this number in the walk, where the event before it was in the moment `joined`.
fn push_event<'e>(
    turns: &mut Vec<Turn<'e>>,
    records: &Records<'e>,
    number: usize,
    joined: u64,
    event: &'e Event,
) -> Result<(), AllocError>
    ensures { (walked : List story_events.Event) → KnowsStarts records.now walked →
        OnOk result (map turn_in turns.new.items ≡ map turn_in turns.old.items
        ++ turns_by number (record_of event.entry.now.task walked) joined event.entry.now.task event.entry.now.tick (what_of event.entry.now.what)) }
{
    if !may_move(&event.what) {
        return Ok(());
    }
    let actor = Actor {
        event: number,
        record_place: records.of_task(&event.task),
        task: &event.task,
        moment: event.tick,
    };
    push_turns(turns, actor, joined, &event.what)
}

// Appends the moves in what an event is, where the event before it was in the moment `joined`.
fn push_turns<'e>(
    turns: &mut Vec<Turn<'e>>,
    actor: Actor<'e>,
    joined: u64,
    what: &'e What,
) -> Result<(), AllocError>
    ensures { OnOk result (map turn_in turns.new.items ≡ map turn_in turns.old.items
        ++ turns_by actor.entry.event actor.entry.record_place joined actor.entry.task.now actor.entry.moment (what_of what.entry.now)) }
{
    match what {
        What::Happens(happening) => push_moves(turns, actor, joined, happening),
        What::Starts { .. } | What::Ends { .. } => Ok(()),
    }
}

// Appends the moves in what happens to a task.
fn push_moves<'e>(
    turns: &mut Vec<Turn<'e>>,
    actor: Actor<'e>,
    joined: u64,
    happening: &'e Happening,
) -> Result<(), AllocError>
    ensures { OnOk result (map turn_in turns.new.items ≡ map turn_in turns.old.items
        ++ turns_by actor.entry.event actor.entry.record_place joined actor.entry.task.now actor.entry.moment (happens (happening_of happening.entry.now))) }
{
    match happening {
        Happening::Queues { ask, object, .. } => push(turns, actor, object, Move::Joins(*ask)),
        Happening::Gets {
            ask,
            object,
            at_once,
        } => push_granted(turns, actor, joined, *ask, object, at_once),
        Happening::FindsClosed {
            ask,
            object,
            at_once,
        } => push_found_closed(turns, actor, *ask, object, at_once),
        Happening::IsCancelled { during, .. } => push_cut(turns, actor, during),
        Happening::Deadlocks { ask, object } => push(turns, actor, object, Move::Goes(*ask)),
        Happening::GivesTokenBack { object } => push(turns, actor, object, Move::GivesBack),
        Happening::ClosesChannel { object } => push_close(turns, actor, object),
        _ => Ok(()),
    }
}

// Appends a move in the moment of its event.
fn push<'e>(
    turns: &mut Vec<Turn<'e>>,
    actor: Actor<'e>,
    object: &'e Label,
    made: Move,
) -> Result<(), AllocError>
    ensures { OnOk result (map turn_in turns.new.items ≡ map turn_in turns.old.items
        ++ turn actor.entry.event actor.entry.record_place actor.entry.task.now object.entry.now actor.entry.moment (move_in made) ∷ []) }
{
    push_at(turns, actor, actor.moment, object, made)
}

// Appends a move in a moment.
fn push_at<'e>(
    turns: &mut Vec<Turn<'e>>,
    actor: Actor<'e>,
    moment: u64,
    object: &'e Label,
    made: Move,
) -> Result<(), AllocError>
    ensures { OnOk result (map turn_in turns.new.items ≡ map turn_in turns.old.items
        ++ turn actor.entry.event actor.entry.record_place actor.entry.task.now object.entry.now moment (move_in made) ∷ []) }
{
    turns.push(Turn {
        event: actor.event,
        record_place: actor.record_place,
        task: actor.task,
        object,
        moment,
        made,
    })?;
    Ok(())
}

// Appends the moves of a task that is granted what it asked: it asked in the moment before, or waited in the queue.
fn push_granted<'e>(
    turns: &mut Vec<Turn<'e>>,
    actor: Actor<'e>,
    joined: u64,
    ask: Ask,
    object: &'e Label,
    at_once: &Option<Asked>,
) -> Result<(), AllocError>
    ensures { OnOk result (map turn_in turns.new.items ≡ map turn_in turns.old.items
        ++ turns_by actor.entry.event actor.entry.record_place joined actor.entry.task.now actor.entry.moment
        (happens (story.gets ask object.entry.now (option_map asked_of at_once.now)))) }
{
    match at_once {
        Some(asked) => push_at(turns, actor, asked.since, object, Move::IsGranted(ask)),
        None => {
            push(turns, actor, object, Move::Goes(ask))?;
            push_at(turns, actor, joined, object, Move::IsGranted(ask))
        }
    }
}

// Appends the move of a task that finds a channel closed, if it waited in the queue.
fn push_found_closed<'e>(
    turns: &mut Vec<Turn<'e>>,
    actor: Actor<'e>,
    ask: Ask,
    object: &'e Label,
    at_once: &Option<Asked>,
) -> Result<(), AllocError>
    ensures { OnOk result (map turn_in turns.new.items ≡ map turn_in turns.old.items
        ++ turns_by actor.entry.event actor.entry.record_place 0 actor.entry.task.now actor.entry.moment
        (happens (story.finds_closed ask object.entry.now (option_map asked_of at_once.now)))) }
{
    match at_once {
        Some(_) => Ok(()),
        None => push(turns, actor, object, Move::Goes(ask)),
    }
}

// Appends the move of a task that is cancelled, if it waited in a queue.
fn push_cut<'e>(
    turns: &mut Vec<Turn<'e>>,
    actor: Actor<'e>,
    during: &'e During,
) -> Result<(), AllocError>
    ensures { OnOk result ((by : Option tree.Label) (in_cleanup : Bool) → map turn_in turns.new.items ≡ map turn_in turns.old.items
        ++ turns_by actor.entry.event actor.entry.record_place 0 actor.entry.task.now actor.entry.moment
        (happens (story.is_cancelled by (during_of during.entry.now) in_cleanup))) }
{
    match during {
        During::InQueue { ask, object, .. } => push(turns, actor, object, Move::Goes(*ask)),
        _ => Ok(()),
    }
}

// Appends the move of a task that closes a channel, if there is one.
fn push_close<'e>(
    turns: &mut Vec<Turn<'e>>,
    actor: Actor<'e>,
    object: &'e Option<Label>,
) -> Result<(), AllocError>
    ensures { OnOk result (map turn_in turns.new.items ≡ map turn_in turns.old.items
        ++ turns_by actor.entry.event actor.entry.record_place 0 actor.entry.task.now actor.entry.moment (happens (story.closes_channel object.entry.now))) }
{
    match object {
        Some(object) => push(turns, actor, object, Move::Closes),
        None => Ok(()),
    }
}
