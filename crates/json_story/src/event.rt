ghost use Rattle.std.specs.Prelude.{◌≡◌, ◌++◌, map, IfOk, OnOk};
ghost use Rattle.serde_json.specs.Data.{put as with_member};
ghost use Rattle.serde_json.specs.View.{view, members_view};
ghost use Rattle.serde_json.specs.Written.{compact_text};
ghost use Rattle.job_story.specs.Held.{what_of, event_of};
ghost use Rattle.story_index.specs.Seen.{event_in};
ghost use Rattle.json_story.specs.Values.{list_of};
ghost use Rattle.json_story.specs.Events.{what_word, with_what, with_note, event_head, event_json};
ghost use Rattle.json_story.specs.Known.{clock_in, events_in, cancelled_from_in, notes_held};
ghost use Rattle.story_waits.specs.Noted.{note_in};
ghost use Rattle.std.specs.Option.{option_map};

use crate::found::push_found;
use crate::frequent::{Ending, push_end, push_sleep, push_start};
use crate::happening::{happening_word, put_happening};
use crate::known::Known;
use crate::optional::{exc_or_null, label_or_null, moment_value};
use crate::{label_value, push_comma, push_value};
use job_meaning::Clock;
use job_story::{Event, Happening, What};
use serde_json::{Map, Value, put};
use std::alloc::{AllocError, Global};
use story_waits::Note;

// Appends the events of a story as a JSON array.
pub(crate) fn push_events(
    alloc: Global,
    out: &mut Vec<u8>,
    known: &Known<'_, '_>,
    events: &[&Event],
) -> Result<(), AllocError>
    ensures { OnOk result (out.new.items
        ≡ out.old.items ++ compact_text (list_of
        (map (event_json (clock_in known.now) (cancelled_from_in known.now) (notes_held known.now) (events_in known.now)) (map event_in events.now)))) }
{
    out.push(b'[')?;
    'events: for (i, event) in events.iter().enumerate() {
        push_comma(out, i)?;
        push_event(alloc, out, known, event)?;
    }
    out.push(b']')?;
    Ok(())
}

// Appends an event as a JSON object. No value is made of an event of which a story has many: that a task starts, sleeps, finds
// lines, of which there may be millions, or ends.
fn push_event(
    alloc: Global,
    out: &mut Vec<u8>,
    known: &Known<'_, '_>,
    event: &Event,
) -> Result<(), AllocError>
    ensures { OnOk result (out.new.items
        ≡ out.old.items ++ compact_text (event_json (clock_in known.now) (cancelled_from_in known.now) (notes_held known.now) (events_in known.now) (event_of event.now))) }
{
    let tick = known.clock.tick_of(event.tick);
    match &event.what {
        What::Starts { home, .. } => push_start(alloc, out, &event.task, tick, home),
        What::Happens(Happening::Sleeps { until }) => {
            push_sleep(alloc, out, &event.task, tick, known.clock, *until)
        }
        What::Happens(Happening::Finds { lines }) => {
            push_found(alloc, out, &event.task, tick, lines.as_slice())
        }
        What::Ends { home, exc } => {
            let ending = Ending {
                nursery: home,
                exc,
                from: known.failure_from(home, exc, event.tick),
            };
            push_end(alloc, out, &event.task, tick, known.clock, ending)
        }
        What::Happens(_) => push_other(alloc, out, known, event),
    }
}

// Appends an event as a JSON object, of which a value is made.
fn push_other(
    alloc: Global,
    out: &mut Vec<u8>,
    known: &Known<'_, '_>,
    event: &Event,
) -> Result<(), AllocError>
    ensures { OnOk result (out.new.items
        ≡ out.old.items ++ compact_text (event_json (clock_in known.now) (cancelled_from_in known.now) (notes_held known.now) (events_in known.now) (event_of event.now))) }
{
    let value = event_value(alloc, known, event)?;
    push_value(alloc, out, &value)
}

// Returns an event as a JSON object.
fn event_value(alloc: Global, known: &Known<'_, '_>, event: &Event) -> Result<Value, AllocError>
    ensures { IfOk result (λ value. view value
        ≡ event_json (clock_in known.now) (cancelled_from_in known.now) (notes_held known.now) (events_in known.now) (event_of event.now)) }
{
    let mut members = event_head(alloc, known.clock, event)?;
    put_what(&mut members, alloc, known, event.tick, &event.what)?;
    put_note(&mut members, alloc, known.notes.note_of(event))?;
    Ok(Value::Object(members))
}

// Puts what is said of other tasks: the place in a queue, or by which task one goes on.
fn put_note(
    members: &mut Map<String, Value>,
    alloc: Global,
    note: Option<Note<'_>>,
) -> Result<(), AllocError>
    ensures { OnOk result (members_view members.new.entries
        ≡ with_note (option_map note_in note.entry) (members_view members.old.entries)) }
{
    let Some(note) = note else {
        return Ok(());
    };
    match note {
        Note::AllInUse { place, .. } | Note::NoRoom { place } | Note::NothingThere { place } => {
            put(members, alloc, "place", Value::from(place as u64))
        }
        Note::GivenBackBy(task) | Note::SentBy(task) | Note::ClosedBy(task) => {
            let label = label_value(alloc, task)?;
            put(members, alloc, "by", label)
        }
    }
}

// Returns what each event has.
fn event_head(alloc: Global, clock: Clock, event: &Event) -> Result<Map<String, Value>, AllocError>
    ensures { IfOk result (λ members. members_view members.entries ≡ event_head clock (event_of event.now)) }
{
    let mut members = Map::new(alloc);
    let tick = clock.tick_of(event.tick);
    put(&mut members, alloc, "tick", Value::from(tick))?;
    let task = label_value(alloc, &event.task)?;
    put(&mut members, alloc, "task", task)?;
    let word = Value::try_from_str(alloc, what_word(&event.what))?;
    put(&mut members, alloc, "event", word)?;
    Ok(members)
}

// Returns the word for what an event is.
fn what_word(what: &What) -> &'static str
    ensures { result.now ≡ what_word (what_of what.now) }
{
    match what {
        What::Starts { .. } => "starts",
        What::Happens(happening) => happening_word(happening),
        What::Ends { .. } => "ends",
    }
}

// Puts the data of an event.
fn put_what(
    members: &mut Map<String, Value>,
    alloc: Global,
    known: &Known<'_, '_>,
    moment: u64,
    what: &What,
) -> Result<(), AllocError>
    ensures { OnOk result (members_view members.new.entries
        ≡ with_what (clock_in known.now) (cancelled_from_in known.now) (events_in known.now) moment
        (what_of what.now) (members_view members.old.entries)) }
{
    match what {
        What::Starts { home, .. } => {
            let nursery = label_or_null(alloc, home)?;
            put(members, alloc, "nursery", nursery)
        }
        What::Happens(happening) => put_happening(members, alloc, known, moment, happening),
        What::Ends { home, exc } => {
            let nursery = label_or_null(alloc, home)?;
            put(members, alloc, "nursery", nursery)?;
            let exception = exc_or_null(alloc, exc)?;
            put(members, alloc, "exception", exception)?;
            put(
                members,
                alloc,
                "from",
                moment_value(known.clock, known.failure_from(home, exc, moment)),
            )
        }
    }
}
