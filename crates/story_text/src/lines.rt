ghost use Rattle.std.specs.Prelude.{◌≡◌, ◌++◌, [], None, IfOk, OnOk, map, max, codes, decimal};
ghost use Rattle.job_story.specs.Held.{event_of};
ghost use Rattle.job_story.specs.Sentences.{label_width, tick_text, line_text, sentence_text, lines_text, kept_text};
ghost use Rattle.story_text.specs.Known.{clock_in, events_in, cancelled_from_in, notes_held};
ghost use Rattle.story_index.specs.Seen.{event_in};

use crate::known::Known;
use crate::label::push_padded;
use crate::queue_notes::push_note;
use crate::sentences::push_what;
use crate::ticks::is_tick;
use basics::push_number;
use exceptions::push_label;
use job_meaning::Clock;
use job_story::Event;
use std::alloc::{AllocError, Global};

/// Returns the text of selected events of a story, in order: a line for each tick in which one happens, and a line for each
/// event. Causes are looked up among all events of the story, and what is said of other tasks in its notes, which `known`
/// has. Returns `AllocError` if memory runs out.
pub fn kept_text(
    alloc: Global,
    kept: &[&Event],
    known: &Known<'_, '_>,
) -> Result<Vec<u8>, AllocError>
    ensures { IfOk result (λ text. text.items
        ≡ kept_text (clock_in known.now) (cancelled_from_in known.now) (notes_held known.now) (events_in known.now) (map event_in kept.now)) }
{
    let width = label_width(alloc, kept)?;
    let mut out = Vec::new(alloc);
    push_lines(&mut out, known, kept, width)?;
    Ok(out)
}

// Returns the length of the longest label, in bytes.
pub(crate) fn label_width(alloc: Global, events: &[&Event]) -> Result<usize, AllocError>
    ensures { IfOk result (λ width. width ≡ label_width (map event_in events.now)) }
{
    let mut width: usize = 0;
    let mut text = Vec::new(alloc);
    'events: for event in events {
        text.clear();
        push_label(&mut text, &event.task)?;
        width = width.max(text.len());
    }
    Ok(width)
}

// Appends the lines for all events, each after the line for its tick if the event before it is of another tick.
pub(crate) fn push_lines(
    out: &mut Vec<u8>,
    known: &Known<'_, '_>,
    events: &[&Event],
    width: usize,
) -> Result<(), AllocError>
    ensures { OnOk result (out.new.items
        ≡ out.old.items
        ++ lines_text (clock_in known.now) (cancelled_from_in known.now) (notes_held known.now) (events_in known.now) width None
        (map event_in events.now)) }
{
    let mut before = None;
    'events: for event in events {
        push_tick(out, known.clock, before, event.tick)?;
        push_line(out, known, width, event)?;
        before = Some(known.clock.tick_of(event.tick));
    }
    Ok(())
}

// Appends the line for the tick of a moment, unless the event before was in the same tick.
fn push_tick(
    out: &mut Vec<u8>,
    clock: Clock,
    before: Option<u64>,
    moment: u64,
) -> Result<(), AllocError>
    ensures { OnOk result (out.new.items ≡ out.old.items ++ tick_text clock before moment) }
{
    let tick = clock.tick_of(moment);
    if is_tick(before, tick) {
        return Ok(());
    }
    out.extend_from_slice(b"tick ")?;
    push_number(out, tick)?;
    out.extend_from_slice(b"\n")
}

// Appends the line for an event.
fn push_line(
    out: &mut Vec<u8>,
    known: &Known<'_, '_>,
    width: usize,
    event: &Event,
) -> Result<(), AllocError>
    ensures { OnOk result (out.new.items
        ≡ out.old.items
        ++ line_text (clock_in known.now) (cancelled_from_in known.now) (notes_held known.now) (events_in known.now) width (event_of event.now)) }
{
    out.extend_from_slice(b"  ")?;
    push_padded(out, width, &event.task)?;
    out.extend_from_slice(b"  ")?;
    push_sentence(out, known, event)?;
    out.extend_from_slice(b"\n")
}

// Appends the sentence of an event, with what is said of other tasks.
fn push_sentence(out: &mut Vec<u8>, known: &Known<'_, '_>, event: &Event) -> Result<(), AllocError>
    ensures { OnOk result (out.new.items
        ≡ out.old.items
        ++ sentence_text (clock_in known.now) (cancelled_from_in known.now) (notes_held known.now) (events_in known.now) (event_of event.now)) }
{
    push_what(out, known, event)?;
    push_note(out, known.note_of(event))
}
