ghost use Rattle.std.specs.Prelude.{◌≡◌, ◌++◌, OnOk, map};
ghost use Rattle.std.specs.Option.{option_map};
ghost use Rattle.job_story.specs.Held.{event_of, what_of};
ghost use Rattle.job_story.specs.Tell.{is_from};
ghost use Rattle.story_index.specs.Seen.{event_in};
ghost use Rattle.chart.specs.HeldBars.{bar_of};
ghost use Rattle.svg.specs.Content.{Content, content_text};
ghost use Rattle.story_waits.specs.Noted.{note_in};
ghost use Rattle.svg.specs.Arrows.{event_set, beside, leaves_queue, noted_source, queue_arrow, set_arrow, wait_arrow, wait_arrows};
ghost use Rattle.svg.specs.Held.{sheet_held, source_held};

use crate::arrows::{Source, push_arrow_from, source_of};
use crate::scene::Scene;
use exceptions::Label;
use job_story::{Event, Happening, What};
use std::alloc::{AllocError, Global};
use story_waits::Note;

// Appends an arrow to each of these events that is the end of a wait, if another task ended it.
pub(crate) fn push_wait_arrows(
    alloc: Global,
    out: &mut Vec<u8>,
    scene: &Scene<'_>,
    row: usize,
    events: &[&Event],
) -> Result<(), AllocError>
    ensures { OnOk result ((rest : Content) → out.new.items ++ content_text rest
        ≡ out.old.items ++ content_text (wait_arrows (sheet_held scene.now.sheet.now) (map bar_of scene.now.bars.now) row
        (map event_in events.now) rest)) }
{
    'events: for event in events {
        push_wait_arrow(alloc, out, scene, row, event)?;
    }
    Ok(())
}

// Appends an arrow to an event, if it is the end of a wait, and another task ended it.
fn push_wait_arrow(
    alloc: Global,
    out: &mut Vec<u8>,
    scene: &Scene<'_>,
    row: usize,
    event: &Event,
) -> Result<(), AllocError>
    ensures { OnOk result ((rest : Content) → out.new.items ++ content_text rest ≡ out.old.items
        ++ content_text (wait_arrow (sheet_held scene.now.sheet.now) (map bar_of scene.now.bars.now) row (event_of event.now) rest)) }
{
    push_set_arrow(alloc, out, scene, row, event)?;
    push_queue_arrow(alloc, out, scene, row, event)
}

// Appends an arrow to an event, if it is the end of a wait for an event of the job, which another task set.
fn push_set_arrow(
    alloc: Global,
    out: &mut Vec<u8>,
    scene: &Scene<'_>,
    row: usize,
    event: &Event,
) -> Result<(), AllocError>
    ensures { OnOk result ((rest : Content) → out.new.items ++ content_text rest ≡ out.old.items
        ++ content_text (set_arrow (sheet_held scene.now.sheet.now) (map bar_of scene.now.bars.now) row event.now.task event.now.tick
        (event_set (what_of event.now.what)) rest)) }
{
    let What::Happens(Happening::WasSet { event: label }) = &event.what else {
        return Ok(());
    };
    if !is_from(scene.causes.from(label), event.tick) {
        return Ok(());
    }
    let Some(source) = beside(&event.task, source_of(scene.causes.cause(label))) else {
        return Ok(());
    };
    push_arrow_from(alloc, out, scene, row, scene.sheet.x_of(event.tick), source)
}

// Appends an arrow to an event, if it is the end of a wait in a queue, and another task ended it.
fn push_queue_arrow(
    alloc: Global,
    out: &mut Vec<u8>,
    scene: &Scene<'_>,
    row: usize,
    event: &Event,
) -> Result<(), AllocError>
    ensures { OnOk result ((rest : Content) → out.new.items ++ content_text rest ≡ out.old.items
        ++ content_text (queue_arrow (sheet_held scene.now.sheet.now) (map bar_of scene.now.bars.now) row (event_of event.now) rest)) }
{
    if !leaves_queue(&event.what) {
        return Ok(());
    }
    let note = scene.sheet.known.note_of(event);
    let Some(source) = beside(&event.task, noted_source(event.tick, note)) else {
        return Ok(());
    };
    push_arrow_from(alloc, out, scene, row, scene.sheet.x_of(event.tick), source)
}

// Returns whether a task goes on that waited in the queue of a limiter or channel.
fn leaves_queue(what: &What) -> bool
    ensures { result ≡ leaves_queue (what_of what.now) }
{
    match what {
        What::Happens(Happening::Gets { at_once, .. }) => at_once.is_none(),
        What::Happens(Happening::FindsClosed { at_once, .. }) => at_once.is_none(),
        _ => false,
    }
}

// Returns the task that ended a wait in a queue in this moment, and when it did that, from the note of the story.
fn noted_source<'e>(moment: u64, note: Option<Note<'e>>) -> Option<Source<'e>>
    ensures { option_map source_held result ≡ noted_source moment (option_map note_in note.entry) }
{
    match note {
        Some(Note::GivenBackBy(task)) => Some(Source {
            task,
            tick: moment.saturating_sub(1),
        }),
        Some(Note::SentBy(task)) => Some(Source { task, tick: moment }),
        Some(Note::ClosedBy(task)) => Some(Source {
            task,
            tick: moment.saturating_sub(1),
        }),
        _ => None,
    }
}

// Returns whether the first moment is the second one. `None` is never.
fn is_from(from: Option<u64>, moment: u64) -> bool
    ensures { result ≡ is_from from moment }
{
    match from {
        Some(from) => from == moment,
        None => false,
    }
}

// Returns a source, unless it is this task.
fn beside<'e>(task: &Label, source: Option<Source<'e>>) -> Option<Source<'e>>
    ensures { option_map source_held result ≡ beside task.now (option_map source_held source.entry) }
{
    let Some(source) = source else {
        return None;
    };
    if *task == *source.task {
        return None;
    }
    Some(source)
}
