ghost use Rattle.std.specs.Prelude.{◌≡◌, ◌&&◌, ◌++◌, IfOk, OnOk, map};
ghost use Rattle.std.specs.Option.{option_map};
ghost use Rattle.job_meaning.specs.Log.{same_label};
ghost use Rattle.job_story.specs.Held.{what_of};
ghost use Rattle.job_story.specs.Limit.{is_start};
ghost use Rattle.story_index.specs.Found.{cause_in_code};
ghost use Rattle.story_index.specs.Seen.{event_in};
ghost use Rattle.chart.specs.HeldBars.{bar_of};
ghost use Rattle.svg.specs.Content.{Content, content_text};
ghost use Rattle.svg.specs.Arrows.{source_of, at_moment, arrow, arrow_from, arrow_by, arrow_at, cancelled_at, arrows_to, arrows};
ghost use Rattle.svg.specs.Held.{sheet_held, source_held};

use crate::culprits::{MAX_DEPTH, culprit};
use crate::deadlines::push_deadline;
use crate::scene::Scene;
use crate::shapes::begin_line;
use crate::sheet::{Sheet, middle_of};
use crate::titles::push_title;
use crate::waits::push_wait_arrows;
use crate::{Tag, end};
use chart::Bar;
use exceptions::Label;
use job_story::{Event, Happening, What};
use std::alloc::{AllocError, Global};
use story_index::Cause;

// The task that cancelled a scope or nursery, or set an event, and the moment in which it did.
#[derive(Clone, Copy)]
pub(crate) struct Source<'e> {
    pub task: &'e Label,
    pub tick: u64,
}

// Where an arrow starts: the moment of a task, the row of the task, and the events of the task.
#[derive(Clone, Copy)]
struct Start<'e, 'o, 's> {
    source: Source<'s>,
    row: usize,
    own: &'o [&'e Event],
}

// Appends an arrow to each of these bars that a task cancelled, a mark to each that its own deadline cancelled, and an arrow to
// each wait that ends because a task set the event. An arrow comes from the first bar that is the task's.
pub(crate) fn push_arrows(
    alloc: Global,
    out: &mut Vec<u8>,
    scene: &Scene<'_>,
) -> Result<(), AllocError>
    ensures { OnOk result ((rest : Content) → out.new.items ++ content_text rest
        ≡ out.old.items ++ content_text (arrows (sheet_held scene.now.sheet.now) (map bar_of scene.now.bars.now) 0
        (map bar_of scene.now.bars.now) rest)) }
{
    let mut row = 0;
    'bars: for bar in scene.bars {
        push_arrows_to(alloc, out, scene, row, bar)?;
        row += 1;
    }
    Ok(())
}

// Appends the arrows to a bar: one if it is that of a scope or nursery and a task cancelled it, or the mark of its deadline, and
// one to each wait of its task.
fn push_arrows_to(
    alloc: Global,
    out: &mut Vec<u8>,
    scene: &Scene<'_>,
    row: usize,
    bar: &Bar<'_, '_>,
) -> Result<(), AllocError>
    ensures { OnOk result ((rest : Content) → out.new.items ++ content_text rest
        ≡ out.old.items ++ content_text (arrows_to (sheet_held scene.now.sheet.now) (map bar_of scene.now.bars.now) row (bar_of bar.now) rest)) }
{
    push_arrow_to(alloc, out, scene, row, bar)?;
    push_wait_arrows(alloc, out, scene, row, bar.own)
}

// Appends an arrow to a bar, if a task cancelled it, or a mark, if its own deadline did.
fn push_arrow_to(
    alloc: Global,
    out: &mut Vec<u8>,
    scene: &Scene<'_>,
    row: usize,
    bar: &Bar<'_, '_>,
) -> Result<(), AllocError>
    ensures { OnOk result ((rest : Content) → out.new.items ++ content_text rest ≡ out.old.items
        ++ content_text (arrow_at (sheet_held scene.now.sheet.now) (map bar_of scene.now.bars.now) row
        (what_of bar.now.first.now.what) bar.now.cancelled rest)) }
{
    let What::Happens(Happening::Enters { label, .. }) = &bar.first.what else {
        return Ok(());
    };
    let Some(moment) = bar.cancelled else {
        return Ok(());
    };
    push_cancelled_at(alloc, out, scene, row, moment, scene.causes.cause(label))
}

// Appends a mark to a scope or nursery that is cancelled from a moment on, if its own deadline is the cause, or else an arrow
// from the task that cancelled it, if there is one.
fn push_cancelled_at(
    alloc: Global,
    out: &mut Vec<u8>,
    scene: &Scene<'_>,
    row: usize,
    moment: u64,
    cause: Option<Cause<'_>>,
) -> Result<(), AllocError>
    ensures { OnOk result ((rest : Content) → out.new.items ++ content_text rest ≡ out.old.items
        ++ content_text (cancelled_at (sheet_held scene.now.sheet.now) (map bar_of scene.now.bars.now) row moment
        (option_map cause_in_code cause.entry) rest)) }
{
    if let Some(Cause::Deadline) = cause {
        return push_deadline(alloc, out, scene.sheet, row, moment);
    }
    let Some(source) = culprit(scene, MAX_DEPTH, cause) else {
        return Ok(());
    };
    push_arrow_from(alloc, out, scene, row, scene.sheet.x_by(moment), source)
}

// Returns the task that cancelled or set something, from the cause of that, or `None` if it was the deadline, or a task that was
// itself merely cancelled.
pub(crate) fn source_of<'e>(cause: Option<Cause<'e>>) -> Option<Source<'e>>
    ensures { option_map source_held result ≡ source_of (option_map cause_in_code cause.entry) }
{
    let Some(cause) = cause else {
        return None;
    };
    match cause {
        Cause::Deadline | Cause::Cancellation { .. } => None,
        Cause::Task { task, tick } => Some(Source { task, tick }),
        Cause::Set { task, tick } => Some(Source { task, tick }),
        Cause::Failure { task, tick } => Some(Source { task, tick }),
    }
}

// Appends an arrow to this x coordinate of a row, from the first of these that is the task's, if there is one.
pub(crate) fn push_arrow_from(
    alloc: Global,
    out: &mut Vec<u8>,
    scene: &Scene<'_>,
    row: usize,
    x: u64,
    source: Source<'_>,
) -> Result<(), AllocError>
    ensures { OnOk result ((rest : Content) → out.new.items ++ content_text rest ≡ out.old.items
        ++ content_text (arrow_from (sheet_held scene.now.sheet.now) row x (source_held source.entry) 0
        (map bar_of scene.now.bars.now) rest)) }
{
    let mut from = 0;
    'bars: for bar in scene.bars {
        if is_of_task(bar, source.task) {
            let start = Start {
                source,
                row: from,
                own: bar.own,
            };
            return push_arrow(alloc, out, scene.sheet, row, x, start);
        }
        from += 1;
    }
    Ok(())
}

// Returns whether a bar is that of this task.
pub(crate) fn is_of_task(bar: &Bar<'_, '_>, task: &Label) -> bool
    ensures { result ≡ (is_start (what_of bar.now.first.now.what) && same_label task.now bar.now.first.now.task) }
{
    bar.first.what.is_start() && *task == bar.first.task
}

// Appends an arrow to this x coordinate of a row, from its start.
fn push_arrow(
    alloc: Global,
    out: &mut Vec<u8>,
    sheet: &Sheet<'_, '_, '_>,
    row: usize,
    x: u64,
    start: Start<'_, '_, '_>,
) -> Result<(), AllocError>
    ensures { OnOk result ((rest : Content) → out.new.items ++ content_text rest ≡ out.old.items
        ++ content_text (arrow (sheet_held sheet.now) row x (source_held start.entry.source) start.entry.row
        (map event_in start.entry.own.now) rest)) }
{
    let Start {
        source,
        row: from,
        own,
    } = start;
    let events = at_moment(alloc, source.tick, own)?;
    let left = sheet.x_of(source.tick);
    begin_line(out, b"arrow", left, middle_of(from), x, middle_of(row))?;
    push_title(alloc, out, sheet, events.as_slice())?;
    end(out, Tag::Line)
}

// Returns the events in a moment.
fn at_moment<'e>(
    alloc: Global,
    moment: u64,
    events: &[&'e Event],
) -> Result<Vec<&'e Event>, AllocError>
    ensures { IfOk result (λ found. map event_in found.items ≡ at_moment moment (map event_in events.now)) }
{
    let mut found = Vec::new(alloc);
    'events: for event in events {
        if event.tick == moment {
            found.push(*event)?;
        }
    }
    Ok(found)
}
