ghost use Rattle.std.specs.Prelude.{◌≡◌, [], ◌∷◌, ◌++◌, OnOk, map};
ghost use Rattle.job_story.specs.Held.{event_of};
ghost use Rattle.story_index.specs.Seen.{event_in};
ghost use Rattle.svg.specs.Content.{Content, element, content_text};
ghost use Rattle.svg.specs.declared.names.Tag.TheVariants as tags;
ghost use Rattle.svg.specs.Sheets.{x_of, middle_of, events_title};
ghost use Rattle.svg.specs.Rows.{cross, dot, mark, marks};
ghost use Rattle.svg.specs.Held.{sheet_held};

use crate::shapes::{begin_dot, begin_use};
use crate::sheet::{Sheet, middle_of};
use crate::titles::push_title;
use crate::{Tag, end};
use chart::{is_cross, is_dot};
use job_story::Event;
use std::alloc::{AllocError, Global};

// Appends a mark for each of these events that has one.
pub(crate) fn push_marks(
    alloc: Global,
    out: &mut Vec<u8>,
    sheet: &Sheet<'_, '_, '_>,
    row: usize,
    events: &[&Event],
) -> Result<(), AllocError>
    ensures { OnOk result ((rest : Content) → out.new.items ++ content_text rest
        ≡ out.old.items ++ content_text (marks (sheet_held sheet.now) row (map event_in events.now) rest)) }
{
    'events: for event in events {
        push_mark(alloc, out, sheet, row, event)?;
    }
    Ok(())
}

// Appends the mark of an event, if it has one: a cross if a task is cancelled, a dot if it raises an exception.
fn push_mark(
    alloc: Global,
    out: &mut Vec<u8>,
    sheet: &Sheet<'_, '_, '_>,
    row: usize,
    event: &Event,
) -> Result<(), AllocError>
    ensures { OnOk result ((rest : Content) → out.new.items ++ content_text rest
        ≡ out.old.items ++ content_text (mark (sheet_held sheet.now) row (event_of event.now) rest)) }
{
    if is_cross(&event.what) {
        return push_cross(alloc, out, sheet, row, event);
    }
    if is_dot(&event.what) {
        return push_dot(alloc, out, sheet, row, event);
    }
    Ok(())
}

// Appends a cross for an event.
fn push_cross(
    alloc: Global,
    out: &mut Vec<u8>,
    sheet: &Sheet<'_, '_, '_>,
    row: usize,
    event: &Event,
) -> Result<(), AllocError>
    ensures { OnOk result ((rest : Content) → out.new.items ++ content_text rest ≡ out.old.items
        ++ content_text (element tags.Use (cross (x_of (sheet_held sheet.now) event.now.tick) (middle_of row))
        (events_title (sheet_held sheet.now) (event_of event.now ∷ [])) rest)) }
{
    begin_use(out, b"#cross", sheet.x_of(event.tick), middle_of(row))?;
    push_title(alloc, out, sheet, &[event])?;
    end(out, Tag::Use)
}

// Appends a dot for an event.
fn push_dot(
    alloc: Global,
    out: &mut Vec<u8>,
    sheet: &Sheet<'_, '_, '_>,
    row: usize,
    event: &Event,
) -> Result<(), AllocError>
    ensures { OnOk result ((rest : Content) → out.new.items ++ content_text rest ≡ out.old.items
        ++ content_text (element tags.Circle (dot (x_of (sheet_held sheet.now) event.now.tick) (middle_of row))
        (events_title (sheet_held sheet.now) (event_of event.now ∷ [])) rest)) }
{
    begin_dot(out, sheet.x_of(event.tick), middle_of(row))?;
    push_title(alloc, out, sheet, &[event])?;
    end(out, Tag::Circle)
}
