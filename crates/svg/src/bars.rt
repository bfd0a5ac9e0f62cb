ghost use Rattle.std.specs.Prelude.{◌≡◌, ◌≤◌, ◌++◌, Option, Some, IfOk, OnOk, length, map, take, codes, decimal};
ghost use Rattle.exceptions.specs.Exceptions as tree;
ghost use Rattle.exceptions.specs.Held.{exc_of};
ghost use Rattle.cancel_scopes.specs.Sight.{Tick};
ghost use Rattle.job_story.specs.Story.{enters};
ghost use Rattle.job_story.specs.Events as story_events;
ghost use Rattle.job_story.specs.Sentences.{kept_text};
ghost use Rattle.block_exits.specs.Held.{kind_of};
ghost use Rattle.job_story.specs.Held.{unboxed_exc};
ghost use Rattle.story_index.specs.Seen.{event_in};
ghost use Rattle.story_text.specs.Known.{clock_in, events_in, cancelled_from_in, notes_held};
ghost use Rattle.chart.specs.HeldBars.{bar_of, event_seen};
ghost use Rattle.svg.specs.Content.{content_text};
ghost use Rattle.svg.specs.Rows.{exc_word, end_word, class_by, class_of, size_of, titled_events, more_titled, bar_title};
ghost use Rattle.svg.specs.Held.{sheet_held, size_held};
ghost use Rattle.svg.specs.declared.layout.TheConstants.{MAX_TITLED};

use crate::layout::MAX_TITLED;
use crate::shapes::Size;
use crate::sheet::Sheet;
use crate::{Tag, begin, end, inside, text};
use basics::push_number;
use chart::Bar;
use exceptions::Exc;
use job_story::{Event, Happening, Kind, What};
use std::alloc::{AllocError, Global};
use story_text::kept_text;

// The size of the bar of a task.
pub(crate) const TASK: Size = Size {
    indent: 0,
    down: 5,
    height: 14,
};

// The size of the bar of a scope or nursery.
pub(crate) const BLOCK: Size = Size {
    indent: 2,
    down: 8,
    height: 8,
};

// Returns the height of a bar, and its position on its row.
pub(crate) fn size_of(bar: &Bar<'_, '_>) -> Size
    ensures value { size_held result ≡ size_of (bar_of bar.now) }
    ensures down { result.down ≤ 24 }
    ensures indent { result.indent ≤ 24 }
{
    match bar.first.what {
        What::Starts { .. } => TASK,
        What::Happens(_) | What::Ends { .. } => BLOCK,
    }
}

// Returns the class of a bar in the style sheet.
pub(crate) fn class_of(bar: &Bar<'_, '_>) -> &'static [u8]
    ensures { result.now ≡ class_of (bar_of bar.now) }
{
    match &bar.first.what {
        What::Happens(Happening::Enters { kind, shield, .. }) => block_class(*kind, *shield),
        _ => task_class(bar.last),
    }
}

// Returns the class of the bar of a scope or nursery.
fn block_class(kind: Kind, shield: bool) -> &'static [u8]
    ensures { (label : tree.Label) (deadline : Tick) (last : Option story_events.Event) → result.now
        ≡ class_by (story_events.happens (enters (kind_of kind) label deadline shield)) last }
{
    match kind {
        Kind::Scope { .. } if shield => b"scope shield",
        Kind::Scope { .. } => b"scope",
        Kind::Nursery if shield => b"nursery shield",
        Kind::Nursery => b"nursery",
    }
}

// Returns the class of the bar of a task, by how the task ended, if it did.
fn task_class(last: Option<&Event>) -> &'static [u8]
    ensures { result.now ≡ codes "task " ++ end_word (event_seen last.entry) }
{
    let Some(event) = last else {
        return b"task running";
    };
    match &event.what {
        What::Ends { exc, .. } => ended_class(exc),
        _ => b"task done",
    }
}

// Returns the class of the bar of a task that ended.
fn ended_class(exc: &Option<Box<Exc>>) -> &'static [u8]
    ensures { result.now ≡ codes "task " ++ exc_word (unboxed_exc exc.now) }
{
    let Some(exc) = exc else {
        return b"task done";
    };
    raised_class(exc)
}

// Returns the class of the bar of a task that ended with an exception.
fn raised_class(exc: &Exc) -> &'static [u8]
    ensures { result.now ≡ codes "task " ++ exc_word (Some (exc_of exc.now)) }
{
    match exc {
        Exc::Cancelled => b"task cancelled",
        Exc::Raised { .. } | Exc::TooSlow { .. } | Exc::Group { .. } => b"task raised",
    }
}

// Appends what the story says of a bar, as a title: the first events of a task, or how a scope or nursery is entered and left.
pub(crate) fn push_bar_title(
    alloc: Global,
    out: &mut Vec<u8>,
    sheet: &Sheet<'_, '_, '_>,
    bar: &Bar<'_, '_>,
) -> Result<(), AllocError>
    ensures { OnOk result (out.new.items ≡ out.old.items ++ content_text (bar_title (sheet_held sheet.now) (bar_of bar.now))) }
{
    let events = titled_events(alloc, bar)?;
    let title = title_text(alloc, sheet, events.as_slice())?;
    begin(out, Tag::Title)?;
    inside(out)?;
    text(out, title.as_slice())?;
    end(out, Tag::Title)
}

// Returns what the story says of the first of these events, and how many more there are.
fn title_text(
    alloc: Global,
    sheet: &Sheet<'_, '_, '_>,
    events: &[&Event],
) -> Result<Vec<u8>, AllocError>
    ensures { IfOk result (λ title. title.items
        ≡ kept_text (clock_in sheet.now.known.now) (cancelled_from_in sheet.now.known.now) (notes_held sheet.now.known.now) (events_in sheet.now.known.now)
        (take MAX_TITLED (map event_in events.now)) ++ more_titled (length (map event_in events.now))) }
{
    let mut title = kept_text(alloc, first_of(events), sheet.known)?;
    push_more(&mut title, events.len())?;
    Ok(title)
}

// Returns the first of these events, as many as a title shows.
fn first_of<'s, 'e>(events: &'s [&'e Event]) -> &'s [&'e Event]
    ensures { map event_in result.now ≡ take MAX_TITLED (map event_in events.now) }
{
    let (first, _) = events.split_at(MAX_TITLED.min(events.len()));
    first
}

// Returns the events that the title of a bar shows.
fn titled_events<'e>(alloc: Global, bar: &Bar<'_, 'e>) -> Result<Vec<&'e Event>, AllocError>
    ensures { IfOk result (λ events. map event_in events.items ≡ titled_events (bar_of bar.now)) }
{
    if let What::Starts { .. } = bar.first.what {
        return Vec::from_slice(alloc, bar.own);
    }
    let mut events = Vec::new(alloc);
    events.push(bar.first)?;
    if let Some(last) = bar.last {
        events.push(last)?;
    }
    Ok(events)
}

// Appends that there are more events than the title shows, if there are.
fn push_more(out: &mut Vec<u8>, count: usize) -> Result<(), AllocError>
    ensures { OnOk result (out.new.items ≡ out.old.items ++ more_titled count) }
{
    if count <= MAX_TITLED {
        return Ok(());
    }
    push_left(out, (count - MAX_TITLED) as u64)
}

// Appends how many more events there are.
fn push_left(out: &mut Vec<u8>, left: u64) -> Result<(), AllocError>
    ensures { OnOk result (out.new.items ≡ out.old.items ++ (codes "and " ++ decimal left ++ codes " more events\n")) }
{
    out.extend_from_slice(b"and ")?;
    push_number(out, left)?;
    out.extend_from_slice(b" more events\n")?;
    Ok(())
}
