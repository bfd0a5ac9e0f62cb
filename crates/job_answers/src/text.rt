ghost use Rattle.std.specs.Prelude.{◌≡◌, map, IfOk};
ghost use Rattle.job_story.specs.Focus.{concerned_tasks, of_tasks};
ghost use Rattle.job_story.specs.CancelledFrom.{table_in};
ghost use Rattle.story_index.specs.Seen.{event_in};
ghost use Rattle.story_index.specs.Holds.{label_seen};
ghost use Rattle.story_text.specs.Known.{clock_in, events_in, cancelled_from_in, notes_held};
ghost use Rattle.job_answers.specs.Tellings.{story_shown, text_until};

use exceptions::Label;
use job_story::Event;
use std::alloc::{AllocError, Global};
use story_index::{Causes, of_tasks};
use story_text::{Known, ShownStory, in_order, kept_text, kept_text_to};
use story_waits::QueueNotes;

// Returns the text of what is shown of a story.
pub(crate) fn text_of_story(
    alloc: Global,
    shown: &ShownStory<'_, '_>,
) -> Result<Vec<u8>, AllocError>
    ensures { IfOk result (λ text. text.items ≡ story_shown shown.now.clock (table_in shown.now.table.now) shown.now.until
        (label_seen shown.now.task) (map event_in shown.now.walked.now)) }
{
    let (clock, until, walked) = (shown.clock, shown.until, shown.walked);
    let all = in_order(alloc, walked)?;
    let causes = Causes::of(alloc, all.as_slice(), shown.table)?;
    let notes = QueueNotes::of(alloc, walked)?;
    let known = Known::new(clock, all.as_slice(), shown.table, &causes, &notes);
    match shown.task {
        Some(task) => task_text(alloc, walked, &known, until, task),
        None => text_until(alloc, all.as_slice(), walked, &known, until),
    }
}

// Returns the text of the events that concern one task of a story, whole or up to a limit. `walked` are the events of the story
// in the order of the walk.
fn task_text<'e>(
    alloc: Global,
    walked: &[&'e Event],
    known: &Known<'_, 'e>,
    until: Option<u64>,
    task: &'e Label,
) -> Result<Vec<u8>, AllocError>
    ensures { IfOk result (λ text. text.items ≡ text_until (clock_in known.now) until (cancelled_from_in known.now) (notes_held known.now) (events_in known.now)
        (of_tasks (concerned_tasks (cancelled_from_in known.now) (events_in known.now) task.entry.now) (events_in known.now))
        (of_tasks (concerned_tasks (cancelled_from_in known.now) (events_in known.now) task.entry.now) (map event_in walked.now))) }
{
    let tasks = known.concerned_tasks(alloc, task)?;
    let sorted = of_tasks(alloc, known.events(), &tasks)?;
    let walked = of_tasks(alloc, walked, &tasks)?;
    let text = text_until(alloc, sorted.as_slice(), walked.as_slice(), known, until)?;
    Ok(text)
}

// Returns the text of selected events of a story, whole or up to a limit.
fn text_until(
    alloc: Global,
    sorted: &[&Event],
    walked: &[&Event],
    known: &Known<'_, '_>,
    until: Option<u64>,
) -> Result<Vec<u8>, AllocError>
    ensures { IfOk result (λ text. text.items
        ≡ text_until (clock_in known.now) until (cancelled_from_in known.now) (notes_held known.now) (events_in known.now)
        (map event_in sorted.now) (map event_in walked.now)) }
{
    match until {
        Some(limit) => kept_text_to(alloc, sorted, walked, limit, known),
        None => kept_text(alloc, sorted, known),
    }
}
