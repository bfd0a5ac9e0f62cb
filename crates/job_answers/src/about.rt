ghost use Rattle.std.specs.Prelude.{◌≡◌, [], map, IfOk};
ghost use Rattle.std.specs.Option.{option_copied};
ghost use Rattle.story_index.specs.Seen.{event_in};
ghost use Rattle.story_index.specs.Holds.{label_seen};
ghost use Rattle.job_answers.specs.Tellings.{IsAsked};
ghost use Rattle.job_answers.specs.Stories.{label_or_nothing};

use exceptions::{Label, push_label};
use job_story::Event;
use std::alloc::{AllocError, Global};
use story_index::{nearest_task, task_named};

/// What a story covers.
#[derive(Drop)]
pub enum About<'e> {
    /// All tasks.
    All,
    /// The part that concerns the task with this label.
    Task(&'e Label),
    /// No task of the story has the label that was asked for.
    NoTask {
        /// The text of the label of a task that is nearest to it, or nothing if no task starts.
        nearest: Vec<u8>,
    },
}

// Returns what a story with these events covers, if a task is asked for by the text of its label, or none is.
pub(crate) fn about_of<'e>(
    alloc: Global,
    events: &[&'e Event],
    task: Option<&[u8]>,
) -> Result<About<'e>, AllocError>
    ensures { IfOk result (IsAsked (option_copied task.entry) (map event_in events.now)) }
{
    let Some(text) = task else {
        return Ok(About::All);
    };
    if let Some(label) = task_named(alloc, events, text)? {
        return Ok(About::Task(label));
    }
    let nearest = text_of(alloc, nearest_task(alloc, events, text)?)?;
    Ok(About::NoTask { nearest })
}

// Returns the text of a label, or nothing if there is no label.
fn text_of(alloc: Global, label: Option<&Label>) -> Result<Vec<u8>, AllocError>
    ensures { IfOk result (λ text. text.items ≡ label_or_nothing (label_seen label.entry)) }
{
    let mut text = Vec::new(alloc);
    if let Some(label) = label {
        push_label(&mut text, label)?;
    }
    Ok(text)
}
