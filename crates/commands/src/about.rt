ghost use Rattle.std.specs.Prelude.{◌≡◌, [], Some, map, IfOk};
ghost use Rattle.std.specs.Option.{option_copied};
ghost use Rattle.job_story.specs.CancelledFrom.{table_in};
ghost use Rattle.story_index.specs.Seen.{event_in};
ghost use Rattle.story_index.specs.Holds.{label_seen};
ghost use Rattle.story_index.specs.Nearest.{nearest_in};
ghost use Rattle.job_answers.specs.Stories.{label_or_nothing};
ghost use Rattle.commands.specs.Explaining.{IsStoryAbout};

use exceptions::{Label, push_label};
use job_answers::{Story, StoryVerdict};
use job_reader::Job;
use job_report::Answer;
use job_story::Event;
use json_story::story_json;
use std::alloc::{AllocError, Global};
use story_index::{nearest_task, task_named};
use story_text::ShownStory;

// Returns the verdict on a story with these events, and its document: of all tasks, or of what concerns the one that is
// requested.
#[tactic(auto, using(crate::proofs::Explained::story_about_all))]
pub(crate) fn story_about<'e>(
    alloc: Global,
    job: &Job,
    story: &'e Story,
    walked: &[&'e Event],
    task: Option<&[u8]>,
) -> Result<Answer<StoryVerdict>, AllocError>
    ensures { IfOk result (λ answer. IsStoryAbout story.entry.now.clock job.now.name (table_in story.entry.now.table) story.entry.now.until
        story.entry.now.ending
        (option_copied task.entry) (map event_in walked.now) answer.verdict answer.bytes.items) }
{
    let Some(text) = task else {
        let shown = ShownStory {
            clock: story.clock,
            until: story.until,
            walked,
            table: &story.table,
            task: None,
        };
        let bytes = story_json(alloc, job.name(), &shown)?;
        return Ok(Answer {
            verdict: story.ending.verdict(),
            bytes,
        });
    };
    let answer = story_about_task(alloc, job, story, walked, text)?;
    Ok(answer)
}

// Returns the same for what concerns the task whose label has this text. If there is none, the document is empty.
#[tactic(auto, using(crate::proofs::Explained::story_about_one, crate::proofs::Explained::story_about_none))]
fn story_about_task<'e>(
    alloc: Global,
    job: &Job,
    story: &'e Story,
    walked: &[&'e Event],
    text: &[u8],
) -> Result<Answer<StoryVerdict>, AllocError>
    ensures { IfOk result (λ answer. IsStoryAbout story.entry.now.clock job.now.name (table_in story.entry.now.table) story.entry.now.until
        story.entry.now.ending
        (Some text.now) (map event_in walked.now) answer.verdict answer.bytes.items) }
{
    let named = task_named(alloc, walked, text)?;
    let Some(label) = named else {
        let nearest = nearest_text(alloc, walked, text)?;
        return Ok(Answer {
            verdict: StoryVerdict::NoTask { nearest },
            bytes: Vec::new(alloc),
        });
    };
    let shown = ShownStory {
        clock: story.clock,
        until: story.until,
        walked,
        table: &story.table,
        task: Some(label),
    };
    let bytes = story_json(alloc, job.name(), &shown)?;
    Ok(Answer {
        verdict: story.ending.verdict(),
        bytes,
    })
}

// Returns the text of the label of the task that is nearest to this text.
fn nearest_text(alloc: Global, walked: &[&Event], text: &[u8]) -> Result<Vec<u8>, AllocError>
    ensures { IfOk result (λ nearest. nearest.items ≡ label_or_nothing (nearest_in text.now (map event_in walked.now))) }
{
    let nearest = nearest_task(alloc, walked, text)?;
    let label = text_of(alloc, nearest)?;
    Ok(label)
}

// Returns the text of a label, or nothing if there is none.
fn text_of(alloc: Global, label: Option<&Label>) -> Result<Vec<u8>, AllocError>
    ensures { IfOk result (λ text. text.items ≡ label_or_nothing (label_seen label.entry)) }
{
    let mut text = Vec::new(alloc);
    if let Some(label) = label {
        push_label(&mut text, label)?;
    }
    Ok(text)
}
