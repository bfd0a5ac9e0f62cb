ghost use Rattle.std.specs.Prelude.{◌≤◌, length, map, IfOk};
ghost use Rattle.std.specs.Option.{option_copied};
ghost use Rattle.job_meaning.specs.declared.limits.TheConstants.{MAX_INPUT};
ghost use Rattle.job_story.specs.CancelledFrom.{table_in};
ghost use Rattle.story_index.specs.Seen.{event_in};
ghost use Rattle.job_answers.specs.Views.{IsStoryVerdict};
ghost use Rattle.job_answers.specs.Verdict.{text_view};
ghost use Rattle.job_answers.specs.Tellings.{IsStoryAbout};

use crate::about::{About, about_of};
use crate::meaning::{Story, story_of};
use crate::story_verdict::StoryVerdict;
use crate::text::text_of_story;
use job_reader::Job;
use job_report::{Answer, Question};
use job_runner::{Gate, Pick};
use job_story::Event;
use std::alloc::{AllocError, Global};
use std::thread::Threads;
use story_text::ShownStory;

// Returns the verdict on a job that was read, with its bytes.
pub(crate) fn job_verdict<R: Threads + Sync, P: Pick, G: Gate + Sync>(
    rt: &R,
    alloc: Global,
    job: &Job,
    question: &Question<'_>,
    task: Option<&[u8]>,
    picker: &mut P,
    gate: &G,
) -> Result<Answer<StoryVerdict>, AllocError>
    requires { length question.now.input.now ≤ MAX_INPUT }
    ensures { IfOk result (λ answer. IsStoryVerdict text_view job.now question.now.input.now question.now.settings.limit (option_copied task.entry)
        answer.verdict answer.bytes.items) }
{
    let story = story_of(rt, alloc, job, question, picker, gate)?;
    let walked = story.walked(alloc)?;
    let answer = story_about(alloc, &story, walked.as_slice(), task)?;
    Ok(answer)
}

// Returns the verdict on a story, whose events as far as the limit shows them are given, and its text.
#[tactic(auto, using(crate::proofs::Stories::story_about_all, crate::proofs::Stories::story_about_one, crate::proofs::Stories::story_about_none))]
fn story_about<'e>(
    alloc: Global,
    story: &'e Story,
    walked: &[&'e Event],
    task: Option<&[u8]>,
) -> Result<Answer<StoryVerdict>, AllocError>
    ensures { IfOk result (λ answer. IsStoryAbout story.entry.now.clock (table_in story.entry.now.table) story.entry.now.until story.entry.now.ending
        (option_copied task.entry) (map event_in walked.now) answer.verdict answer.bytes.items) }
{
    match about_of(alloc, walked, task)? {
        About::All => {
            let shown = ShownStory {
                clock: story.clock,
                until: story.until,
                walked,
                table: &story.table,
                task: None,
            };
            let bytes = text_of_story(alloc, &shown)?;
            Ok(Answer {
                verdict: story.ending.verdict(),
                bytes,
            })
        }
        About::Task(label) => {
            let shown = ShownStory {
                clock: story.clock,
                until: story.until,
                walked,
                table: &story.table,
                task: Some(label),
            };
            let bytes = text_of_story(alloc, &shown)?;
            Ok(Answer {
                verdict: story.ending.verdict(),
                bytes,
            })
        }
        About::NoTask { nearest } => Ok(Answer {
            verdict: StoryVerdict::NoTask { nearest },
            bytes: Vec::new(alloc),
        }),
    }
}
