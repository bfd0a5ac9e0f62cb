ghost use Rattle.std.specs.Prelude.{◌≤◌, length, IfOk};
ghost use Rattle.std.specs.Option.{option_copied};
ghost use Rattle.job_meaning.specs.declared.limits.TheConstants.{MAX_INPUT};
ghost use Rattle.job_answers.specs.Views.{IsStoryVerdict};
ghost use Rattle.commands.specs.Serving.{IsStoryDocument, json_view};

use crate::about::story_about;
use crate::answers::refusal;
use job_answers::{StoryVerdict, story_of};
use job_reader::{Job, read_job};
use job_report::{Answer, Question};
use job_runner::{Gate, Pick};
use std::alloc::{AllocError, Global};
use std::thread::Threads;

/// Runs a job text over an input, and returns the story of the job's one-thread meaning as one JSON document: an object for each
/// event, in the order of the story. For a job that ends later than the limit it is the story up to the limit, with what each
/// task that has not ended is doing. If a task is requested, by the text of its label, it has only what concerns that task, as
/// that of `explain`; if no task has that label, there are no bytes. If the job text is refused, they are the refusal. The
/// verdict and its status are those of `explain`.
///
/// The number of workers, the picker and the gate do not change any byte. The caller must ensure that the input has at most
/// 16,777,216 bytes (`MAX_INPUT`). The only error is that memory runs out.
#[tactic(auto, using(crate::proofs::Served::story_of_spelt))]
pub fn story_document<R: Threads + Sync, P: Pick, G: Gate + Sync>(
    rt: &R,
    alloc: Global,
    question: &Question<'_>,
    task: Option<&[u8]>,
    picker: &mut P,
    gate: &G,
) -> Result<Answer<StoryVerdict>, AllocError>
    requires { length question.now.input.now ≤ MAX_INPUT }

    // The bytes are the story of the meaning as JSON, or the refusal that it names.
    ensures { IfOk result (λ answer. IsStoryDocument question.now.text.now question.now.input.now question.now.settings.limit
        (option_copied task.entry) answer.verdict answer.bytes.items) }
{
    let job_text = question.text;
    match read_job(alloc, job_text) {
        Ok(job) => {
            let answer = job_story(rt, alloc, &job, question, task, picker, gate)?;
            Ok(answer)
        }
        Err(fault) => {
            let bytes = refusal(alloc, job_text, fault)?;
            Ok(Answer {
                verdict: StoryVerdict::JobRefused(fault),
                bytes,
            })
        }
    }
}

// Returns the verdict on a job that was read, with its story.
fn job_story<R: Threads + Sync, P: Pick, G: Gate + Sync>(
    rt: &R,
    alloc: Global,
    job: &Job,
    question: &Question<'_>,
    task: Option<&[u8]>,
    picker: &mut P,
    gate: &G,
) -> Result<Answer<StoryVerdict>, AllocError>
    requires { length question.now.input.now ≤ MAX_INPUT }
    ensures { IfOk result (λ answer. IsStoryVerdict json_view job.now question.now.input.now question.now.settings.limit (option_copied task.entry)
        answer.verdict answer.bytes.items) }
{
    let story = story_of(rt, alloc, job, question, picker, gate)?;
    let walked = story.walked(alloc)?;
    let answer = story_about(alloc, job, &story, walked.as_slice(), task)?;
    Ok(answer)
}
