ghost use Rattle.std.specs.Prelude.{◌≤◌, length, IfOk};
ghost use Rattle.std.specs.Option.{option_copied};
ghost use Rattle.job_meaning.specs.declared.limits.TheConstants.{MAX_INPUT};
ghost use Rattle.job_answers.specs.Verdict.{IsStoryText};

use crate::refusal;
use crate::story_verdict::StoryVerdict;
use crate::telling::job_verdict;
use job_reader::read_job;
use job_report::{Answer, Question};
use job_runner::{Gate, Pick};
use std::alloc::{AllocError, Global};
use std::thread::Threads;

/// Runs a job text over an input, and returns the story of the job's one-thread meaning: what happened to each task, in which
/// tick and why. If the job ends later than the limit, it is the story up to the limit, with what each task is doing that has not
/// ended. With `task`, the text of a label, it is only what concerns that task: its events, those of each task that caused one of
/// its cancellations, and so on. If no task has that label, there are no bytes. If the job text is refused, they are the refusal.
/// The verdict says which of these it is.
///
/// The number of workers, the picker and the gate change no byte. The caller must ensure that the input has at most 16,777,216
/// bytes (`MAX_INPUT`). The only error is that memory runs out.
#[tactic(auto, using(crate::proofs::Views::story_of_text))]
pub fn explain<R: Threads + Sync, P: Pick, G: Gate + Sync>(
    rt: &R,
    alloc: Global,
    question: &Question<'_>,
    task: Option<&[u8]>,
    picker: &mut P,
    gate: &G,
) -> Result<Answer<StoryVerdict>, AllocError>
    requires { length question.now.input.now ≤ MAX_INPUT }

    // The bytes are the story of the meaning, or the refusal that the meaning names.
    ensures { IfOk result (λ answer. IsStoryText question.now.text.now question.now.input.now question.now.settings.limit
        (option_copied task.entry) answer.verdict answer.bytes.items) }
{
    match read_job(alloc, question.text) {
        Ok(job) => {
            let answer = job_verdict(rt, alloc, &job, question, task, picker, gate)?;
            Ok(answer)
        }
        Err(fault) => {
            let bytes = refusal(alloc, fault)?;
            Ok(Answer {
                verdict: StoryVerdict::JobRefused(fault),
                bytes,
            })
        }
    }
}
