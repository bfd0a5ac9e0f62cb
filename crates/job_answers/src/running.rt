ghost use Rattle.std.specs.Prelude.{◌≡◌, ◌≤◌, length, IfOk};
ghost use Rattle.job_meaning.specs.declared.limits.TheConstants.{MAX_INPUT};
ghost use Rattle.job_story.specs.CancelledFrom.{table_in};
ghost use Rattle.job_answers.specs.Running.{running_lines, AreRunning, IsJobRunning};
ghost use Rattle.job_answers.specs.Tellings.{events_shown};

use crate::meaning::{Ending, Story, story_of};
use job_reader::{Job, JobKind, read_job};
use job_report::Question;
use job_runner::{Gate, Pick};
use std::alloc::{AllocError, Global};
use std::thread::Threads;
use story_text::{in_order, standing_text};

/// Returns a line for each task of a job that has not ended by the limit, with what it is doing, and one about a deadlock if some
/// are in one: the last lines of the story that `explain` writes of such a job. Returns nothing if the job ends by the limit or its text is refused. The picker, the number of
/// workers and the gate change no byte. The caller must ensure that the input has at most 16,777,216 bytes (`MAX_INPUT`).
/// The only error is that memory runs out.
pub fn running_at_limit<R: Threads + Sync, P: Pick, G: Gate + Sync>(
    rt: &R,
    alloc: Global,
    question: &Question<'_>,
    picker: &mut P,
    gate: &G,
) -> Result<Vec<u8>, AllocError>
    requires { length question.now.input.now ≤ MAX_INPUT }
    ensures { IfOk result (λ lines. AreRunning question.now.text.now question.now.input.now question.now.settings.limit lines.items) }
{
    match read_job(alloc, question.text) {
        Ok(job) => {
            let lines = running_of(rt, alloc, &job, question, picker, gate)?;
            Ok(lines)
        }
        Err(fault) => match fault.kind {
            JobKind::NoMemory => Err(AllocError),
            _ => Ok(Vec::new(alloc)),
        },
    }
}

// Returns the same for a job that was read.
#[tactic(auto, using(crate::proofs::Stories::none_run, crate::proofs::Stories::these_run))]
fn running_of<R: Threads + Sync, P: Pick, G: Gate + Sync>(
    rt: &R,
    alloc: Global,
    job: &Job,
    question: &Question<'_>,
    picker: &mut P,
    gate: &G,
) -> Result<Vec<u8>, AllocError>
    requires { length question.now.input.now ≤ MAX_INPUT }
    ensures { IfOk result (λ lines. IsJobRunning job.now question.now.input.now question.now.settings.limit lines.items) }
{
    let story = story_of(rt, alloc, job, question, picker, gate)?;
    match story.ending {
        Ending::Done | Ending::Raised => Ok(Vec::new(alloc)),
        Ending::Late => {
            let lines = running_lines(alloc, &story)?;
            Ok(lines)
        }
    }
}

// Returns the last lines of a story up to a limit: what each task is doing that has not ended, and a deadlock.
fn running_lines(alloc: Global, story: &Story) -> Result<Vec<u8>, AllocError>
    ensures { IfOk result (λ lines. lines.items ≡ running_lines story.now.clock (table_in story.now.table) (events_shown story.now)) }
{
    let walked = story.walked(alloc)?;
    let sorted = in_order(alloc, walked.as_slice())?;
    let lines = standing_text(
        alloc,
        story.clock,
        &story.table,
        sorted.as_slice(),
        walked.as_slice(),
    )?;
    Ok(lines)
}
