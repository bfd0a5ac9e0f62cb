ghost use Rattle.std.specs.Prelude.{◌≡◌, ◌≤◌, length, IfOk};
ghost use Rattle.job_meaning.specs.declared.limits.TheConstants.{MAX_INPUT};
ghost use Rattle.commands.specs.Charts.{verdict_of, IsJobVerdict, IsVerdict};

use crate::chart_form::ChartForm;
use crate::drawing::chart_of;
use job_answers::{Ending, Verdict, refusal, story_of};
use job_reader::{Job, read_job};
use job_report::{Answer, Question};
use job_runner::{Gate, Pick};
use std::alloc::{AllocError, Global};
use std::thread::Threads;

/// Runs a job text over an input, and returns the chart of the job's one-thread meaning: a row for each task, and below it one
/// for each scope and nursery that it entered, with a column for each tick at which something happens. If the job ends later than
/// the limit, it is drawn up to the limit, and the verdict is `Limit`. If the job text is refused, the bytes are the refusal. The
/// verdict and its status are those of `serve` of `job_answers`.
///
/// The number of workers, the picker and the gate change no byte. The caller must ensure that the input has at most 16,777,216
/// bytes (`MAX_INPUT`). The only error is that memory runs out.
#[tactic(auto, using(crate::proofs::Charted::of_spelt))]
pub fn chart<R: Threads + Sync, P: Pick, G: Gate + Sync>(
    rt: &R,
    alloc: Global,
    question: &Question<'_>,
    form: ChartForm,
    picker: &mut P,
    gate: &G,
) -> Result<Answer<Verdict>, AllocError>
    requires { length question.now.input.now ≤ MAX_INPUT }

    // The bytes are the chart of the meaning, or the refusal that the meaning names.
    ensures { IfOk result (λ answer. IsVerdict form question.now.text.now question.now.input.now question.now.settings.limit
        answer.verdict answer.bytes.items) }
{
    match read_job(alloc, question.text) {
        Ok(job) => {
            let answer = job_chart(rt, alloc, &job, question, form, picker, gate)?;
            Ok(answer)
        }
        Err(fault) => {
            let bytes = refusal(alloc, fault)?;
            Ok(Answer {
                verdict: Verdict::JobRefused(fault),
                bytes,
            })
        }
    }
}

// Returns the verdict on a job that was read, with its chart.
fn job_chart<R: Threads + Sync, P: Pick, G: Gate + Sync>(
    rt: &R,
    alloc: Global,
    job: &Job,
    question: &Question<'_>,
    form: ChartForm,
    picker: &mut P,
    gate: &G,
) -> Result<Answer<Verdict>, AllocError>
    requires { length question.now.input.now ≤ MAX_INPUT }
    ensures { IfOk result (λ answer. IsJobVerdict form job.now question.now.input.now question.now.settings.limit
        answer.verdict answer.bytes.items) }
{
    let story = story_of(rt, alloc, job, question, picker, gate)?;
    let walked = story.walked(alloc)?;
    let bytes = chart_of(
        alloc,
        story.clock,
        form,
        walked.as_slice(),
        &story.table,
        story.until,
    )?;
    Ok(Answer {
        verdict: verdict_of(story.ending),
        bytes,
    })
}

// Returns the verdict on a job that ends so.
fn verdict_of(ending: Ending) -> Verdict
    ensures { result ≡ verdict_of ending }
{
    match ending {
        Ending::Done => Verdict::Done,
        Ending::Raised => Verdict::Raised,
        Ending::Late => Verdict::Limit,
    }
}
