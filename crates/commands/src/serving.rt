ghost use Rattle.std.specs.Prelude.{◌≤◌, length, IfOk};
ghost use Rattle.job_meaning.specs.declared.limits.TheConstants.{MAX_INPUT};
ghost use Rattle.job_answers.specs.Views.{IsReportVerdict};
ghost use Rattle.commands.specs.Serving.{IsVerdict, json_view};

use crate::answers::{past_limit, refusal};
use job_answers::Verdict;
use job_reader::{Job, read_job};
use job_report::{Answer, Question};
use job_runner::{Gate, Pick, RunFault, run};
use json_story::report_json;
use std::alloc::{AllocError, Global};
use std::thread::Threads;

/// Runs a job text over an input, and returns the report of the job's one-thread meaning as one JSON document, or the refusal
/// that the meaning names, or the limit by which it does not end. The verdict and its status are those of `serve`.
///
/// The number of workers, the picker and the gate do not change any byte. The caller must ensure that the input has at most
/// 16,777,216 bytes (`MAX_INPUT`). The only error is that memory runs out.
#[tactic(auto, using(crate::proofs::Served::report_of_spelt))]
pub fn report_document<R: Threads + Sync, P: Pick, G: Gate + Sync>(
    rt: &R,
    alloc: Global,
    question: &Question<'_>,
    picker: &mut P,
    gate: &G,
) -> Result<Answer<Verdict>, AllocError>
    requires { length question.now.input.now ≤ MAX_INPUT }

    // The bytes are the report of the meaning as JSON, or the refusal that it names.
    ensures { IfOk result (λ answer. IsVerdict question.now.text.now question.now.input.now question.now.settings.limit answer.verdict
        answer.bytes.items) }
{
    let job_text = question.text;
    match read_job(alloc, job_text) {
        Ok(job) => {
            let answer = job_answer(rt, alloc, &job, question, picker, gate)?;
            Ok(answer)
        }
        Err(fault) => {
            let bytes = refusal(alloc, job_text, fault)?;
            Ok(Answer {
                verdict: Verdict::JobRefused(fault),
                bytes,
            })
        }
    }
}

// Returns the verdict on a job that was read.
fn job_answer<R: Threads + Sync, P: Pick, G: Gate + Sync>(
    rt: &R,
    alloc: Global,
    job: &Job,
    question: &Question<'_>,
    picker: &mut P,
    gate: &G,
) -> Result<Answer<Verdict>, AllocError>
    requires { length question.now.input.now ≤ MAX_INPUT }
    ensures { IfOk result (λ answer. IsReportVerdict json_view job.now question.now.input.now question.now.settings.limit answer.verdict answer.bytes.items) }
{
    match run(
        rt,
        alloc,
        job,
        question.input,
        question.settings,
        picker,
        gate,
    ) {
        Ok(finished) => {
            let verdict = if finished.is_well() {
                Verdict::Done
            } else {
                Verdict::Raised
            };
            let bytes = report_json(alloc, &finished)?;
            Ok(Answer { verdict, bytes })
        }
        Err(RunFault::Limit { limit }) => Ok(Answer {
            verdict: Verdict::Limit,
            bytes: past_limit(alloc, limit)?,
        }),
        Err(RunFault::NoMemory) => Err(AllocError),
    }
}
