ghost use Rattle.std.specs.Prelude.{◌≡◌, ◌<◌, ◌≤◌, length, IfOk, IfErr, OnOk};
ghost use Rattle.job_meaning.specs.declared.limits.TheConstants.{MAX_INPUT};
ghost use Rattle.job_answers.specs.Views.{IsReportVerdict};
ghost use Rattle.job_answers.specs.Verdict.{IsVerdict, text_view};
ghost use Rattle.job_answers.specs.Sending.{IsSent, IsServeFault, CountsFailure};
ghost use Rattle.job_report.specs.declared.limits.TheConstants.{MAX_FAILURES};

use crate::lines::{past_limit, refusal};
use crate::verdict::{ServeFault, Verdict};
use job_reader::{Job, read_job};
use job_report::{Answer, Out, Question, report, send_answer};
use job_runner::{Gate, Pick, RunFault, Settings, run};
use std::alloc::{AllocError, Global};
use std::thread::Threads;

/// Runs a job text over an input, and writes the report of the job's one-thread meaning, or the refusal that the meaning names,
/// or the line for a job that ends later than the limit, and returns which. The input has at most `MAX_INPUT` bytes. The number
/// of workers, the picker and the gate do not change any byte of it. All bytes are built before the first is sent, so after
/// `NoMemory` nothing was sent. After `Send` the writer took the first `sent` bytes. The picker is asked for each turn of a batch
/// of tasks that are ready, and the gate is called before and after each request that a worker computes.
pub fn serve<R: Threads + Sync, P: Pick, G: Gate + Sync, W: Out>(
    rt: &R,
    alloc: Global,
    job_text: &[u8],
    input: &[u8],
    settings: Settings,
    picker: &mut P,
    gate: &G,
    out: &mut W,
) -> Result<Verdict, ServeFault>
    requires input { length input.now ≤ MAX_INPUT }
    requires countable { W.failed out.old < MAX_FAILURES }

    // The bytes written are the report of the meaning, or the refusal that it names.
    ensures sent { IfOk result (IsSent (IsVerdict job_text.now input.now settings.limit) (W.contents out.old) (W.contents out.new)) }
    ensures well { OnOk result (W.failed out.new ≡ W.failed out.old) }

    // A writer that failed took the front of those bytes; after memory ran out, nothing was sent.
    ensures fault { IfErr result (IsServeFault (IsVerdict job_text.now input.now settings.limit) (W.contents out.old) (W.contents out.new)) }
    ensures counted { IfErr result (CountsFailure (W.failed out.old) (W.failed out.new)) }
{
    let question = Question {
        text: job_text,
        input,
        settings,
    };
    let answer = report_answer(rt, alloc, &question, picker, gate)?;
    let verdict = send_answer(answer, out)?;
    Ok(verdict)
}

/// Returns what `serve` writes, and its verdict. The only error is that memory runs out. The caller must ensure that the input
/// has at most `MAX_INPUT` bytes.
#[tactic(auto, using(crate::proofs::Views::report_of_text))]
pub fn report_answer<R: Threads + Sync, P: Pick, G: Gate + Sync>(
    rt: &R,
    alloc: Global,
    question: &Question<'_>,
    picker: &mut P,
    gate: &G,
) -> Result<Answer<Verdict>, AllocError>
    requires { length question.now.input.now ≤ MAX_INPUT }
    ensures { IfOk result (λ answer. IsVerdict question.now.text.now question.now.input.now question.now.settings.limit answer.verdict answer.bytes.items) }
{
    match read_job(alloc, question.text) {
        Ok(job) => {
            let answer = run_answer(rt, alloc, &job, question, picker, gate)?;
            Ok(answer)
        }
        Err(fault) => {
            let bytes = refusal(alloc, fault)?;
            Ok(Answer {
                verdict: Verdict::JobRefused(fault),
                bytes,
            })
        }
    }
}

// Returns the verdict on a job that was read.
fn run_answer<R: Threads + Sync, P: Pick, G: Gate + Sync>(
    rt: &R,
    alloc: Global,
    job: &Job,
    question: &Question<'_>,
    picker: &mut P,
    gate: &G,
) -> Result<Answer<Verdict>, AllocError>
    requires { length question.now.input.now ≤ MAX_INPUT }
    ensures { IfOk result (λ answer. IsReportVerdict text_view job.now question.now.input.now question.now.settings.limit answer.verdict answer.bytes.items) }
{
    match run(
        rt,
        alloc,
        job,
        question.input,
        question.settings,
        picker,
        gate,
    ) {
        Ok(finished) => {
            let verdict = if finished.is_well() {
                Verdict::Done
            } else {
                Verdict::Raised
            };
            let bytes = report(alloc, &finished)?;
            Ok(Answer { verdict, bytes })
        }
        Err(RunFault::Limit { limit }) => Ok(Answer {
            verdict: Verdict::Limit,
            bytes: past_limit(alloc, limit)?,
        }),
        Err(RunFault::NoMemory) => Err(AllocError),
    }
}
