ghost use Rattle.std.specs.Prelude.{◌≡◌, ◌≤◌, ℕ, List, length, IfOk};
ghost use Rattle.job_meaning.specs.declared.limits.TheConstants.{MAX_INPUT};
ghost use Rattle.race_text.specs.LineViews.{found_held};
ghost use Rattle.trials.specs.TextRuns.{refused, text_run_of, found_between, IsComparison};
ghost use Rattle.trials.specs.Views.{text_run_by, text_run_held, text_run_seen};

use crate::original::Original;
use job_reader::{Job, JobFault, JobKind, read_job};
use job_runner::{Forward, NoGate, Run, run_to_end};
use job_tree::Name;
use race_text::{ComparedRun, Found, run_differences};
use std::alloc::{AllocError, Global};
use std::thread::Threads;

// Returns what the job that a text spells shows by the limit that another run does not show, over the input of the original
// job, apart from the exits of scopes with the name of the scope of hairs. If this text or the text of the other run is
// refused, nothing is compared, and the result is that refusal. The job runs in the calling thread.
pub(crate) fn found_in_text<R: Threads + Sync>(
    rt: &R,
    alloc: Global,
    original: &Original<'_>,
    before: Result<&ComparedRun<'_>, JobFault>,
    text: &[u8],
) -> Result<Found, AllocError>
    requires { length original.now.input.now ≤ MAX_INPUT }
    ensures { IfOk result (λ found. IsComparison original.now.scope.now text.now original.now.input.now original.now.limit
        (text_run_held before.entry) (found_held found)) }
{
    match read_job(alloc, text) {
        Ok(job) => {
            let found = found_in_job(rt, alloc, original, before, &job)?;
            Ok(found)
        }
        Err(fault) => match fault.kind {
            JobKind::NoMemory => Err(AllocError),
            _ => Ok(not_tried(before, fault)),
        },
    }
}

// Returns what a job shows by the limit that another run does not show.
#[tactic(auto, using(crate::proofs::Compared::in_job))]
fn found_in_job<R: Threads + Sync>(
    rt: &R,
    alloc: Global,
    original: &Original<'_>,
    before: Result<&ComparedRun<'_>, JobFault>,
    job: &Job,
) -> Result<Found, AllocError>
    requires { length original.now.input.now ≤ MAX_INPUT }
    ensures { IfOk result (λ found. found_held found ≡ found_between original.now.scope.now (text_run_held before.entry)
        (text_run_of original.now.limit job.now original.now.input.now)) }
{
    match before {
        Ok(before) => {
            let run = run_to_end(rt, alloc, job, original.input, 1, &mut Forward, &NoGate)?;
            found_in_run(alloc, *original.scope, before, &run, original.limit)
        }
        Err(fault) => Ok(Found::NotTried(fault)),
    }
}

// Returns that nothing was compared, since a text is refused; or since the text of the other run is.
fn not_tried(before: Result<&ComparedRun<'_>, JobFault>, fault: JobFault) -> Found
    ensures { (scope : List ℕ) → found_held result ≡ found_between scope (text_run_held before.entry) (refused fault) }
{
    match before {
        Ok(_) => Found::NotTried(fault),
        Err(first) => Found::NotTried(first),
    }
}

// Returns what a run shows by a limit that another one does not show.
pub(crate) fn found_in_run(
    alloc: Global,
    scope: Name,
    before: &ComparedRun<'_>,
    run: &Run<'_>,
    limit: u64,
) -> Result<Found, AllocError>
    ensures { IfOk result (λ found. found_held found ≡ found_between scope (text_run_seen before.now) (text_run_by limit run.now)) }
{
    let after = ComparedRun {
        records: run.records(),
        in_time: run.end() <= limit,
    };
    let tasks = run_differences(alloc, scope, before, &after)?;
    Ok(Found::Differs(tasks))
}
