ghost use Rattle.std.specs.Prelude.{◌≡◌, ◌≤◌, Option, length, IfOk};
ghost use Rattle.std.specs.Option.{option_map};
ghost use Rattle.exceptions.specs.Exceptions as tree;
ghost use Rattle.exceptions.specs.Held.{exc_of};
ghost use Rattle.job_meaning.specs.Shown.{ending_of};
ghost use Rattle.job_runner.specs.Runs.{rows_of};
ghost use Rattle.job_meaning.specs.declared.limits.TheConstants.{MAX_INPUT};
ghost use Rattle.trials.specs.Held.{IsSummary, root_ending};

use crate::outcome::{cancelled_tasks, exc_in};
use exceptions::{Exc, Label};
use job_answers::table_of;
use job_meaning::Clock;
use job_reader::Job;
use job_runner::{Forward, NoGate, Run, run_to_end};
use job_story::{Event, law_cancelled_from_of_meaning, tell};
use std::alloc::{AllocError, Global};
use std::thread::Threads;

/// What is kept of the run of a job to its end.
#[derive(Drop)]
pub struct Summary {
    /// How the time of the job is counted.
    pub clock: Clock,
    /// The tick at which the job ends.
    pub end: u64,
    /// The exception that it ends with, or `None` if it ends without one.
    pub exc: Option<Exc>,
    /// The tasks that end cancelled, in the order of a report.
    pub cancelled: Vec<Label>,
    /// The events of its story, in the order of the walk.
    pub events: Vec<Event>,
}

/// Runs a job over an input to its end, in the calling thread, and returns its end and its events. The input must have
/// at most 16,777,216 bytes. The only error is that memory runs out.
#[tactic(auto, using(crate::proofs::Summaries::is_summary))]
pub fn summary_of<R: Threads + Sync>(
    rt: &R,
    alloc: Global,
    job: &Job,
    input: &[u8],
) -> Result<Summary, AllocError>
    requires { length input.now ≤ MAX_INPUT }
    ensures { IfOk result (IsSummary job.now input.now) }
{
    law_cancelled_from_of_meaning();
    let run = run_to_end(rt, alloc, job, input, 1, &mut Forward, &NoGate)?;
    let clock = Clock::of(job.text_format());
    let end = run.end();
    let exc = exc_of_root(alloc, &run)?;
    let cancelled = cancelled_tasks(alloc, run.records())?;
    let (cancelled_from, grants) = run.into_tables();
    let table = table_of(alloc, cancelled_from)?;
    let events = tell(alloc, job, input, &table, &grants)?;
    Ok(Summary {
        clock,
        end,
        exc,
        cancelled,
        events,
    })
}

// Returns the exception that the root task of a run ended with.
#[tactic(auto, using(crate::proofs::Outcomes::none_of))]
fn exc_of_root(alloc: Global, run: &Run<'_>) -> Result<Option<Exc>, AllocError>
    ensures { IfOk result (λ exc. (o : Option tree.Exc) → root_ending (rows_of run.now) ≡ ending_of o → option_map exc_of exc ≡ o) }
{
    match run.records().split_first() {
        Some((root, _)) => exc_in(alloc, &root.outcome),
        None => Ok(None),
    }
}
