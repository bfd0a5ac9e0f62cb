ghost use Rattle.std.specs.Prelude.{◌≡◌, ◌≤◌, ◌∷◌, [], length, IfOk};
ghost use Rattle.job_meaning.specs.declared.limits.TheConstants.{MAX_INPUT};
ghost use Rattle.job_edits.specs.Changes.{changed_text};
ghost use Rattle.job_edits.specs.Faults.{changes_by, probe_by, raised_by};
ghost use Rattle.outcomes.specs.Views.{job_outcome_held};
ghost use Rattle.trials.specs.JobOutcomes.{IsJobOutcome, IsReached};
ghost use Rattle.trials.specs.Held.{IsTrial};

use crate::job_outcome::{job_outcome_of_text, reaches_in_text};
use job_edits::{Fault, Plan, Waiting, changed_text};
use outcomes::{JobOutcome, differs};
use std::alloc::{AllocError, Global};
use std::thread::Threads;

/// A job text in which faults are made.
#[derive(Clone, Copy)]
pub(crate) struct Trial<'a> {
    /// The text.
    pub text: &'a [u8],
    /// The input.
    pub input: &'a [u8],
    /// The last tick at which the job may end.
    pub limit: u64,
    /// What the changes of the text need.
    pub plan: Plan,
    /// The outcome of the job without a fault.
    pub before: &'a JobOutcome,
}

/// What becomes of a job with a fault.
#[derive(Drop)]
pub(crate) struct Tried {
    /// Its outcome.
    pub job_outcome: JobOutcome,
    /// Whether the fault is reached.
    pub reached: bool,
    /// Whether the outcome differs from that without the fault.
    pub differs: bool,
    /// Whether a task is cut that is not cut without the fault.
    pub cuts: bool,
}

// Returns what becomes of the job with a fault of a step.
pub(crate) fn try_fault<R: Threads + Sync>(
    rt: &R,
    alloc: Global,
    trial: &Trial<'_>,
    step: &Waiting,
    fault: &Fault,
) -> Result<Tried, AllocError>
    requires { length trial.now.input.now ≤ MAX_INPUT }
    ensures { IfOk result (IsTrial trial.now step.now fault.now) }
{
    let reached = reached_with(rt, alloc, trial, step, fault)?;
    let job_outcome = job_outcome_with(rt, alloc, trial, step, fault)?;
    let cuts = job_outcome.cuts_more_than(trial.before);
    let differs = differs(alloc, trial.limit, trial.before, &job_outcome)?;
    Ok(Tried {
        job_outcome,
        reached,
        differs,
        cuts,
    })
}

// Returns the outcome of the job with a fault of a step.
fn job_outcome_with<R: Threads + Sync>(
    rt: &R,
    alloc: Global,
    trial: &Trial<'_>,
    step: &Waiting,
    fault: &Fault,
) -> Result<JobOutcome, AllocError>
    requires { length trial.now.input.now ≤ MAX_INPUT }
    ensures { IfOk result (λ job_outcome. IsJobOutcome (changed_text trial.now.text.now (changes_by trial.now.plan step.now fault.now)) trial.now.input.now
        trial.now.limit (raised_by fault.now) (job_outcome_held job_outcome)) }
{
    let changes = trial.plan.changes(alloc, copy_of(step), *fault)?;
    let faulty = changed_text(alloc, trial.text, changes.as_slice())?;
    let raised = fault.raised_name();
    job_outcome_of_text(
        rt,
        alloc,
        faulty.as_slice(),
        trial.input,
        trial.limit,
        raised,
    )
}

// Returns whether a fault of a step is reached.
fn reached_with<R: Threads + Sync>(
    rt: &R,
    alloc: Global,
    trial: &Trial<'_>,
    step: &Waiting,
    fault: &Fault,
) -> Result<bool, AllocError>
    requires { length trial.now.input.now ≤ MAX_INPUT }
    ensures { IfOk result (IsReached (changed_text trial.now.text.now (probe_by trial.now.plan step.now fault.now ∷ [])) trial.now.input.now
        trial.now.limit trial.now.plan.reached) }
{
    let probe = trial.plan.probe(copy_of(step), *fault);
    let probed = changed_text(alloc, trial.text, &[probe])?;
    reaches_in_text(
        rt,
        alloc,
        probed.as_slice(),
        trial.input,
        trial.limit,
        trial.plan.reached,
    )
}

// Returns a copy of a step.
pub(crate) fn copy_of(step: &Waiting) -> Waiting
    ensures { result ≡ step.now }
{
    let wait = step.wait;
    Waiting {
        from: step.from,
        to: step.to,
        wait,
    }
}
