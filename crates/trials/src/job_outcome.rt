ghost use Rattle.std.specs.Prelude.{◌≡◌, ◌≤◌, length, IfOk, map, Some, None};
ghost use Rattle.job_meaning.specs.declared.limits.TheConstants.{MAX_INPUT};
ghost use Rattle.job_story.specs.Events.{in_order};
ghost use Rattle.job_story.specs.Held.{event_of};
ghost use Rattle.job_story.specs.Limit.{by_limit};
ghost use Rattle.outcomes.specs.Notes.{cut_in, is_raised};
ghost use Rattle.outcomes.specs.Labels.{labels_in};
ghost use Rattle.story_index.specs.Seen.{event_in};
ghost use Rattle.std.specs.Option.{option_map};
ghost use Rattle.exceptions.specs.Held.{exc_of};
ghost use Rattle.outcomes.specs.JobOutcomes as job_outcomes;
ghost use Rattle.outcomes.specs.JobOutcomes.{job_outcome_of, loses, loses_so_far, stuck_by, reaches};
ghost use Rattle.outcomes.specs.Views.{job_outcome_held};
ghost use Rattle.trials.specs.JobOutcomes.{IsJobOutcome, IsReached};

use crate::summary::{Summary, summary_of};
use exceptions::Label;
use job_meaning::Clock;
use job_reader::{Job, JobKind, Name, read_job};
use job_story::Event;
use outcomes::{JobOutcome, cut_in_cleanup, is_lost, is_lost_so_far, is_raised, sleeping_forever};
use std::alloc::{AllocError, Global};
use std::thread::Threads;
use story_index::events_until;
use story_text::in_order;

/// Returns the outcome of the job that a text spells, over an input and up to a limit in ticks. `name` is the exception that
/// the fault in the text raises, or `None` if it raises none. A text that is refused is one of the outcomes. The job runs in
/// the calling thread. The input must have at most 16,777,216 bytes. The only error is that memory runs out.
pub fn job_outcome_of_text<R: Threads + Sync>(
    rt: &R,
    alloc: Global,
    text: &[u8],
    input: &[u8],
    limit: u64,
    name: Option<Name>,
) -> Result<JobOutcome, AllocError>
    requires { length input.now ≤ MAX_INPUT }
    ensures { IfOk result (λ job_outcome. IsJobOutcome text.now input.now limit name (job_outcome_held job_outcome)) }
{
    match read_job(alloc, text) {
        Ok(job) => {
            let job_outcome = outcome_of_job(rt, alloc, &job, input, limit, name)?;
            Ok(job_outcome)
        }
        Err(fault) => match fault.kind {
            JobKind::NoMemory => Err(AllocError),
            _ => Ok(JobOutcome::Refused(fault)),
        },
    }
}

// Returns whether the job that a text spells raises an exception with this name by the limit, or `true` if the text is refused.
pub(crate) fn reaches_in_text<R: Threads + Sync>(
    rt: &R,
    alloc: Global,
    text: &[u8],
    input: &[u8],
    limit: u64,
    name: Name,
) -> Result<bool, AllocError>
    requires { length input.now ≤ MAX_INPUT }
    ensures { IfOk result (IsReached text.now input.now limit name) }
{
    match read_job(alloc, text) {
        Ok(job) => {
            let reached = reaches_in_job(rt, alloc, &job, input, limit, name)?;
            Ok(reached)
        }
        Err(fault) => match fault.kind {
            JobKind::NoMemory => Err(AllocError),
            _ => Ok(true),
        },
    }
}

/// Returns the outcome of a job over an input and up to a limit in ticks. `name` is the exception that the fault in the job
/// raises, or `None` if it raises none. The job runs in the calling thread. The input must have at most 16,777,216 bytes. The
/// only error is that memory runs out.
#[tactic(auto, using(crate::proofs::OutcomeLemmas::stuck_is, crate::proofs::OutcomeLemmas::ended_is))]
pub fn outcome_of_job<R: Threads + Sync>(
    rt: &R,
    alloc: Global,
    job: &Job,
    input: &[u8],
    limit: u64,
    name: Option<Name>,
) -> Result<JobOutcome, AllocError>
    requires { length input.now ≤ MAX_INPUT }
    ensures { IfOk result (λ job_outcome. job_outcome_held job_outcome ≡ job_outcome_of limit name job.now input.now) }
{
    let summary = summary_of(rt, alloc, job, input)?;
    if summary.end > limit {
        return stuck_outcome(alloc, summary.clock, summary.events.as_slice(), limit, name);
    }
    ended_outcome(alloc, summary, name)
}

// Returns whether a job raises an exception with this name by the limit.
#[tactic(auto, using(crate::proofs::OutcomeLemmas::reaches_is))]
fn reaches_in_job<R: Threads + Sync>(
    rt: &R,
    alloc: Global,
    job: &Job,
    input: &[u8],
    limit: u64,
    name: Name,
) -> Result<bool, AllocError>
    requires { length input.now ≤ MAX_INPUT }
    ensures { IfOk result (λ reached. reached ≡ reaches limit name job.now input.now) }
{
    let summary = summary_of(rt, alloc, job, input)?;
    let walked = events_until(alloc, summary.clock, summary.events.as_slice(), Some(limit))?;
    Ok(is_raised(walked.as_slice(), name))
}

// Returns the outcome of a job that ends by the limit.
fn ended_outcome(
    alloc: Global,
    summary: Summary,
    name: Option<Name>,
) -> Result<JobOutcome, AllocError>
    ensures { IfOk result (λ job_outcome. job_outcome_held job_outcome ≡ job_outcomes.ended summary.end (option_map exc_of summary.exc) summary.cancelled.items
        (cut_in (in_order (map event_of summary.events.items))) (loses name (map event_of summary.events.items))) }
{
    let Summary {
        clock,
        end,
        exc,
        cancelled,
        events,
    } = summary;
    let walked = events_until(alloc, clock, events.as_slice(), None)?;
    let cut = cut_tasks(alloc, walked.as_slice())?;
    let lost = loses(walked.as_slice(), name);
    Ok(JobOutcome::Ended {
        end,
        exc,
        cancelled,
        cut,
        lost,
    })
}

// Returns the outcome of a job that does not end by the limit.
fn stuck_outcome(
    alloc: Global,
    clock: Clock,
    events: &[Event],
    limit: u64,
    name: Option<Name>,
) -> Result<JobOutcome, AllocError>
    ensures { IfOk result (λ job_outcome. job_outcome_held job_outcome ≡ stuck_by name (by_limit clock limit (map event_of events.now))) }
{
    let walked = events_until(alloc, clock, events, Some(limit))?;
    let asleep = sleeping_forever(alloc, walked.as_slice())?;
    Ok(JobOutcome::Stuck {
        sleeping: copies(alloc, asleep.as_slice())?,
        cut: cut_tasks(alloc, walked.as_slice())?,
        lost: loses_so_far(walked.as_slice(), name),
    })
}

// Returns the tasks that were cancelled in a cleanup, given the events in the order of the walk.
fn cut_tasks(alloc: Global, walked: &[&Event]) -> Result<Vec<Label>, AllocError>
    ensures { IfOk result (λ tasks. tasks.items ≡ cut_in (in_order (map event_in walked.now))) }
{
    let sorted = in_order(alloc, walked)?;
    let tasks = cut_in_cleanup(alloc, sorted.as_slice())?;
    copies(alloc, tasks.as_slice())
}

// Returns whether the exception that the fault raises is lost in a job that has not ended, if it raises one.
fn loses_so_far(walked: &[&Event], name: Option<Name>) -> bool
    ensures { result ≡ loses_so_far name (map event_in walked.now) }
{
    match name {
        Some(name) => is_lost_so_far(walked, name),
        None => false,
    }
}

// Returns whether the exception that the fault raises is lost, if it raises one.
fn loses(walked: &[&Event], name: Option<Name>) -> bool
    ensures { result ≡ loses name (map event_in walked.now) }
{
    match name {
        Some(name) => is_lost(walked, name),
        None => false,
    }
}

// Returns copies of the labels.
fn copies(alloc: Global, labels: &[&Label]) -> Result<Vec<Label>, AllocError>
    ensures { IfOk result (λ copies. copies.items ≡ labels_in labels.now) }
{
    let mut copies = Vec::new(alloc);
    'labels: for label in labels {
        copies.push(label.copy(alloc)?)?;
    }
    Ok(copies)
}
