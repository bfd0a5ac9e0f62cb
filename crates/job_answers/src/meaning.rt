ghost use Rattle.std.specs.Prelude.{◌≡◌, ◌≤◌, length, map, IfOk};
ghost use Rattle.job_meaning.specs.declared.limits.TheConstants.{MAX_INPUT};
ghost use Rattle.job_meaning.specs.GrantTable.{AreGrantsOf, grants_made};
ghost use Rattle.job_meaning.specs.Meaning.{meaning_grants, meaning_table};
ghost use Rattle.job_runner.specs.Runs.{rows_of};
ghost use Rattle.job_story.specs.CancelledFrom.{table_in};
ghost use Rattle.job_meaning.specs.Clocks.{clock_of};
ghost use Rattle.job_story.specs.Held.{event_of};
ghost use Rattle.story_index.specs.Seen.{event_in};
ghost use Rattle.job_answers.specs.Stories.{story_events, shown_until};
ghost use Rattle.job_answers.specs.Endings.{IsEnding, ending_by, until_of};
ghost use Rattle.job_answers.specs.Tellings.{verdict_of, events_shown};

use crate::story_verdict::StoryVerdict;
use crate::table::table_of;
use job_meaning::{Clock, GrantTable};
use job_reader::Job;
use job_report::Question;
use job_runner::{Gate, Pick, Run, run_to_end};
use job_story::{CancelledFrom, Event, law_cancelled_from_of_meaning, tell};
use std::alloc::{AllocError, Global};
use std::thread::Threads;
use story_index::events_until;

/// How a run ended, compared with a limit.
#[derive(Clone, Copy)]
pub enum Ending {
    /// It ended by the limit, without an exception.
    Done,
    /// It ended by the limit, with an exception.
    Raised,
    /// It ended later than the limit.
    Late,
}

impl Ending {
    /// Returns the verdict on the story of such a run.
    pub fn verdict(self) -> StoryVerdict
        ensures { result ≡ verdict_of self }
    {
        match self {
            Ending::Done => StoryVerdict::Done,
            Ending::Raised => StoryVerdict::Raised,
            Ending::Late => StoryVerdict::Limit,
        }
    }
}

/// The story of a job's meaning, as far as a limit shows it.
#[derive(Drop)]
pub struct Story {
    /// How the job ends, compared with the limit.
    pub ending: Ending,
    /// How its time is counted.
    pub clock: Clock,
    /// The moments from which the scopes and nurseries are cancelled, and the events of the job set.
    pub table: CancelledFrom,
    /// The limit if the job ends later, so that the story is cut off at it, and `None` if it is whole.
    pub until: Option<u64>,
    /// All events of the story in the order of the walk, those after the limit too.
    pub events: Vec<Event>,
}

impl Story {
    /// Returns the events as far as the limit shows them, in the order of the walk. Returns `AllocError` if memory runs out.
    pub fn walked(&self, alloc: Global) -> Result<Vec<&Event>, AllocError>
        ensures { IfOk result (λ walked. map event_in walked.items ≡ events_shown self.now) }
    {
        events_until(alloc, self.clock, self.events.as_slice(), self.until)
    }
}

/// Runs a job, which was read, over the input of a question to its end, and returns the story of its meaning as far as the limit
/// of the question shows it. The picker, the number of workers and the gate change nothing. The caller must ensure that the input
/// has at most 16,777,216 bytes (`MAX_INPUT`). Returns `AllocError` if memory runs out.
pub fn story_of<R: Threads + Sync, P: Pick, G: Gate + Sync>(
    rt: &R,
    alloc: Global,
    job: &Job,
    question: &Question<'_>,
    picker: &mut P,
    gate: &G,
) -> Result<Story, AllocError>
    requires { length question.now.input.now ≤ MAX_INPUT }
    ensures clock { IfOk result (λ story. story.clock ≡ clock_of job.now.format) }
    ensures ending { IfOk result (λ story. IsEnding job.now question.now.input.now question.now.settings.limit story.ending) }
    ensures table { IfOk result (λ story. table_in story.table ≡ meaning_table job.now question.now.input.now) }
    ensures until { IfOk result (λ story. story.until ≡ shown_until question.now.settings.limit job.now question.now.input.now) }
    ensures events { IfOk result (λ story. events_shown story ≡ story_events question.now.settings.limit job.now question.now.input.now) }
{
    let (ending, table, grants) = meaning_of(rt, alloc, job, question, picker, gate)?;
    let events = tell(alloc, job, question.input, &table, &grants)?;
    Ok(Story {
        ending,
        clock: Clock::of(job.text_format()),
        table,
        until: shown_until(ending, question.settings.limit()),
        events,
    })
}

// Returns how the meaning of a job ends, compared with the limit, the moments from which its scopes and nurseries are cancelled and
// its events set, and what its limiters and channels grant.
#[tactic(auto, using(crate::proofs::Stories::is_ending, crate::proofs::Tables::is_of_meaning))]
fn meaning_of<'a, R: Threads + Sync, P: Pick, G: Gate + Sync>(
    rt: &R,
    alloc: Global,
    job: &'a Job,
    question: &Question<'a>,
    picker: &mut P,
    gate: &G,
) -> Result<(Ending, CancelledFrom, GrantTable<'a>), AllocError>
    requires { length question.now.input.now ≤ MAX_INPUT }
    ensures ending { IfOk result (λ r. IsEnding job.now question.now.input.now question.now.settings.limit r.0) }
    ensures table { IfOk result (λ r. table_in r.1 ≡ meaning_table job.now question.now.input.now) }
    ensures granted { IfOk result (λ r. grants_made r.2 ≡ meaning_grants job.now question.now.input.now) }
    ensures lent { IfOk result (λ r. AreGrantsOf question.now.input.now r.2) }
{
    law_cancelled_from_of_meaning();
    let run = run_to_end(
        rt,
        alloc,
        job,
        question.input,
        question.settings.workers(),
        picker,
        gate,
    )?;
    let ending = ending_of(&run, question.settings.limit());
    let (cancelled_from, grants) = run.into_tables();
    let table = table_of(alloc, cancelled_from)?;
    Ok((ending, table, grants))
}

// Returns the limit if the story of a job that ends so is cut off at it, and `None` otherwise.
fn shown_until(ending: Ending, limit: u64) -> Option<u64>
    ensures { result ≡ until_of ending limit }
{
    match ending {
        Ending::Done | Ending::Raised => None,
        Ending::Late => Some(limit),
    }
}

// Returns how a run ended, compared with a limit.
fn ending_of(run: &Run<'_>, limit: u64) -> Ending
    ensures { result ≡ ending_by (rows_of run.now) limit }
{
    if run.end() > limit {
        return Ending::Late;
    }
    if run.is_well() {
        Ending::Done
    } else {
        Ending::Raised
    }
}
