ghost use Rattle.std.specs.Prelude.{◌≡◌, ◌<◌, ◌≤◌, length, IfOk, IfErr};
ghost use Rattle.job_meaning.specs.declared.limits.TheConstants.{MAX_INPUT};
ghost use Rattle.job_reader.specs.Refusals.{Spells, IsFair};
ghost use Rattle.job_edits.specs.FinerTicks.{shifts_of};
ghost use Rattle.trials.specs.Races.{IsRaceAnswer};

use crate::original::Original;
use crate::race_work::lines_for;
use job_answers::Question;
use job_edits::{FinerTicks, Site, copied_starts, hair_scope, shifts, sites};
use job_meaning::Clock;
use job_reader::{Job, JobFault, read_job, spelled_tokens};
use job_runner::{Forward, Gate, NoGate, run_to_end};
use race_text::Line;
use std::alloc::{AllocError, Global};
use std::thread::Threads;

/// What each hair of each place of a job changes.
#[derive(Drop)]
pub struct RaceLines {
    /// The number of hairs.
    pub hairs: usize,
    /// The line of the text in finer ticks, those of each hair in the order of places, and those of the copies that meet. The
    /// lines that the table does not show are here too.
    pub lines: Vec<Line>,
}

/// The result of moving the places of a job by a hair.
#[derive(Drop)]
pub enum RaceAnswer {
    /// What each hair changes.
    Lines(RaceLines),
    /// The job does not end by the limit, so there is no outcome that could depend on a hair.
    Limit,
    /// Some `sleep`, `after` or `at` of the job text has more than 99,999,999 ticks, which cannot be made finer.
    NoFinerTicks,
}

/// Returns how the outcome of the job that the text of a question spells over its input changes if a single place of the text
/// takes a hair more or less time: the text in finer ticks compared with the original text, then each hair of each place
/// compared with the text in finer ticks, and the copies of one `start` with `over` or in a `repeat` that meet. If the text is
/// refused, the error is the refusal, as `read_job` returns it. If memory runs out, the error has the kind `NoMemory`. The
/// caller must ensure that the input has at most 16,777,216 bytes.
///
/// The number of workers in the settings is the number of threads that run the hairs. The gate is called before and after each
/// hair, with the place of the hair among them, by the thread that runs it. Neither changes a line.
pub fn race_lines<R: Threads + Sync, G: Gate + Sync>(
    rt: &R,
    alloc: Global,
    question: &Question<'_>,
    gate: &G,
) -> Result<RaceAnswer, JobFault>
    requires { length question.now.input.now ≤ MAX_INPUT }
    ensures lines { IfOk result (IsRaceAnswer question.now.text.now question.now.input.now question.now.settings.limit) }
    ensures refused { IfErr result (IsFair question.now.text.now) }
{
    let job = read_job(alloc, question.text)?;
    let answer = answer_for_job(rt, alloc, &job, question, gate)?;
    Ok(answer)
}

// Returns the same for a text that spells a job.
#[tactic(auto, using(crate::proofs::RacesTabled::some_ticks, crate::proofs::RacesTabled::is_late, crate::proofs::RacesTabled::has_no_finer_ticks))]
fn answer_for_job<R: Threads + Sync, G: Gate + Sync>(
    rt: &R,
    alloc: Global,
    job: &Job,
    question: &Question<'_>,
    gate: &G,
) -> Result<RaceAnswer, AllocError>
    requires input { length question.now.input.now ≤ MAX_INPUT }
    requires spells { Spells question.now.text.now job.now }
    ensures { IfOk result (IsRaceAnswer question.now.text.now question.now.input.now question.now.settings.limit) }
{
    let limit = question.settings.limit();
    let run = run_to_end(rt, alloc, job, question.input, 1, &mut Forward, &NoGate)?;
    if run.end() > limit {
        return Ok(RaceAnswer::Limit);
    }
    let tokens = spelled_tokens(alloc, question.text, job)?;
    let sites = sites(alloc, tokens.as_slice())?;
    let clock = Clock::of(job.text_format());
    let Some(finer_ticks) = FinerTicks::of(clock, sites.as_slice(), limit) else {
        return Ok(RaceAnswer::NoFinerTicks);
    };
    let scope = hair_scope(alloc, tokens.as_slice())?;
    let starts = copied_starts(alloc, tokens.as_slice())?;
    let original = Original {
        text: question.text,
        input: question.input,
        clock,
        limit: limit.saturating_mul(finer_ticks.factor),
        finer_ticks,
        scope: &scope,
        sites: sites.as_slice(),
        starts: starts.as_slice(),
        workers: question.settings.workers(),
    };
    let lines = lines_for(rt, alloc, &original, &run, gate)?;
    let hairs = hairs_of(alloc, original.sites)?;
    Ok(RaceAnswer::Lines(RaceLines { hairs, lines }))
}

// Returns the number of hairs of these places.
fn hairs_of(alloc: Global, sites: &[Site]) -> Result<usize, AllocError>
    ensures { IfOk result (λ hairs. hairs ≡ length (shifts_of sites.now)) }
{
    let shifts = shifts(alloc, sites)?;
    Ok(shifts.len())
}
