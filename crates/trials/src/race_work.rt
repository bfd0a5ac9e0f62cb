ghost use Rattle.std.specs.Prelude.{◌≡◌, ◌<◌, ◌≤◌, true, ◌∷◌, ◌++◌, length, IfOk, OnOk, map};
ghost use Rattle.job_meaning.specs.declared.limits.TheConstants.{MAX_INPUT};
ghost use Rattle.job_runner.specs.Runs.{rows_of};
ghost use Rattle.outcomes.specs.JobOutcomes.{walked_events};
ghost use Rattle.job_edits.specs.FinerTicks.{shifts_of};
ghost use Rattle.workers.specs.Answers.{AreAnswers};
ghost use Rattle.race_text.specs.Lines as race_lines;
ghost use Rattle.race_text.specs.LineViews.{found_held, line_held};
ghost use Rattle.trials.specs.Lines.{copies_lines};
ghost use Rattle.trials.specs.TextRuns.{ran};
ghost use Rattle.trials.specs.Views.{IsMovedBy, AreLinesOf, AreLinesOfRun, AreLinesFor, AreLinesOfRefused, text_run_by, text_run_held, text_run_seen};

use crate::comparing::found_in_run;
use crate::copies::push_copies;
use crate::moves::Moves;
use crate::original::Original;
use crate::summary_of;
use job_edits::{changed_text, finer_changes, shifts};
use job_reader::{Job, JobFault, JobKind, read_job};
use job_runner::{Forward, Gate, NoGate, Run, run_to_end};
use race_text::{ComparedRun, Found, Line};
use std::alloc::{AllocError, Global};
use std::thread::Threads;
use story_index::events_until;
use workers::answers_for;

// Returns all lines of a text, given its own run, which ended by the limit.
#[tactic(auto, using(crate::proofs::Gathered::for_job, crate::proofs::Gathered::for_refused))]
pub(crate) fn lines_for<R: Threads + Sync, G: Gate + Sync>(
    rt: &R,
    alloc: Global,
    original: &Original<'_>,
    own: &Run<'_>,
    gate: &G,
) -> Result<Vec<Line>, AllocError>
    requires input { length original.now.input.now ≤ MAX_INPUT }
    requires ticks { 0 < original.now.finer_ticks.factor }
    requires some_workers { 1 ≤ original.now.workers }
    ensures { IfOk result (λ lines. AreLinesOf original.now original.now.input.now (ran true (rows_of own.now)) (map line_held lines.items)) }
{
    let changes = finer_changes(alloc, original.clock, original.finer_ticks, original.sites)?;
    let text = changed_text(alloc, original.text, changes.as_slice())?;
    let first = ComparedRun {
        records: own.records(),
        in_time: true,
    };
    match read_job(alloc, text.as_slice()) {
        Ok(job) => {
            let lines = lines_of_job(rt, alloc, original, &first, &job, gate)?;
            Ok(lines)
        }
        Err(fault) => match fault.kind {
            JobKind::NoMemory => Err(AllocError),
            _ => lines_of_refused(rt, alloc, original, fault, gate),
        },
    }
}

// Returns all lines of a text whose text in finer ticks is refused.
fn lines_of_refused<R: Threads + Sync, G: Gate + Sync>(
    rt: &R,
    alloc: Global,
    original: &Original<'_>,
    fault: JobFault,
    gate: &G,
) -> Result<Vec<Line>, AllocError>
    requires input { length original.now.input.now ≤ MAX_INPUT }
    requires some_workers { 1 ≤ original.now.workers }
    ensures { IfOk result (λ lines. AreLinesOfRefused original.now original.now.input.now fault (map line_held lines.items)) }
{
    let moves = moves_for(rt, alloc, original, Err(fault), gate)?;
    after_first(alloc, Found::NotTried(fault), moves)
}

// Returns all lines of a text whose text in finer ticks spells this job.
fn lines_of_job<R: Threads + Sync, G: Gate + Sync>(
    rt: &R,
    alloc: Global,
    original: &Original<'_>,
    first: &ComparedRun<'_>,
    job: &Job,
    gate: &G,
) -> Result<Vec<Line>, AllocError>
    requires input { length original.now.input.now ≤ MAX_INPUT }
    requires ticks { 0 < original.now.finer_ticks.factor }
    requires some_workers { 1 ≤ original.now.workers }
    ensures { IfOk result (λ lines. AreLinesFor original.now original.now.input.now (text_run_seen first.now) job.now (map line_held lines.items)) }
{
    let run = run_to_end(rt, alloc, job, original.input, 1, &mut Forward, &NoGate)?;
    let mut lines = lines_of_run(rt, alloc, original, first, &run, gate)?;
    push_copies_of(rt, alloc, &mut lines, original, job)?;
    Ok(lines)
}

// Returns the line of the text in finer ticks, given its run, and those of all hairs.
fn lines_of_run<R: Threads + Sync, G: Gate + Sync>(
    rt: &R,
    alloc: Global,
    original: &Original<'_>,
    first: &ComparedRun<'_>,
    run: &Run<'_>,
    gate: &G,
) -> Result<Vec<Line>, AllocError>
    requires input { length original.now.input.now ≤ MAX_INPUT }
    requires some_workers { 1 ≤ original.now.workers }
    ensures { IfOk result (λ lines. AreLinesOfRun original.now original.now.input.now (text_run_seen first.now) (text_run_by original.now.limit run.now)
        (map line_held lines.items)) }
{
    let before = ComparedRun {
        records: run.records(),
        in_time: run.end() <= original.limit,
    };
    let found = found_in_run(alloc, *original.scope, first, run, original.limit)?;
    let moves = moves_for(rt, alloc, original, Ok(&before), gate)?;
    after_first(alloc, found, moves)
}

// Returns the lines of all hairs.
fn moves_for<R: Threads + Sync, G: Gate + Sync>(
    rt: &R,
    alloc: Global,
    original: &Original<'_>,
    before: Result<&ComparedRun<'_>, JobFault>,
    gate: &G,
) -> Result<Vec<Line>, AllocError>
    requires input { length original.now.input.now ≤ MAX_INPUT }
    requires some_workers { 1 ≤ original.now.workers }
    ensures { IfOk result (λ lines. AreAnswers (IsMovedBy original.now original.now.input.now (text_run_held before.entry)) (shifts_of original.now.sites.now)
        (map line_held lines.items)) }
{
    let shifts = shifts(alloc, original.sites)?;
    let moves = Moves {
        original: *original,
        before,
    };
    answers_for(rt, alloc, &moves, shifts.as_slice(), original.workers, gate)
}

// Returns the line of the text in finer ticks, followed by these lines.
fn after_first(alloc: Global, found: Found, moves: Vec<Line>) -> Result<Vec<Line>, AllocError>
    ensures { IfOk result (λ lines. map line_held lines.items ≡ race_lines.in_finer_ticks (found_held found) ∷ map line_held moves.items) }
{
    let mut lines = Vec::new(alloc);
    lines.push(Line::InFinerTicks(found))?;
    let mut moves = moves;
    lines.append(&mut moves)?;
    Ok(lines)
}

// Appends a line for each start of the text whose copies meet in the story of this job, which the text in finer ticks spells.
fn push_copies_of<R: Threads + Sync>(
    rt: &R,
    alloc: Global,
    lines: &mut Vec<Line>,
    original: &Original<'_>,
    job: &Job,
) -> Result<(), AllocError>
    requires input { length original.now.input.now ≤ MAX_INPUT }
    requires ticks { 0 < original.now.finer_ticks.factor }
    ensures { OnOk result (map line_held lines.new.items ≡ map line_held lines.old.items ++ copies_lines original.now.clock
        original.now.text.now original.now.limit original.now.finer_ticks (walked_events job.now original.now.input.now) original.now.starts.now) }
{
    if original.starts.is_empty() {
        return Ok(());
    }
    let summary = summary_of(rt, alloc, job, original.input)?;
    let walked = events_until(alloc, summary.clock, summary.events.as_slice(), None)?;
    push_copies(alloc, lines, original, walked.as_slice())
}
