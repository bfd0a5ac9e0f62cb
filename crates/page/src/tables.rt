ghost use Rattle.std.specs.Prelude.{◌≡◌, ◌≤◌, ◌++◌, ◌∷◌, [], false, true, codes, length, map, IfOk};
ghost use Rattle.job_meaning.specs.declared.limits.TheConstants.{MAX_INPUT};
ghost use Rattle.outcomes.specs.JobOutcomes.{job_outcome_text};
ghost use Rattle.outcomes.specs.Table.{table_text};
ghost use Rattle.outcomes.specs.Views.{job_outcome_held, line_held};
ghost use Rattle.trials.specs.Faults.{AreFaultLines};
ghost use Rattle.page.specs.Answers.{AreTables};

use commands::{Form, races};
use job_reader::Name;
use job_report::Question;
use job_runner::Gate;
use outcomes::{JobOutcome, push_job_outcome, table};
use std::alloc::{AllocError, Global};
use std::thread::Threads;
use trials::{FaultLines, fault_lines};

// How a job ends, and the tables of its faults and races.
#[derive(Drop)]
pub(crate) struct Tables {
    // How the job ends, in one sentence.
    pub outcome: Vec<u8>,
    // The faults that change how it ends.
    pub changing: Vec<u8>,
    // All faults.
    pub faults: Vec<u8>,
    // The races.
    pub races: Vec<u8>,
}

// Returns the tables of the job of this name.
pub(crate) fn tables_of<R: Threads + Sync, G: Gate + Sync>(
    rt: &R,
    alloc: Global,
    name: Name,
    question: &Question<'_>,
    gate: &G,
) -> Result<Tables, AllocError>
    requires { length question.now.input.now ≤ MAX_INPUT }
    ensures { IfOk result (λ t. AreTables question.now.text.now question.now.input.now question.now.settings.limit name t.outcome.items
        t.changing.items t.faults.items t.races.items) }
{
    let limit = question.settings.limit();
    let tried = tried_lines(rt, alloc, question, gate)?;
    let races = races(rt, alloc, question, false, Form::Text, gate)?;
    Ok(Tables {
        outcome: outcome_of(alloc, name, limit, &tried.first)?,
        changing: table_of(alloc, limit, true, &tried)?,
        faults: table_of(alloc, limit, false, &tried)?,
        races: races.bytes,
    })
}

// Tries the faults of a job text that was read, so that only memory can be missing.
fn tried_lines<R: Threads + Sync, G: Gate + Sync>(
    rt: &R,
    alloc: Global,
    question: &Question<'_>,
    gate: &G,
) -> Result<FaultLines, AllocError>
    requires { length question.now.input.now ≤ MAX_INPUT }
    ensures { IfOk result (λ tried. AreFaultLines question.now.text.now question.now.input.now question.now.settings.limit
        (codes "Fault" ∷ []) false (job_outcome_held tried.first) (map line_held tried.lines.items) tried.untried) }
{
    let Some(name) = Name::new(b"Fault") else {
        unreachable!()
    };
    match fault_lines(rt, alloc, question, &[name], false, gate) {
        Ok(tried) => Ok(tried),
        Err(_) => Err(AllocError),
    }
}

// Returns the table of faults: all of them, or those that change how the job ends.
fn table_of(
    alloc: Global,
    limit: u64,
    brief: bool,
    tried: &FaultLines,
) -> Result<Vec<u8>, AllocError>
    ensures { IfOk result (λ text. text.items ≡ table_text limit brief (job_outcome_held tried.now.first)
        (map line_held tried.now.lines.items) tried.now.untried) }
{
    table(
        alloc,
        limit,
        brief,
        &tried.first,
        tried.lines.as_slice(),
        tried.untried,
    )
}

// Returns how a job of this name ends, in one sentence.
fn outcome_of(
    alloc: Global,
    name: Name,
    limit: u64,
    first: &JobOutcome,
) -> Result<Vec<u8>, AllocError>
    ensures { IfOk result (λ text. text.items ≡ name ++ codes ": " ++ job_outcome_text limit true (job_outcome_held first.now)) }
{
    let mut out = Vec::new(alloc);
    out.extend_from_slice(name.bytes())?;
    out.extend_from_slice(b": ")?;
    push_job_outcome(&mut out, limit, true, first)?;
    Ok(out)
}
