ghost use Rattle.std.specs.Prelude.{◌≡◌, ◌≤◌, length, IfOk, IfErr, map};
ghost use Rattle.job_meaning.specs.declared.limits.TheConstants.{MAX_INPUT};
ghost use Rattle.job_reader.specs.Refusals.{Spells, IsFair};
ghost use Rattle.outcomes.specs.Views.{job_outcome_held, line_held};
ghost use Rattle.trials.specs.Faults.{has_items, found_each, tried_in, untried_in, AreFaultLines};

use crate::fault_work::Original;
use crate::job_outcome::outcome_of_job;
use crate::parts::token_roles;
use crate::trial::Trial;
use job_answers::Question;
use job_edits::{
    Plan, Variant, each_variants, has_divided, repeated_blocks, variants, waiting_steps,
};
use job_reader::{Job, JobFault, Name, read_job, spelled_tokens};
use job_runner::Gate;
use job_tokens::Token;
use outcomes::{JobOutcome, Line, Untried};
use std::alloc::{AllocError, Global};
use std::thread::Threads;
use workers::answers_for;

/// The maximum number of lines for faults in single copies and passes.
pub const MAX_EACH: usize = 1_000;

/// The outcome of a job without a fault, and with each fault that is tried.
#[derive(Drop)]
pub struct FaultLines {
    /// The outcome of the job without a fault.
    pub first: JobOutcome,
    /// The outcome of the job with each fault, in the order of the places of the steps, and then those of faults in single copies
    /// and passes.
    pub lines: Vec<Line>,
    /// Which faults in single copies and passes are not tried.
    pub untried: Untried,
}

/// Returns the outcome of the job that the text of a question spells over its input: without a fault, and with each fault of
/// each of its waiting steps, each kind once. A step fails once with each of the exceptions with these names. With `each` there
/// is also a line for each of these faults in each copy of a `start .. over` and each pass of a `repeat` that the step is in,
/// up to `MAX_EACH`; but not in copies that depend on their parts of the input (`RepeatedBlock::is_divided`), unless the input
/// is empty. If the text is refused, the error is the refusal, as `read_job` returns it. If memory runs out, the error has the
/// kind `NoMemory`. The caller must ensure that the input has at most 16,777,216 bytes.
///
/// The number of workers in the settings is the number of threads that run the faults. The gate is called before and after each
/// fault, with the place of the fault among the lines, by the thread that runs it. Neither changes a line.
pub fn fault_lines<R: Threads + Sync, G: Gate + Sync>(
    rt: &R,
    alloc: Global,
    question: &Question<'_>,
    names: &[Name],
    each: bool,
    gate: &G,
) -> Result<FaultLines, JobFault>
    requires { length question.now.input.now ≤ MAX_INPUT }
    ensures lines { IfOk result (λ found. AreFaultLines question.now.text.now question.now.input.now question.now.settings.limit names.now each
        (job_outcome_held found.first) (map line_held found.lines.items) found.untried) }
    ensures refused { IfErr result (IsFair question.now.text.now) }
{
    let job = read_job(alloc, question.text)?;
    let found = lines_of_job(rt, alloc, &job, question, names, each, gate)?;
    Ok(found)
}

// Returns the same for a text that spells a job.
fn lines_of_job<R: Threads + Sync, G: Gate + Sync>(
    rt: &R,
    alloc: Global,
    job: &Job,
    question: &Question<'_>,
    names: &[Name],
    each: bool,
    gate: &G,
) -> Result<FaultLines, AllocError>
    requires input { length question.now.input.now ≤ MAX_INPUT }
    requires spells { Spells question.now.text.now job.now }
    ensures { IfOk result (λ found. AreFaultLines question.now.text.now question.now.input.now question.now.settings.limit names.now each
        (job_outcome_held found.first) (map line_held found.lines.items) found.untried) }
{
    let (text, input, settings) = (question.text, question.input, question.settings);
    let tokens = spelled_tokens(alloc, text, job)?;
    let read = tokens.as_slice();
    let roles = token_roles(alloc, job.text_format(), text, read)?;
    let blocks = repeated_blocks(alloc, read)?;
    let steps = waiting_steps(alloc, read)?;
    let plan = Plan::of(alloc, read)?;
    let has_input = has_items(input);
    let (variants, untried) = tried_variants(alloc, each, has_input, names, read)?;
    let (limit, workers) = (settings.limit(), settings.workers());
    let first = outcome_of_job(rt, alloc, job, input, limit, None)?;
    let original = Original {
        trial: Trial {
            text,
            input,
            limit,
            plan,
            before: &first,
        },
        is_named: names.len() > 1,
        tokens: read,
        roles: roles.as_slice(),
        blocks: blocks.as_slice(),
        steps: steps.as_slice(),
    };
    let lines = answers_for(rt, alloc, &original, variants.as_slice(), workers, gate)?;
    Ok(FaultLines {
        first,
        lines,
        untried,
    })
}

// Returns whether the input has any byte.
fn has_items(input: &[u8]) -> bool
    ensures { result ≡ has_items input.now }
{
    !input.is_empty()
}

// Returns the faults that are tried, and which faults in single copies and passes are not. `has_input` says whether the input has
// any byte.
fn tried_variants(
    alloc: Global,
    each: bool,
    has_input: bool,
    names: &[Name],
    tokens: &[Token],
) -> Result<(Vec<Variant>, Untried), AllocError>
    ensures { IfOk result (λ r. (r.0.items ≡ tried_in each has_input names.now tokens.now) × (r.1 ≡ untried_in each has_input names.now tokens.now)) }
{
    let mut found = found_each(alloc, each, has_input, names, tokens)?;
    let mut variants = variants(alloc, names, tokens)?;
    let more = found.len() > MAX_EACH;
    found.truncate(MAX_EACH);
    variants.append(&mut found)?;
    let blocks = repeated_blocks(alloc, tokens)?;
    let divided = each && has_divided(has_input, blocks.as_slice());
    Ok((variants, Untried { more, divided }))
}

// Returns the first faults in single copies and passes, one more than there are lines for, if they are asked for.
fn found_each(
    alloc: Global,
    each: bool,
    has_input: bool,
    names: &[Name],
    tokens: &[Token],
) -> Result<Vec<Variant>, AllocError>
    ensures { IfOk result (λ found. found.items ≡ found_each each has_input names.now tokens.now) }
{
    if each {
        each_variants(alloc, has_input, names, tokens, MAX_EACH + 1)
    } else {
        Ok(Vec::new(alloc))
    }
}
