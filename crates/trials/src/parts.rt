ghost use Rattle.std.specs.Prelude.{◌≡◌, ◌≤◌, ◌⊎◌, Some, length, slice_get, slice_index_or, IfOk};
ghost use Rattle.job_meaning.specs.declared.limits.TheConstants.{MAX_INPUT};
ghost use Rattle.job_reader.specs.Refusals.{Spells};
ghost use Rattle.outcomes.specs.Views.{job_outcome_held};
ghost use Rattle.trials.specs.JobOutcomes.{token_roles, text_if, number_if, IsTriedJob, IsNotTried};

use crate::fault_work::Original;
use crate::job_outcome::outcome_of_job;
use crate::trial::{Trial, Tried, copy_of, try_fault};
use job_edits::{BlockPart, Plan, Variant, Waiting, waiting_steps, written_at, written_out};
use job_reader::{Format, Job, JobKind, read_job, spelled_tokens};
use job_syntax::{Role, check_grammar};
use job_tokens::Token;
use outcomes::JobOutcome;
use std::alloc::{AllocError, Global};
use std::thread::Threads;

// The text in which a copy or pass is written out.
#[derive(Clone, Copy)]
struct PartText<'a> {
    // Its bytes.
    text: &'a [u8],
    // Which of its waiting steps has the fault.
    number: usize,
}

// Returns the roles of the tokens of a text, or none if they are not in the grammar.
pub(crate) fn token_roles(
    alloc: Global,
    format: Format,
    text: &[u8],
    tokens: &[Token],
) -> Result<Vec<Role>, AllocError>
    ensures { IfOk result (λ roles. roles.items ≡ token_roles format text.now tokens.now) }
{
    let check = check_grammar(alloc, format, tokens, text.len())?;
    match check.fault {
        None => Ok(check.roles),
        Some(_) => Ok(Vec::new(alloc)),
    }
}

// Returns what becomes of the job with a fault in one copy or pass.
pub(crate) fn try_in_part<R: Threads + Sync>(
    rt: &R,
    alloc: Global,
    original: &Original<'_>,
    part: &BlockPart,
    variant: &Variant,
) -> Result<Tried, AllocError>
    requires { length original.now.trial.input.now ≤ MAX_INPUT }
    ensures { IfOk result (λ t.
        IsTriedJob (text_if (slice_get original.now.blocks.now part.now.block) original.now.trial.text.now original.now.tokens.now original.now.roles.now part.now.index)
        original.now.trial.input.now original.now.trial.limit
        (number_if (slice_get original.now.blocks.now part.now.block) part.now.index variant.now.step.from original.now.steps.now) variant.now.step variant.now.fault
        (job_outcome_held t.job_outcome) t.reached t.differs t.cuts
        ⊎ IsNotTried (text_if (slice_get original.now.blocks.now part.now.block) original.now.trial.text.now original.now.tokens.now original.now.roles.now part.now.index)
        (job_outcome_held t.job_outcome) t.reached t.differs t.cuts) }
{
    let text = text_apart(alloc, original, part)?;
    let apart = PartText {
        text: text.as_slice(),
        number: number_apart(original, part, variant.step.from),
    };
    match read_job(alloc, apart.text) {
        Ok(job) => {
            let tried = try_in_job(rt, alloc, original, &apart, &job, variant)?;
            Ok(tried)
        }
        Err(fault) => match fault.kind {
            JobKind::NoMemory => Err(AllocError),
            _ => Ok(Tried {
                job_outcome: JobOutcome::Refused(fault),
                reached: true,
                differs: true,
                cuts: false,
            }),
        },
    }
}

// Returns what becomes of the job that the text with a copy or pass written out spells, with a fault of its step.
fn try_in_job<R: Threads + Sync>(
    rt: &R,
    alloc: Global,
    original: &Original<'_>,
    apart: &PartText<'_>,
    job: &Job,
    variant: &Variant,
) -> Result<Tried, AllocError>
    requires room { length original.now.trial.input.now ≤ MAX_INPUT }
    requires spells { Spells apart.now.text.now job.now }
    ensures { IfOk result (λ t. IsTriedJob apart.now.text.now original.now.trial.input.now original.now.trial.limit apart.now.number
        variant.now.step variant.now.fault (job_outcome_held t.job_outcome) t.reached t.differs t.cuts) }
{
    let (input, limit) = (original.trial.input, original.trial.limit);
    let tokens = spelled_tokens(alloc, apart.text, job)?;
    let steps = waiting_steps(alloc, tokens.as_slice())?;
    let step = step_at(steps.as_slice(), apart.number, &variant.step);
    let plan = Plan::of(alloc, tokens.as_slice())?;
    let before = outcome_of_job(rt, alloc, job, input, limit, None)?;
    let trial = Trial {
        text: apart.text,
        input,
        limit,
        plan,
        before: &before,
    };
    try_fault(rt, alloc, &trial, &step, &variant.fault)
}

// Returns the step with a number, or another step if there is none.
fn step_at(steps: &[Waiting], number: usize, other: &Waiting) -> Waiting
    ensures { result ≡ slice_index_or steps.now number other.now }
{
    match steps.get(number) {
        Some(step) => copy_of(step),
        None => copy_of(other),
    }
}

// Returns the text in which a copy or pass is written out.
fn text_apart(
    alloc: Global,
    original: &Original<'_>,
    part: &BlockPart,
) -> Result<Vec<u8>, AllocError>
    ensures { IfOk result (λ text. text.items
        ≡ text_if (slice_get original.now.blocks.now part.now.block) original.now.trial.text.now original.now.tokens.now original.now.roles.now part.now.index) }
{
    let text = original.trial.text;
    match original.blocks.get(part.block) {
        Some(block) => written_out(
            alloc,
            text,
            original.tokens,
            original.roles,
            block,
            part.index,
        ),
        None => {
            let mut same = Vec::new(alloc);
            same.extend_from_slice(text)?;
            Ok(same)
        }
    }
}

// Returns the number, in the text in which a copy or pass is written out, of the step that begins at a place of the original
// text.
fn number_apart(original: &Original<'_>, part: &BlockPart, from: usize) -> usize
    ensures { result ≡ number_if (slice_get original.now.blocks.now part.now.block) part.now.index from original.now.steps.now }
{
    match original.blocks.get(part.block) {
        Some(block) => written_at(block, part.index, from, original.steps),
        None => 0,
    }
}
