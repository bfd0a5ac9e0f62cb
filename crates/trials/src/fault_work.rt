ghost use Rattle.std.specs.Prelude.{◌≡◌, IfOk};
ghost use Rattle.trials.specs.Held.{HasRoom, IsTrialWhere, IsLineOf};

use crate::parts::try_in_part;
use crate::trial::{Trial, Tried, copy_of, try_fault};
use basics::{column_of, line_of};
use job_edits::{BlockPart, RepeatedBlock, Variant, Waiting};
use job_syntax::Role;
use job_tokens::Token;
use outcomes::Line;
use std::alloc::{AllocError, Global};
use std::thread::Threads;
use workers::Work;

/// What all lines have in common.
#[derive(Clone, Copy)]
pub(crate) struct Original<'a> {
    /// The original job text.
    pub trial: Trial<'a>,
    /// Whether the names of exceptions are printed.
    pub is_named: bool,
    /// The tokens of the original text.
    pub tokens: &'a [Token],
    /// Their roles.
    pub roles: &'a [Role],
    /// The blocks of the original text that run several times.
    pub blocks: &'a [RepeatedBlock],
    /// The waiting steps of the original text.
    pub steps: &'a [Waiting],
}

impl Work for Original<'_> {
    type Item = Variant;

    type Answer = Line;

    ghost use Rattle.trials.specs.Held.{HasRoom, IsLineOf};

    ghost may = { HasRoom };

    ghost answers = { IsLineOf };

    fn answer<R: Threads + Sync>(
        &self,
        rt: &R,
        alloc: Global,
        variant: &Variant,
    ) -> Result<Line, AllocError> {
        line_with(rt, alloc, self, variant)
    }
}

// Returns a copy of the variant.
fn twin(variant: &Variant) -> Variant
    ensures { result ≡ variant.now }
{
    let fault = variant.fault;
    let part = part_of(variant);
    Variant {
        step: copy_of(&variant.step),
        fault,
        part,
    }
}

// Returns the copy or pass in which alone a fault is.
fn part_of(variant: &Variant) -> Option<BlockPart>
    ensures { result ≡ variant.now.part }
{
    match &variant.part {
        Some(part) => Some(BlockPart {
            block: part.block,
            name: part.name,
            index: part.index,
            count: part.count,
        }),
        None => None,
    }
}

// Returns what becomes of the job with a fault.
fn tried_with<R: Threads + Sync>(
    rt: &R,
    alloc: Global,
    original: &Original<'_>,
    variant: &Variant,
) -> Result<Tried, AllocError>
    requires { HasRoom original.now }
    ensures { IfOk result (IsTrialWhere original.now variant.now) }
{
    match &variant.part {
        Some(part) => try_in_part(rt, alloc, original, part, variant),
        None => try_fault(rt, alloc, &original.trial, &variant.step, &variant.fault),
    }
}

// Returns the line of a fault: its place, and what becomes of the job.
fn line_with<R: Threads + Sync>(
    rt: &R,
    alloc: Global,
    original: &Original<'_>,
    variant: &Variant,
) -> Result<Line, AllocError>
    requires { HasRoom original.now }
    ensures { IfOk result (IsLineOf original.now variant.now) }
{
    let from = variant.step.from;
    let line = line_of(original.trial.text, from);
    let column = column_of(original.trial.text, from);
    let tried = tried_with(rt, alloc, original, variant)?;
    let Tried {
        job_outcome,
        reached,
        differs,
        cuts,
    } = tried;
    Ok(Line {
        line,
        column,
        variant: twin(variant),
        job_outcome,
        reached,
        is_named: original.is_named,
        differs,
        cuts,
    })
}
