ghost use Rattle.std.specs.Prelude.{◌≡◌, ◌++◌, ◌∷◌, [], Some, None, true, false, IfOk, OnOk, MatchOption};
ghost use Rattle.job_tree.specs.Blocks.{step_of, steps_of};
ghost use Rattle.job_tokens.specs.declared.token.Mark.TheVariants as mark;
ghost use Rattle.job_syntax.specs.Pieces.{block_or_end};
ghost use Rattle.job_layout.specs.Heads.{head_of, is_plain};
ghost use Rattle.job_layout.specs.declared.spaced.Gap.TheVariants as gaps;
ghost use Rattle.job_layout.specs.Spaced.{spaced_tokens, after_gap, mark_after};
ghost use Rattle.job_layout.specs.Layout.{one_line};

use crate::spaced::{Gap, SpacedToken};
use job_reader::{Ask, Step, push_head};
use job_tokens::{Mark, Shape};
use std::alloc::{AllocError, Global};

// Returns the tokens of a block on one line, if it may be on one line.
pub(crate) fn one_line(
    alloc: Global,
    steps: &[Step],
) -> Result<Option<Vec<SpacedToken>>, AllocError>
    ensures { IfOk result (λ line. MatchOption line (one_line (steps_of steps.now) ≡ None)
        (λ found. one_line (steps_of steps.now) ≡ Some found.items)) }
{
    let Some((first, others)) = steps.split_first() else {
        let line = empty_block(alloc)?;
        return Ok(Some(line));
    };
    if let Some((_second, _more)) = others.split_first() {
        return Ok(None);
    }
    if !is_plain(first) {
        return Ok(None);
    }
    let line = block_of(alloc, first)?;
    Ok(Some(line))
}

// Returns whether the step has no block.
fn is_plain(step: &Step) -> bool
    ensures { result ≡ is_plain (step_of step.now) }
{
    match step {
        Step::Scope { .. } => false,
        Step::Nursery { .. } => false,
        Step::Event { .. } => false,
        Step::Object { .. } => false,
        Step::Ask { ask, .. } => is_end(*ask),
        Step::Start { .. } => false,
        Step::Repeat { .. } => false,
        Step::Try { .. } => false,
        _ => true,
    }
}

// Returns whether a step that asks for this ends after the name: whether it has no block.
fn is_end(ask: Ask) -> bool
    ensures { result ≡ block_or_end ask false true }
{
    match ask {
        Ask::Acquire => false,
        Ask::Send => true,
        Ask::Receive => false,
    }
}

fn empty_block(alloc: Global) -> Result<Vec<SpacedToken>, AllocError>
    ensures { IfOk result (λ line. line.items ≡ mark_after gaps.Space mark.Open ∷ mark_after gaps.Joined mark.Close ∷ []) }
{
    let mut line = Vec::new(alloc);
    push_mark(&mut line, Gap::Space, Mark::Open)?;
    push_mark(&mut line, Gap::Joined, Mark::Close)?;
    Ok(line)
}

// Returns a block of one step that has no block of its own.
fn block_of(alloc: Global, step: &Step) -> Result<Vec<SpacedToken>, AllocError>
    ensures { IfOk result (λ line. line.items ≡ mark_after gaps.Space mark.Open
        ∷ (spaced_tokens (head_of (step_of step.now)) ++ mark_after gaps.Joined mark.Semicolon ∷ mark_after gaps.Space mark.Close ∷ [])) }
{
    let head = head_of(alloc, step)?;
    let mut line = Vec::new(alloc);
    push_mark(&mut line, Gap::Space, Mark::Open)?;
    push_spaced(&mut line, head.as_slice())?;
    push_mark(&mut line, Gap::Joined, Mark::Semicolon)?;
    push_mark(&mut line, Gap::Space, Mark::Close)?;
    Ok(line)
}

fn push_mark(line: &mut Vec<SpacedToken>, gap: Gap, mark: Mark) -> Result<(), AllocError>
    ensures { OnOk result (line.new.items ≡ line.old.items ++ mark_after gap mark ∷ []) }
{
    line.push(SpacedToken {
        gap,
        shape: Shape::Mark(mark),
    })?;
    Ok(())
}

// Returns the tokens of a step before its semicolon or its first block.
pub(crate) fn head_of(alloc: Global, step: &Step) -> Result<Vec<Shape>, AllocError>
    ensures { IfOk result (λ shapes. shapes.items ≡ head_of (step_of step.now)) }
{
    let mut shapes = Vec::new(alloc);
    push_head(&mut shapes, step)?;
    Ok(shapes)
}

// Appends the tokens, with a space before each.
pub(crate) fn push_spaced(line: &mut Vec<SpacedToken>, shapes: &[Shape]) -> Result<(), AllocError>
    ensures { OnOk result (line.new.items ≡ line.old.items ++ spaced_tokens shapes.now) }
{
    'shapes: for shape in shapes {
        line.push(SpacedToken {
            gap: Gap::Space,
            shape: *shape,
        })?;
    }
    Ok(())
}

// Returns the tokens, with the given gap before the first and a space before each other token.
pub(crate) fn after_gap(
    alloc: Global,
    gap: Gap,
    shapes: &[Shape],
) -> Result<Vec<SpacedToken>, AllocError>
    ensures { IfOk result (λ line. line.items ≡ after_gap gap shapes.now) }
{
    let mut line = Vec::new(alloc);
    let Some((first, others)) = shapes.split_first() else {
        return Ok(line);
    };
    line.push(SpacedToken { gap, shape: *first })?;
    push_spaced(&mut line, others)?;
    Ok(line)
}
