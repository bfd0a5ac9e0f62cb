ghost use Rattle.std.specs.Prelude.{◌≡◌, ◌++◌, ◌∷◌, ◌+◌, ◌-◌, [], Some, None, OnOk, IfOk, MatchOption};
ghost use Rattle.job_tree.specs.Blocks.{step_of, steps_of, handled_of, cleaned_of};
ghost use Rattle.job_syntax.specs.Pieces.{block_or_end};
ghost use Rattle.job_syntax.specs.Depth.{IfBlock, AreWithin, IsWithin, IsHandlerWithin, IsCleanupWithin};
ghost use Rattle.job_reader.specs.Jobs.{IsReadable};
ghost use Rattle.job_layout.specs.Spaced.{after_gap};
ghost use Rattle.job_layout.specs.Layout.{one_line, fitting_line, with_steps, with_step, with_rest, semicolon_mark, with_block, with_handler, with_cleanup, job_tokens};
ghost use Rattle.job_layout.specs.Columns.{IsNested};

use crate::layout::Layout;
use crate::lines::{after_gap, head_of, one_line};
use crate::spaced::{Gap, SpacedToken};
use job_reader::{Ask, Body, Handler, Job, Step, push_keyword, push_named};
use job_syntax::Keyword;
use job_tokens::{Mark, Shape};
use std::alloc::{AllocError, Global};

// Returns the tokens of a job, without its first line. `bare` says for each token whether there is no comment before it.
pub(crate) fn tokens_of(
    alloc: Global,
    bare: &[bool],
    job: &Job,
) -> Result<Vec<SpacedToken>, AllocError>
    ensures tokens { IfOk result (λ tokens. tokens.items ≡ job_tokens bare.now job.now) }
    ensures spelled { OnOk result (IsReadable job.now) }
{
    let mut head = Vec::new(alloc);
    push_named(&mut head, Keyword::Job, job.name())?;
    let mut layout = Layout::new(alloc);
    push_words(&mut layout, alloc, Gap::Joined, head.as_slice())?;
    push_block(&mut layout, alloc, bare, 0, job.steps())?;
    Ok(layout.into_tokens())
}

// Appends words, with the given gap before the first and a space before each other word.
fn push_words(
    layout: &mut Layout,
    alloc: Global,
    gap: Gap,
    words: &[Shape],
) -> Result<(), AllocError>
    ensures { OnOk result (layout.new ≡ layout.old ++ after_gap gap words.now) }
{
    let tokens = after_gap(alloc, gap, words)?;
    layout.extend(alloc, tokens.as_slice())?;
    Ok(())
}

// Appends the steps of a block at a level, each on a line of its own.
#[cycle(blocks)]
fn push_steps(
    layout: &mut Layout,
    alloc: Global,
    bare: &[bool],
    level: u64,
    steps: &[Step],
) -> Result<(), AllocError>
    requires { AreWithin (32 - level) (steps_of steps.now) }
    ensures { OnOk result (layout.new ≡ with_steps bare.now level (steps_of steps.now) layout.old) }
{
    let mut rest = steps;
    'steps: while let Some((first, others)) = rest.split_first() {
        push_step(layout, alloc, bare, level, first)?;
        rest = others;
    }
    Ok(())
}

#[cycle(blocks)]
fn push_step(
    layout: &mut Layout,
    alloc: Global,
    bare: &[bool],
    level: u64,
    step: &Step,
) -> Result<(), AllocError>
    requires { IsWithin (32 - level) (step_of step.now) }
    ensures { OnOk result (layout.new ≡ with_step bare.now level (step_of step.now) layout.old) }
{
    let head = head_of(alloc, step)?;
    push_words(layout, alloc, Gap::Line(level), head.as_slice())?;
    push_rest(layout, alloc, bare, level, step)?;
    Ok(())
}

// Appends what follows the head of a step: its semicolon, or its blocks.
#[cycle(blocks)]
fn push_rest(
    layout: &mut Layout,
    alloc: Global,
    bare: &[bool],
    level: u64,
    step: &Step,
) -> Result<(), AllocError>
    requires { IsWithin (32 - level) (step_of step.now) }
    ensures { OnOk result (layout.new ≡ with_rest bare.now level (step_of step.now) layout.old) }
{
    match step {
        Step::Scope { body, .. } => push_block(layout, alloc, bare, level, body.as_slice()),
        Step::Nursery { body, .. } => push_block(layout, alloc, bare, level, body.as_slice()),
        Step::Event { body, .. } => push_block(layout, alloc, bare, level, body.as_slice()),
        Step::Object { body, .. } => push_block(layout, alloc, bare, level, body.as_slice()),
        Step::Ask { ask, body, .. } => push_grant(layout, alloc, bare, level, *ask, body),
        Step::Start { body, .. } => push_block(layout, alloc, bare, level, body.as_slice()),
        Step::Repeat { body, .. } => push_block(layout, alloc, bare, level, body.as_slice()),
        Step::Try {
            body,
            handler,
            cleanup,
        } => {
            push_block(layout, alloc, bare, level, body.as_slice())?;
            push_handler(layout, alloc, bare, level, handler)?;
            push_cleanup(layout, alloc, bare, level, cleanup)?;
            Ok(())
        }
        _ => layout.push(alloc, Gap::Joined, Shape::Mark(Mark::Semicolon)),
    }
}

// Appends what follows the head of a step that asks for something: its block, or the semicolon of a `send`.
#[cycle(blocks)]
fn push_grant(
    layout: &mut Layout,
    alloc: Global,
    bare: &[bool],
    level: u64,
    ask: Ask,
    body: &Body,
) -> Result<(), AllocError>
    requires { IfBlock ask (IsNested level body.now) }
    ensures { OnOk result (layout.new ≡ block_or_end ask
        (with_block bare.now level body.now (with_steps bare.now (level + 1) body.now) layout.old)
        (layout.old ++ semicolon_mark ∷ [])) }
{
    match ask {
        Ask::Acquire => push_block(layout, alloc, bare, level, body.as_slice()),
        Ask::Receive => push_block(layout, alloc, bare, level, body.as_slice()),
        Ask::Send => layout.push(alloc, Gap::Joined, Shape::Mark(Mark::Semicolon)),
    }
}

#[cycle(blocks)]
fn push_handler(
    layout: &mut Layout,
    alloc: Global,
    bare: &[bool],
    level: u64,
    handler: &Option<Handler>,
) -> Result<(), AllocError>
    requires { IsHandlerWithin (32 - level) (handled_of handler.now) }
    ensures { OnOk result (layout.new ≡ with_handler bare.now level (handled_of handler.now) layout.old) }
{
    let Some(handler) = handler else {
        return Ok(());
    };
    let mut head = Vec::new(alloc);
    push_named(&mut head, Keyword::Except, handler.name)?;
    push_words(layout, alloc, Gap::Space, head.as_slice())?;
    push_block(layout, alloc, bare, level, handler.body.as_slice())?;
    Ok(())
}

#[cycle(blocks)]
fn push_cleanup(
    layout: &mut Layout,
    alloc: Global,
    bare: &[bool],
    level: u64,
    cleanup: &Option<Body>,
) -> Result<(), AllocError>
    requires { IsCleanupWithin (32 - level) (cleaned_of cleanup.now) }
    ensures { OnOk result (layout.new ≡ with_cleanup bare.now level (cleaned_of cleanup.now) layout.old) }
{
    let Some(cleanup) = cleanup else {
        return Ok(());
    };
    let mut head = Vec::new(alloc);
    push_keyword(&mut head, Keyword::Finally)?;
    push_words(layout, alloc, Gap::Space, head.as_slice())?;
    push_block(layout, alloc, bare, level, cleanup.as_slice())?;
    Ok(())
}

// Appends a block of a step at a level: on the current line if it fits there, or on lines of its own.
#[cycle(blocks)]
fn push_block(
    layout: &mut Layout,
    alloc: Global,
    bare: &[bool],
    level: u64,
    steps: &[Step],
) -> Result<(), AllocError>
    requires { IsNested level (steps_of steps.now) }
    ensures { OnOk result (layout.new
        ≡ with_block bare.now level (steps_of steps.now) (with_steps bare.now (level + 1) (steps_of steps.now)) layout.old) }
{
    match fitting_line(layout, alloc, bare, steps)? {
        Some(line) => {
            layout.extend(alloc, line.as_slice())?;
            Ok(())
        }
        None => {
            layout.push(alloc, Gap::Space, Shape::Mark(Mark::Open))?;
            push_steps(layout, alloc, bare, level + 1, steps)?;
            layout.push(alloc, Gap::Line(level), Shape::Mark(Mark::Close))?;
            Ok(())
        }
    }
}

// Returns the block on one line, if it may be on one line, fits on the current one and has no comment in it.
fn fitting_line(
    layout: &Layout,
    alloc: Global,
    bare: &[bool],
    steps: &[Step],
) -> Result<Option<Vec<SpacedToken>>, AllocError>
    ensures { IfOk result (λ line. MatchOption line (fitting_line bare.now layout.now (one_line (steps_of steps.now)) ≡ None)
        (λ found. fitting_line bare.now layout.now (one_line (steps_of steps.now)) ≡ Some found.items)) }
{
    let Some(line) = one_line(alloc, steps)? else {
        return Ok(None);
    };
    if !layout.fits(alloc, line.as_slice())? {
        return Ok(None);
    }
    if !layout.is_bare(bare, line.as_slice()) {
        return Ok(None);
    }
    Ok(Some(line))
}
