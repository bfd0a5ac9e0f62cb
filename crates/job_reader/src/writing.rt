ghost use Rattle.std.specs.Prelude.{◌≡◌, ◌∷◌, IfOk, OnOk};
ghost use Rattle.job_tree.specs.Blocks.{step_of, steps_of, handled_of, cleaned_of};
ghost use Rattle.job_syntax.specs.Pieces.{opens, ends, block_or_end, shapes_in, step_pieces, steps_pieces, handler_pieces, cleanup_pieces, job_pieces};
ghost use Rattle.job_reader.specs.Refusals.{Spells};
ghost use Rattle.job_reader.specs.Canon.{canon};
ghost use Rattle.job_reader.specs.Jobs.{IsReadable};
ghost use Rattle.job_reader.specs.Heads.{tail_onto};
ghost use Rattle.job_reader.specs.Printing.{Appends};

use crate::heads::{push_head, push_keyword, push_named};
use crate::job::Job;
use crate::reading::first_line;
use job_syntax::Keyword;
use job_tokens::{Mark, Shape, push_canon};
use job_tree::{Ask, Body, Handler, Step};
use std::alloc::{AllocError, Global};

/// Returns the canonical text of a job. It spells the job, so `read_job` returns the same job for it, and no text
/// that spells the job is shorter. The only error is that memory runs out.
pub fn write_job(alloc: Global, job: &Job) -> Result<Vec<u8>, AllocError>
    ensures canonical { IfOk result (λ text. text.items ≡ canon job.now) }
    ensures again { IfOk result (λ text. Spells text.items job.now) }
{
    let shapes = shapes_of_job(alloc, job)?;
    let mut text = Vec::from_slice(alloc, first_line(job.text_format()))?;
    push_canon(&mut text, &shapes)?;
    Ok(text)
}

// Returns the tokens of a job, which its canonical text spells.
fn shapes_of_job(alloc: Global, job: &Job) -> Result<Vec<Shape>, AllocError>
    ensures shapes { IfOk result (λ shapes. shapes.items ≡ shapes_in (job_pieces job.now)) }
    ensures spelled { OnOk result (IsReadable job.now) }
{
    let mut shapes = Vec::new(alloc);
    push_named(&mut shapes, Keyword::Job, job.name())?;
    shapes.push(Shape::Mark(Mark::Open))?;
    push_steps(&mut shapes, job.steps())?;
    Ok(shapes)
}

// Appends the steps of a block and the mark that ends it.
#[cycle(writing)]
fn push_steps(shapes: &mut Vec<Shape>, steps: &[Step]) -> Result<(), AllocError>
    ensures { OnOk result (Appends (steps_pieces (steps_of steps.now)) shapes.old.items shapes.new.items) }
{
    'steps: for step in steps {
        push_step(shapes, step)?;
    }
    shapes.push(Shape::Mark(Mark::Close))?;
    Ok(())
}

// Appends a block with the mark that begins it.
#[cycle(writing)]
fn push_body(shapes: &mut Vec<Shape>, body: &Body) -> Result<(), AllocError>
    ensures { OnOk result (Appends (λ rest. opens ∷ steps_pieces body.now rest) shapes.old.items shapes.new.items) }
{
    shapes.push(Shape::Mark(Mark::Open))?;
    push_steps(shapes, body.as_slice())?;
    Ok(())
}

// Appends a step: its head, and what follows the head.
#[cycle(writing)]
fn push_step(shapes: &mut Vec<Shape>, step: &Step) -> Result<(), AllocError>
    ensures { OnOk result (Appends (step_pieces (step_of step.now)) shapes.old.items shapes.new.items) }
{
    push_head(shapes, step)?;
    push_tail(shapes, step)?;
    Ok(())
}

// Appends what follows the head of a step: its semicolon, or its blocks.
#[cycle(writing)]
fn push_tail(shapes: &mut Vec<Shape>, step: &Step) -> Result<(), AllocError>
    ensures { OnOk result (Appends (tail_onto (step_of step.now)) shapes.old.items shapes.new.items) }
{
    match step {
        Step::Scope { body, .. } => push_body(shapes, body),
        Step::Nursery { body, .. } => push_body(shapes, body),
        Step::Event { body, .. } => push_body(shapes, body),
        Step::Object { body, .. } => push_body(shapes, body),
        Step::Ask { ask, body, .. } => push_grant(shapes, *ask, body),
        Step::Start { body, .. } => push_body(shapes, body),
        Step::Repeat { body, .. } => push_body(shapes, body),
        Step::Try {
            body,
            handler,
            cleanup,
        } => {
            push_body(shapes, body)?;
            push_handler(shapes, handler)?;
            push_cleanup(shapes, cleanup)?;
            Ok(())
        }
        _ => {
            shapes.push(Shape::Mark(Mark::Semicolon))?;
            Ok(())
        }
    }
}

// Appends what follows the head of a step that asks for something: its block, or the semicolon of a `send`.
#[cycle(writing)]
fn push_grant(shapes: &mut Vec<Shape>, ask: Ask, body: &Body) -> Result<(), AllocError>
    ensures { OnOk result (Appends (λ rest. block_or_end ask (opens ∷ steps_pieces body.now rest) (ends ∷ rest))
        shapes.old.items shapes.new.items) }
{
    match ask {
        Ask::Acquire => push_body(shapes, body),
        Ask::Receive => push_body(shapes, body),
        Ask::Send => {
            shapes.push(Shape::Mark(Mark::Semicolon))?;
            Ok(())
        }
    }
}

#[cycle(writing)]
fn push_handler(shapes: &mut Vec<Shape>, handler: &Option<Handler>) -> Result<(), AllocError>
    ensures { OnOk result (Appends (handler_pieces (handled_of handler.now)) shapes.old.items shapes.new.items) }
{
    let Some(handler) = handler else {
        return Ok(());
    };
    push_named(shapes, Keyword::Except, handler.name)?;
    push_body(shapes, &handler.body)?;
    Ok(())
}

#[cycle(writing)]
fn push_cleanup(shapes: &mut Vec<Shape>, cleanup: &Option<Body>) -> Result<(), AllocError>
    ensures { OnOk result (Appends (cleanup_pieces (cleaned_of cleanup.now)) shapes.old.items shapes.new.items) }
{
    let Some(cleanup) = cleanup else {
        return Ok(());
    };
    push_keyword(shapes, Keyword::Finally)?;
    push_body(shapes, cleanup)?;
    Ok(())
}
