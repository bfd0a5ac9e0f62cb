ghost use Rattle.std.specs.Prelude.{◌≡◌, ◌++◌, IfOk, OnOk, map};
ghost use Rattle.race_text.specs.Table.{at_text, place_text, over_text, step_text, hair_name, hair_text};
ghost use Rattle.race_text.specs.LineViews.{line_held};

use crate::line::Line;
use basics::push_number;
use job_edits::{Hair, push_moment};
use std::alloc::{AllocError, Global};

// The widths of the columns: places, steps and hairs.
#[derive(Clone, Copy)]
pub(crate) struct Widths {
    pub place: usize,
    pub step: usize,
    pub hair: usize,
}

// Appends a line and a column, both numbers.
fn push_at(out: &mut Vec<u8>, line: usize, column: usize) -> Result<(), AllocError>
    ensures { OnOk result (out.new.items ≡ out.old.items ++ at_text line column) }
{
    push_number(out, line as u64)?;
    out.extend_from_slice(b":")?;
    push_number(out, column as u64)
}

// Returns the place of a line, or nothing if it is about the whole job.
pub(crate) fn place_of(alloc: Global, line: &Line) -> Result<Vec<u8>, AllocError>
    ensures { IfOk result (λ text. text.items ≡ place_text (line_held line.now)) }
{
    let mut text = Vec::new(alloc);
    match line {
        Line::InFinerTicks(_) => {}
        Line::Moved { line, column, .. } | Line::Copies { line, column, .. } => {
            push_at(&mut text, *line, *column)?;
        }
    }
    Ok(text)
}

/// Returns what is at the place of a line, as it is written in a job text, or nothing if the line is about the whole job. The
/// only error is that memory runs out.
pub fn step_of(alloc: Global, line: &Line) -> Result<Vec<u8>, AllocError>
    ensures { IfOk result (λ text. text.items ≡ step_text (line_held line.now)) }
{
    let mut text = Vec::new(alloc);
    match line {
        Line::InFinerTicks(_) => {}
        Line::Moved { moment, .. } => {
            let moment = *moment;
            push_moment(&mut text, moment)?;
        }
        Line::Copies { name, count, .. } => {
            text.extend_from_slice(b"start ")?;
            text.extend_from_slice(name.bytes())?;
            push_over(&mut text, *count)?;
        }
    }
    Ok(text)
}

// Appends how many tasks a `start` starts at once, if it says so.
fn push_over(out: &mut Vec<u8>, count: Option<u64>) -> Result<(), AllocError>
    ensures { OnOk result (out.new.items ≡ out.old.items ++ over_text count) }
{
    let Some(count) = count else {
        return Ok(());
    };
    out.extend_from_slice(b" over ")?;
    push_number(out, count)
}

// Returns what is done to the place of a line.
pub(crate) fn hair_of(line: &Line) -> &'static [u8]
    ensures { result.now ≡ hair_text (line_held line.now) }
{
    match line {
        Line::InFinerTicks(_) => b"finer",
        Line::Moved { hair, .. } => match hair {
            Hair::Earlier => b"earlier",
            Hair::Later => b"later",
        },
        Line::Copies { .. } => b"copies",
    }
}
