ghost use Rattle.std.specs.Prelude.{◌≡◌, ◌++◌, [], map, OnOk};
ghost use Rattle.page.specs.Lines.{numbered, warning_text, warning_at, warnings_at, job_line, job_lines};
ghost use Rattle.page.specs.Views.{warned_held};

use crate::lines::line_id;
use crate::markup::push_classed;
use basics::push_number;
use std::alloc::{AllocError, Global};
use svg::{Attr, Tag, attribute, begin, end, inside, text};

/// A warning about a line of the job.
#[derive(Drop)]
pub struct Warned {
    /// The number of the line, from 1 on.
    pub line: usize,
    /// What the warning says.
    pub sentence: Vec<u8>,
}

// Appends the lines of a job text, each with its number, and below it the warnings about it.
pub(crate) fn push_job(
    alloc: Global,
    out: &mut Vec<u8>,
    warned: &[Warned],
    job: &[u8],
) -> Result<(), AllocError>
    ensures { OnOk result (out.new.items ≡ out.old.items ++ job_lines (map warned_held warned.now) 1 [] job.now) }
{
    let mut line = Vec::new(alloc);
    let mut number = 1;
    'bytes: for byte in job {
        if *byte == b'\n' {
            push_job_line(alloc, out, warned, number, line.as_slice())?;
            line.clear();
            number += 1;
        } else {
            line.push(*byte)?;
        }
    }
    if line.is_empty() {
        return Ok(());
    }
    push_job_line(alloc, out, warned, number, line.as_slice())
}

// Appends a line of the job.
fn push_job_line(
    alloc: Global,
    out: &mut Vec<u8>,
    warned: &[Warned],
    number: usize,
    line: &[u8],
) -> Result<(), AllocError>
    ensures { OnOk result (out.new.items ≡ out.old.items ++ job_line (map warned_held warned.now) number line.now) }
{
    let id = line_id(alloc, number)?;
    begin(out, Tag::Span)?;
    attribute(out, Attr::Id, id.as_slice())?;
    attribute(out, Attr::Class, b"line")?;
    inside(out)?;
    push_numbered(alloc, out, number, line)?;
    end(out, Tag::Span)?;
    out.extend_from_slice(b"\n")?;
    push_warnings(alloc, out, warned, number)
}

// Appends the number of a line and the line.
fn push_numbered(
    alloc: Global,
    out: &mut Vec<u8>,
    number: usize,
    line: &[u8],
) -> Result<(), AllocError>
    ensures { OnOk result (out.new.items ≡ out.old.items ++ numbered number line.now) }
{
    let mut digits = Vec::new(alloc);
    push_number(&mut digits, number as u64)?;
    digits.push(b' ')?;
    push_classed(out, Tag::Span, b"number", digits.as_slice())?;
    text(out, line)
}

// Appends the warnings about a line.
fn push_warnings(
    alloc: Global,
    out: &mut Vec<u8>,
    warned: &[Warned],
    number: usize,
) -> Result<(), AllocError>
    ensures { OnOk result (out.new.items ≡ out.old.items ++ warnings_at number (map warned_held warned.now)) }
{
    let mut rest = warned;
    'warned: while let Some((first, others)) = rest.split_first() {
        push_warning_at(alloc, out, first, number)?;
        rest = others;
    }
    Ok(())
}

// Appends a warning, if it is about this line.
fn push_warning_at(
    alloc: Global,
    out: &mut Vec<u8>,
    warned: &Warned,
    number: usize,
) -> Result<(), AllocError>
    ensures { OnOk result (out.new.items ≡ out.old.items ++ warning_at number (warned_held warned.now)) }
{
    if warned.line != number {
        return Ok(());
    }
    push_warning(alloc, out, warned.sentence.as_slice())
}

// Appends a warning.
fn push_warning(alloc: Global, out: &mut Vec<u8>, sentence: &[u8]) -> Result<(), AllocError>
    ensures { OnOk result (out.new.items ≡ out.old.items ++ warning_text sentence.now) }
{
    let mut warning = Vec::new(alloc);
    warning.extend_from_slice(b"warning: ")?;
    warning.extend_from_slice(sentence)?;
    push_classed(out, Tag::Span, b"warning", warning.as_slice())?;
    out.extend_from_slice(b"\n")
}
