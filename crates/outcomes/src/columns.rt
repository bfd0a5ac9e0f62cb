ghost use Rattle.std.specs.Prelude.{◌≡◌, ◌+◌, ◌++◌, IfOk, OnOk, length, max, map, codes, decimal};
ghost use Rattle.std.specs.Io.Iter.{u64_saturate};
ghost use Rattle.outcomes.specs.Table.{fault_text, name_text, named_by, part_text, in_part_text, place_text, step_text, kind_text, widths_of};
ghost use Rattle.outcomes.specs.Views.{line_held};

use crate::line::Line;
use basics::push_number;
use job_edits::{BlockPart, Fault, push_wait};
use job_tree::Name;
use std::alloc::{AllocError, Global};

// The widths of the columns: places, steps and faults.
#[derive(Clone, Copy)]
pub(crate) struct Widths {
    pub place: usize,
    pub step: usize,
    pub fault: usize,
}

// Returns the widths of the columns of these lines.
pub(crate) fn widths_of(alloc: Global, lines: &[Line]) -> Result<Widths, AllocError>
    ensures { IfOk result (λ widths. widths ≡ widths_of (map line_held lines.now)) }
{
    let mut widths = Widths {
        place: 0,
        step: 0,
        fault: b"as it is".len(),
    };
    'lines: for line in lines {
        widths.place = wider(widths.place, place_of(alloc, line)?.as_slice());
        widths.step = wider(widths.step, step_of(alloc, line)?.as_slice());
        widths.fault = wider(widths.fault, kind_of(alloc, line)?.as_slice());
    }
    Ok(widths)
}

// Returns the width of a column that is so wide and has this text too.
fn wider(width: usize, text: &[u8]) -> usize
    ensures { result ≡ max width (length text.now) }
{
    width.max(text.len())
}

// Returns the place of a line's step, as `LINE:COLUMN`.
pub(crate) fn place_of(alloc: Global, line: &Line) -> Result<Vec<u8>, AllocError>
    ensures { IfOk result (λ text. text.items ≡ place_text (line_held line.now)) }
{
    let mut text = Vec::new(alloc);
    push_number(&mut text, line.line as u64)?;
    text.extend_from_slice(b":")?;
    push_number(&mut text, line.column as u64)?;
    Ok(text)
}

// Returns the step of a line, as it is printed.
pub(crate) fn step_of(alloc: Global, line: &Line) -> Result<Vec<u8>, AllocError>
    ensures { IfOk result (λ text. text.items ≡ step_text (line_held line.now)) }
{
    let mut text = Vec::new(alloc);
    push_wait(&mut text, line.variant.step.wait)?;
    Ok(text)
}

// Returns the fault of a line, as it is printed.
pub(crate) fn kind_of(alloc: Global, line: &Line) -> Result<Vec<u8>, AllocError>
    ensures { IfOk result (λ text. text.items ≡ kind_text (line_held line.now)) }
{
    let mut text = Vec::new(alloc);
    text.extend_from_slice(fault_name(line.variant.fault))?;
    push_name(&mut text, line.is_named, line.variant.fault)?;
    push_in_part(&mut text, &line.variant.part)?;
    Ok(text)
}

// Appends the name of the exception that a fault raises, if names are printed.
fn push_name(out: &mut Vec<u8>, is_named: bool, fault: Fault) -> Result<(), AllocError>
    ensures { OnOk result (out.new.items ≡ out.old.items ++ name_text is_named (named_by fault)) }
{
    let Some(name) = printed_name(fault) else {
        return Ok(());
    };
    if is_named {
        out.extend_from_slice(b" ")?;
        out.extend_from_slice(name.bytes())?;
    }
    Ok(())
}

/// Returns the name of the exception that a fault raises where names are printed, or `None` if none is printed with it.
pub fn printed_name(fault: Fault) -> Option<Name>
    ensures { result ≡ named_by fault }
{
    match fault {
        Fault::Fails(name) | Fault::FailsLate(name) => Some(name),
        Fault::Hangs | Fault::Cancelled | Fault::Misses(_) => None,
    }
}

// Appends the copy or pass in which alone a fault is, if it is in one.
fn push_in_part(out: &mut Vec<u8>, part: &Option<BlockPart>) -> Result<(), AllocError>
    ensures { OnOk result (out.new.items ≡ out.old.items ++ in_part_text part.now) }
{
    let Some(part) = part else {
        return Ok(());
    };
    out.extend_from_slice(b" in ")?;
    push_part(out, part)
}

/// Appends a copy or pass: `shard.1`, or `pass 2 of 3`, where passes are counted from 1. The only error is that memory runs out.
pub fn push_part(out: &mut Vec<u8>, part: &BlockPart) -> Result<(), AllocError>
    ensures { OnOk result (out.new.items ≡ out.old.items ++ part_text part.now) }
{
    match part.name {
        Some(name) => push_copy(out, name, part.index),
        None => push_pass(out, part.index, part.count),
    }
}

// Appends the copy of a task with an index.
fn push_copy(out: &mut Vec<u8>, name: Name, index: u64) -> Result<(), AllocError>
    ensures { OnOk result (out.new.items ≡ out.old.items ++ (name ++ codes "." ++ decimal index)) }
{
    out.extend_from_slice(name.bytes())?;
    out.extend_from_slice(b".")?;
    push_number(out, index)
}

// Appends which of so many passes it is.
fn push_pass(out: &mut Vec<u8>, index: u64, count: u64) -> Result<(), AllocError>
    ensures { OnOk result (out.new.items ≡ out.old.items ++ (codes "pass " ++ decimal (u64_saturate (index + 1)) ++ codes " of " ++ decimal count)) }
{
    out.extend_from_slice(b"pass ")?;
    push_number(out, index.saturating_add(1))?;
    out.extend_from_slice(b" of ")?;
    push_number(out, count)
}

// Returns the name of a fault.
pub(crate) fn fault_name(fault: Fault) -> &'static [u8]
    ensures { result.now ≡ fault_text fault }
{
    match fault {
        Fault::Fails(_) => b"fails",
        Fault::FailsLate(_) => b"fails late",
        Fault::Hangs => b"hangs",
        Fault::Cancelled => b"cancelled",
        Fault::Misses(_) => b"misses",
    }
}
