ghost use Rattle.std.specs.Prelude.{◌≡◌, ◌+◌, ◌*◌, ◌≤◌, ◌++◌, IfOk, OnOk, codes, decimal};
ghost use Rattle.svg.specs.Content.{Content, nothing, content_text};
ghost use Rattle.svg.specs.Drawing.{note, limit_note, axis_note, rows_note, notes};
ghost use Rattle.svg.specs.declared.layout.TheConstants.{ROW};

use crate::layout::{LEFT, MAX_ROWS, ROW};
use crate::shapes::push_words;
use basics::push_number;
use std::alloc::{AllocError, Global};

// What the notes below a drawing say of it.
#[derive(Clone, Copy)]
pub(crate) struct Noted {
    // The limit at which the story is cut off, if it is.
    pub until: Option<u64>,
    // Whether the axis is linear.
    pub linear: bool,
    // How many rows there are.
    pub rows: usize,
}

// Appends the notes below the rows: about what a drawing does not show, and an axis that is not linear.
pub(crate) fn push_notes(
    alloc: Global,
    out: &mut Vec<u8>,
    bottom: u64,
    noted: Noted,
) -> Result<(), AllocError>
    requires { bottom ≤ 1000000 }
    ensures { OnOk result ((rest : Content) → out.new.items ++ content_text rest
        ≡ out.old.items ++ content_text (notes noted.until bottom noted.linear noted.rows rest)) }
{
    push_limit_note(alloc, out, bottom, noted.until)?;
    push_note(out, bottom + ROW * 2, axis_note(noted.linear))?;
    push_rows_note(alloc, out, bottom, noted.rows)
}

// Appends the note that the story is cut off at a limit, if it is.
fn push_limit_note(
    alloc: Global,
    out: &mut Vec<u8>,
    bottom: u64,
    until: Option<u64>,
) -> Result<(), AllocError>
    requires { bottom ≤ 1000000 }
    ensures { OnOk result ((rest : Content) → out.new.items ++ content_text rest
        ≡ out.old.items ++ content_text (note (bottom + ROW) (limit_note until) rest)) }
{
    let bytes = limit_note(alloc, until)?;
    push_note(out, bottom + ROW, bytes.as_slice())
}

// Appends the note that says how many rows are not shown, if there are any.
fn push_rows_note(
    alloc: Global,
    out: &mut Vec<u8>,
    bottom: u64,
    rows: usize,
) -> Result<(), AllocError>
    requires { bottom ≤ 1000000 }
    ensures { OnOk result ((rest : Content) → out.new.items ++ content_text rest
        ≡ out.old.items ++ content_text (note (bottom + ROW * 3) (rows_note rows) rest)) }
{
    let bytes = rows_note(alloc, rows)?;
    push_note(out, bottom + ROW * 3, bytes.as_slice())
}

// Appends a note, if it is not empty.
fn push_note(out: &mut Vec<u8>, y: u64, bytes: &[u8]) -> Result<(), AllocError>
    ensures { OnOk result ((rest : Content) → out.new.items ++ content_text rest ≡ out.old.items ++ content_text (note y bytes.now rest)) }
{
    if bytes.is_empty() {
        return Ok(());
    }
    push_words(out, b"note", LEFT, y, bytes)
}

// Returns the note that the story is cut off at a limit.
fn limit_note(alloc: Global, until: Option<u64>) -> Result<Vec<u8>, AllocError>
    ensures { IfOk result (λ text. text.items ≡ limit_note until) }
{
    let mut text = Vec::new(alloc);
    if let Some(limit) = until {
        text.extend_from_slice(b"limit ")?;
        push_number(&mut text, limit)?;
    }
    Ok(text)
}

// Returns the note that the axis is not linear, or nothing if it is.
fn axis_note(linear: bool) -> &'static [u8]
    ensures { result.now ≡ axis_note linear }
{
    if linear {
        return b"";
    }
    b"gaps between ticks grow with the logarithm of the time, and are not to scale"
}

// Returns the note that says how many rows are not shown.
fn rows_note(alloc: Global, rows: usize) -> Result<Vec<u8>, AllocError>
    ensures { IfOk result (λ text. text.items ≡ rows_note rows) }
{
    if rows <= MAX_ROWS {
        return Ok(Vec::new(alloc));
    }
    rows_left_out(alloc, (rows - MAX_ROWS) as u64)
}

// Returns the note that this many rows are not shown.
fn rows_left_out(alloc: Global, left: u64) -> Result<Vec<u8>, AllocError>
    ensures { IfOk result (λ text. text.items ≡ decimal left ++ codes " rows are left out") }
{
    let mut text = Vec::new(alloc);
    push_number(&mut text, left)?;
    text.extend_from_slice(b" rows are left out")?;
    Ok(text)
}
