ghost use Rattle.std.specs.Prelude.{◌≡◌, ◌++◌, OnOk};
ghost use Rattle.trio_text.specs.Lines.{margin, with_line, with_gap, with_used};
ghost use Rattle.trio_text.specs.Statements.{with_text};

use job_tokens::{Shape, push_canon};
use job_tree::Text;
use std::alloc::AllocError;

// Begins a line at a level.
pub(crate) fn begin(out: &mut Vec<u8>, level: usize) -> Result<(), AllocError>
    ensures { OnOk result (out.new.items ≡ out.old.items ++ margin level) }
{
    'levels: for n in 0..level {
        out.extend_from_slice(b"    ")?;
    }
    Ok(())
}

// Appends a line at a level.
#[tactic(auto, unfolding(crate::specs::Lines::with_line))]
pub(crate) fn push_line(out: &mut Vec<u8>, level: usize, line: &[u8]) -> Result<(), AllocError>
    ensures { OnOk result (out.new.items ≡ with_line level line.now out.old.items) }
{
    begin(out, level)?;
    out.extend_from_slice(line)?;
    out.extend_from_slice(b"\n")
}

// Appends an empty line, except directly after the line that begins a block.
#[tactic(auto, unfolding(crate::specs::Lines::with_gap))]
pub(crate) fn push_gap(out: &mut Vec<u8>) -> Result<(), AllocError>
    ensures { OnOk result (out.new.items ≡ with_gap out.old.items) }
{
    if out.ends_with(b":\n") {
        return Ok(());
    }
    out.extend_from_slice(b"\n")
}

// Appends a text if it is used.
pub(crate) fn push_if(out: &mut Vec<u8>, is_used: bool, text: &[u8]) -> Result<(), AllocError>
    ensures { OnOk result (out.new.items ≡ with_used is_used text.now out.old.items) }
{
    if is_used {
        out.extend_from_slice(text)?;
    }
    Ok(())
}

// Appends a string of a job as a Python string, which has the same escapes.
#[tactic(auto, unfolding(crate::specs::Statements::with_text))]
pub(crate) fn push_text(out: &mut Vec<u8>, text: Text) -> Result<(), AllocError>
    ensures { OnOk result (out.new.items ≡ with_text text out.old.items) }
{
    out.extend_from_slice(b"b")?;
    push_canon(out, &[Shape::Text(text)])
}
