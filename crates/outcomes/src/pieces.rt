ghost use Rattle.std.specs.Prelude.{◌≡◌, ◌++◌, OnOk};
ghost use Rattle.outcomes.specs.Table.{spaces, left_text, right_text};

use std::alloc::AllocError;

// Appends the given number of spaces.
pub(crate) fn push_spaces(out: &mut Vec<u8>, count: usize) -> Result<(), AllocError>
    ensures { OnOk result (out.new.items ≡ out.old.items ++ spaces count) }
{
    'spaces: for _i in 0..count {
        out.push(b' ')?;
    }
    Ok(())
}

/// Appends a text, followed by spaces up to a width in bytes. A longer text is appended unchanged. The only error
/// is that memory runs out.
pub fn push_left(out: &mut Vec<u8>, width: usize, text: &[u8]) -> Result<(), AllocError>
    ensures { OnOk result (out.new.items ≡ out.old.items ++ left_text width text.now) }
{
    out.extend_from_slice(text)?;
    push_spaces(out, width.saturating_sub(text.len()))
}

/// Appends spaces, followed by a text, up to a width in bytes. A longer text is appended unchanged. The only error
/// is that memory runs out.
pub fn push_right(out: &mut Vec<u8>, width: usize, text: &[u8]) -> Result<(), AllocError>
    ensures { OnOk result (out.new.items ≡ out.old.items ++ right_text width text.now) }
{
    push_spaces(out, width.saturating_sub(text.len()))?;
    out.extend_from_slice(text)
}
