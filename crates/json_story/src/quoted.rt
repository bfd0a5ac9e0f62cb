//! Bytes as a JSON string that shows them as a report does.

ghost use Rattle.std.specs.Prelude.{◌≡◌, ◌++◌, OnOk};
ghost use Rattle.std.specs.List.{flat_map};
ghost use Rattle.json.specs.Print.{escape, quoted};
ghost use Rattle.job_report.specs.Text.{byte_text};

use crate::text::is_plain_byte;
use basics::hex_digit;
use std::alloc::AllocError;

// Appends bytes as a JSON string. A byte is shown as in a report, and a quote or backslash of that text is escaped once more.
pub(crate) fn push_quoted(out: &mut Vec<u8>, bytes: &[u8]) -> Result<(), AllocError>
    ensures { OnOk result (out.new.items ≡ out.old.items ++ quoted (flat_map byte_text bytes.now)) }
{
    out.push(b'"')?;
    push_escaped(out, bytes)?;
    out.push(b'"')?;
    Ok(())
}

// Appends the same without the quotes.
fn push_escaped(out: &mut Vec<u8>, bytes: &[u8]) -> Result<(), AllocError>
    ensures { OnOk result (out.new.items ≡ out.old.items ++ escape (flat_map byte_text bytes.now)) }
{
    'bytes: for b in bytes {
        push_byte(out, *b)?;
    }
    Ok(())
}

// Appends what stands for a byte.
fn push_byte(out: &mut Vec<u8>, b: u8) -> Result<(), AllocError>
    ensures { OnOk result (out.new.items ≡ out.old.items ++ escape (byte_text b)) }
{
    if b == b'"' {
        out.extend_from_slice(b"\\\"")?;
        return Ok(());
    }
    if b == b'\\' {
        out.extend_from_slice(b"\\\\\\\\")?;
        return Ok(());
    }
    if is_plain_byte(b) {
        out.push(b)?;
        return Ok(());
    }
    out.extend_from_slice(b"\\\\x")?;
    out.push(hex_digit(b / 16))?;
    out.push(hex_digit(b % 16))?;
    Ok(())
}
