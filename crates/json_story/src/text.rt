ghost use Rattle.std.specs.Prelude.{◌≡◌, ◌++◌, ◌<◌, IfOk, OnOk, string_bytes, IsTrue, false};
ghost use Rattle.std.specs.List.{flat_map};
ghost use Rattle.serde_json.specs.View.{view};
ghost use Rattle.serde_json.specs.Written.{has_float};
ghost use Rattle.job_report.specs.Text.{byte_text, stands_for_itself};
ghost use Rattle.exceptions.specs.Texts.{index_text};
ghost use Rattle.json_story.specs.Values.{text_json, label_json, document};

use basics::{hex_digit, push_str_number};
use exceptions::Label;
use serde_json::Value;
use std::alloc::{AllocError, Global};

/// Returns bytes as a JSON string, shown as a report shows a line: backslashes and bytes that are not printable ASCII are
/// escaped. The only error is that memory runs out.
pub fn text_value(alloc: Global, bytes: &[u8]) -> Result<Value, AllocError>
    ensures { IfOk result (λ value. view value ≡ text_json bytes.now) }
{
    let mut text = String::with_capacity(alloc, bytes.len())?;
    push_escaped(&mut text, bytes)?;
    Ok(Value::String(text))
}

/// Returns a label as a JSON string, such as `p.1`. The only error is that memory runs out.
pub fn label_value(alloc: Global, label: &Label) -> Result<Value, AllocError>
    ensures { IfOk result (λ value. view value ≡ label_json label.now) }
{
    let mut text = String::new(alloc);
    let name = label.name();
    push_escaped(&mut text, name.bytes())?;
    push_indices(&mut text, label.indices())?;
    Ok(Value::String(text))
}

/// Returns the JSON text of a value, and a newline. The caller must ensure that the value has no floating-point number. The only
/// error is that memory runs out.
pub fn document(alloc: Global, value: &Value) -> Result<Vec<u8>, AllocError>
    requires { has_float (view value.now) ≡ false }
    ensures { IfOk result (λ text. text.items ≡ document (view value.now)) }
{
    let mut text = value.to_vec(alloc)?;
    text.extend_from_slice(b"\n")?;
    Ok(text)
}

// Appends a dot and the index for each index.
fn push_indices(out: &mut String, indices: &[u64]) -> Result<(), AllocError>
    ensures { OnOk result (string_bytes out.new ≡ string_bytes out.old ++ flat_map index_text indices.now) }
{
    'indices: for index in indices {
        push_index(out, *index)?;
    }
    Ok(())
}

// Appends a dot and an index.
fn push_index(out: &mut String, index: u64) -> Result<(), AllocError>
    ensures { OnOk result (string_bytes out.new ≡ string_bytes out.old ++ index_text index) }
{
    out.push_str(".")?;
    push_str_number(out, index)
}

// Appends bytes as a report shows them.
fn push_escaped(out: &mut String, bytes: &[u8]) -> Result<(), AllocError>
    ensures { OnOk result (string_bytes out.new ≡ string_bytes out.old ++ flat_map byte_text bytes.now) }
{
    'bytes: for b in bytes {
        push_byte(out, *b)?;
    }
    Ok(())
}

// Appends a byte as a report shows it.
fn push_byte(out: &mut String, b: u8) -> Result<(), AllocError>
    ensures { OnOk result (string_bytes out.new ≡ string_bytes out.old ++ byte_text b) }
{
    if is_plain_byte(b) {
        return out.push(b as char);
    }
    if b == b'\\' {
        return out.push_str("\\\\");
    }
    out.push_str("\\x")?;
    out.push(hex_digit(b / 16) as char)?;
    out.push(hex_digit(b % 16) as char)
}

// Returns whether a byte is shown as it is.
pub(crate) fn is_plain_byte(b: u8) -> bool
    ensures value { result ≡ stands_for_itself b }
    ensures ascii { IsTrue result → b < 128 }
{
    32 <= b && b <= 126 && b != 92
}
