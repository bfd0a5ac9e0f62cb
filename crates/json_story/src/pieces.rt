//! JSON texts that are made piece by piece, so that the values of a large document are not all in memory.

ghost use Rattle.std.specs.Prelude.{◌≡◌, ◌++◌, ◌∷◌, ℕ, List, OnOk, true, false, nat_lt};
ghost use Rattle.json.specs.Print.{quoted};
ghost use Rattle.serde_json.specs.Data.{Members, object, member};
ghost use Rattle.serde_json.specs.View.{view};
ghost use Rattle.serde_json.specs.Written.{comma_if, compact_text, has_float, members_text};

use crate::literal::push_string;
use basics::push_number;
use serde_json::Value;
use std::alloc::{AllocError, Global};

/// Appends the JSON text of a value. The caller must ensure that the value has no floating-point number. Returns `AllocError` if
/// memory runs out; a front part of the text may be appended then.
pub fn push_value(alloc: Global, out: &mut Vec<u8>, value: &Value) -> Result<(), AllocError>
    requires { has_float (view value.now) ≡ false }
    ensures { OnOk result (out.new.items ≡ out.old.items ++ compact_text (view value.now)) }
{
    if let Some(n) = value.as_u64() {
        return push_number(out, n);
    }
    match value {
        Value::Null => out.extend_from_slice(b"null"),
        Value::String(text) => push_string(out, text.as_str()),
        _ => {
            let text = value.to_vec(alloc)?;
            out.extend_from_slice(text.as_slice())
        }
    }
}

/// Appends the comma that stands before an item of an array, given its index: none before the first one. Returns `AllocError` if
/// memory runs out; a front part of the text may be appended then.
pub fn push_comma(out: &mut Vec<u8>, index: usize) -> Result<(), AllocError>
    ensures { OnOk result (out.new.items ≡ out.old.items ++ comma_if (nat_lt 0 index)) }
{
    if 0 < index {
        out.push(b',')?;
    }
    Ok(())
}

/// Appends the opening brace of an object and its first member. The caller must ensure that the value has no floating-point
/// number. Returns `AllocError` if memory runs out; a front part of the text may be appended then.
pub fn push_first_member(
    alloc: Global,
    out: &mut Vec<u8>,
    key: &str,
    value: &Value,
) -> Result<(), AllocError>
    requires { has_float (view value.now) ≡ false }
    ensures { OnOk result ((later : Members) → out.new.items ++ members_text true later
        ≡ out.old.items ++ compact_text (object (member key.now (view value.now) later))) }
{
    out.push(b'{')?;
    push_key(out, key)?;
    push_value(alloc, out, value)
}

/// Appends a further member of an object. The caller must ensure that the value has no floating-point number. Returns
/// `AllocError` if memory runs out; a front part of the text may be appended then.
pub fn push_member(
    alloc: Global,
    out: &mut Vec<u8>,
    key: &str,
    value: &Value,
) -> Result<(), AllocError>
    requires { has_float (view value.now) ≡ false }
    ensures { OnOk result ((later : Members) → out.new.items ++ members_text true later
        ≡ out.old.items ++ members_text true (member key.now (view value.now) later)) }
{
    out.push(b',')?;
    push_key(out, key)?;
    push_value(alloc, out, value)
}

/// Appends the name of a member and the colon after it. Returns `AllocError` if memory runs out; a front part of the text may be
/// appended then.
pub fn push_key(out: &mut Vec<u8>, key: &str) -> Result<(), AllocError>
    ensures { OnOk result ((rest : List ℕ) → out.new.items ++ rest ≡ out.old.items ++ (quoted key.now ++ 58 ∷ rest)) }
{
    push_string(out, key)?;
    out.push(b':')?;
    Ok(())
}
