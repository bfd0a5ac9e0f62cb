ghost use Rattle.std.specs.Prelude.{◌≡◌, ◌++◌, [], ◌∷◌, OnOk, IfSome, IfNone, ◌<◌, ◌≤◌, ℕ, false, true, length, slice_index};
ghost use Rattle.std.specs.List.{flat_map};
ghost use Rattle.job_report.specs.Text.{byte_text, stands_for_itself};

use basics::hex_digit;
use std::alloc::AllocError;

// Appends the bytes of a line as the report shows them; a run of bytes that are not escaped is appended at once.
pub(crate) fn push_escaped(out: &mut Vec<u8>, text: &[u8]) -> Result<(), AllocError>
    ensures { OnOk result (out.new.items ≡ out.old.items ++ flat_map byte_text text.now) }
{
    let mut rest = text;
    'runs: while let Some((plain, special, others)) = split_special(rest) {
        out.extend_from_slice(plain)?;
        push_special(out, special)?;
        rest = others;
    }
    out.extend_from_slice(rest)
}

// The bytes before the first that is escaped, that byte, and the bytes after it.
fn split_special(text: &[u8]) -> Option<(&[u8], u8, &[u8])>
    ensures none { IfNone result (flat_map byte_text text.now ≡ text.now) }
    ensures special { IfSome result (λ r. stands_for_itself r.1 ≡ false) }
    ensures shorter { IfSome result (λ r. length r.2.now < length text.now) }
    ensures parts { IfSome result (λ r. flat_map byte_text text.now ≡ r.0.now ++ (byte_text r.1 ++ flat_map byte_text r.2.now)) }
{
    let (plain, rest) = text.split_at(plain_len(text));
    let Some((special, others)) = rest.split_first() else {
        return None;
    };
    Some((plain, *special, others))
}

// How many bytes from the front on are not escaped.
fn plain_len(text: &[u8]) -> usize
    ensures within { result ≤ length text.now }
    ensures plain { (k : ℕ) → k < result → stands_for_itself (slice_index text.now k) ≡ true }
    ensures special { result < length text.now → stands_for_itself (slice_index text.now result) ≡ false }
{
    for (i, b) in text.iter().enumerate() {
        if !is_plain_byte(*b) {
            return i;
        }
    }
    text.len()
}

// Whether the report shows a byte as it is: printable ASCII without the backslash.
fn is_plain_byte(b: u8) -> bool
    ensures { result ≡ stands_for_itself b }
{
    32 <= b && b <= 126 && b != 92
}

// Appends the escape of a byte.
fn push_special(out: &mut Vec<u8>, b: u8) -> Result<(), AllocError>
    requires { stands_for_itself b ≡ false }
    ensures { OnOk result (out.new.items ≡ out.old.items ++ byte_text b) }
{
    if b == b'\\' {
        out.extend_from_slice(b"\\\\")
    } else {
        out.extend_from_slice(b"\\x")?;
        out.push(hex_digit(b / 16))?;
        out.push(hex_digit(b % 16))?;
        Ok(())
    }
}
