//! Texts as JSON strings.

ghost use Rattle.std.specs.Prelude.{◌≡◌, ◌++◌, ◌∷◌, [], OnOk, IsTrue};
ghost use Rattle.json.specs.Print.{escape, escape_byte, escape_letter, quoted};

use basics::hex_digit;
use std::alloc::AllocError;

// Appends a text as a JSON string.
pub(crate) fn push_string(out: &mut Vec<u8>, text: &str) -> Result<(), AllocError>
    ensures { OnOk result (out.new.items ≡ out.old.items ++ quoted text.now) }
{
    out.push(b'"')?;
    push_literals(out, text.as_bytes())?;
    out.push(b'"')?;
    Ok(())
}

// Appends a text as it stands between the quotes of a JSON string.
fn push_literals(out: &mut Vec<u8>, bytes: &[u8]) -> Result<(), AllocError>
    ensures { OnOk result (out.new.items ≡ out.old.items ++ escape bytes.now) }
{
    if are_literals(bytes) {
        return out.extend_from_slice(bytes);
    }
    'bytes: for b in bytes {
        push_literal(out, *b)?;
    }
    Ok(())
}

// Returns whether every byte stands for itself between the quotes of a JSON string.
fn are_literals(bytes: &[u8]) -> bool
    ensures { IsTrue result → escape bytes.now ≡ bytes.now }
{
    'bytes: for b in bytes {
        if !is_literal(*b) {
            return false;
        }
    }
    true
}

// Returns whether a byte stands for itself.
#[tactic(auto, using(crate::proofs::LiteralLemmas::escape_plain))]
fn is_literal(b: u8) -> bool
    ensures { IsTrue result → escape_byte b ≡ b ∷ [] }
{
    32 <= b && escape_letter(b) == 0
}

// Appends what stands for a byte.
fn push_literal(out: &mut Vec<u8>, b: u8) -> Result<(), AllocError>
    ensures { OnOk result (out.new.items ≡ out.old.items ++ escape_byte b) }
{
    let letter = escape_letter(b);
    if 0 < letter {
        out.push(b'\\')?;
        out.push(letter)?;
        return Ok(());
    }
    if 32 <= b {
        out.push(b)?;
        return Ok(());
    }
    out.extend_from_slice(b"\\u00")?;
    out.push(hex_digit(b / 16))?;
    out.push(hex_digit(b % 16))?;
    Ok(())
}

// Returns the letter that stands for a byte after a backslash, or 0 if it has none.
fn escape_letter(b: u8) -> u8
    ensures { result ≡ escape_letter b }
{
    match b {
        34 => 34,
        92 => 92,
        8 => b'b',
        12 => b'f',
        10 => b'n',
        13 => b'r',
        9 => b't',
        _ => 0,
    }
}
