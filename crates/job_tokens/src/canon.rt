ghost use Rattle.std.specs.Prelude.{◌≡◌, ◌+◌, ◌<◌, ◌++◌, ◌∷◌, [], OnOk};
ghost use Rattle.std.specs.List.{flat_map};
ghost use Rattle.std.specs.Fmt.{decimal};
ghost use Rattle.job_tokens.specs.Canon.{unit, mark_byte, number as canon_number, token, is_wordlike, gap, canon_of};

use crate::token::{Mark, Shape};
use basics::{hex_digit, push_number};
use std::alloc::AllocError;

/// Appends the canonical text of the tokens to `out`: one space between two words or numbers and no other blanks, digits
/// without leading zeros, and one spelling for each byte of a string. The only error is that memory runs out; `out`
/// may then hold a part of the text.
pub fn push_canon(out: &mut Vec<u8>, shapes: &[Shape]) -> Result<(), AllocError>
    ensures { OnOk result (out.new.items ≡ out.old.items ++ canon_of shapes.now) }
{
    let mut before = false;
    for shape in shapes {
        let following = is_wordlike(*shape);
        if before && following {
            out.push(b' ')?;
        }
        push_token(out, *shape)?;
        before = following;
    }
    Ok(())
}

// Returns whether the token is a word or a number. Two of these need a space between them.
fn is_wordlike(shape: Shape) -> bool
    ensures { result ≡ is_wordlike shape }
{
    match shape {
        Shape::Word(_) => true,
        Shape::Number(_) => true,
        Shape::Text(_) => false,
        Shape::Mark(_) => false,
    }
}

fn push_token(out: &mut Vec<u8>, shape: Shape) -> Result<(), AllocError>
    ensures { OnOk result (out.new.items ≡ out.old.items ++ token shape) }
{
    match shape {
        Shape::Word(word) => out.extend_from_slice(word.bytes()),
        Shape::Number(number) => push_value(out, number),
        Shape::Text(text) => push_string(out, text.bytes()),
        Shape::Mark(mark) => Ok(out.push(mark_byte(mark))?),
    }
}

fn push_value(out: &mut Vec<u8>, number: Option<u64>) -> Result<(), AllocError>
    ensures { OnOk result (out.new.items ≡ out.old.items ++ canon_number number) }
{
    match number {
        Some(number) => push_number(out, number),
        None => Ok(()),
    }
}

fn push_string(out: &mut Vec<u8>, text: &[u8]) -> Result<(), AllocError>
    ensures { OnOk result (out.new.items ≡ out.old.items ++ 34 ∷ (flat_map unit text.now ++ 34 ∷ [])) }
{
    out.push(b'"')?;
    for byte in text {
        push_unit(out, *byte)?;
    }
    out.push(b'"')?;
    Ok(())
}

fn push_unit(out: &mut Vec<u8>, byte: u8) -> Result<(), AllocError>
    ensures { OnOk result (out.new.items ≡ out.old.items ++ unit byte) }
{
    if byte == b'"' || byte == b'\\' {
        return out.extend_from_slice(&[b'\\', byte]);
    }
    if b' ' <= byte && byte <= b'~' {
        return out.extend_from_slice(&[byte]);
    }
    out.extend_from_slice(&[b'\\', b'x', hex_digit(byte / 16), hex_digit(byte % 16)])
}

fn mark_byte(mark: Mark) -> u8
    ensures { result ≡ mark_byte mark }
{
    match mark {
        Mark::Open => b'{',
        Mark::Close => b'}',
        Mark::Semicolon => b';',
    }
}
