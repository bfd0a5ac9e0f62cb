ghost use Rattle.std.specs.Prelude.{◌≡◌, ◌<◌, ◌≤◌, IfSome, length, take};
ghost use Rattle.job_tokens.specs.Lexing.{Gives, hex_value, hex_at, escape_at, unit_at, after_quote, units, string_at, is_plain};

use crate::token::Shape;
use job_tree::{Text, is_digit};

/// Returns the string at the start of the bytes, which begin after its opening quote, and the bytes after its
/// closing quote. Returns `None` if the bytes do not begin with 1 to 64 units and a quote.
pub fn string_at(bytes: &[u8]) -> Option<(Shape, &[u8])>
    ensures value { Gives (λ x. (x.0, x.1.now)) result (string_at bytes.now) }
    ensures shorter { IfSome result (λ x. length x.1.now ≤ length bytes.now) }
{
    let mut room = [0u8; 64];
    let (len, rest) = read_units(bytes, &mut room)?;
    let text = Text::new(&room[..len])?;
    Some((Shape::Text(text), rest))
}

// Reads the units up to the closing quote into `room`. Returns their number and the bytes after the quote.
fn read_units<'a>(bytes: &'a [u8], room: &mut [u8; 64]) -> Option<(usize, &'a [u8])>
    ensures within { IfSome result (λ x. x.0 ≤ 64) }
    ensures shorter { IfSome result (λ x. length x.1.now ≤ length bytes.now) }
    ensures units { Gives (λ x. (take x.0 room.new, x.1.now)) result (units 64 bytes.now) }
{
    let mut rest = bytes;
    for len in 0..64 {
        if let Some(after) = after_quote(rest) {
            return Some((len, after));
        }
        let (unit, after) = unit_at(rest)?;
        room[len] = unit;
        rest = after;
    }
    let after = after_quote(rest)?;
    Some((64, after))
}

// Returns the bytes after a quote, if the first byte is a quote.
fn after_quote(bytes: &[u8]) -> Option<&[u8]>
    ensures value { Gives (λ x. x.now) result (after_quote bytes.now) }
    ensures shorter { IfSome result (λ x. length x.now ≤ length bytes.now) }
{
    let (first, rest) = bytes.split_first()?;
    if *first == b'"' {
        return Some(rest);
    }
    None
}

// Returns the byte that the first unit spells, and the bytes after the unit.
fn unit_at(bytes: &[u8]) -> Option<(u8, &[u8])>
    ensures value { Gives (λ x. (x.0, x.1.now)) result (unit_at bytes.now) }
    ensures shorter { IfSome result (λ x. length x.1.now ≤ length bytes.now) }
{
    let (first, rest) = bytes.split_first()?;
    if *first == b'\\' {
        return escape_at(rest);
    }
    if is_plain(*first) {
        return Some((*first, rest));
    }
    None
}

/// Returns whether the byte is printable: a space, or a visible character of ASCII. Such a byte spells itself in a string, unless
/// it is a quote or a backslash.
pub fn is_plain(b: u8) -> bool
    ensures { result ≡ is_plain b }
{
    b' ' <= b && b <= b'~'
}

fn escape_at(bytes: &[u8]) -> Option<(u8, &[u8])>
    ensures value { Gives (λ x. (x.0, x.1.now)) result (escape_at bytes.now) }
    ensures shorter { IfSome result (λ x. length x.1.now ≤ length bytes.now) }
{
    let (first, rest) = bytes.split_first()?;
    if *first == b'"' || *first == b'\\' {
        return Some((*first, rest));
    }
    if *first == b'x' {
        return hex_at(rest);
    }
    None
}

fn hex_at(bytes: &[u8]) -> Option<(u8, &[u8])>
    ensures value { Gives (λ x. (x.0, x.1.now)) result (hex_at bytes.now) }
    ensures shorter { IfSome result (λ x. length x.1.now ≤ length bytes.now) }
{
    let (first, rest) = bytes.split_first()?;
    let (second, rest) = rest.split_first()?;
    let high = hex_value(*first)?;
    let low = hex_value(*second)?;
    Some((16 * high + low, rest))
}

fn hex_value(b: u8) -> Option<u8>
    ensures value { result ≡ hex_value b }
    ensures small { IfSome result (λ n. n < 16) }
{
    if is_digit(b) {
        return Some(b - b'0');
    }
    if b'a' <= b && b <= b'f' {
        return Some(b - b'a' + 10);
    }
    None
}
