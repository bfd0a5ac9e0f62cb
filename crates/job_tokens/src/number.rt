ghost use Rattle.std.specs.Prelude.{◌≡◌};
ghost use Rattle.job_tokens.specs.Lexing.{number_at, number_of, value_within, has_leading_zero, goes_on, Gives};

use crate::run;
use crate::token::Shape;
use job_tree::{MAX_NUMBER, is_word_byte};

/// Returns the number at the start of the bytes, and the bytes after it, or `None` if a letter or `_` follows the
/// digits. The bytes must begin with a digit.
pub fn number_at(bytes: &[u8]) -> Option<(Shape, &[u8])>
    ensures { Gives (λ x. (x.0, x.1.now)) result (number_at bytes.now) }
{
    let (front, rest) = bytes.split_at(run::count_digits(bytes));
    if goes_on(rest) {
        return None;
    }
    Some((Shape::Number(number_of(front)), rest))
}

// Returns whether the first byte is a byte of a word.
fn goes_on(bytes: &[u8]) -> bool
    ensures { result ≡ goes_on bytes.now }
{
    match bytes.split_first() {
        Some((first, _)) => is_word_byte(*first),
        None => false,
    }
}

fn has_leading_zero(digits: &[u8]) -> bool
    ensures { result ≡ has_leading_zero digits.now }
{
    match digits.split_first() {
        Some((first, rest)) => *first == b'0' && !rest.is_empty(),
        None => false,
    }
}

// Returns the number with these digits, or `None` if it has a leading zero or is above the maximum.
fn number_of(digits: &[u8]) -> Option<u64>
    ensures { result ≡ number_of digits.now }
{
    if has_leading_zero(digits) {
        return None;
    }
    value_of(digits)
}

fn value_of(digits: &[u8]) -> Option<u64>
    ensures { result ≡ value_within digits.now }
{
    let mut value: u64 = 0;
    for digit in digits {
        value = 10 * value + u64::from(digit.saturating_sub(b'0'));
        if value > MAX_NUMBER {
            return None;
        }
    }
    Some(value)
}
