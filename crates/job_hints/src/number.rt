ghost use Rattle.std.specs.Prelude.{◌≡◌, Some};
ghost use Rattle.job_hints.specs.Advice.{number_sentence};
ghost use Rattle.job_hints.specs.Numbers.{is_digit_byte, number_advice, advice_after, is_zero, has_leading_zero, range_advice, passes_advice};

use crate::advice::Advice;
use crate::by_grammar::keyword_in;
use job_syntax::{Keyword, object_named};
use job_tokens::Shape;
use job_tree::{Format, is_digit};

/// A number that has another form than was written, or is out of its range.
#[derive(Clone, Copy)]
pub enum NumberAdvice {
    /// A unit after the digits.
    NoUnit,
    /// A `_` between the digits.
    NoSeparator,
    /// A zero before other digits.
    LeadingZero,
    /// The number of copies that `over` makes is out of its range.
    Copies,
    /// The number of lines in a tick, after `pace`, is out of its range.
    Pace,
    /// The number of passes of a `repeat` is out of its range.
    Passes,
    /// The number of tokens of a limiter is out of its range.
    Tokens,
    /// The number of places of a channel is out of its range.
    Places,
    /// Another number is out of its range.
    Other,
    /// A limiter or a channel without a number.
    Uncounted,
}

impl NumberAdvice {
    /// Returns the sentence, with its newline.
    pub fn text(self) -> &'static str
        ensures { result.now ≡ number_sentence self }
    {
        match self {
            NumberAdvice::NoUnit => {
                "a number is digits alone: times are whole ticks without a unit, as in `sleep 500;`\n"
            }
            NumberAdvice::NoSeparator => "a number is digits alone: `1000`, and not `1_000`\n",
            NumberAdvice::LeadingZero => "a number has no leading zero: `5`, and not `05`\n",
            NumberAdvice::Copies => "the number after `over` is from 1 to 64\n",
            NumberAdvice::Pace => "the number after `pace` is from 1 to 1000000\n",
            NumberAdvice::Passes => "the number after `repeat` is from 0 to 1000\n",
            NumberAdvice::Tokens => "the number of tokens of a limiter is from 1 to 1000000\n",
            NumberAdvice::Places => "the number of places of a channel is from 0 to 1000000\n",
            NumberAdvice::Other => "the number here is from 0 to 1000000000\n",
            NumberAdvice::Uncounted => {
                "a limiter has the number of its tokens after its name, a channel that of its places: `limiter NAME 2 { .. }`, `channel NAME 0 { .. }`\n"
            }
        }
    }
}

/// Returns the hint for a number that is refused in a text of this format: that it has a leading zero, or the range of a number
/// after the two tokens before it, `earlier` and `before`. `rest` is the text from the number on.
pub fn number_advice(
    format: Format,
    earlier: Option<Shape>,
    before: Option<Shape>,
    rest: &[u8],
) -> Advice
    ensures { result ≡ number_advice format earlier before rest.now }
{
    if has_leading_zero(rest) {
        return Advice::Number(NumberAdvice::LeadingZero);
    }
    match before {
        Some(before) => advice_after(format, keyword_in(earlier), &before),
        None => range_advice(format, None),
    }
}

// Returns the range of a number after a token, which comes after this keyword.
fn advice_after(format: Format, earlier: Option<Keyword>, before: &Shape) -> Advice
    ensures { result ≡ advice_after format earlier (Some before.now) }
{
    match object_named(format, earlier, *before) {
        Some(Keyword::Limiter) => Advice::Number(NumberAdvice::Tokens),
        Some(Keyword::Channel) => Advice::Number(NumberAdvice::Places),
        _ => range_advice(format, keyword_in(Some(*before))),
    }
}

// Returns whether a number has a leading zero.
fn has_leading_zero(rest: &[u8]) -> bool
    ensures { result ≡ has_leading_zero rest.now }
{
    is_zero(rest.first().copied()) && is_digit_byte(rest.get(1).copied())
}

// Returns whether there is a byte, and it is the digit zero.
fn is_zero(byte: Option<u8>) -> bool
    ensures { result ≡ is_zero byte }
{
    match byte {
        Some(byte) => byte == b'0',
        None => false,
    }
}

// Returns whether there is a byte, and it is a digit.
pub(crate) fn is_digit_byte(byte: Option<u8>) -> bool
    ensures { result ≡ is_digit_byte byte }
{
    match byte {
        Some(byte) => is_digit(byte),
        None => false,
    }
}

// Returns the range of a number after a keyword.
fn range_advice(format: Format, before: Option<Keyword>) -> Advice
    ensures { result ≡ range_advice format before }
{
    match before {
        Some(Keyword::Over) => Advice::Number(NumberAdvice::Copies),
        Some(Keyword::Pace) => Advice::Number(NumberAdvice::Pace),
        Some(Keyword::Repeat) => passes_advice(format),
        _ => Advice::Number(NumberAdvice::Other),
    }
}

// Returns the range of a number after `repeat`, which begins no step in format 1.
fn passes_advice(format: Format) -> Advice
    ensures { result ≡ passes_advice format }
{
    if format.extends_format_1() {
        Advice::Number(NumberAdvice::Passes)
    } else {
        Advice::Number(NumberAdvice::Other)
    }
}
