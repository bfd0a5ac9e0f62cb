ghost use Rattle.std.specs.Prelude.{◌≡◌};
ghost use Rattle.job_syntax.specs.Ranges.{if_object, object_of, object_named, most_passes, range_after, range_of, fits, is_in_range, keyword_in, number_fault};

use crate::keyword::{Keyword, is_kept};
use job_tokens::{Shape, Token};
use job_tree::{Format, MAX_COPIES, MAX_NUMBER, MAX_PACE, MAX_PASSES, MAX_PLACES, MAX_TOKENS};

/// Returns the place of the first number that has a leading zero or is out of its range in a text of this format, or `None` if
/// there is none. The range depends on the keyword directly before the number, and after the name of a limiter or channel on
/// the keyword before that name.
pub fn number_fault(format: Format, tokens: &[Token]) -> Option<usize>
    ensures { result ≡ number_fault format tokens.now }
{
    let mut named = None;
    let mut before = None;
    for token in tokens {
        if !is_in_range(format, named, before, token.shape) {
            return Some(token.at);
        }
        named = object_named(format, before, token.shape);
        before = keyword_in(token.shape);
    }
    None
}

/// Returns the `limiter` or `channel` that a token names, given the keyword before it: that keyword, if it is one of these, the
/// format has them, and the token is a word that may be a name.
pub fn object_named(format: Format, before: Option<Keyword>, shape: Shape) -> Option<Keyword>
    ensures { result ≡ object_named format before shape }
{
    match shape {
        Shape::Word(word) => {
            if is_kept(Keyword::of(word)) {
                None
            } else {
                object_of(format, before)
            }
        }
        Shape::Number(_) => None,
        Shape::Text(_) => None,
        Shape::Mark(_) => None,
    }
}

// Returns the keyword if it is `limiter` or `channel`, and the format has them.
fn object_of(format: Format, before: Option<Keyword>) -> Option<Keyword>
    ensures { result ≡ object_of format before }
{
    if !format.has_events() {
        return None;
    }
    if_object(before)
}

fn if_object(before: Option<Keyword>) -> Option<Keyword>
    ensures { result ≡ if_object before }
{
    match before {
        Some(Keyword::Limiter) => Some(Keyword::Limiter),
        Some(Keyword::Channel) => Some(Keyword::Channel),
        _ => None,
    }
}

// Returns the keyword that a token is, if it is one.
fn keyword_in(shape: Shape) -> Option<Keyword>
    ensures { result ≡ keyword_in shape }
{
    match shape {
        Shape::Word(word) => Keyword::of(word),
        Shape::Number(_) => None,
        Shape::Text(_) => None,
        Shape::Mark(_) => None,
    }
}

// Returns whether a token is not a number, or is a number in its range. `named` is the `limiter` or `channel` that the token
// before it names, and `before` the keyword that this token is.
fn is_in_range(
    format: Format,
    named: Option<Keyword>,
    before: Option<Keyword>,
    shape: Shape,
) -> bool
    ensures { result ≡ is_in_range format named before shape }
{
    match shape {
        Shape::Word(_) => true,
        Shape::Number(number) => fits(format, named, before, number),
        Shape::Text(_) => true,
        Shape::Mark(_) => true,
    }
}

fn fits(
    format: Format,
    named: Option<Keyword>,
    before: Option<Keyword>,
    number: Option<u64>,
) -> bool
    ensures { result ≡ fits format named before number }
{
    match number {
        Some(number) => {
            let (least, most) = range_of(format, named, before);
            least <= number && number <= most
        }
        None => false,
    }
}

// Returns the minimum and the maximum of a number, of which the same is given.
fn range_of(format: Format, named: Option<Keyword>, before: Option<Keyword>) -> (u64, u64)
    ensures { result ≡ range_of format named before }
{
    match named {
        Some(Keyword::Limiter) => (1, MAX_TOKENS),
        Some(Keyword::Channel) => (0, MAX_PLACES),
        _ => range_after(format, before),
    }
}

// Returns the minimum and the maximum of a number after a keyword.
fn range_after(format: Format, before: Option<Keyword>) -> (u64, u64)
    ensures { result ≡ range_after format before }
{
    match before {
        Some(Keyword::Over) => (1, MAX_COPIES),
        Some(Keyword::Pace) => (1, MAX_PACE),
        Some(Keyword::Repeat) => (0, most_passes(format)),
        _ => (0, MAX_NUMBER),
    }
}

// Returns the maximum of a number after `repeat`. In format 1, `repeat` begins no step, so the maximum is that of
// any number.
fn most_passes(format: Format) -> u64
    ensures { result ≡ most_passes format }
{
    if format.extends_format_1() {
        MAX_PASSES
    } else {
        MAX_NUMBER
    }
}
