ghost use Rattle.std.specs.Prelude.{◌≡◌};
ghost use Rattle.job_hints.specs.ByBytes.{has_order_mark, has_returns, has_blank, names_a_format, version_advice, first_line_advice, lexical_advice, method_advice, after_digits, form_advice, after_number, call_or_byte_advice, dot_advice, hyphen_advice, plain_advice, byte_advice};

use crate::advice::Advice;
use crate::number::{NumberAdvice, is_digit_byte};
use crate::python::PythonSyntax;
use crate::shared::object_method_advice;
use crate::words::{TrioWord, word_advice};
use job_tokens::Shape;
use job_tree::{is_digit, is_word_byte};

/// Returns whether the text begins with the byte order mark of UTF-8 or of UTF-16.
pub fn has_order_mark(text: &[u8]) -> bool
    ensures { result ≡ has_order_mark text.now }
{
    text.starts_with(b"\xef\xbb\xbf")
        || (text.starts_with(b"\xff\xfe") || text.starts_with(b"\xfe\xff"))
}

/// Returns the hint for a text that begins with the first line of no format, or `None` if there is none.
pub fn version_advice(text: &[u8]) -> Option<Advice>
    ensures { result ≡ version_advice text.now }
{
    if has_returns(text) {
        return Some(Advice::CarriageReturn);
    }
    if has_blank(text) {
        return Some(Advice::BlankAfterVersion);
    }
    first_line_advice(text)
}

// Returns whether the first line ends with a carriage return and a newline.
fn has_returns(text: &[u8]) -> bool
    ensures { result ≡ has_returns text.now }
{
    text.starts_with(b"trio-job 1\r\n")
        || (text.starts_with(b"trio-job 2\r\n") || text.starts_with(b"trio-job 3\r\n"))
}

// Returns whether a blank follows the number in the first line.
fn has_blank(text: &[u8]) -> bool
    ensures { result ≡ has_blank text.now }
{
    text.starts_with(b"trio-job 1 ")
        || (text.starts_with(b"trio-job 2 ") || text.starts_with(b"trio-job 3 "))
}

// Returns that the first line is missing, or that it has the number of no format.
fn first_line_advice(text: &[u8]) -> Option<Advice>
    ensures { result ≡ first_line_advice text.now }
{
    if !text.starts_with(b"trio-job") {
        return Some(Advice::NoFirstLine);
    }
    if names_a_format(text) {
        return None;
    }
    Some(Advice::UnknownFormat)
}

// Returns whether a text begins with the first line of a format, apart from what ends the line.
fn names_a_format(text: &[u8]) -> bool
    ensures { result ≡ names_a_format text.now }
{
    (text.starts_with(b"trio-job 1")
        || (text.starts_with(b"trio-job 2") || text.starts_with(b"trio-job 3")))
        && !is_digit_byte(text.get(10).copied())
}

/// Returns the hint for a place where no token begins: what a job has in place of a method or a function that is called there,
/// how a number is written, or what the byte is in other languages. `word` is the token before the place, `before` the byte
/// before it, and `rest` the text from the place on.
pub fn lexical_advice(word: Option<Shape>, before: Option<u8>, rest: &[u8]) -> Option<Advice>
    ensures { result ≡ lexical_advice word before rest.now }
{
    if let Some(advice) = method_advice(rest) {
        return Some(advice);
    }
    if let Some(advice) = form_advice(rest) {
        return Some(advice);
    }
    call_or_byte_advice(word, before, rest.first().copied())
}

// Returns what a job has in place of what is called after a dot, with which these bytes begin.
fn method_advice(rest: &[u8]) -> Option<Advice>
    ensures { result ≡ method_advice rest.now }
{
    if rest.starts_with(b".Event(") {
        Some(Advice::Trio(TrioWord::Event))
    } else if rest.starts_with(b".set(") {
        Some(Advice::Trio(TrioWord::SetEvent))
    } else if rest.starts_with(b".wait(") {
        Some(Advice::Trio(TrioWord::WaitEvent))
    } else {
        object_method_advice(rest)
    }
}

// Returns the hint for a number with a letter or a `_` after its digits.
fn form_advice(rest: &[u8]) -> Option<Advice>
    ensures { result ≡ form_advice rest.now }
{
    if !is_digit_byte(rest.first().copied()) {
        return None;
    }
    after_number(after_digits(rest).first().copied())
}

// Returns what is left after the digits with which these bytes begin.
fn after_digits(bytes: &[u8]) -> &[u8]
    ensures { result.now ≡ after_digits bytes.now }
{
    let mut left = bytes;
    'digits: while let Some((first, rest)) = left.split_first() {
        if !is_digit(*first) {
            return left;
        }
        left = rest;
    }
    left
}

// Returns the hint for the byte after the digits of a number.
fn after_number(byte: Option<u8>) -> Option<Advice>
    ensures { result ≡ after_number byte }
{
    match byte {
        Some(b'_') => Some(Advice::Number(NumberAdvice::NoSeparator)),
        Some(byte) if is_word_byte(byte) => Some(Advice::Number(NumberAdvice::NoUnit)),
        _ => None,
    }
}

// Returns the hint for a byte after another one: for a word that is called, or otherwise for the bytes.
fn call_or_byte_advice(word: Option<Shape>, before: Option<u8>, byte: Option<u8>) -> Option<Advice>
    ensures { result ≡ call_or_byte_advice word before byte }
{
    if byte == Some(b'(') {
        if let Some(advice) = word_advice(word) {
            return Some(advice);
        }
    }
    byte_advice(before, byte)
}

// Returns the hint for a byte with which no token begins, given the byte before it.
fn byte_advice(before: Option<u8>, byte: Option<u8>) -> Option<Advice>
    ensures { result ≡ byte_advice before byte }
{
    match byte {
        Some(b'.') => Some(dot_advice(before)),
        Some(b'-') => hyphen_advice(before),
        Some(byte) => plain_advice(byte),
        None => None,
    }
}

// Returns the hint for a `.`: a fraction, or a dotted name.
fn dot_advice(before: Option<u8>) -> Advice
    ensures { result ≡ dot_advice before }
{
    match before {
        Some(before) if is_digit(before) || before == b' ' => Advice::WholeTicks,
        _ => Advice::Python(PythonSyntax::NoDots),
    }
}

// Returns the hint for a `-` in a name.
fn hyphen_advice(before: Option<u8>) -> Option<Advice>
    ensures { result ≡ hyphen_advice before }
{
    match before {
        Some(before) if is_word_byte(before) => Some(Advice::Python(PythonSyntax::NoHyphens)),
        _ => None,
    }
}

// Returns the hint for a byte that other languages use.
fn plain_advice(byte: u8) -> Option<Advice>
    ensures { result ≡ plain_advice byte }
{
    match byte {
        b'#' => Some(Advice::NewerComment),
        b'/' => Some(Advice::CommentSign),
        b'\'' => Some(Advice::Python(PythonSyntax::DoubleQuotes)),
        b'(' | b')' => Some(Advice::Python(PythonSyntax::NoParentheses)),
        b':' => Some(Advice::Python(PythonSyntax::NoColons)),
        b'|' => Some(Advice::Python(PythonSyntax::OneException)),
        b'*' => Some(Advice::Python(PythonSyntax::NoStars)),
        b'=' => Some(Advice::Python(PythonSyntax::NoVariables)),
        b',' => Some(Advice::Python(PythonSyntax::NoLists)),
        _ => None,
    }
}
