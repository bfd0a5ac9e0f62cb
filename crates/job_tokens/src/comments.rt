//! What stands between the tokens of a text: blanks, and comments from `#` to the end of their line.

ghost use Rattle.std.specs.Prelude.{◌≡◌, ◌≤◌, true, length};
ghost use Rattle.job_tokens.specs.Lexing.{after_blanks, token_at};
ghost use Rattle.job_tokens.specs.Comments.{separator, rest_of, line_at, after_line};

use crate::blanks::{ends_line, skip_blanks};
use crate::lexing::token_at;
use job_tree::Format;

/// Splits bytes between tokens of a text with comments: returns the blanks and comments that they begin with, and the bytes
/// after those. Does not allocate.
pub fn split_separator(bytes: &[u8]) -> (&[u8], &[u8])
    ensures separator { result.0.now ≡ separator bytes.now }
    ensures rest { result.1.now ≡ after_blanks true bytes.now }
{
    let rest = skip_blanks(Format::Three, bytes);
    let (separator, _) = bytes.split_at(bytes.len() - rest.len());
    (separator, rest)
}

/// Returns the bytes after the token that they begin with, or no bytes if they begin with no token. Does not allocate.
pub fn skip_token(bytes: &[u8]) -> &[u8]
    ensures { result.now ≡ rest_of (token_at bytes.now) }
{
    match token_at(bytes) {
        Some((_, rest)) => rest,
        None => bytes.split_at(bytes.len()).1,
    }
}

/// Splits bytes where their first line ends: returns the bytes before the newline or carriage return, and the bytes from
/// there on. Does not allocate.
#[tactic(auto, using(crate::proofs::Between::line_before))]
pub fn split_line(bytes: &[u8]) -> (&[u8], &[u8])
    ensures line { result.0.now ≡ line_at bytes.now }
    ensures rest { result.1.now ≡ after_line bytes.now }
{
    let rest = after_line(bytes);
    let (line, _) = bytes.split_at(bytes.len() - rest.len());
    (line, rest)
}

// Returns the bytes from the first that ends a line.
fn after_line(bytes: &[u8]) -> &[u8]
    ensures within { length result.now ≤ length bytes.now }
    ensures rest { result.now ≡ after_line bytes.now }
{
    let mut rest = bytes;
    'bytes: while let Some((first, others)) = rest.split_first() {
        if ends_line(*first) {
            return rest;
        }
        rest = others;
    }
    rest
}
