ghost use Rattle.std.specs.Prelude.{◌≡◌, ◌<◌, ◌≤◌, length, IfOk, IfSome};
ghost use Rattle.job_tokens.specs.Lexing.{has_comments, token_at, Gives, Lexes};

use crate::blanks::skip_blanks;
use crate::token::{Mark, Shape, Token};
use crate::{number, string, word};
use job_tree::{Format, is_digit, is_letter};
use std::alloc::{AllocError, Global};

/// The tokens of a text, up to the first place from which no token can be read.
#[derive(Drop)]
pub struct Lexed {
    /// The tokens, in order.
    pub tokens: Vec<Token>,
    /// The place of the first byte from which no token can be read, or `None` if the whole text was read.
    pub fault: Option<usize>,
}

/// Reads the tokens of `bytes`, which are the last bytes of a text of `end` bytes, in a format. Places are counted in bytes
/// from the start of that text. Blanks separate tokens, and so do the comments of a format that has them (`has_comments`).
/// The caller must ensure that `bytes` has at most `end` bytes. The only error is that memory runs out; bytes that are no
/// token are reported in `Lexed::fault`.
pub fn lex(alloc: Global, format: Format, bytes: &[u8], end: usize) -> Result<Lexed, AllocError>
    requires { length bytes.now ≤ end }
    ensures { IfOk result (λ found. Lexes (has_comments format) end bytes.now found.tokens.items found.fault) }
{
    let mut tokens = Vec::new(alloc);
    let mut rest = skip_blanks(format, bytes);
    while !rest.is_empty() {
        let at = end - rest.len();
        let Some((shape, after)) = token_at(rest) else {
            return Ok(Lexed {
                tokens,
                fault: Some(at),
            });
        };
        tokens.push(Token { at, shape })?;
        rest = skip_blanks(format, after);
    }
    Ok(Lexed {
        tokens,
        fault: None,
    })
}

// Returns the token at the start of the bytes, and the bytes after it.
pub(crate) fn token_at(bytes: &[u8]) -> Option<(Shape, &[u8])>
    ensures value { Gives (λ x. (x.0, x.1.now)) result (token_at bytes.now) }
    ensures shorter { IfSome result (λ x. length x.1.now < length bytes.now) }
{
    let (first, rest) = bytes.split_first()?;
    if is_letter(*first) {
        return word::word_at(bytes);
    }
    if is_digit(*first) {
        return number::number_at(bytes);
    }
    match *first {
        b'"' => string::string_at(rest),
        b'{' => Some((Shape::Mark(Mark::Open), rest)),
        b'}' => Some((Shape::Mark(Mark::Close), rest)),
        b';' => Some((Shape::Mark(Mark::Semicolon), rest)),
        _ => None,
    }
}
