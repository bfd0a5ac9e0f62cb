ghost use Rattle.std.specs.Prelude.{◌≡◌, IfOk};
ghost use Rattle.job_reader.specs.Refusals.{HasTokens, format_of};

use job_reader::{FIRST_LINE_LENGTH, Format, format_of};
use job_tokens::{Lexed, Token, lex};
use std::alloc::{AllocError, Global};

/// The format and the tokens of a refused text, read once to explain its refusal.
#[derive(Drop)]
pub(crate) struct LexedText {
    /// The format of the first line, or format 1 if the text begins with no first line.
    pub format: Format,
    /// The tokens after the first line, in order, up to `fault`.
    pub tokens: Vec<Token>,
    /// The first place from which no token can be read, or `None` if the whole text was read.
    pub fault: Option<usize>,
}

impl LexedText {
    // Lexes a text. The only error is that memory runs out.
    pub(crate) fn new(alloc: Global, text: &[u8]) -> Result<LexedText, AllocError>
        ensures tokens { IfOk result (λ lexed. HasTokens text.now lexed.tokens.items lexed.fault) }
        ensures format { IfOk result (λ lexed. lexed.format ≡ format_of text.now) }
    {
        let (_, body) = text.split_at(FIRST_LINE_LENGTH.min(text.len()));
        let format = format_of(text);
        let Lexed { tokens, fault } = lex(alloc, format, body, text.len())?;
        Ok(LexedText {
            format,
            tokens,
            fault,
        })
    }
}
