ghost use Rattle.std.specs.Prelude.{◌≡◌, drop, None, IfOk};
ghost use Rattle.job_reader.specs.Refusals.{Spells, HasTokens};

use crate::job::Job;
use crate::reading::{FIRST_LINE_LENGTH, format_of};
use job_tokens::{Lexed, Token, lex};
use std::alloc::{AllocError, Global};

/// Returns the tokens of a text. The caller must ensure that the text spells the job. The only error is that memory runs
/// out.
#[tactic(auto, unfolding(crate::specs::Refusals::may_have_comments))]
pub fn spelled_tokens(alloc: Global, text: &[u8], job: &Job) -> Result<Vec<Token>, AllocError>
    requires { Spells text.now job.now }
    ensures { IfOk result (λ tokens. HasTokens text.now tokens.items None) }
{
    let Lexed { tokens, fault } = lex(alloc, format_of(text), after_first_line(text), text.len())?;
    match fault {
        None => Ok(tokens),
        Some(_) => unreachable!(),
    }
}

// Returns the bytes after the first line of a text.
fn after_first_line(text: &[u8]) -> &[u8]
    ensures { result.now ≡ drop 11 text.now }
{
    text.split_at(FIRST_LINE_LENGTH.min(text.len())).1
}
