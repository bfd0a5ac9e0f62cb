ghost use Rattle.std.specs.Prelude.{◌≡◌, IfOk};
ghost use Rattle.job_syntax.specs.Syntax.{whole_job};
ghost use Rattle.refusal_text.specs.Expecting.{expected_nonterminal};

use job_reader::Format;
use job_syntax::Nonterminal;
use job_tokens::Token;
use std::alloc::{AllocError, Global};

// Returns what the grammar of a format expects at the place where tokens leave it, or `None` if it expects the end of the
// text.
pub(crate) fn expected_nonterminal(
    alloc: Global,
    format: Format,
    tokens: &[Token],
) -> Result<Option<Nonterminal>, AllocError>
    ensures { IfOk result (λ nonterminal. nonterminal ≡ expected_nonterminal format whole_job tokens.now) }
{
    let mut stack = Vec::new(alloc);
    stack.push(Nonterminal::Job)?;
    for token in tokens {
        let Some(nonterminal) = stack.pop() else {
            return Ok(None);
        };
        let Some(rest) = nonterminal.next(format, token.shape) else {
            return Ok(Some(nonterminal));
        };
        stack.extend_from_slice(rest)?;
    }
    Ok(stack.pop())
}
