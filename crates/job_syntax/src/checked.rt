ghost use Rattle.std.specs.Prelude.{◌≡◌, IfOk, None};
ghost use Rattle.job_syntax.specs.Syntax.{fault_at, role_of, roles_at, whole_job};

use crate::nonterminal::Nonterminal;
use crate::role::Role;
use job_tokens::Token;
use job_tree::Format;
use std::alloc::{AllocError, Global};

/// The result of checking the tokens of a text against the grammar.
#[derive(Drop)]
pub struct GrammarCheck {
    /// The place at which the tokens leave the grammar: that of the first token that no text of the grammar
    /// continues with, or the end of the text if the tokens end too early. `None` if they are the tokens of a whole
    /// job.
    pub fault: Option<usize>,
    /// The role of each token, in order. It is meaningful only if `fault` is `None`.
    pub roles: Vec<Role>,
}

/// Checks the tokens of a text of the given format against the grammar. The text ends at place `end`. The only
/// error is that memory runs out.
pub fn check_grammar(
    alloc: Global,
    format: Format,
    tokens: &[Token],
    end: usize,
) -> Result<GrammarCheck, AllocError>
    ensures fault { IfOk result (λ c. c.fault ≡ fault_at format end whole_job tokens.now) }
    ensures roles { IfOk result (λ c. c.fault ≡ None → c.roles.items ≡ roles_at format whole_job tokens.now) }
{
    let mut stack = Vec::new(alloc);
    stack.push(Nonterminal::Job)?;
    let mut roles = Vec::new(alloc);
    for token in tokens {
        let Some(nonterminal) = stack.pop() else {
            return Ok(stopped_at(token.at, roles));
        };
        let Some(rest) = nonterminal.next(format, token.shape) else {
            return Ok(stopped_at(token.at, roles));
        };
        roles.push(nonterminal.role())?;
        stack.extend_from_slice(rest)?;
    }
    let fault = if stack.is_empty() { None } else { Some(end) };
    Ok(GrammarCheck { fault, roles })
}

// Returns the result for tokens that leave the grammar at that place.
fn stopped_at(at: usize, roles: Vec<Role>) -> GrammarCheck
    ensures { result ≡ record { fault = Some at; roles = roles } }
{
    GrammarCheck {
        fault: Some(at),
        roles,
    }
}
