ghost use Rattle.std.specs.Prelude.{◌≡◌, [], IfOk};
ghost use Rattle.job_reader.specs.Given.{given_by, twice_in};

use indexmap::IndexSet;
use job_syntax::Role;
use job_tokens::{Shape, Token};
use job_tree::Name;
use std::alloc::{AllocError, Global};

/// Returns the place of the first name of a job, scope, nursery, event, limiter, channel or started task that was already given
/// to an earlier one, or `None` if there is none. `roles` are the roles of the tokens, in the same order. The only error is that
/// memory runs out.
pub fn given_twice(
    alloc: Global,
    tokens: &[Token],
    roles: &[Role],
) -> Result<Option<usize>, AllocError>
    ensures { IfOk result (λ at. at ≡ twice_in [] tokens.now roles.now) }
{
    let mut names = IndexSet::new(alloc);
    let mut left = roles;
    'tokens: for token in tokens {
        let Some((role, roles_left)) = left.split_first() else {
            return Ok(None);
        };
        left = roles_left;
        let Some(name) = given_by(*role, token.shape) else {
            continue 'tokens;
        };
        let is_new = names.insert(name)?;
        if !is_new {
            return Ok(Some(token.at));
        }
    }
    Ok(None)
}

// Returns the name that a token gives to a job, scope, nursery, event, limiter, channel or started task.
fn given_by(role: Role, shape: Shape) -> Option<Name>
    ensures { result ≡ given_by role shape }
{
    match role {
        Role::Plain => None,
        Role::Given => shape.word(),
        Role::Raised => None,
        Role::Handled => None,
        Role::Target => None,
    }
}
