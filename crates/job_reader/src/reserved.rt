ghost use Rattle.std.specs.Prelude.{◌≡◌};
ghost use Rattle.job_reader.specs.Reserved.{reserved_in, allows, is_free, may_be_handled, is_reserved};

use job_syntax::{Keyword, Role, is_kept};
use job_tokens::{Shape, Token};
use job_tree::Name;

/// Returns the place of the first name that is reserved, or `None` if there is none. The keywords and `Cancelled`
/// are reserved, and `TooSlow` is reserved everywhere except after `except`. The keywords that format 3 added are
/// not reserved. `roles` are the roles of the tokens, in the same order.
pub fn reserved_name(tokens: &[Token], roles: &[Role]) -> Option<usize>
    ensures { result ≡ reserved_in tokens.now roles.now }
{
    let mut left = roles;
    'tokens: for token in tokens {
        let Some((role, roles_left)) = left.split_first() else {
            return None;
        };
        left = roles_left;
        if !allows(*role, token.shape) {
            return Some(token.at);
        }
    }
    None
}

// Returns whether a token is allowed in its role.
fn allows(role: Role, shape: Shape) -> bool
    ensures { result ≡ allows role shape }
{
    match role {
        Role::Plain => true,
        Role::Given => is_free(shape.word()),
        Role::Raised => is_free(shape.word()),
        Role::Handled => may_be_handled(shape.word()),
        Role::Target => is_free(shape.word()),
    }
}

fn is_free(word: Option<Name>) -> bool
    ensures { result ≡ is_free word }
{
    match word {
        Some(word) => !(is_reserved(word) || word.bytes() == b"TooSlow".as_slice()),
        None => true,
    }
}

fn may_be_handled(word: Option<Name>) -> bool
    ensures { result ≡ may_be_handled word }
{
    match word {
        Some(word) => !is_reserved(word),
        None => true,
    }
}

// Returns whether the word is a keyword that may not be a name, or `Cancelled`.
fn is_reserved(word: Name) -> bool
    ensures { result ≡ is_reserved word }
{
    is_kept(Keyword::of(word)) || word.bytes() == b"Cancelled".as_slice()
}
