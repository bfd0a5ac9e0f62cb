ghost use Rattle.std.specs.Prelude.{◌≡◌, [], None, IfOk, slice_get};
ghost use Rattle.job_hints.specs.ByGrammar.{keyword_in};
ghost use Rattle.refusal_text.specs.Scanning.{shape_at, last_before, earlier_before, open_blocks, gives, first_given_place, is_started, begins_task};

use job_hints::keyword_in;
use job_syntax::{Keyword, Role};
use job_tokens::{Mark, Shape, Token};
use job_tree::Name;
use std::alloc::{AllocError, Global};

// Returns the token at a place.
pub(crate) fn shape_at(tokens: &[Token], at: usize) -> Option<Shape>
    ensures { result ≡ shape_at at tokens.now }
{
    'tokens: for token in tokens {
        if token.at == at {
            return Some(token.shape);
        }
    }
    None
}

// Returns the last token before a place.
pub(crate) fn last_before(tokens: &[Token], at: usize) -> Option<Shape>
    ensures { result ≡ last_before at None tokens.now }
{
    let mut last = None;
    'tokens: for token in tokens {
        if token.at >= at {
            return last;
        }
        last = Some(token.shape);
    }
    last
}

// Returns the token before the last token before a place.
pub(crate) fn earlier_before(tokens: &[Token], at: usize) -> Option<Shape>
    ensures { result ≡ earlier_before at None None tokens.now }
{
    let mut earlier = None;
    let mut last = None;
    'tokens: for token in tokens {
        if token.at >= at {
            return earlier;
        }
        earlier = last;
        last = Some(token.shape);
    }
    earlier
}

// Returns the place of the innermost `{` that is not closed.
pub(crate) fn innermost_open_block(
    alloc: Global,
    tokens: &[Token],
) -> Result<Option<usize>, AllocError>
    ensures { IfOk result (λ at. at ≡ slice_get (open_blocks [] tokens.now) 0) }
{
    let mut open = Vec::new(alloc);
    'tokens: for token in tokens {
        match token.shape.mark() {
            Some(Mark::Open) => open.push(token.at)?,
            Some(Mark::Close) => {
                open.pop();
            }
            Some(Mark::Semicolon) | None => (),
        }
    }
    Ok(open.pop())
}

// Returns the place of the first token that gives this name.
pub(crate) fn first_given_place(tokens: &[Token], roles: &[Role], name: Name) -> Option<usize>
    ensures { result ≡ first_given_place name tokens.now roles.now }
{
    let mut left = roles;
    'tokens: for token in tokens {
        let (role, others) = left.split_first()?;
        left = others;
        if gives(*role, token.shape.word(), name) {
            return Some(token.at);
        }
    }
    None
}

// Returns whether a token with this role and this word gives a name.
fn gives(role: Role, word: Option<Name>, name: Name) -> bool
    ensures { result ≡ gives role word name }
{
    match (role, word) {
        (Role::Given, Some(word)) => word == name,
        _ => false,
    }
}

// Returns whether a task with this name is started: whether the name follows the keyword `start`.
pub(crate) fn is_started(tokens: &[Token], name: Name) -> bool
    ensures { result ≡ is_started name None tokens.now }
{
    let mut before = None;
    'tokens: for token in tokens {
        if begins_task(before, token.shape.word(), name) {
            return true;
        }
        before = Some(token.shape);
    }
    false
}

// Returns whether a word after this token is the name of a task, and is this name.
fn begins_task(before: Option<Shape>, word: Option<Name>, name: Name) -> bool
    ensures { result ≡ begins_task (keyword_in before) word name }
{
    match (keyword_in(before), word) {
        (Some(Keyword::Start), Some(word)) => word == name,
        _ => false,
    }
}
