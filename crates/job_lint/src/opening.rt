ghost use Rattle.std.specs.Prelude.{◌≡◌, ◌++◌, [], IfOk, OnOk};
ghost use Rattle.job_lint.specs.Openings.{is_opening, opens_after, begins, with_place, opening_places};

use job_syntax::Keyword;
use job_tokens::{Shape, Token};
use std::alloc::{AllocError, Global};

// Returns the places of the opening keywords among these tokens, in order.
pub(crate) fn opening_places(alloc: Global, tokens: &[Token]) -> Result<Vec<usize>, AllocError>
    ensures { IfOk result (λ places. places.items ≡ opening_places tokens.now) }
{
    let mut places = Vec::new(alloc);
    let mut opens = false;
    let mut rest = tokens;
    'tokens: while let Some((token, others)) = rest.split_first() {
        push_place(&mut places, opens, *token)?;
        opens = opens_after(token.shape);
        rest = others;
    }
    Ok(places)
}

// Appends the place of a token, if the token is an opening keyword. `opens` says whether one may stand there.
fn push_place(places: &mut Vec<usize>, opens: bool, token: Token) -> Result<(), AllocError>
    ensures { OnOk result (places.new.items ≡ places.old.items ++ with_place (begins opens token.shape) token.at []) }
{
    let at = token.at;
    if begins(opens, token.shape) {
        places.push(at)?;
    }
    Ok(())
}

// Returns whether an opening keyword may stand after a token: after a mark, where no name may be.
fn opens_after(shape: Shape) -> bool
    ensures { result ≡ opens_after shape }
{
    shape.mark().is_some()
}

// Returns whether a token is an opening keyword.
fn begins(opens: bool, shape: Shape) -> bool
    ensures { result ≡ begins opens shape }
{
    if !opens {
        return false;
    }
    let Some(word) = shape.word() else {
        return false;
    };
    match Keyword::of(word) {
        Some(keyword) => is_opening(keyword),
        None => false,
    }
}

// Returns whether a keyword begins a step, a handler or a cleanup.
fn is_opening(keyword: Keyword) -> bool
    ensures { result ≡ is_opening keyword }
{
    match keyword {
        Keyword::Job | Keyword::After | Keyword::At => false,
        Keyword::Shield | Keyword::Fail | Keyword::Over => false,
        _ => true,
    }
}
