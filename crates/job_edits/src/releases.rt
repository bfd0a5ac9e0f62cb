//! The ends of the blocks of `acquire`s. For each open block, the innermost last, the name in its `acquire` is kept, or `None` if
//! it is the block of something else.

ghost use Rattle.std.specs.Prelude.{◌≡◌, reverse, OnOk};
ghost use Rattle.job_tokens.specs.Shapes.{mark_in};
ghost use Rattle.job_edits.specs.Copied.{blocks_by};
ghost use Rattle.job_edits.specs.Releases.{acquired_by, innermost};
ghost use Rattle.job_edits.specs.Waiting.{step_keyword};

use crate::waiting::{first_name, step_keyword};
use job_syntax::Keyword;
use job_tokens::{Mark, Token};
use job_tree::Name;
use std::alloc::AllocError;

// Changes the open blocks to those after this token. `acquired` is the name in the `acquire` whose block is opened next.
pub(crate) fn pass_mark(
    blocks: &mut Vec<Option<Name>>,
    acquired: &Option<Name>,
    token: Token,
) -> Result<(), AllocError>
    ensures { OnOk result (reverse blocks.new.items ≡ blocks_by (reverse blocks.old.items) acquired.now (mark_in token.shape)) }
{
    match token.shape.mark() {
        Some(Mark::Open) => {
            blocks.push(copy_of(acquired))?;
            Ok(())
        }
        Some(Mark::Close) => {
            blocks.pop();
            Ok(())
        }
        Some(Mark::Semicolon) => Ok(()),
        None => Ok(()),
    }
}

fn copy_of(name: &Option<Name>) -> Option<Name>
    ensures { result ≡ name.now }
{
    match name {
        Some(name) => Some(*name),
        None => None,
    }
}

// Returns the name in the `acquire` whose block is opened next after this token, if there is one. `before` says so of the tokens
// before it, `begins` says whether a step may begin at the token, and `others` are the tokens after it.
pub(crate) fn acquired_after(
    before: &Option<Name>,
    begins: bool,
    token: Token,
    others: &[Token],
) -> Option<Name>
    ensures { result ≡ acquired_by before.now (mark_in token.shape) (step_keyword begins token) others.now }
{
    if token.shape.mark() == Some(Mark::Open) {
        return None;
    }
    match step_keyword(begins, token) {
        Some(Keyword::Acquire) => first_name(others),
        _ => copy_of(before),
    }
}

// Returns the name in the `acquire` of the innermost of these blocks, which is the last, if it has one.
pub(crate) fn innermost(blocks: &[Option<Name>]) -> Option<Name>
    ensures { result ≡ innermost (reverse blocks.now) }
{
    let Some((inner, _)) = blocks.split_last() else {
        return None;
    };
    copy_of(inner)
}
