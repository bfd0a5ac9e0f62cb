ghost use Rattle.std.specs.Prelude.{◌≡◌, [], ◌++◌, reverse, IfOk, OnOk};
ghost use Rattle.job_tokens.specs.Shapes.{mark_in};
ghost use Rattle.job_edits.specs.Copied.{repeats_after, blocks_by, is_in_repeat, count_by, count_in, copied_start, start_from, copied_at, with_copied, copied_in};

use crate::waiting::{first_number, keyword_in};
use job_syntax::Keyword;
use job_tokens::{Mark, Token};
use job_tree::Name;
use std::alloc::{AllocError, Global};

/// A `start` of a job text that starts several tasks: a `start NAME over N`, or a `start` in a `repeat` in a nursery.
#[derive(Clone, Copy)]
pub struct CopiedStart {
    /// The place of the keyword `start`, in bytes from the start of the text.
    pub from: usize,
    /// The name of the tasks that it starts.
    pub name: Name,
    /// The number of tasks that it starts at once, or `None` if it has no `over`.
    pub count: Option<u64>,
}

/// Returns each `start` of the job text with these tokens that starts several tasks, in the order of their places: each
/// `start NAME over N`, and each `start` in a `repeat` in a nursery. The only error is that memory runs out.
pub fn copied_starts(alloc: Global, tokens: &[Token]) -> Result<Vec<CopiedStart>, AllocError>
    ensures { IfOk result (λ starts. starts.items ≡ copied_in tokens.now) }
{
    let mut starts = Vec::new(alloc);
    let mut blocks = Vec::new(alloc);
    let mut repeats = false;
    let mut rest = tokens;
    'tokens: while let Some((token, others)) = rest.split_first() {
        push_copied(&mut starts, blocks.as_slice(), *token, others)?;
        pass_mark(&mut blocks, repeats, *token)?;
        repeats = repeats_after(repeats, *token);
        rest = others;
    }
    Ok(starts)
}

// Changes the open blocks to those after this token. For each, the innermost last, they say whether it is that of a `repeat`;
// `repeats` says so of the next one.
fn pass_mark(blocks: &mut Vec<bool>, repeats: bool, token: Token) -> Result<(), AllocError>
    ensures { OnOk result (reverse blocks.new.items ≡ blocks_by (reverse blocks.old.items) repeats (mark_in token.shape)) }
{
    match token.shape.mark() {
        Some(Mark::Open) => {
            blocks.push(repeats)?;
            Ok(())
        }
        Some(Mark::Close) => {
            blocks.pop();
            Ok(())
        }
        Some(Mark::Semicolon) => Ok(()),
        None => Ok(()),
    }
}

// Returns whether the next block to be opened after this token is that of a `repeat`. `before` says so of the tokens before it.
fn repeats_after(before: bool, token: Token) -> bool
    ensures { result ≡ repeats_after before token }
{
    if token.shape.mark() == Some(Mark::Open) {
        return false;
    }
    match keyword_in(token) {
        Some(Keyword::Repeat) => true,
        _ => before,
    }
}

// Returns whether the innermost of these blocks, which is the last, is that of a `repeat`.
fn is_in_repeat(blocks: &[bool]) -> bool
    ensures { result ≡ is_in_repeat (reverse blocks.now) }
{
    let Some((inner, _)) = blocks.split_last() else {
        return false;
    };
    *inner
}

// Appends the start of several tasks that begins at this token, if there is one. `others` are the tokens after it.
fn push_copied(
    starts: &mut Vec<CopiedStart>,
    blocks: &[bool],
    token: Token,
    others: &[Token],
) -> Result<(), AllocError>
    ensures { OnOk result (starts.new.items
        ≡ starts.old.items ++ with_copied (copied_at (reverse blocks.now) token others.now) []) }
{
    let Some(start) = copied_at(blocks, token, others) else {
        return Ok(());
    };
    starts.push(start)?;
    Ok(())
}

// Returns the start of several tasks that begins at this token, if there is one. `others` are the tokens after it.
fn copied_at(blocks: &[bool], token: Token, others: &[Token]) -> Option<CopiedStart>
    ensures { result ≡ copied_at (reverse blocks.now) token others.now }
{
    let from = token.at;
    match keyword_in(token)? {
        Keyword::Start => start_from(from, is_in_repeat(blocks), others),
        _ => None,
    }
}

// Returns the start of several tasks whose keyword is at `from`. `looped` says whether it is in a `repeat`, and `tokens` are the
// tokens after the keyword.
fn start_from(from: usize, looped: bool, tokens: &[Token]) -> Option<CopiedStart>
    ensures { result ≡ start_from from looped tokens.now }
{
    let (token, others) = tokens.split_first()?;
    let name = token.shape.word()?;
    copied_start(from, name, count_in(others), looped)
}

// Returns a `start`, if it has `over` or is in a `repeat`.
fn copied_start(from: usize, name: Name, count: Option<u64>, looped: bool) -> Option<CopiedStart>
    ensures { result ≡ copied_start from name count looped }
{
    match count {
        Some(count) => Some(CopiedStart {
            from,
            name,
            count: Some(count),
        }),
        None => {
            if looped {
                Some(CopiedStart {
                    from,
                    name,
                    count: None,
                })
            } else {
                None
            }
        }
    }
}

// Returns how many copies are started. `tokens` are the tokens after the name.
fn count_in(tokens: &[Token]) -> Option<u64>
    ensures { result ≡ count_in tokens.now }
{
    let (token, others) = tokens.split_first()?;
    count_by(keyword_in(*token), others)
}

// Returns how many copies are started, given the keyword after the name and the tokens after that keyword.
fn count_by(keyword: Option<Keyword>, tokens: &[Token]) -> Option<u64>
    ensures { result ≡ count_by keyword tokens.now }
{
    match keyword {
        Some(Keyword::Over) => first_number(tokens),
        _ => None,
    }
}
