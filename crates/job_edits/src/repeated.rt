ghost use Rattle.std.specs.Prelude.{◌≡◌, ◌<◌, [], ◌++◌, Some, true, IfOk, OnOk};
ghost use Rattle.job_tokens.specs.Shapes.{mark_in};
ghost use Rattle.job_edits.specs.Waiting.{step_keyword};
ghost use Rattle.job_edits.specs.Repeated.{depth_by, closes, closing_from, is_by_input, by_input_before, is_divided, opened_block, counted_block, numbered_block, over_block, named_block, start_block, passes_by, repeat_block, block_by, with_block, repeated_in};

use crate::number::{Number, number_of};
use crate::waiting::{begins_after, keyword_in, step_keyword};
use job_syntax::Keyword;
use job_tokens::{Mark, Token};
use job_tree::Name;
use std::alloc::{AllocError, Global};

/// A block that runs several times: that of a `start NAME over N`, of which N copies run, or that of a `repeat N` or
/// `repeat over N`, which runs N passes. Places are in bytes from the start of the text.
#[derive(Clone, Copy)]
pub struct RepeatedBlock {
    /// The place of the keyword that begins its head.
    pub from: usize,
    /// The name of the tasks that are started, or `None` for a `repeat`.
    pub name: Option<Name>,
    /// Whether each copy or pass has its own cut of the task's part of the input.
    pub over: bool,
    /// How often it runs.
    pub number: Number,
    /// The place of the brace that opens it.
    pub opening: usize,
    /// The place of the brace that closes it.
    pub closing: usize,
    /// Whether a `pace`, `need` or `send` is in it: how long they take, whether they raise an exception, and what they send
    /// depends on the task's part of the input.
    pub by_input: bool,
}

impl RepeatedBlock {
    /// Returns whether what its copies or passes do depends on their parts of the input, which are different. (All passes of a
    /// `repeat` without `over` have the part of their task.)
    pub fn is_divided(&self) -> bool
        ensures { result ≡ is_divided self.now }
    {
        self.over && self.by_input && self.number.value > 1
    }
}

/// Returns the blocks of the job text with these tokens that run several times, in the order of their places: each
/// `start NAME over N`, `repeat N` and `repeat over N`. A block comes before those in it. The only error is that memory runs out.
pub fn repeated_blocks(alloc: Global, tokens: &[Token]) -> Result<Vec<RepeatedBlock>, AllocError>
    ensures { IfOk result (λ blocks. blocks.items ≡ repeated_in tokens.now) }
{
    let mut blocks = Vec::new(alloc);
    let mut begins = false;
    let mut rest = tokens;
    'tokens: while let Some((token, others)) = rest.split_first() {
        push_block(&mut blocks, begins, *token, others)?;
        begins = begins_after(*token);
        rest = others;
    }
    Ok(blocks)
}

// Appends the block whose head begins at this token, if it runs several times. `begins` says whether a step may begin at the
// token, and `others` are the tokens after it.
fn push_block(
    blocks: &mut Vec<RepeatedBlock>,
    begins: bool,
    token: Token,
    others: &[Token],
) -> Result<(), AllocError>
    ensures { OnOk result (blocks.new.items
        ≡ blocks.old.items ++ with_block (block_by token.at (step_keyword begins token) others.now) []) }
{
    let from = token.at;
    let Some(block) = block_by(from, step_keyword(begins, token), others) else {
        return Ok(());
    };
    blocks.push(block)?;
    Ok(())
}

// Returns the block that runs several times and whose head begins with a keyword at `from`. `tokens` are the tokens after the
// keyword.
fn block_by(from: usize, keyword: Option<Keyword>, tokens: &[Token]) -> Option<RepeatedBlock>
    ensures { result ≡ block_by from keyword tokens.now }
{
    match keyword? {
        Keyword::Repeat => repeat_block(from, tokens),
        Keyword::Start => start_block(from, tokens),
        _ => None,
    }
}

// Returns the block of a `repeat` at `from`. `tokens` are the tokens after the keyword.
fn repeat_block(from: usize, tokens: &[Token]) -> Option<RepeatedBlock>
    ensures { result ≡ repeat_block from tokens.now }
{
    let (token, others) = tokens.split_first()?;
    match keyword_in(*token) {
        Some(Keyword::Over) => numbered_block(from, None, true, others),
        _ => numbered_block(from, None, false, tokens),
    }
}

// Returns the block of a `start` at `from`, if it has `over`. `tokens` are the tokens after the keyword.
fn start_block(from: usize, tokens: &[Token]) -> Option<RepeatedBlock>
    ensures { result ≡ start_block from tokens.now }
{
    let (token, others) = tokens.split_first()?;
    let name = token.shape.word()?;
    named_block(from, name, others)
}

// Returns the block of a `start` at `from` with this name, if it has `over`. `tokens` are the tokens after the name.
fn named_block(from: usize, name: Name, tokens: &[Token]) -> Option<RepeatedBlock>
    ensures { result ≡ named_block from (Some name) tokens.now }
{
    let (token, others) = tokens.split_first()?;
    match keyword_in(*token)? {
        Keyword::Over => numbered_block(from, Some(name), true, others),
        _ => None,
    }
}

// Returns the block of a head at `from`, given the tokens from the number on.
fn numbered_block(
    from: usize,
    name: Option<Name>,
    over: bool,
    tokens: &[Token],
) -> Option<RepeatedBlock>
    ensures { result ≡ numbered_block from name over tokens.now }
{
    let (token, others) = tokens.split_first()?;
    let number = number_of(*token)?;
    counted_block(from, name, over, number, others)
}

// Returns the block of a head with this number. `tokens` are the tokens after the number.
fn counted_block(
    from: usize,
    name: Option<Name>,
    over: bool,
    number: Number,
    tokens: &[Token],
) -> Option<RepeatedBlock>
    ensures { result ≡ counted_block from name over (Some number) tokens.now }
{
    let (token, others) = tokens.split_first()?;
    let opening = token.at;
    match token.shape.mark()? {
        Mark::Open => {
            let closing = closing_of(others)?;
            let by_input = by_input_before(closing, others);
            Some(RepeatedBlock {
                from,
                name,
                over,
                number,
                opening,
                closing,
                by_input,
            })
        }
        Mark::Close | Mark::Semicolon => None,
    }
}

// Returns the place of the brace that closes a block. `tokens` are the tokens after the brace that opens it.
fn closing_of(tokens: &[Token]) -> Option<usize>
    ensures { result ≡ closing_from 0 tokens.now }
{
    let mut depth = 0;
    'tokens: for token in tokens {
        let mark = token.shape.mark();
        if closes(mark, depth) {
            return Some(token.at);
        }
        depth = depth_by(mark, depth);
    }
    None
}

// Returns whether one of the steps that begin before a place depends on the input. A step may begin at the first token.
fn by_input_before(closing: usize, tokens: &[Token]) -> bool
    ensures { result ≡ by_input_before closing true tokens.now }
{
    let mut begins = true;
    let mut rest = tokens;
    'tokens: while let Some((token, others)) = rest.split_first() {
        if token.at >= closing {
            return false;
        }
        if is_by_input(step_keyword(begins, *token)) {
            return true;
        }
        begins = begins_after(*token);
        rest = others;
    }
    false
}

// Returns whether a step with this keyword depends on the input.
fn is_by_input(keyword: Option<Keyword>) -> bool
    ensures { result ≡ is_by_input keyword }
{
    matches!(keyword, Some(Keyword::Pace | Keyword::Need | Keyword::Send))
}

// Returns whether a mark closes a block in which so many others are open.
fn closes(mark: Option<Mark>, depth: usize) -> bool
    ensures { result ≡ closes mark depth }
{
    mark == Some(Mark::Close) && depth == 0
}

// Returns how many blocks are open in a block after a mark.
fn depth_by(mark: Option<Mark>, depth: usize) -> usize
    requires { depth < 18446744073709551615 }
    ensures { result ≡ depth_by mark depth }
{
    match mark {
        Some(Mark::Open) => depth + 1,
        Some(Mark::Close) => depth.saturating_sub(1),
        Some(Mark::Semicolon) | None => depth,
    }
}
