ghost use Rattle.std.specs.Prelude.{◌≡◌, [], ◌++◌, IfOk, OnOk};
ghost use Rattle.job_edits.specs.Waiting.{step_keyword};
ghost use Rattle.job_edits.specs.Numbers.{number_of, number_at, number_first, deadline_if, head_number, after_name, block_if, block_at, with_name, blocks_in, block_number, set_to};

use crate::change::{Change, Piece};
use crate::waiting::{begins_after, first_name, keyword_in, step_keyword};
use basics::digit_count;
use job_syntax::Keyword;
use job_tokens::Token;
use job_tree::Name;
use std::alloc::{AllocError, Global};

/// A number of a job text, whose value can be changed.
#[derive(Clone, Copy, Debug, PartialEq, Eq)]
pub struct Number {
    /// The place of its first digit, in bytes from the start of the text.
    pub from: usize,
    /// The place after its last digit.
    pub to: usize,
    /// Its value.
    pub value: u64,
}

/// Which number of a job text is meant.
#[derive(Clone, Copy)]
pub enum Target {
    /// The number of the first scope, nursery, limiter or channel with this name: that of its deadline, of its tokens or of its
    /// places.
    NumberOf(Name),
    /// The number whose first digit is at this line and column. Both are counted from 1.
    At {
        /// The line.
        line: usize,
        /// The column, in bytes.
        column: usize,
    },
}

impl Number {
    /// Returns the change of the text that puts another number in place of this one.
    pub fn set_to(self, value: u64) -> Change
        ensures { result ≡ set_to self value }
    {
        Change {
            from: self.from,
            to: self.to,
            piece: Piece::Number(value),
        }
    }
}

/// Returns the number at a place of the job text with these tokens. Returns `None` if no token begins there, or if that token
/// is not a number with a value (a number with a leading zero or above 1,000,000,000 has none).
pub fn number_at(place: usize, tokens: &[Token]) -> Option<Number>
    ensures { result ≡ number_at place tokens.now }
{
    'tokens: for token in tokens {
        if token.at == place {
            return number_of(*token);
        }
    }
    None
}

/// Returns the number of the first scope, nursery, limiter or channel with this name in the job text with these tokens: that of
/// its deadline, of its tokens or of its places. Returns `None` if none of them has this name, or if the first one that has it is a
/// scope or nursery without a deadline.
pub fn block_number(name: Name, tokens: &[Token]) -> Option<Number>
    ensures { result ≡ block_number name tokens.now }
{
    let mut begins = false;
    let mut rest = tokens;
    'tokens: while let Some((token, others)) = rest.split_first() {
        if block_at(begins, *token, others) == Some(name) {
            return after_name(others);
        }
        begins = begins_after(*token);
        rest = others;
    }
    None
}

/// Returns the names of the scopes, nurseries, limiters and channels of the job text with these tokens, in the order of their
/// places. The only error is that memory runs out.
pub fn block_names(alloc: Global, tokens: &[Token]) -> Result<Vec<Name>, AllocError>
    ensures { IfOk result (λ names. names.items ≡ blocks_in tokens.now) }
{
    let mut names = Vec::new(alloc);
    let mut begins = false;
    let mut rest = tokens;
    'tokens: while let Some((token, others)) = rest.split_first() {
        push_block(&mut names, begins, *token, others)?;
        begins = begins_after(*token);
        rest = others;
    }
    Ok(names)
}

// Returns the number that a token is, if it is one.
pub(crate) fn number_of(token: Token) -> Option<Number>
    ensures { result ≡ number_of token }
{
    let from = token.at;
    let value = token.shape.number()?;
    let to = from.checked_add(digit_count(value))?;
    Some(Number { from, to, value })
}

// Returns the number that the first token is, if it is one.
pub(crate) fn number_first(tokens: &[Token]) -> Option<Number>
    ensures { result ≡ number_first tokens.now }
{
    let (token, _) = tokens.split_first()?;
    number_of(*token)
}

// Returns the number of a deadline, given its keyword and the tokens after the keyword.
fn deadline_if(keyword: Option<Keyword>, tokens: &[Token]) -> Option<Number>
    ensures { result ≡ deadline_if keyword tokens.now }
{
    match keyword {
        Some(Keyword::After) => number_first(tokens),
        Some(Keyword::At) => number_first(tokens),
        _ => None,
    }
}

// Returns the number that is the first token, as that of a limiter or channel, or that of the deadline that begins with it.
fn head_number(tokens: &[Token]) -> Option<Number>
    ensures { result ≡ head_number tokens.now }
{
    let (token, others) = tokens.split_first()?;
    match number_of(*token) {
        Some(number) => Some(number),
        None => deadline_if(keyword_in(*token), others),
    }
}

// Returns the number of a scope, nursery, limiter or channel. The first token is its name.
fn after_name(tokens: &[Token]) -> Option<Number>
    ensures { result ≡ after_name tokens.now }
{
    let (_, others) = tokens.split_first()?;
    head_number(others)
}

// Returns the name of a scope, nursery, limiter or channel, given its keyword and the tokens after the keyword.
fn block_if(keyword: Option<Keyword>, tokens: &[Token]) -> Option<Name>
    ensures { result ≡ block_if keyword tokens.now }
{
    match keyword {
        Some(Keyword::Scope) => first_name(tokens),
        Some(Keyword::Nursery) => first_name(tokens),
        Some(Keyword::Limiter) => first_name(tokens),
        Some(Keyword::Channel) => first_name(tokens),
        _ => None,
    }
}

// Returns the name of the scope, nursery, limiter or channel that begins at this token, if there is one. `begins` says whether a
// step may begin at the token, and `others` are the tokens after it.
fn block_at(begins: bool, token: Token, others: &[Token]) -> Option<Name>
    ensures { result ≡ block_at begins token others.now }
{
    block_if(step_keyword(begins, token), others)
}

// Appends the name of the scope, nursery, limiter or channel that begins at this token, if there is one.
fn push_block(
    names: &mut Vec<Name>,
    begins: bool,
    token: Token,
    others: &[Token],
) -> Result<(), AllocError>
    ensures { OnOk result (names.new.items ≡ names.old.items ++ with_name (block_at begins token others.now) []) }
{
    let Some(name) = block_at(begins, token, others) else {
        return Ok(());
    };
    names.push(name)?;
    Ok(())
}
