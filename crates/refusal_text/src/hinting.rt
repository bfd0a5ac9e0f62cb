ghost use Rattle.std.specs.Prelude.{◌≡◌, ◌-◌, None, IfOk, drop, slice_get};
ghost use Rattle.refusal_text.specs.Expecting.{expected_nonterminal};
ghost use Rattle.refusal_text.specs.Scanning.{last_before, shape_at};
ghost use Rattle.refusal_text.specs.Hinting.{IsTokenHint, IsNumberHint, IsTwiceHint, IsReservedHint, IsStrayHint, advice_hint, ascii_advice, token_advice, near_hint, nonterminal_hint, or_near_hint, is_unnamed, reserved_name_hint, syntax_hint, twice_hint, is_cancel, task_advice};
ghost use Rattle.job_hints.specs.ByGrammar.{if_keyword};
ghost use Rattle.job_syntax.specs.Syntax.{whole_job};

use crate::lexed_text::LexedText;
use crate::scanning::{
    earlier_before, first_given_place, innermost_open_block, is_started, last_before, shape_at,
};
use job_hints::{
    Advice, BlockAdvice, has_order_mark, keyword_in, lexical_advice, near_keyword, number_advice,
    syntax_advice,
};
use job_reader::Format;
use job_syntax::{Keyword, Nonterminal, Role, check_grammar};
use job_tokens::{Shape, Token};
use std::alloc::{AllocError, Global};

/// A hint that is added to the sentence of a refusal.
#[derive(Clone, Copy)]
pub(crate) enum Hint {
    /// A sentence.
    Advice(Advice),
    /// The word is nearly this keyword, which is allowed there.
    Meant(Keyword),
    /// The name is this keyword.
    Keyword(Keyword),
    /// The innermost block that is not closed begins at this place.
    OpenSince(usize),
    /// The name was first given at this place.
    GivenAt(usize),
    /// The job has this number of step instances.
    Size(u64),
}

// Returns a sentence as a hint.
pub(crate) fn advice_hint(advice: Option<Advice>) -> Option<Hint>
    ensures { result ≡ advice_hint advice }
{
    match advice {
        Some(advice) => Some(Hint::Advice(advice)),
        None => None,
    }
}

// Returns the hint for a byte that is not ASCII.
pub(crate) fn ascii_advice(text: &[u8]) -> Option<Advice>
    ensures { result ≡ ascii_advice text.now }
{
    if has_order_mark(text) {
        return Some(Advice::ByteOrderMark);
    }
    None
}

// Returns the hint for a place where no token begins.
pub(crate) fn token_hint(alloc: Global, text: &[u8], at: usize) -> Result<Option<Hint>, AllocError>
    ensures { IfOk result (IsTokenHint text.now at) }
{
    let lexed = LexedText::new(alloc, text)?;
    let before = last_before(lexed.tokens.as_slice(), at);
    Ok(advice_hint(token_advice(text, at, before)))
}

// Returns the same, given the token before the place.
fn token_advice(text: &[u8], at: usize, before: Option<Shape>) -> Option<Advice>
    ensures { result ≡ token_advice text.now at before }
{
    lexical_advice(before, byte_before(text, at), rest_from(text, at))
}

// Returns the bytes from a place on.
fn rest_from(text: &[u8], at: usize) -> &[u8]
    ensures { result.now ≡ drop at text.now }
{
    text.split_at(at.min(text.len())).1
}

// Returns the byte before a place.
fn byte_before(text: &[u8], at: usize) -> Option<u8>
    ensures { result ≡ slice_get text.now (at - 1) }
{
    text.get(at.saturating_sub(1)).copied()
}

// Returns the hint for a number that has a leading zero or is out of its range.
pub(crate) fn number_hint(alloc: Global, text: &[u8], at: usize) -> Result<Option<Hint>, AllocError>
    ensures { IfOk result (IsNumberHint text.now at) }
{
    let lexed = LexedText::new(alloc, text)?;
    let tokens = lexed.tokens.as_slice();
    let earlier = earlier_before(tokens, at);
    let before = last_before(tokens, at);
    let advice = number_advice(lexed.format, earlier, before, rest_from(text, at));
    Ok(Some(Hint::Advice(advice)))
}

// Returns the hint for a syntax fault, where the grammar expects `asked`: what is allowed there in format 2, a word that is
// nearly one of those that are allowed there, or, at the end of the text, the block that is not closed.
pub(crate) fn syntax_hint(
    alloc: Global,
    lexed: &LexedText,
    asked: Option<Nonterminal>,
    at: usize,
) -> Result<Option<Hint>, AllocError>
    requires { asked ≡ expected_nonterminal lexed.now.format whole_job lexed.now.tokens.items }
    ensures { IfOk result (λ hint. hint ≡ syntax_hint lexed.now.format lexed.now.tokens.items
        (last_before at None lexed.now.tokens.items) (shape_at at lexed.now.tokens.items)) }
{
    let tokens = lexed.tokens.as_slice();
    let before = last_before(tokens, at);
    let hint = hint_at(
        alloc,
        lexed.format,
        tokens,
        asked,
        before,
        shape_at(tokens, at),
    )?;
    Ok(hint)
}

// Returns the same for given tokens, with the token at the place where they leave the grammar and the token before it.
fn hint_at(
    alloc: Global,
    format: Format,
    tokens: &[Token],
    asked: Option<Nonterminal>,
    before: Option<Shape>,
    shape: Option<Shape>,
) -> Result<Option<Hint>, AllocError>
    requires { asked ≡ expected_nonterminal format whole_job tokens.now }
    ensures { IfOk result (λ hint. hint ≡ syntax_hint format tokens.now before shape) }
{
    match shape {
        Some(shape) => Ok(nonterminal_hint(format, asked, before, &shape)),
        None => Ok(innermost_open_block(alloc, tokens)?.map(Hint::OpenSince)),
    }
}

// Returns the hint for a token that cannot be read for the nonterminal.
fn nonterminal_hint(
    format: Format,
    nonterminal: Option<Nonterminal>,
    before: Option<Shape>,
    shape: &Shape,
) -> Option<Hint>
    ensures { result ≡ nonterminal_hint format nonterminal before shape.now }
{
    let nonterminal = nonterminal?;
    let advice = syntax_advice(format, nonterminal, before, shape);
    or_near_hint(advice, format, nonterminal, shape)
}

// Returns a sentence, or otherwise the keyword that a token nearly is.
fn or_near_hint(
    advice: Option<Advice>,
    format: Format,
    nonterminal: Nonterminal,
    shape: &Shape,
) -> Option<Hint>
    ensures { result ≡ or_near_hint advice format nonterminal shape.now }
{
    match advice {
        Some(advice) => Some(Hint::Advice(advice)),
        None => near_hint(format, nonterminal, shape),
    }
}

// Returns the keyword that a token nearly is, among those that may be read for the nonterminal.
fn near_hint(format: Format, nonterminal: Nonterminal, shape: &Shape) -> Option<Hint>
    ensures { result ≡ near_hint format nonterminal shape.now }
{
    let word = shape.word()?;
    let keyword = near_keyword(format, nonterminal, word.bytes())?;
    Some(Hint::Meant(keyword))
}

// Returns the hint for a name that is reserved.
pub(crate) fn reserved_hint(
    alloc: Global,
    text: &[u8],
    at: usize,
) -> Result<Option<Hint>, AllocError>
    ensures { IfOk result (IsReservedHint text.now at) }
{
    let lexed = LexedText::new(alloc, text)?;
    let tokens = lexed.tokens.as_slice();
    Ok(reserved_name_hint(last_before(tokens, at), shape_at(tokens, at)))
}

// Returns the same for the token at the place and the one before it: that the name is missing, or that it is a keyword.
fn reserved_name_hint(before: Option<Shape>, shape: Option<Shape>) -> Option<Hint>
    ensures { result ≡ reserved_name_hint before shape }
{
    let keyword = keyword_in(shape)?;
    if is_unnamed(keyword_in(before), keyword) {
        return Some(Hint::Advice(Advice::Unnamed));
    }
    Some(Hint::Keyword(keyword))
}

// Returns whether a keyword directly follows the word that begins its head, so that the name between them is missing.
fn is_unnamed(before: Option<Keyword>, keyword: Keyword) -> bool
    ensures { result ≡ is_unnamed before keyword }
{
    match before {
        Some(Keyword::Scope) => matches!(
            keyword,
            Keyword::After | Keyword::At | Keyword::Shield | Keyword::Fail
        ),
        Some(Keyword::Nursery) => matches!(keyword, Keyword::After | Keyword::Shield),
        Some(Keyword::Start) => matches!(keyword, Keyword::Over),
        _ => false,
    }
}

// Returns where the name at a place was first given.
pub(crate) fn twice_hint(alloc: Global, text: &[u8], at: usize) -> Result<Option<Hint>, AllocError>
    ensures { IfOk result (IsTwiceHint text.now at) }
{
    let lexed = LexedText::new(alloc, text)?;
    let tokens = lexed.tokens.as_slice();
    let checked = check_grammar(alloc, lexed.format, tokens, text.len())?;
    Ok(first_given_hint(tokens, checked.roles.as_slice(), shape_at(tokens, at)))
}

// Returns the same, given the tokens, what each token means, and the token at the place.
fn first_given_hint(tokens: &[Token], roles: &[Role], shape: Option<Shape>) -> Option<Hint>
    ensures { result ≡ twice_hint tokens.now roles.now shape }
{
    let name = shape?.word()?;
    let at = first_given_place(tokens, roles, name)?;
    Some(Hint::GivenAt(at))
}

// Returns the hint for the name at a place that nothing around it has.
pub(crate) fn stray_hint(tokens: &[Token], at: usize) -> Option<Hint>
    ensures { result ≡ advice_hint (task_advice (last_before at None tokens.now) (shape_at at tokens.now) tokens.now) }
{
    advice_hint(task_advice(last_before(tokens, at), shape_at(tokens, at), tokens))
}

// Returns that a task has the name in a `cancel`, given the token before the name, the name, and all tokens.
fn task_advice(before: Option<Shape>, shape: Option<Shape>, tokens: &[Token]) -> Option<Advice>
    ensures { result ≡ task_advice before shape tokens.now }
{
    let name = shape?.word()?;
    if is_cancel(keyword_in(before)) && is_started(tokens, name) {
        return Some(Advice::Block(BlockAdvice::TaskByName));
    }
    None
}

// Returns whether there is a keyword, and it is `cancel`.
fn is_cancel(keyword: Option<Keyword>) -> bool
    ensures { result ≡ if_keyword is_cancel keyword }
{
    match keyword {
        Some(Keyword::Cancel) => true,
        _ => false,
    }
}
