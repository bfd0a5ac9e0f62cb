//! The heads of blocks: what is between the word that begins a block and its `{`.
ghost use Rattle.std.specs.Prelude.{◌≡◌};
ghost use Rattle.job_hints.specs.ByGrammar.{is_head_word, is_head, keyword_in, unnamed_advice, order_advice, of_scope_advice, bound_advice, newest_over, uncounted_advice, number_place_advice, nursery_advice, nursery_order_advice, over_advice, open_advice};

use crate::advice::Advice;
use crate::block::BlockAdvice;
use crate::by_grammar::keyword_in;
use crate::number::NumberAdvice;
use job_syntax::{Keyword, is_kept};
use job_tokens::Shape;

// Returns the sentence after a name that is a word of a head: the name is missing.
pub(crate) fn unnamed_advice(before: Option<Shape>) -> Option<Advice>
    ensures { result ≡ unnamed_advice before }
{
    if is_head_word(before) {
        return Some(Advice::Unnamed);
    }
    None
}

// Returns the sentence for a word of a head that comes too late in it.
pub(crate) fn order_advice(shape: &Shape) -> Option<Advice>
    ensures { result ≡ order_advice shape.now }
{
    if is_head_word(Some(*shape)) {
        return Some(Advice::HeadOrder);
    }
    None
}

// Returns the sentence for a token after the name of a nursery.
pub(crate) fn nursery_advice(before: Option<Shape>, shape: &Shape) -> Option<Advice>
    ensures { result ≡ nursery_advice before shape.now }
{
    if let Some(advice) = unnamed_advice(before) {
        return Some(advice);
    }
    of_scope_advice(shape)
}

// Returns the sentence for a token after the deadline or the shield of a nursery.
pub(crate) fn nursery_order_advice(shape: &Shape) -> Option<Advice>
    ensures { result ≡ nursery_order_advice shape.now }
{
    if let Some(advice) = of_scope_advice(shape) {
        return Some(advice);
    }
    order_advice(shape)
}

// Returns the sentence for a word that only the head of a scope may have, in that of a nursery.
fn of_scope_advice(shape: &Shape) -> Option<Advice>
    ensures { result ≡ of_scope_advice shape.now }
{
    match keyword_in(Some(*shape)) {
        Some(Keyword::At | Keyword::Fail) => Some(Advice::Block(BlockAdvice::NurseryHead)),
        _ => None,
    }
}

// Returns the sentence for a token after the name of a task.
pub(crate) fn over_advice(before: Option<Shape>, shape: &Shape) -> Option<Advice>
    ensures { result ≡ over_advice before shape.now }
{
    if let Some(advice) = unnamed_advice(before) {
        return Some(advice);
    }
    bound_advice(BlockAdvice::TaskHead, shape)
}

// Returns the sentence for a token where a block is to begin, after another token: after `shield` it is that of a nursery, and
// after `fail` that of a scope.
pub(crate) fn open_advice(before: Option<Shape>, shape: &Shape) -> Option<Advice>
    ensures { result ≡ open_advice (keyword_in before) shape.now }
{
    match keyword_in(before) {
        Some(Keyword::Shield) => nursery_order_advice(shape),
        Some(Keyword::Fail) => order_advice(shape),
        _ => bound_advice(BlockAdvice::OtherHead, shape),
    }
}

// Returns the sentence for a token where a number is to be, after another token: that format 3 has `repeat over`, or that a
// limiter or channel lacks its number.
pub(crate) fn number_place_advice(before: Option<Shape>, shape: &Shape) -> Option<Advice>
    ensures { result ≡ number_place_advice (keyword_in before) shape.now }
{
    let keyword = keyword_in(before);
    match keyword {
        Some(Keyword::Repeat) => newest_over(keyword_in(Some(*shape))),
        _ => uncounted_advice(keyword),
    }
}

// Returns that a limiter or channel lacks its number, if the token before is no keyword, or one that may be a name.
fn uncounted_advice(before: Option<Keyword>) -> Option<Advice>
    ensures { result ≡ uncounted_advice before }
{
    if is_kept(before) {
        return None;
    }
    Some(Advice::Number(NumberAdvice::Uncounted))
}

// Returns that format 3 has `over` after `repeat`, if the word is that.
fn newest_over(word: Option<Keyword>) -> Option<Advice>
    ensures { result ≡ newest_over word }
{
    match word {
        Some(Keyword::Over) => Some(Advice::NewestFormat),
        _ => None,
    }
}

// Returns the sentence for a deadline, `shield` or `fail` in the head of a block that has none of them.
fn bound_advice(advice: BlockAdvice, shape: &Shape) -> Option<Advice>
    ensures { result ≡ bound_advice advice shape.now }
{
    match keyword_in(Some(*shape)) {
        Some(Keyword::After | Keyword::At | Keyword::Shield | Keyword::Fail) => Some(Advice::Block(
            advice,
        )),
        _ => None,
    }
}

// Returns whether a token is one of the words that may follow the name of a scope, a nursery or a start.
fn is_head_word(shape: Option<Shape>) -> bool
    ensures { result ≡ is_head_word shape }
{
    match keyword_in(shape) {
        Some(keyword) => is_head(keyword),
        None => false,
    }
}

// Returns whether a keyword may follow the name of a scope, a nursery or a start.
fn is_head(keyword: Keyword) -> bool
    ensures { result ≡ is_head keyword }
{
    matches!(
        keyword,
        Keyword::After | Keyword::At | Keyword::Shield | Keyword::Fail | Keyword::Over
    )
}
