ghost use Rattle.std.specs.Prelude.{◌≡◌, is_some};
ghost use Rattle.job_tree.specs.declared.format.Format.TheVariants.{Two, Three};
ghost use Rattle.job_syntax.specs.declared.nonterminal.Nonterminal.TheVariants.{Items};
ghost use Rattle.job_syntax.specs.Nonterminals.{next};
ghost use Rattle.job_hints.specs.ByGrammar.{keyword_in, newer_advice, syntax_advice, nonterminal_advice, step_advice, cleanup_advice, semicolon_advice};

use crate::advice::Advice;
use crate::block::BlockAdvice;
use crate::heads::{
    number_place_advice, nursery_advice, nursery_order_advice, open_advice, order_advice,
    over_advice, unnamed_advice,
};
use crate::words::word_advice;
use job_syntax::{Keyword, Nonterminal};
use job_tokens::Shape;
use job_tree::Format;

/// Returns the keyword that a token is, or `None` if it is no keyword.
pub fn keyword_in(shape: Option<Shape>) -> Option<Keyword>
    ensures { result ≡ keyword_in shape }
{
    let word = shape?.word()?;
    Keyword::of(word)
}

/// Returns the sentence for a token that cannot be read for the nonterminal in a text of this format, after another token: first
/// of all that a newer format has it. `None` if there is none.
pub fn syntax_advice(
    format: Format,
    nonterminal: Nonterminal,
    before: Option<Shape>,
    shape: &Shape,
) -> Option<Advice>
    ensures { result ≡ syntax_advice format nonterminal before shape.now }
{
    if let Some(advice) = newer_advice(format, nonterminal, shape) {
        return Some(advice);
    }
    nonterminal_advice(nonterminal, before, shape)
}

// Returns that a newer format than that of the text has the token there, if one has.
fn newer_advice(format: Format, nonterminal: Nonterminal, shape: &Shape) -> Option<Advice>
    ensures { result ≡ newer_advice format (next Two nonterminal shape.now) (next Three nonterminal shape.now) }
{
    match format {
        Format::One => {
            if is_allowed(Format::Two, nonterminal, shape) {
                return Some(Advice::NewerFormat);
            }
            newest_advice(nonterminal, shape)
        }
        Format::Two => newest_advice(nonterminal, shape),
        Format::Three => None,
    }
}

// Returns that format 3 has the token there, if it has.
fn newest_advice(nonterminal: Nonterminal, shape: &Shape) -> Option<Advice>
    ensures { result ≡ newer_advice Two (next Two nonterminal shape.now) (next Three nonterminal shape.now) }
{
    if is_allowed(Format::Three, nonterminal, shape) {
        return Some(Advice::NewestFormat);
    }
    None
}

// Returns whether a token can be read for the nonterminal in a format.
fn is_allowed(format: Format, nonterminal: Nonterminal, shape: &Shape) -> bool
    ensures { result ≡ is_some (next format nonterminal shape.now) }
{
    nonterminal.next(format, *shape).is_some()
}

// Returns the sentence for a token that cannot be read for the nonterminal, after another token.
fn nonterminal_advice(
    nonterminal: Nonterminal,
    before: Option<Shape>,
    shape: &Shape,
) -> Option<Advice>
    ensures { result ≡ nonterminal_advice nonterminal before shape.now }
{
    match nonterminal {
        Nonterminal::Given => Some(Advice::Unnamed),
        Nonterminal::Scope => unnamed_advice(before),
        Nonterminal::Nursery => nursery_advice(before, shape),
        Nonterminal::Over => over_advice(before, shape),
        Nonterminal::Shield | Nonterminal::Fail => order_advice(shape),
        Nonterminal::NurseryShield => nursery_order_advice(shape),
        Nonterminal::Open => open_advice(before, shape),
        Nonterminal::Steps => step_advice(shape),
        Nonterminal::Items => word_advice(Some(*shape)),
        Nonterminal::StepsCleanup => cleanup_advice(shape, step_advice(shape)),
        Nonterminal::ItemsCleanup => cleanup_advice(shape, word_advice(Some(*shape))),
        Nonterminal::StepsTail | Nonterminal::ItemsTail => word_advice(Some(*shape)),
        Nonterminal::Handled => Some(Advice::Block(BlockAdvice::UnnamedHandler)),
        Nonterminal::Semicolon => semicolon_advice(shape),
        Nonterminal::Number => number_place_advice(before, shape),
        Nonterminal::Job
        | Nonterminal::Raised
        | Nonterminal::Target
        | Nonterminal::Passes
        | Nonterminal::ItemsPasses
        | Nonterminal::Text => None,
    }
}

// Returns the sentence for a `start` where none may be, or for a word of another language or library.
fn step_advice(shape: &Shape) -> Option<Advice>
    ensures { result ≡ step_advice shape.now }
{
    match keyword_in(Some(*shape)) {
        Some(Keyword::Start) => Some(Advice::StartInside),
        _ => word_advice(Some(*shape)),
    }
}

// Returns the sentence after a handler: that there is one already, or another.
fn cleanup_advice(shape: &Shape, other: Option<Advice>) -> Option<Advice>
    ensures { result ≡ cleanup_advice shape.now other }
{
    match keyword_in(Some(*shape)) {
        Some(Keyword::Except) => Some(Advice::Block(BlockAdvice::SecondHandler)),
        _ => other,
    }
}

// Returns that a semicolon is missing before a token with which a step may begin, or a block end.
fn semicolon_advice(shape: &Shape) -> Option<Advice>
    ensures { result ≡ semicolon_advice (next Three Items shape.now) }
{
    if is_allowed(Format::Three, Nonterminal::Items, shape) {
        return Some(Advice::Block(BlockAdvice::NoSemicolon));
    }
    None
}
