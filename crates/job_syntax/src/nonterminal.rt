ghost use Rattle.std.specs.Prelude.{◌≡◌, reverse};
ghost use Rattle.job_syntax.specs.Nonterminals.{repeat_rest, event_rest, use_rest, object_rest, grant_rest, step_rest, cleanup_rest, tail_rest, nursery_rest, nursery_shield_rest, next};
ghost use Rattle.job_syntax.specs.Syntax.{role_of};
ghost use Rattle.job_tree.specs.declared.format.Format.{Format};
ghost use Rattle.job_tokens.specs.Lexing.{Gives};
ghost use Rattle.job_tokens.specs.declared.token.Shape.TheVariants as shape;

use crate::keyword::Keyword;
use crate::role::Role;
use job_tokens::{Mark, Shape};
use job_tree::{Format, Name};

/// A nonterminal of the grammar: what may have to come next in a job text.
#[derive(Clone, Copy, PartialEq, Eq)]
pub enum Nonterminal {
    /// A whole job.
    Job,
    /// The steps of a block, and the `}` after them.
    Steps,
    /// The steps and starts of a nursery, or of a `repeat` in one, and the `}` after them.
    Items,
    /// What follows the block of a `try`, and the rest of the enclosing block.
    StepsTail,
    /// What follows the block of a `try` directly inside a nursery, and the rest of the nursery.
    ItemsTail,
    /// What follows a handler, and the rest of the enclosing block.
    StepsCleanup,
    /// What follows a handler directly inside a nursery, and the rest of the nursery.
    ItemsCleanup,
    /// The rest of a scope after its name.
    Scope,
    /// The rest of a scope after its deadline.
    Shield,
    /// The rest of a scope after its `shield`.
    Fail,
    /// The rest of a nursery after its name.
    Nursery,
    /// The rest of a nursery after its deadline.
    NurseryShield,
    /// The rest of a `start` after its name.
    Over,
    /// The passes of a `repeat` of format 3, and its block.
    Passes,
    /// The passes of a `repeat` of format 3 directly inside a nursery or in a `repeat` there, and its block.
    ItemsPasses,
    /// The name that a job, scope, nursery, event, limiter, channel or started task gets.
    Given,
    /// The name of an exception that is raised.
    Raised,
    /// The name of the exceptions that a handler handles.
    Handled,
    /// The name in a step that uses one, as `cancel`.
    Target,
    /// A number.
    Number,
    /// A string.
    Text,
    /// `{`
    Open,
    /// `;`
    Semicolon,
}

// The nonterminals that follow a token, last first, in the order in which they go onto a stack. `outer`, `tail` and `cleanup`
// are the rest of the enclosing block; directly inside a nursery, it has nonterminals of its own.
macro_rules! rest {
    (outer $inside:ident, $($nonterminal:ident),*) => { rest!($inside: Items | Steps, $($nonterminal),*) };
    (tail $inside:ident, $($nonterminal:ident),*) => { rest!($inside: ItemsTail | StepsTail, $($nonterminal),*) };
    (cleanup $inside:ident, $($nonterminal:ident),*) => { rest!($inside: ItemsCleanup | StepsCleanup, $($nonterminal),*) };
    ($inside:ident: $items:ident | $steps:ident, $($nonterminal:ident),*) => {
        if $inside { rest!($items, $($nonterminal),*) } else { rest!($steps, $($nonterminal),*) }
    };
    ($($nonterminal:ident),*) => { Some(&[$(Nonterminal::$nonterminal),*]) };
}

impl Nonterminal {
    /// Returns the role of a token that is read for this nonterminal.
    pub fn role(self) -> Role
        ensures { result ≡ role_of self }
    {
        match self {
            Nonterminal::Given => Role::Given,
            Nonterminal::Raised => Role::Raised,
            Nonterminal::Handled => Role::Handled,
            Nonterminal::Target => Role::Target,
            _ => Role::Plain,
        }
    }

    /// Returns the nonterminals that must follow, last first, if this token is read for this nonterminal in a text of the
    /// format. Returns `None` if the token cannot be read for it.
    pub fn next(self, format: Format, shape: Shape) -> Option<&'static [Nonterminal]>
        ensures { Gives (λ x. reverse x.now) result (next format self shape) }
    {
        match shape {
            Shape::Word(word) => self.after_word(format, word),
            Shape::Number(number) => self.after_number(number),
            Shape::Text(_) => if self == Nonterminal::Text {
                rest!()
            } else {
                None
            },
            Shape::Mark(mark) => self.after_mark(mark),
        }
    }

    fn after_word(self, format: Format, word: Name) -> Option<&'static [Nonterminal]>
        ensures { Gives (λ x. reverse x.now) result (next format self (shape.Word word)) }
    {
        // Any word is accepted as a name here. Keywords are refused by a later check.
        if self.role() != Role::Plain {
            return rest!();
        }
        match (self, Keyword::of(word)?) {
            (Nonterminal::Job, Keyword::Job) => rest!(Steps, Open, Given),
            (Nonterminal::Steps, keyword) => step_rest(format, false, keyword),
            (Nonterminal::Items, keyword) => step_rest(format, true, keyword),
            (Nonterminal::StepsTail, keyword) => tail_rest(false, keyword),
            (Nonterminal::ItemsTail, keyword) => tail_rest(true, keyword),
            (Nonterminal::StepsCleanup, keyword) => cleanup_rest(format, false, keyword),
            (Nonterminal::ItemsCleanup, keyword) => cleanup_rest(format, true, keyword),
            (Nonterminal::Scope, Keyword::After | Keyword::At) => rest!(Shield, Number),
            (Nonterminal::Scope | Nonterminal::Shield, Keyword::Shield) => rest!(Fail),
            (Nonterminal::Scope | Nonterminal::Shield | Nonterminal::Fail, Keyword::Fail) => rest!(
                Steps, Open
            ),
            (Nonterminal::Nursery, keyword) => nursery_rest(format, keyword),
            (Nonterminal::NurseryShield, keyword) => nursery_shield_rest(format, keyword),
            (Nonterminal::Over | Nonterminal::Passes | Nonterminal::ItemsPasses, Keyword::Over) => {
                rest!(Steps, Open, Number)
            }
            _ => None,
        }
    }

    fn after_number(self, number: Option<u64>) -> Option<&'static [Nonterminal]>
        ensures { (format : Format) → Gives (λ x. reverse x.now) result (next format self (shape.Number number)) }
    {
        if number.is_none() {
            return None;
        }
        match self {
            Nonterminal::Number => rest!(),
            Nonterminal::Passes => rest!(Steps, Open),
            Nonterminal::ItemsPasses => rest!(Items, Open),
            _ => None,
        }
    }

    fn after_mark(self, mark: Mark) -> Option<&'static [Nonterminal]>
        ensures { (format : Format) → Gives (λ x. reverse x.now) result (next format self (shape.Mark mark)) }
    {
        match (self, mark) {
            (
                Nonterminal::Steps
                | Nonterminal::Items
                | Nonterminal::StepsCleanup
                | Nonterminal::ItemsCleanup,
                Mark::Close,
            ) => rest!(),
            (
                Nonterminal::Scope | Nonterminal::Shield | Nonterminal::Fail | Nonterminal::Over,
                Mark::Open,
            ) => { rest!(Steps) }
            (Nonterminal::Nursery | Nonterminal::NurseryShield, Mark::Open) => rest!(Items),
            (Nonterminal::Open, Mark::Open) | (Nonterminal::Semicolon, Mark::Semicolon) => rest!(),
            _ => None,
        }
    }
}

// Returns what follows the first word of a step. A `start` may occur only directly inside a nursery, and in format 3 in a
// `repeat` there. Format 1 has no `repeat`, and formats 1 and 2 have no events, limiters and channels.
fn step_rest(format: Format, inside: bool, keyword: Keyword) -> Option<&'static [Nonterminal]>
    ensures { Gives (λ x. reverse x.now) result (step_rest format inside keyword) }
{
    match keyword {
        Keyword::Sleep | Keyword::Pace | Keyword::Head => rest!(outer inside, Semicolon, Number),
        Keyword::Checkpoint | Keyword::Forever | Keyword::Longest => rest!(outer inside, Semicolon),
        Keyword::Find => rest!(outer inside, Semicolon, Text),
        Keyword::Need => rest!(outer inside, Semicolon, Raised, Text),
        Keyword::Raise => rest!(outer inside, Semicolon, Raised),
        Keyword::Cancel => rest!(outer inside, Semicolon, Target),
        Keyword::Scope => rest!(outer inside, Scope, Given),
        Keyword::Nursery => rest!(outer inside, Nursery, Given),
        Keyword::Start if inside => rest!(Items, Over, Given),
        Keyword::Repeat => repeat_rest(format, inside),
        Keyword::Event => event_rest(format, inside),
        Keyword::Set => use_rest(format, inside),
        Keyword::Wait => use_rest(format, inside),
        Keyword::Limiter => object_rest(format, inside),
        Keyword::Acquire => grant_rest(format, inside),
        Keyword::Channel => object_rest(format, inside),
        Keyword::Send => use_rest(format, inside),
        Keyword::Receive => grant_rest(format, inside),
        Keyword::Close => use_rest(format, inside),
        Keyword::Try => rest!(tail inside, Steps, Open),
        _ => None,
    }
}

// Returns what follows `repeat`. In format 3 its block may have a `start` where one may stand next to it.
fn repeat_rest(format: Format, inside: bool) -> Option<&'static [Nonterminal]>
    ensures { Gives (λ x. reverse x.now) result (repeat_rest format inside) }
{
    match format {
        Format::One => None,
        Format::Two => rest!(outer inside, Steps, Open, Number),
        Format::Three => {
            if inside {
                rest!(Items, ItemsPasses)
            } else {
                rest!(Steps, Passes)
            }
        }
    }
}

// Returns what follows `event`, which begins no step in formats 1 and 2.
fn event_rest(format: Format, inside: bool) -> Option<&'static [Nonterminal]>
    ensures { Gives (λ x. reverse x.now) result (event_rest format inside) }
{
    if !format.has_events() {
        return None;
    }
    rest!(outer inside, Steps, Open, Given)
}

// Returns what follows `set`, `wait`, `send` and `close`, which begin no step in formats 1 and 2.
fn use_rest(format: Format, inside: bool) -> Option<&'static [Nonterminal]>
    ensures { Gives (λ x. reverse x.now) result (use_rest format inside) }
{
    if !format.has_events() {
        return None;
    }
    rest!(outer inside, Semicolon, Target)
}

// Returns what follows `limiter` and `channel`, which begin no step in formats 1 and 2.
fn object_rest(format: Format, inside: bool) -> Option<&'static [Nonterminal]>
    ensures { Gives (λ x. reverse x.now) result (object_rest format inside) }
{
    if !format.has_events() {
        return None;
    }
    rest!(outer inside, Steps, Open, Number, Given)
}

// Returns what follows `acquire` and `receive`, which begin no step in formats 1 and 2.
fn grant_rest(format: Format, inside: bool) -> Option<&'static [Nonterminal]>
    ensures { Gives (λ x. reverse x.now) result (grant_rest format inside) }
{
    if !format.has_events() {
        return None;
    }
    rest!(outer inside, Steps, Open, Target)
}

// Returns what follows a word in the head of a nursery. In format 1 it has no such words.
fn nursery_rest(format: Format, keyword: Keyword) -> Option<&'static [Nonterminal]>
    ensures { Gives (λ x. reverse x.now) result (nursery_rest format keyword) }
{
    match keyword {
        Keyword::After if format.extends_format_1() => rest!(NurseryShield, Number),
        _ => nursery_shield_rest(format, keyword),
    }
}

// Returns what follows a word in the head of a nursery, after its deadline.
fn nursery_shield_rest(format: Format, keyword: Keyword) -> Option<&'static [Nonterminal]>
    ensures { Gives (λ x. reverse x.now) result (nursery_shield_rest format keyword) }
{
    match keyword {
        Keyword::Shield if format.extends_format_1() => rest!(Items, Open),
        _ => None,
    }
}

// Returns what follows the word after a handler.
fn cleanup_rest(format: Format, inside: bool, keyword: Keyword) -> Option<&'static [Nonterminal]>
    ensures { Gives (λ x. reverse x.now) result (cleanup_rest format inside keyword) }
{
    match keyword {
        Keyword::Finally => rest!(outer inside, Steps, Open),
        _ => step_rest(format, inside, keyword),
    }
}

// Returns what follows the word after the block of a `try`.
fn tail_rest(inside: bool, keyword: Keyword) -> Option<&'static [Nonterminal]>
    ensures { Gives (λ x. reverse x.now) result (tail_rest inside keyword) }
{
    match keyword {
        Keyword::Except => rest!(cleanup inside, Steps, Open, Handled),
        Keyword::Finally => rest!(outer inside, Steps, Open),
        _ => None,
    }
}
