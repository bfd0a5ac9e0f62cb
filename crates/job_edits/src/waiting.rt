ghost use Rattle.std.specs.Prelude.{◌≡◌, [], ◌++◌, decimal, IfOk, OnOk};
ghost use Rattle.job_tokens.specs.Shapes.{word_in};
ghost use Rattle.job_edits.specs.Waiting.{begins_after, step_keyword, wait_of, wait_if, keyword_in, need_in, first_number, first_name, first_mark, opens_block, has_block, end_if, waiting_at, with_waiting, waiting_in, ask_text, wait_text};

use basics::push_number;
use job_syntax::Keyword;
use job_tokens::{Mark, Shape, Token, push_canon};
use job_tree::{Ask, Name, Text};
use std::alloc::{AllocError, Global};

/// What a waiting step waits for.
#[derive(Clone, Copy)]
pub enum Wait {
    /// `sleep`: for this number of ticks.
    Sleep(u64),
    /// `checkpoint`: takes no time, and checks whether the task is cancelled.
    Checkpoint,
    /// `forever`: until the task is cancelled.
    Forever,
    /// `pace`: one tick for this number of lines of the task's part of the input.
    Pace(u64),
    /// `need`: a line that contains this string. If there is none, it raises an exception with this name.
    Need(Text, Name),
    /// `wait`: until the event with this name is set.
    Event(Name),
    /// `acquire`, `send` or `receive`: until the limiter or channel with this name grants what is asked for.
    Grant(Ask, Name),
}

impl Wait {
    // Returns whether the step has a block: whether it is an `acquire` or a `receive`.
    pub(crate) fn has_block(&self) -> bool
        ensures { result ≡ has_block self.now }
    {
        match self {
            Wait::Grant(ask, _) => opens_block(*ask),
            _ => false,
        }
    }
}

// Returns whether a step that asks for this has a block.
fn opens_block(ask: Ask) -> bool
    ensures { result ≡ opens_block ask }
{
    match ask {
        Ask::Acquire => true,
        Ask::Send => false,
        Ask::Receive => true,
    }
}

/// A waiting step of a job text.
#[derive(Clone, Copy)]
pub struct Waiting {
    /// The place of its first byte, in bytes from the start of the text.
    pub from: usize,
    /// The place of the semicolon after it, or of the brace that opens its block.
    pub to: usize,
    /// What it waits for.
    pub wait: Wait,
}

/// Returns the waiting steps of the job text with these tokens, in the order of their places: each `sleep`, `checkpoint`,
/// `forever`, `pace`, `need`, `wait`, `acquire`, `send` and `receive`. The only error is that memory runs out.
pub fn waiting_steps(alloc: Global, tokens: &[Token]) -> Result<Vec<Waiting>, AllocError>
    ensures { IfOk result (λ steps. steps.items ≡ waiting_in tokens.now) }
{
    let mut steps = Vec::new(alloc);
    let mut begins = false;
    let mut rest = tokens;
    'tokens: while let Some((token, others)) = rest.split_first() {
        push_step(&mut steps, begins, *token, others)?;
        begins = begins_after(*token);
        rest = others;
    }
    Ok(steps)
}

// Appends the waiting step that begins at this token, if there is one. `begins` says whether a step may begin at the token, and
// `others` are the tokens after it.
fn push_step(
    steps: &mut Vec<Waiting>,
    begins: bool,
    token: Token,
    others: &[Token],
) -> Result<(), AllocError>
    ensures { OnOk result (steps.new.items ≡ steps.old.items ++ with_waiting (waiting_at begins token others.now) []) }
{
    let from = token.at;
    let Some(wait) = wait_at(begins, token, others) else {
        return Ok(());
    };
    let Some(to) = first_mark(end_if(wait.has_block()), others) else {
        return Ok(());
    };
    steps.push(Waiting { from, to, wait })?;
    Ok(())
}

// Returns what the step that begins at this token waits for. `others` are the tokens after it.
fn wait_at(begins: bool, token: Token, others: &[Token]) -> Option<Wait>
    ensures { result ≡ wait_if (step_keyword begins token) others.now }
{
    let keyword = step_keyword(begins, token)?;
    wait_of(keyword, others)
}

// Returns the mark after a step: the brace that opens its block, if it has one, or a semicolon.
fn end_if(opens: bool) -> Mark
    ensures { result ≡ end_if opens }
{
    if opens { Mark::Open } else { Mark::Semicolon }
}

// Returns whether a step may begin after this token: after a mark, where no name may be.
pub(crate) fn begins_after(token: Token) -> bool
    ensures { result ≡ begins_after token }
{
    token.shape.mark().is_some()
}

// Returns the keyword that a token is, if it is one and a step may begin there.
pub(crate) fn step_keyword(begins: bool, token: Token) -> Option<Keyword>
    ensures { result ≡ step_keyword begins token }
{
    if !begins {
        return None;
    }
    keyword_in(token)
}

// Returns the keyword that a token is, if it is one.
pub(crate) fn keyword_in(token: Token) -> Option<Keyword>
    ensures { result ≡ keyword_in (word_in token.shape) }
{
    Keyword::of(token.shape.word()?)
}

// Returns what the step that begins with this keyword waits for. `others` are the tokens after the keyword.
fn wait_of(keyword: Keyword, others: &[Token]) -> Option<Wait>
    ensures { result ≡ wait_of keyword others.now }
{
    match keyword {
        Keyword::Sleep => Some(Wait::Sleep(first_number(others)?)),
        Keyword::Checkpoint => Some(Wait::Checkpoint),
        Keyword::Forever => Some(Wait::Forever),
        Keyword::Pace => Some(Wait::Pace(first_number(others)?)),
        Keyword::Need => need_in(others),
        Keyword::Wait => Some(Wait::Event(first_name(others)?)),
        Keyword::Acquire => Some(Wait::Grant(Ask::Acquire, first_name(others)?)),
        Keyword::Send => Some(Wait::Grant(Ask::Send, first_name(others)?)),
        Keyword::Receive => Some(Wait::Grant(Ask::Receive, first_name(others)?)),
        _ => None,
    }
}

// Returns a `need`, given its string and the name after it.
fn need_in(tokens: &[Token]) -> Option<Wait>
    ensures { result ≡ need_in tokens.now }
{
    let (text, others) = tokens.split_first()?;
    let text = text.shape.text()?;
    let name = first_name(others)?;
    Some(Wait::Need(text, name))
}

// Returns the number that the first token is, if it is one.
pub(crate) fn first_number(tokens: &[Token]) -> Option<u64>
    ensures { result ≡ first_number tokens.now }
{
    let (token, _) = tokens.split_first()?;
    token.shape.number()
}

// Returns the name that the first token is, if it is one.
pub(crate) fn first_name(tokens: &[Token]) -> Option<Name>
    ensures { result ≡ first_name tokens.now }
{
    let (token, _) = tokens.split_first()?;
    token.shape.word()
}

// Returns the place of the first of these tokens that is the given mark.
pub(crate) fn first_mark(mark: Mark, tokens: &[Token]) -> Option<usize>
    ensures { result ≡ first_mark mark tokens.now }
{
    'tokens: for token in tokens {
        if token.shape.mark() == Some(mark) {
            return Some(token.at);
        }
    }
    None
}

/// Appends a waiting step as it is printed: its tokens, without those of its block, with a space between two of them. The only
/// error is that memory runs out.
pub fn push_wait(out: &mut Vec<u8>, wait: Wait) -> Result<(), AllocError>
    ensures { OnOk result (out.new.items ≡ out.old.items ++ wait_text wait) }
{
    match wait {
        Wait::Sleep(ticks) => push_counted(out, b"sleep ", ticks),
        Wait::Checkpoint => out.extend_from_slice(b"checkpoint"),
        Wait::Forever => out.extend_from_slice(b"forever"),
        Wait::Pace(lines) => push_counted(out, b"pace ", lines),
        Wait::Need(text, name) => {
            out.extend_from_slice(b"need ")?;
            push_canon(out, &[Shape::Text(text)])?;
            out.extend_from_slice(b" ")?;
            out.extend_from_slice(name.bytes())
        }
        Wait::Event(name) => {
            out.extend_from_slice(b"wait ")?;
            out.extend_from_slice(name.bytes())
        }
        Wait::Grant(ask, name) => push_asking(out, ask, name),
    }
}

// Appends a step that asks a limiter or channel for something, as it is printed.
pub(crate) fn push_asking(out: &mut Vec<u8>, ask: Ask, name: Name) -> Result<(), AllocError>
    ensures { OnOk result (out.new.items ≡ out.old.items ++ (ask_text ask ++ name)) }
{
    out.extend_from_slice(ask_text(ask))?;
    out.extend_from_slice(name.bytes())
}

// Returns the keyword of such a step, and a space.
fn ask_text(ask: Ask) -> &'static [u8]
    ensures { result.now ≡ ask_text ask }
{
    match ask {
        Ask::Acquire => b"acquire ",
        Ask::Send => b"send ",
        Ask::Receive => b"receive ",
    }
}

// Appends some words and a number.
pub(crate) fn push_counted(out: &mut Vec<u8>, words: &[u8], n: u64) -> Result<(), AllocError>
    ensures { OnOk result (out.new.items ≡ out.old.items ++ (words.now ++ decimal n)) }
{
    out.extend_from_slice(words)?;
    push_number(out, n)
}
