ghost use Rattle.std.specs.Prelude.{◌≡◌, [], ◌++◌, reverse, IfOk, OnOk};
ghost use Rattle.job_tokens.specs.Shapes.{mark_in};
ghost use Rattle.job_syntax.specs.declared.keyword.Keyword.TheVariants as keyword;
ghost use Rattle.job_edits.specs.Waiting.{step_keyword};
ghost use Rattle.job_edits.specs.Sites.{deadline_by, deadline_from, moment_by, moment_at, with_site, sites_in, moment_text};

use crate::change::push_named;
use crate::number::{Number, number_first};
use crate::releases::{acquired_after, innermost, pass_mark};
use crate::waiting::{
    begins_after, first_mark, first_name, first_number, keyword_in, push_asking, push_counted,
    step_keyword,
};
use job_syntax::Keyword;
use job_tokens::{Mark, Token};
use job_tree::{Ask, Name};
use std::alloc::{AllocError, Global};

/// What is at a site.
#[derive(Clone, Copy)]
pub enum Moment {
    /// A `sleep` for this number of ticks.
    Sleep(Number),
    /// The deadline of the scope or nursery with this name, this number of ticks after it was entered.
    After(Name, Number),
    /// The deadline of the scope or nursery with this name, at this tick.
    At(Name, Number),
    /// A `checkpoint`.
    Checkpoint {
        /// The place of the semicolon after it.
        to: usize,
    },
    /// A `pace`.
    Pace {
        /// The number of lines for which it sleeps one tick.
        lines: u64,
        /// The place of the semicolon after it.
        to: usize,
    },
    /// A `start`.
    Start {
        /// The name of the task.
        name: Name,
        /// The place of the brace that opens its block.
        opening: usize,
    },
    /// A `set` of the event with this name.
    Set(Name),
    /// A `wait`.
    Wait {
        /// The name of the event.
        name: Name,
        /// The place of the semicolon after it.
        to: usize,
    },
    /// An `acquire`, `send` or `receive` of the limiter or channel with this name.
    Asking(Ask, Name),
    /// The brace that closes the block of an `acquire` of the limiter with this name, where its token is given back.
    Release(Name),
    /// A `close` of the channel with this name.
    Close(Name),
}

/// A place of a job text at which time passes or may pass, or at which an event is set, or something is done to a limiter or
/// channel.
#[derive(Clone, Copy)]
pub struct Site {
    /// The place of the keyword that begins the step, scope, nursery or start, or of the brace that closes the block of an
    /// `acquire`, in bytes from the start of the text.
    pub from: usize,
    /// What is there.
    pub moment: Moment,
}

/// Returns the sites of the job text with these tokens, in the order of their places: each `sleep`, `checkpoint` and `pace`,
/// each scope and nursery with a deadline, each `start`, each `set` and `wait`, each `acquire`, `send`, `receive` and `close`, and
/// the end of the block of each `acquire`. The only error is that memory runs out.
pub fn sites(alloc: Global, tokens: &[Token]) -> Result<Vec<Site>, AllocError>
    ensures { IfOk result (λ sites. sites.items ≡ sites_in tokens.now) }
{
    let mut sites = Vec::new(alloc);
    let mut blocks = Vec::new(alloc);
    let mut acquired = None;
    let mut begins = false;
    let mut rest = tokens;
    'tokens: while let Some((token, others)) = rest.split_first() {
        push_site(&mut sites, begins, blocks.as_slice(), *token, others)?;
        pass_mark(&mut blocks, &acquired, *token)?;
        acquired = acquired_after(&acquired, begins, *token, others);
        begins = begins_after(*token);
        rest = others;
    }
    Ok(sites)
}

// Appends the site at this token, if there is one. `begins` says whether a step may begin at the token, `blocks` are the open
// blocks, the innermost last, and `others` are the tokens after it.
fn push_site(
    sites: &mut Vec<Site>,
    begins: bool,
    blocks: &[Option<Name>],
    token: Token,
    others: &[Token],
) -> Result<(), AllocError>
    ensures { OnOk result (sites.new.items ≡ sites.old.items
        ++ with_site token.at (moment_at (reverse blocks.now) (mark_in token.shape) (step_keyword begins token) others.now) []) }
{
    let from = token.at;
    let Some(moment) = moment_at(begins, blocks, token, others) else {
        return Ok(());
    };
    sites.push(Site { from, moment })?;
    Ok(())
}

// Returns what is at this token.
fn moment_at(
    begins: bool,
    blocks: &[Option<Name>],
    token: Token,
    others: &[Token],
) -> Option<Moment>
    ensures { result ≡ moment_at (reverse blocks.now) (mark_in token.shape) (step_keyword begins token) others.now }
{
    if token.shape.mark() == Some(Mark::Close) {
        return Some(Moment::Release(innermost(blocks)?));
    }
    let keyword = step_keyword(begins, token)?;
    moment_by(keyword, others)
}

// Returns what begins at a keyword. `others` are the tokens after the keyword.
fn moment_by(keyword: Keyword, others: &[Token]) -> Option<Moment>
    ensures { result ≡ moment_by keyword others.now }
{
    match keyword {
        Keyword::Sleep => Some(Moment::Sleep(number_first(others)?)),
        Keyword::Scope | Keyword::Nursery => deadline_from(others),
        Keyword::Checkpoint => checkpoint_in(others),
        Keyword::Pace => pace_in(others),
        Keyword::Start => start_in(others),
        Keyword::Set => Some(Moment::Set(first_name(others)?)),
        Keyword::Wait => wait_in(others),
        Keyword::Acquire => Some(Moment::Asking(Ask::Acquire, first_name(others)?)),
        Keyword::Send => Some(Moment::Asking(Ask::Send, first_name(others)?)),
        Keyword::Receive => Some(Moment::Asking(Ask::Receive, first_name(others)?)),
        Keyword::Close => Some(Moment::Close(first_name(others)?)),
        _ => None,
    }
}

// Returns a `checkpoint`, given the tokens after the keyword.
fn checkpoint_in(others: &[Token]) -> Option<Moment>
    ensures { result ≡ moment_by keyword.Checkpoint others.now }
{
    let to = first_mark(Mark::Semicolon, others)?;
    Some(Moment::Checkpoint { to })
}

// Returns a `pace`, given the tokens after the keyword.
fn pace_in(others: &[Token]) -> Option<Moment>
    ensures { result ≡ moment_by keyword.Pace others.now }
{
    let lines = first_number(others)?;
    let to = first_mark(Mark::Semicolon, others)?;
    Some(Moment::Pace { lines, to })
}

// Returns a `start`, given the tokens after the keyword.
fn start_in(others: &[Token]) -> Option<Moment>
    ensures { result ≡ moment_by keyword.Start others.now }
{
    let name = first_name(others)?;
    let opening = first_mark(Mark::Open, others)?;
    Some(Moment::Start { name, opening })
}

// Returns a `wait`, given the tokens after the keyword.
fn wait_in(others: &[Token]) -> Option<Moment>
    ensures { result ≡ moment_by keyword.Wait others.now }
{
    let name = first_name(others)?;
    let to = first_mark(Mark::Semicolon, others)?;
    Some(Moment::Wait { name, to })
}

// Returns the deadline of a scope or nursery, given the tokens from its name on.
fn deadline_from(tokens: &[Token]) -> Option<Moment>
    ensures { result ≡ deadline_from tokens.now }
{
    let (named, others) = tokens.split_first()?;
    let name = named.shape.word()?;
    let (token, others) = others.split_first()?;
    deadline_by(name, keyword_in(*token), others)
}

// Returns the deadline of the scope or nursery with this name, given the keyword of the deadline and the tokens after it.
fn deadline_by(name: Name, keyword: Option<Keyword>, tokens: &[Token]) -> Option<Moment>
    ensures { result ≡ deadline_by name keyword tokens.now }
{
    match keyword {
        Some(Keyword::After) => Some(Moment::After(name, number_first(tokens)?)),
        Some(Keyword::At) => Some(Moment::At(name, number_first(tokens)?)),
        _ => None,
    }
}

/// Appends what is at a site, as it is printed: `sleep 5`, `limit after 5` or `limit at 5` for the deadline of `limit`,
/// `checkpoint`, `pace 5`, `start reader`, `set ready`, `wait ready`, `acquire pool`, `send work`, `receive work`, `close work`,
/// or `end of acquire pool`. The only error is that memory runs out.
pub fn push_moment(out: &mut Vec<u8>, moment: Moment) -> Result<(), AllocError>
    ensures { OnOk result (out.new.items ≡ out.old.items ++ moment_text moment) }
{
    match moment {
        Moment::Sleep(number) => push_counted(out, b"sleep ", number.value),
        Moment::After(name, number) => {
            out.extend_from_slice(name.bytes())?;
            push_counted(out, b" after ", number.value)
        }
        Moment::At(name, number) => {
            out.extend_from_slice(name.bytes())?;
            push_counted(out, b" at ", number.value)
        }
        Moment::Checkpoint { .. } => out.extend_from_slice(b"checkpoint"),
        Moment::Pace { lines, .. } => push_counted(out, b"pace ", lines),
        Moment::Start { name, .. } => push_named(out, b"start ", name),
        Moment::Set(name) => push_named(out, b"set ", name),
        Moment::Wait { name, .. } => push_named(out, b"wait ", name),
        Moment::Asking(ask, name) => push_asking(out, ask, name),
        Moment::Release(name) => push_named(out, b"end of acquire ", name),
        Moment::Close(name) => push_named(out, b"close ", name),
    }
}
