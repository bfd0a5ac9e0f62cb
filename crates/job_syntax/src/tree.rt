ghost use Rattle.std.specs.Prelude.{◌≡◌, length, IfOk};
ghost use Rattle.job_tree.specs.Blocks.{step_of, steps_of, handled_of, cleaned_of};
ghost use Rattle.job_tokens.specs.Shapes.{shapes_of};
ghost use Rattle.job_tokens.specs.Lexing.{Gives};
ghost use Rattle.job_syntax.specs.declared.keyword.Keyword.TheVariants as word;
ghost use Rattle.job_tree.specs.declared.format.Format.{Format};
ghost use Rattle.job_syntax.specs.Reading.{word_at, keyword_at, number_at, text_at, mark_at, after_word, flag_at, deadline_at, over_at, body_at, handler_at, cleanup_at, scope_at, nursery_at, event_at, kind_at, object_at, grant_at, send_at, start_at, passes_at, repeat_at, try_at, step_to_semicolon, plain_step, step_at, steps_with, blocks_at, head_at, job_at};

use crate::depth::MAX_DEPTH;
use crate::keyword::Keyword;
use job_tokens::{Mark, Token};
use job_tree::{Ask, Body, Deadline, Handler, Name, ObjectKind, Step, Text};
use std::alloc::{AllocError, Global};

/// Returns the name and the steps of the job with these tokens, of any format, if its blocks are nested at most 32 deep.
/// Otherwise returns `None`. Call it with tokens in which `check_grammar` finds no fault: it does not check where a `start`
/// occurs, what follows a `try`, or which steps the format has. The only error is that memory runs out.
pub fn job_at(alloc: Global, tokens: &[Token]) -> Result<Option<(Name, Body)>, AllocError>
    ensures { (format : Format) → IfOk result (λ x. Gives (λ j. record { format = format; name = j.0; steps = j.1 }) x
        (job_at format (shapes_of tokens.now))) }
{
    let Some((name, rest)) = head_at(tokens) else {
        return Ok(None);
    };
    let Some((steps, rest)) = blocks_at(alloc, MAX_DEPTH, rest)? else {
        return Ok(None);
    };
    if !rest.is_empty() {
        return Ok(None);
    }
    Ok(Some((name, steps)))
}

// Returns the name of the job, between its keyword and its `{`, and the tokens after the `{`.
fn head_at(tokens: &[Token]) -> Option<(Name, &[Token])>
    ensures { Gives (λ x. (x.0, shapes_of x.1.now)) result (head_at (shapes_of tokens.now)) }
{
    let Some((keyword, rest)) = keyword_at(tokens) else {
        return None;
    };
    if keyword != Keyword::Job {
        return None;
    }
    let Some((name, rest)) = word_at(rest) else {
        return None;
    };
    let rest = mark_at(rest, Mark::Open)?;
    Some((name, rest))
}

fn word_at(tokens: &[Token]) -> Option<(Name, &[Token])>
    ensures { Gives (λ x. (x.0, shapes_of x.1.now)) result (word_at (shapes_of tokens.now)) }
{
    let (first, rest) = tokens.split_first()?;
    let word = first.shape.word()?;
    Some((word, rest))
}

fn keyword_at(tokens: &[Token]) -> Option<(Keyword, &[Token])>
    ensures { Gives (λ x. (x.0, shapes_of x.1.now)) result (keyword_at (shapes_of tokens.now)) }
{
    let Some((word, rest)) = word_at(tokens) else {
        return None;
    };
    let keyword = Keyword::of(word)?;
    Some((keyword, rest))
}

fn number_at(tokens: &[Token]) -> Option<(u64, &[Token])>
    ensures { Gives (λ x. (x.0, shapes_of x.1.now)) result (number_at (shapes_of tokens.now)) }
{
    let (first, rest) = tokens.split_first()?;
    let number = first.shape.number()?;
    Some((number, rest))
}

fn text_at(tokens: &[Token]) -> Option<(Text, &[Token])>
    ensures { Gives (λ x. (x.0, shapes_of x.1.now)) result (text_at (shapes_of tokens.now)) }
{
    let (first, rest) = tokens.split_first()?;
    let text = first.shape.text()?;
    Some((text, rest))
}

// Returns the tokens after this mark, if it is the first token.
fn mark_at(tokens: &[Token], mark: Mark) -> Option<&[Token]>
    ensures { Gives (λ x. shapes_of x.now) result (mark_at mark (shapes_of tokens.now)) }
{
    let (first, rest) = tokens.split_first()?;
    let found = first.shape.mark()?;
    if found != mark {
        return None;
    }
    Some(rest)
}

// Returns the tokens after this keyword, if it is the first token.
fn after_word(tokens: &[Token], keyword: Keyword) -> Option<&[Token]>
    ensures { Gives (λ x. shapes_of x.now) result (after_word keyword (shapes_of tokens.now)) }
{
    let Some((word, rest)) = word_at(tokens) else {
        return None;
    };
    if word.bytes() != keyword.bytes() {
        return None;
    }
    Some(rest)
}

// Returns whether this optional keyword is the first token, and the tokens after it.
fn flag_at(tokens: &[Token], keyword: Keyword) -> (bool, &[Token])
    ensures { (result.0, shapes_of result.1.now) ≡ flag_at keyword (shapes_of tokens.now) }
{
    match after_word(tokens, keyword) {
        Some(rest) => (true, rest),
        None => (false, tokens),
    }
}

fn deadline_at(tokens: &[Token]) -> Option<(Deadline, &[Token])>
    ensures { Gives (λ x. (x.0, shapes_of x.1.now)) result (deadline_at (shapes_of tokens.now)) }
{
    if let Some(rest) = after_word(tokens, Keyword::After) {
        let (ticks, rest) = number_at(rest)?;
        return Some((Deadline::After(ticks), rest));
    }
    if let Some(rest) = after_word(tokens, Keyword::At) {
        let (tick, rest) = number_at(rest)?;
        return Some((Deadline::At(tick), rest));
    }
    Some((Deadline::Never, tokens))
}

// Returns the number of copies that are started, if there is an `over`.
fn over_at(tokens: &[Token]) -> Option<(Option<u64>, &[Token])>
    ensures { Gives (λ x. (x.0, shapes_of x.1.now)) result (over_at (shapes_of tokens.now)) }
{
    if let Some(rest) = after_word(tokens, Keyword::Over) {
        let (copies, rest) = number_at(rest)?;
        return Some((Some(copies), rest));
    }
    Some((None, tokens))
}

// Returns the number of passes of a `repeat`, and whether there is an `over`.
fn passes_at(tokens: &[Token]) -> Option<((u64, bool), &[Token])>
    ensures { Gives (λ x. (x.0, shapes_of x.1.now)) result (passes_at (shapes_of tokens.now)) }
{
    if let Some(rest) = after_word(tokens, Keyword::Over) {
        let (count, rest) = number_at(rest)?;
        return Some(((count, true), rest));
    }
    let (count, rest) = number_at(tokens)?;
    Some(((count, false), rest))
}

// Returns the steps of a block after its `{`, and the tokens after its `}`, or `None` if the tokens do not begin with such a
// block. At most `depth` blocks may be nested, including this one; so the recursion is no deeper than that.
#[cycle(tree)]
#[tactic(auto, unfolding(crate::specs::Reading::blocks_at))]
fn blocks_at(
    alloc: Global,
    depth: usize,
    tokens: &[Token],
) -> Result<Option<(Body, &[Token])>, AllocError>
    ensures { IfOk result (λ x. Gives (λ s. (s.0, shapes_of s.1.now)) x (blocks_at depth (shapes_of tokens.now))) }
{
    if depth == 0 {
        return Ok(None);
    }
    steps_with(alloc, depth - 1, tokens)
}

// Returns the steps up to the `}` that ends them, and the tokens after it.
#[cycle(tree)]
fn steps_with(
    alloc: Global,
    depth: usize,
    tokens: &[Token],
) -> Result<Option<(Body, &[Token])>, AllocError>
    ensures { IfOk result (λ x. Gives (λ s. (s.0, shapes_of s.1.now)) x
        (steps_with (blocks_at depth) (length tokens.now) (shapes_of tokens.now))) }
{
    let mut steps = Vec::new(alloc);
    let mut rest = tokens;
    'steps: for _ in 0..tokens.len() {
        if let Some(after) = mark_at(rest, Mark::Close) {
            return Ok(Some((Body::new(steps), after)));
        }
        let Some((step, after)) = step_at(alloc, depth, rest)? else {
            return Ok(None);
        };
        steps.push(step)?;
        rest = after;
    }
    Ok(None)
}

// Returns the first step, and the tokens after it.
#[cycle(tree)]
fn step_at(
    alloc: Global,
    depth: usize,
    tokens: &[Token],
) -> Result<Option<(Step, &[Token])>, AllocError>
    ensures { IfOk result (λ x. Gives (λ s. (step_of s.0, shapes_of s.1.now)) x (step_at (blocks_at depth) (shapes_of tokens.now))) }
{
    let Some((keyword, rest)) = keyword_at(tokens) else {
        return Ok(None);
    };
    match keyword {
        Keyword::Scope => scope_at(alloc, depth, rest),
        Keyword::Nursery => nursery_at(alloc, depth, rest),
        Keyword::Event => event_at(alloc, depth, rest),
        Keyword::Limiter => object_at(alloc, depth, keyword, rest),
        Keyword::Channel => object_at(alloc, depth, keyword, rest),
        Keyword::Acquire => grant_at(alloc, depth, Ask::Acquire, rest),
        Keyword::Receive => grant_at(alloc, depth, Ask::Receive, rest),
        Keyword::Send => Ok(send_at(alloc, rest)),
        Keyword::Start => start_at(alloc, depth, rest),
        Keyword::Repeat => repeat_at(alloc, depth, rest),
        Keyword::Try => try_at(alloc, depth, rest),
        _ => Ok(plain_step(keyword, rest)),
    }
}

// Returns a block that begins with its `{`.
#[cycle(tree)]
fn body_at(
    alloc: Global,
    depth: usize,
    tokens: &[Token],
) -> Result<Option<(Body, &[Token])>, AllocError>
    ensures { IfOk result (λ x. Gives (λ s. (s.0, shapes_of s.1.now)) x (body_at (blocks_at depth) (shapes_of tokens.now))) }
{
    let Some(rest) = mark_at(tokens, Mark::Open) else {
        return Ok(None);
    };
    blocks_at(alloc, depth, rest)
}

#[cycle(tree)]
fn scope_at(
    alloc: Global,
    depth: usize,
    tokens: &[Token],
) -> Result<Option<(Step, &[Token])>, AllocError>
    ensures { IfOk result (λ x. Gives (λ s. (step_of s.0, shapes_of s.1.now)) x (scope_at (blocks_at depth) (shapes_of tokens.now))) }
{
    let Some((name, rest)) = word_at(tokens) else {
        return Ok(None);
    };
    let Some((deadline, rest)) = deadline_at(rest) else {
        return Ok(None);
    };
    let (shield, rest) = flag_at(rest, Keyword::Shield);
    let (fail, rest) = flag_at(rest, Keyword::Fail);
    let Some((body, rest)) = body_at(alloc, depth, rest)? else {
        return Ok(None);
    };
    let scope = Step::Scope {
        name,
        deadline,
        shield,
        fail,
        body,
    };
    Ok(Some((scope, rest)))
}

#[cycle(tree)]
fn nursery_at(
    alloc: Global,
    depth: usize,
    tokens: &[Token],
) -> Result<Option<(Step, &[Token])>, AllocError>
    ensures { IfOk result (λ x. Gives (λ s. (step_of s.0, shapes_of s.1.now)) x (nursery_at (blocks_at depth) (shapes_of tokens.now))) }
{
    let Some((name, rest)) = word_at(tokens) else {
        return Ok(None);
    };
    let Some((deadline, rest)) = deadline_at(rest) else {
        return Ok(None);
    };
    let (shield, rest) = flag_at(rest, Keyword::Shield);
    let Some((body, rest)) = body_at(alloc, depth, rest)? else {
        return Ok(None);
    };
    let nursery = Step::Nursery {
        name,
        deadline,
        shield,
        body,
    };
    Ok(Some((nursery, rest)))
}

#[cycle(tree)]
fn event_at(
    alloc: Global,
    depth: usize,
    tokens: &[Token],
) -> Result<Option<(Step, &[Token])>, AllocError>
    ensures { IfOk result (λ x. Gives (λ s. (step_of s.0, shapes_of s.1.now)) x (event_at (blocks_at depth) (shapes_of tokens.now))) }
{
    let Some((name, rest)) = word_at(tokens) else {
        return Ok(None);
    };
    let Some((body, rest)) = body_at(alloc, depth, rest)? else {
        return Ok(None);
    };
    Ok(Some((Step::Event { name, body }, rest)))
}

// Returns a limiter or a channel, read after this keyword.
#[cycle(tree)]
fn object_at(
    alloc: Global,
    depth: usize,
    keyword: Keyword,
    tokens: &[Token],
) -> Result<Option<(Step, &[Token])>, AllocError>
    ensures { IfOk result (λ x. Gives (λ s. (step_of s.0, shapes_of s.1.now)) x
        (object_at keyword (blocks_at depth) (shapes_of tokens.now))) }
{
    let Some((name, rest)) = word_at(tokens) else {
        return Ok(None);
    };
    let Some((count, rest)) = number_at(rest) else {
        return Ok(None);
    };
    let Some(kind) = kind_at(keyword, count) else {
        return Ok(None);
    };
    let Some((body, rest)) = body_at(alloc, depth, rest)? else {
        return Ok(None);
    };
    Ok(Some((Step::Object { name, kind, body }, rest)))
}

// Returns what this keyword opens that has so many tokens or places.
fn kind_at(keyword: Keyword, count: u64) -> Option<ObjectKind>
    ensures { result ≡ kind_at keyword count }
{
    match keyword {
        Keyword::Limiter => Some(ObjectKind::Limiter(count)),
        Keyword::Channel => Some(ObjectKind::Channel(count)),
        _ => None,
    }
}

// Returns a step that asks for something, with its block.
#[cycle(tree)]
fn grant_at(
    alloc: Global,
    depth: usize,
    ask: Ask,
    tokens: &[Token],
) -> Result<Option<(Step, &[Token])>, AllocError>
    ensures { IfOk result (λ x. Gives (λ s. (step_of s.0, shapes_of s.1.now)) x
        (grant_at ask (blocks_at depth) (shapes_of tokens.now))) }
{
    let Some((name, rest)) = word_at(tokens) else {
        return Ok(None);
    };
    let Some((body, rest)) = body_at(alloc, depth, rest)? else {
        return Ok(None);
    };
    Ok(Some((Step::Ask { name, ask, body }, rest)))
}

#[cycle(tree)]
fn repeat_at(
    alloc: Global,
    depth: usize,
    tokens: &[Token],
) -> Result<Option<(Step, &[Token])>, AllocError>
    ensures { IfOk result (λ x. Gives (λ s. (step_of s.0, shapes_of s.1.now)) x (repeat_at (blocks_at depth) (shapes_of tokens.now))) }
{
    let Some(((count, over), rest)) = passes_at(tokens) else {
        return Ok(None);
    };
    let Some((body, rest)) = body_at(alloc, depth, rest)? else {
        return Ok(None);
    };
    Ok(Some((Step::Repeat { count, over, body }, rest)))
}

#[cycle(tree)]
fn start_at(
    alloc: Global,
    depth: usize,
    tokens: &[Token],
) -> Result<Option<(Step, &[Token])>, AllocError>
    ensures { IfOk result (λ x. Gives (λ s. (step_of s.0, shapes_of s.1.now)) x (start_at (blocks_at depth) (shapes_of tokens.now))) }
{
    let Some((name, rest)) = word_at(tokens) else {
        return Ok(None);
    };
    let Some((over, rest)) = over_at(rest) else {
        return Ok(None);
    };
    let Some((body, rest)) = body_at(alloc, depth, rest)? else {
        return Ok(None);
    };
    Ok(Some((Step::Start { name, over, body }, rest)))
}

#[cycle(tree)]
fn try_at(
    alloc: Global,
    depth: usize,
    tokens: &[Token],
) -> Result<Option<(Step, &[Token])>, AllocError>
    ensures { IfOk result (λ x. Gives (λ s. (step_of s.0, shapes_of s.1.now)) x (try_at (blocks_at depth) (shapes_of tokens.now))) }
{
    let Some((body, rest)) = body_at(alloc, depth, tokens)? else {
        return Ok(None);
    };
    let Some((handler, rest)) = handler_at(alloc, depth, rest)? else {
        return Ok(None);
    };
    let Some((cleanup, rest)) = cleanup_at(alloc, depth, rest)? else {
        return Ok(None);
    };
    let attempt = Step::Try {
        body,
        handler,
        cleanup,
    };
    Ok(Some((attempt, rest)))
}

#[cycle(tree)]
fn handler_at(
    alloc: Global,
    depth: usize,
    tokens: &[Token],
) -> Result<Option<(Option<Handler>, &[Token])>, AllocError>
    ensures { IfOk result (λ x. Gives (λ h. (handled_of h.0, shapes_of h.1.now)) x (handler_at (blocks_at depth) (shapes_of tokens.now))) }
{
    let Some(rest) = after_word(tokens, Keyword::Except) else {
        return Ok(Some((None, tokens)));
    };
    let Some((name, rest)) = word_at(rest) else {
        return Ok(None);
    };
    let Some((body, rest)) = body_at(alloc, depth, rest)? else {
        return Ok(None);
    };
    Ok(Some((Some(Handler { name, body }), rest)))
}

#[cycle(tree)]
fn cleanup_at(
    alloc: Global,
    depth: usize,
    tokens: &[Token],
) -> Result<Option<(Option<Body>, &[Token])>, AllocError>
    ensures { IfOk result (λ x. Gives (λ c. (cleaned_of c.0, shapes_of c.1.now)) x (cleanup_at (blocks_at depth) (shapes_of tokens.now))) }
{
    let Some(rest) = after_word(tokens, Keyword::Finally) else {
        return Ok(Some((None, tokens)));
    };
    let Some((body, rest)) = body_at(alloc, depth, rest)? else {
        return Ok(None);
    };
    Ok(Some((Some(body), rest)))
}

// Returns a step without a block, read after its keyword.
fn plain_step(keyword: Keyword, tokens: &[Token]) -> Option<(Step, &[Token])>
    ensures { Gives (λ x. (step_of x.0, shapes_of x.1.now)) result (plain_step keyword (shapes_of tokens.now)) }
{
    match keyword {
        Keyword::Sleep => {
            let (ticks, rest) = number_at(tokens)?;
            step_to_semicolon(Step::Sleep(ticks), rest)
        }
        Keyword::Checkpoint => step_to_semicolon(Step::Checkpoint, tokens),
        Keyword::Forever => step_to_semicolon(Step::Forever, tokens),
        Keyword::Pace => {
            let (per_tick, rest) = number_at(tokens)?;
            step_to_semicolon(Step::Pace(per_tick), rest)
        }
        Keyword::Find => {
            let Some((text, rest)) = text_at(tokens) else {
                return None;
            };
            step_to_semicolon(Step::Find(text), rest)
        }
        Keyword::Head => {
            let (count, rest) = number_at(tokens)?;
            step_to_semicolon(Step::Head(count), rest)
        }
        Keyword::Longest => step_to_semicolon(Step::Longest, tokens),
        Keyword::Need => need_at(tokens),
        Keyword::Raise => {
            let Some((name, rest)) = word_at(tokens) else {
                return None;
            };
            step_to_semicolon(Step::Raise(name), rest)
        }
        Keyword::Cancel => {
            let Some((name, rest)) = word_at(tokens) else {
                return None;
            };
            step_to_semicolon(Step::Cancel(name), rest)
        }
        Keyword::Set => {
            let Some((name, rest)) = word_at(tokens) else {
                return None;
            };
            step_to_semicolon(Step::Set(name), rest)
        }
        Keyword::Wait => {
            let Some((name, rest)) = word_at(tokens) else {
                return None;
            };
            step_to_semicolon(Step::Wait(name), rest)
        }
        Keyword::Close => {
            let Some((name, rest)) = word_at(tokens) else {
                return None;
            };
            step_to_semicolon(Step::Close(name), rest)
        }
        _ => None,
    }
}

// Returns a `send`, read after its keyword. Its block is empty.
fn send_at(alloc: Global, tokens: &[Token]) -> Option<(Step, &[Token])>
    ensures { Gives (λ x. (step_of x.0, shapes_of x.1.now)) result (send_at (shapes_of tokens.now)) }
{
    let Some((name, rest)) = word_at(tokens) else {
        return None;
    };
    let ask = Ask::Send;
    let body = Body::new(Vec::new(alloc));
    step_to_semicolon(Step::Ask { name, ask, body }, rest)
}

fn need_at(tokens: &[Token]) -> Option<(Step, &[Token])>
    ensures { Gives (λ x. (step_of x.0, shapes_of x.1.now)) result (plain_step word.Need (shapes_of tokens.now)) }
{
    let Some((text, rest)) = text_at(tokens) else {
        return None;
    };
    let Some((name, rest)) = word_at(rest) else {
        return None;
    };
    step_to_semicolon(Step::Need { text, name }, rest)
}

// Returns the step, and the tokens after its `;`.
fn step_to_semicolon(step: Step, tokens: &[Token]) -> Option<(Step, &[Token])>
    ensures { Gives (λ x. (step_of x.0, shapes_of x.1.now)) result (step_to_semicolon (step_of step) (shapes_of tokens.now)) }
{
    let rest = mark_at(tokens, Mark::Semicolon)?;
    Some((step, rest))
}
