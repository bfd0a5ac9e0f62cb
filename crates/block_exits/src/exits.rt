ghost use Rattle.std.specs.Prelude.{◌≡◌, IfOk};
ghost use Rattle.std.specs.Option.{option_map};
ghost use Rattle.exceptions.specs.Held.{exc_of};
ghost use Rattle.job_meaning.specs.Walk.{left_with, exc_after, handler_exc, outcome_after};
ghost use Rattle.block_exits.specs.Held.{kind_of, fails_of, left_of};

use crate::kind::Kind;
use exceptions::{Exc, Label, Match, Parts, Whose, holds_cancelled, split};
use std::alloc::{AllocError, Global};

/// The exception that remains when a scope or nursery is left.
#[derive(Drop)]
pub struct Left {
    /// Whether a `Cancelled` was caught.
    pub caught: bool,
    /// The exception that propagates.
    pub exc: Option<Exc>,
}

/// Leaves a scope or nursery with an exception or none. If it catches, every `Cancelled` leaf is removed from the exception,
/// and the rest propagates. The only error is that memory runs out; the exception is then dropped.
pub fn left_with(alloc: Global, catches: bool, exc: Option<Exc>) -> Result<Left, AllocError>
    ensures { IfOk result (λ left. left_of left ≡ left_with catches (option_map exc_of exc)) }
{
    let Some(exc) = exc else {
        return Ok(Left {
            caught: false,
            exc: None,
        });
    };
    if !catches {
        return Ok(Left {
            caught: false,
            exc: Some(exc),
        });
    }
    let caught = holds_cancelled(&exc);
    let (_, rest) = split(alloc, exc, &Match::Cancelled)?;
    Ok(Left { caught, exc: rest })
}

/// Returns the exception that leaves a scope or nursery with this label in this tick. A `fail` scope that caught a cancellation
/// and has nothing else left raises `TooSlow`, as Trio's `fail_after` does. The only error is that memory runs out.
pub fn exc_after(
    alloc: Global,
    kind: Kind,
    label: &Label,
    tick: u64,
    left: Left,
) -> Result<Option<Exc>, AllocError>
    ensures { IfOk result (λ exc. option_map exc_of exc ≡ exc_after (kind_of kind) label.now tick (left_of left)) }
{
    let is_slow = fails(kind) && left.caught;
    match left.exc {
        None if is_slow => Ok(Some(Exc::TooSlow {
            scope: label.copy(alloc)?,
            tick,
        })),
        exc => Ok(exc),
    }
}

// Returns whether it is a `fail` scope.
fn fails(kind: Kind) -> bool
    ensures { result ≡ fails_of (kind_of kind) }
{
    match kind {
        Kind::Scope { fail } => fail,
        Kind::Nursery => false,
    }
}

/// Returns the exception after a handler: what the handler raised, and the rest that it did not handle. If there are both, they
/// are the members of a group, in this order. The only error is that memory runs out; both exceptions are then dropped.
pub fn handler_exc(
    alloc: Global,
    raised: Option<Exc>,
    rest: Option<Exc>,
) -> Result<Option<Exc>, AllocError>
    ensures { IfOk result (λ exc. option_map exc_of exc ≡ handler_exc (option_map exc_of raised) (option_map exc_of rest)) }
{
    let Some(raised) = raised else {
        return Ok(rest);
    };
    let Some(rest) = rest else {
        return Ok(Some(raised));
    };
    let mut parts = Vec::new(alloc);
    parts.push(raised)?;
    parts.push(rest)?;
    Ok(Some(Exc::Group {
        whose: Whose::Handler,
        parts: Parts::new(parts),
    }))
}

/// Returns the exception after a cleanup (`finally`): the cleanup's own, if it raised one, or else the earlier one.
pub fn outcome_after(earlier: Option<Exc>, exc: Option<Exc>) -> Option<Exc>
    ensures { option_map exc_of result ≡ outcome_after (option_map exc_of earlier) (option_map exc_of exc) }
{
    match exc {
        None => earlier,
        Some(exc) => Some(exc),
    }
}
