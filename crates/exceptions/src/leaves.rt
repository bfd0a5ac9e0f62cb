ghost use Rattle.std.specs.Prelude.{◌≡◌, Bool, true, IfOk, if◌then◌else◌};
ghost use Rattle.std.specs.Option.{option_map};
ghost use Rattle.exceptions.specs.Exceptions.{group_of, holds_cancelled as holding, hold_cancelled};
ghost use Rattle.exceptions.specs.Split.{matches as matching, pruned_exc, pruned_parts, keep, drop};
ghost use Rattle.exceptions.specs.Held.{exc_of, excs_of, whose_of};
ghost use Rattle.exceptions.specs.Matching.{wanted_of, side};

use crate::exc::{Exc, Parts, Whose};
use crate::wanted::Match;
use std::alloc::{AllocError, Global};

/// Splits an exception, as `split` of PEP 654 does. Returns first the part with the leaves that match, and then the part
/// with the other leaves. Either is `None` if it has no leaf. Nesting is kept, and a group that became empty is dropped.
/// Returns `AllocError` if memory runs out.
pub fn split(
    alloc: Global,
    exc: Exc,
    wanted: &Match,
) -> Result<(Option<Exc>, Option<Exc>), AllocError>
    ensures kept { IfOk result (λ sides. option_map exc_of sides.0 ≡ keep (wanted_of wanted.now) (exc_of exc)) }
    ensures dropped { IfOk result (λ sides. option_map exc_of sides.1 ≡ drop (wanted_of wanted.now) (exc_of exc)) }
{
    let kept = prune(alloc, &exc, wanted, true)?;
    let dropped = prune(alloc, &exc, wanted, false)?;
    Ok((kept, dropped))
}

/// Returns the group of these exceptions with the origin `whose`, or `None` if there are no exceptions. A single
/// exception is wrapped in a group too. Does not allocate.
pub fn group(whose: Whose, parts: Vec<Exc>) -> Option<Exc>
    ensures { option_map exc_of result ≡ group_of (whose_of whose) (excs_of parts.items) }
{
    if parts.as_slice().is_empty() {
        return None;
    }
    Some(Exc::Group {
        whose,
        parts: Parts::new(parts),
    })
}

/// Returns whether at least one leaf is `Cancelled`. Does not allocate.
#[cycle(holds)]
pub fn holds_cancelled(exc: &Exc) -> bool
    ensures { result ≡ holding (exc_of exc.now) }
{
    match exc {
        Exc::Cancelled => true,
        Exc::Raised { .. } | Exc::TooSlow { .. } => false,
        Exc::Group { parts, .. } => some_holds_cancelled(parts.as_slice()),
    }
}

// Returns whether at least one leaf of the parts is `Cancelled`.
#[cycle(holds)]
fn some_holds_cancelled(parts: &[Exc]) -> bool
    ensures { result ≡ hold_cancelled (excs_of parts.now) }
{
    let mut rest = parts;
    'parts: while let Some((part, others)) = rest.split_first() {
        if holds_cancelled(part) {
            return true;
        }
        rest = others;
    }
    false
}

// Returns whether a leaf matches. A group is not a leaf, so it never matches.
fn is_match(exc: &Exc, wanted: &Match) -> bool
    ensures { result ≡ matching (wanted_of wanted.now) (exc_of exc.now) }
{
    match wanted {
        Match::Cancelled => matches!(exc, Exc::Cancelled),
        Match::Name(wanted) => match exc {
            Exc::Raised { name, .. } => wanted.bytes() == name.bytes(),
            Exc::TooSlow { .. } => wanted.bytes() == b"TooSlow".as_slice(),
            _ => false,
        },
    }
}

// Returns one side of a split: the leaves that match if `keeps`, and the other leaves otherwise.
#[cycle(prune)]
fn prune(alloc: Global, exc: &Exc, wanted: &Match, keeps: bool) -> Result<Option<Exc>, AllocError>
    ensures { IfOk result (λ left. option_map exc_of left ≡ pruned_exc (side keeps (wanted_of wanted.now)) (exc_of exc.now)) }
{
    if let Exc::Group { whose, parts } = exc {
        let left = prune_parts(alloc, parts.as_slice(), wanted, keeps)?;
        return Ok(group(whose.copy(alloc)?, left));
    }
    if is_match(exc, wanted) == keeps {
        Ok(Some(exc.copy(alloc)?))
    } else {
        Ok(None)
    }
}

// Returns the same side of each part, without the parts that have no leaf left.
#[cycle(prune)]
fn prune_parts(
    alloc: Global,
    parts: &[Exc],
    wanted: &Match,
    keeps: bool,
) -> Result<Vec<Exc>, AllocError>
    ensures { IfOk result (λ left. excs_of left.items ≡ pruned_parts (side keeps (wanted_of wanted.now)) (excs_of parts.now)) }
{
    let mut left = Vec::new(alloc);
    'parts: for part in parts {
        match prune(alloc, part, wanted, keeps)? {
            Some(exc) => left.push(exc)?,
            None => {}
        }
    }
    Ok(left)
}
