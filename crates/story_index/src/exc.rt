ghost use Rattle.std.specs.Prelude.{◌≡◌, is_none};
ghost use Rattle.exceptions.specs.Held.{exc_of, excs_of};
ghost use Rattle.exceptions.specs.Split.{is_cancelled, drop};
ghost use Rattle.story_index.specs.Leaves.{all_cancelled, all_in};

use exceptions::Exc;

/// Returns whether every leaf of an exception is `Cancelled`.
#[tactic(auto, using(crate::proofs::NothingLeft::nothing_left))]
pub fn is_cancellation(exc: &Exc) -> bool
    ensures { result ≡ is_none (drop is_cancelled (exc_of exc.now)) }
{
    has_no_other(exc)
}

// Returns whether every leaf is `Cancelled`, by looking at each leaf.
#[cycle(leaves)]
fn has_no_other(exc: &Exc) -> bool
    ensures { result ≡ all_cancelled (exc_of exc.now) }
{
    match exc {
        Exc::Cancelled => true,
        Exc::Raised { .. } | Exc::TooSlow { .. } => false,
        Exc::Group { parts, .. } => have_no_other(parts.as_slice()),
    }
}

// Returns whether every leaf of every part is `Cancelled`.
#[cycle(leaves)]
fn have_no_other(parts: &[Exc]) -> bool
    ensures { result ≡ all_in (excs_of parts.now) }
{
    let mut rest = parts;
    'parts: while let Some((part, others)) = rest.split_first() {
        if !has_no_other(part) {
            return false;
        }
        rest = others;
    }
    true
}
