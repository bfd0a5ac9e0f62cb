ghost use Rattle.std.specs.Prelude.{◌≡◌};
ghost use Rattle.cancel_scopes.specs.Sight.{before as comes_before, earlier as lesser, is_reached as has_come};

/// Returns the earlier of two ticks. `None` means never, so the result is `None` only if both are.
pub fn earlier(first: Option<u64>, second: Option<u64>) -> Option<u64>
    ensures { result ≡ lesser first second }
{
    match (first, second) {
        (Some(first), Some(second)) => Some(if second < first { second } else { first }),
        (Some(_), None) => first,
        (None, _) => second,
    }
}

// Returns whether the first tick is earlier than the second. `None` means never.
pub(crate) fn before(first: Option<u64>, second: Option<u64>) -> bool
    ensures { result ≡ comes_before first second }
{
    match (first, second) {
        (Some(first), Some(second)) => first < second,
        (Some(_), None) => true,
        (None, _) => false,
    }
}

/// Returns whether `from` is at or before `tick`, so whether a scope that is cancelled from `from` on is cancelled at
/// `tick`. Returns `false` if `from` is `None`, which means never.
pub fn is_reached(from: Option<u64>, tick: u64) -> bool
    ensures { result ≡ has_come from tick }
{
    match from {
        Some(from) => from <= tick,
        None => false,
    }
}
