ghost use Rattle.std.specs.Prelude.{◌≡◌, ◌≤◌, ◌&&◌, false, List, MatchOption, length, map};
ghost use Rattle.std.specs.Bool.{beq};
ghost use Rattle.exceptions.specs.Labels.{same_label};
ghost use Rattle.job_meaning.specs.Shown.{Shown};
ghost use Rattle.task_machine.specs.Noted.{entry_of};
ghost use Rattle.race_text.specs.Same.{same_entry, same_entries, is_exit_of, with_kept, kept_entries, begins_with_exit};
ghost use Rattle.race_text.specs.RowViews.{shown_from, kept_from};

use exceptions::Label;
use job_tree::Name;
use task_machine::Entry;

// Returns whether two entries are the same line, or exits of the same scope or nursery that both caught or both did not, or waits
// for the same event, or grants of the same by the same limiter or channel.
fn is_same_entry(a: &Entry<'_>, b: &Entry<'_>) -> bool
    ensures { result ≡ same_entry (entry_of a.now) (entry_of b.now) }
{
    match (a, b) {
        (Entry::Line(a), Entry::Line(b)) => a.at() == b.at() && a.text() == b.text(),
        (
            Entry::Scope { label, caught, .. },
            Entry::Scope {
                label: other,
                caught: also,
                ..
            },
        ) => is_same_exit(label, *caught, other, *also),
        (
            Entry::Nursery { label, caught, .. },
            Entry::Nursery {
                label: other,
                caught: also,
                ..
            },
        ) => is_same_exit(label, *caught, other, *also),
        (Entry::Wait { label, .. }, Entry::Wait { label: other, .. }) => label == other,
        (
            Entry::Granted { ask, label, .. },
            Entry::Granted {
                ask: other_ask,
                label: other,
                ..
            },
        ) => ask == other_ask && label == other,
        _ => false,
    }
}

// Returns whether two exits are of the same scope or nursery, and both caught or both did not.
fn is_same_exit(label: &Label, caught: bool, other: &Label, also: bool) -> bool
    ensures { result ≡ (same_label label.now other.now && beq caught also) }
{
    *label == *other && caught == also
}

// Returns whether these are the same entries in the same order, apart from the exits of scopes with this name.
pub(crate) fn are_same_entries(scope: Name, a: &[Entry<'_>], b: &[Entry<'_>]) -> bool
    ensures { result ≡ same_entries (kept_entries scope (map entry_of a.now)) (kept_entries scope (map entry_of b.now)) }
{
    let mut next = 0;
    'entries: for entry in a {
        let Some(after) = after_same(scope, entry, b, next) else {
            return false;
        };
        next = after;
    }
    next_kept(scope, b, next) >= b.len()
}

// Returns the index after the entry that is the same as `entry` and is the first one from `from` on that is no exit of a scope
// with this name; or `from` itself if `entry` is such an exit. Returns `None` if that one is another entry, or if there is none.
fn after_same(scope: Name, entry: &Entry<'_>, entries: &[Entry<'_>], from: usize) -> Option<usize>
    requires { from ≤ length entries.now }
    ensures { (xs : List Shown) → MatchOption result
        (same_entries (with_kept scope (entry_of entry.now) xs) (kept_from scope entries.now from) ≡ false)
        (λ next. (next ≤ length entries.now)
        × (same_entries (with_kept scope (entry_of entry.now) xs) (kept_from scope entries.now from)
        ≡ same_entries xs (kept_from scope entries.now next))) }
{
    if is_exit_of(scope, entry) {
        return Some(from);
    }
    let at = next_kept(scope, entries, from);
    if at >= entries.len() {
        return None;
    }
    if !is_same_entry(entry, &entries[at]) {
        return None;
    }
    Some(at + 1)
}

// Returns the index of the first entry from `from` on that is no exit of a scope with this name, or the number of entries.
fn next_kept(scope: Name, entries: &[Entry<'_>], from: usize) -> usize
    requires { from ≤ length entries.now }
    ensures within { result ≤ length entries.now }
    ensures kept { kept_from scope entries.now result ≡ kept_from scope entries.now from }
    ensures is_kept { begins_with_exit scope (shown_from entries.now result) ≡ false }
{
    let mut at = from;
    'entries: while at < entries.len() {
        if !is_exit_of(scope, &entries[at]) {
            return at;
        }
        at += 1;
    }
    at
}

// Returns whether an entry is the exit of a scope with this name.
fn is_exit_of(scope: Name, entry: &Entry<'_>) -> bool
    ensures { result ≡ is_exit_of scope (entry_of entry.now) }
{
    match entry {
        Entry::Scope { label, .. } => label.name() == scope,
        _ => false,
    }
}
