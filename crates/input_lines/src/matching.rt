ghost use Rattle.std.specs.Prelude.{◌≡◌, ◌≢◌, ◌<◌, ℕ, true, length, slice_index};
ghost use Rattle.input_lines.specs.Matches.{GivesMatch};

use crate::contains::contains;
use crate::{Line, Lines};
use memchr::{memchr, memmem};

// Returns whether one search through several lines finds a string only inside lines: whether the string is not empty and has
// no newline. The empty string occurs in every line, and a string with a newline in none, even if it occurs in a part.
pub(crate) fn fits_in_line(needle: &[u8]) -> bool
    ensures some { result ≡ true → 0 < length needle.now }
    ensures in_one_line { result ≡ true → (j : ℕ) → j < length needle.now → slice_index needle.now j ≢ 10 }
{
    if needle.is_empty() {
        return false;
    }
    memchr(b'\n', needle).is_none()
}

// Returns the next of the lines left that contains a string, by a search in each line, or `None` if there is none.
pub(crate) fn next_by_line<'a>(left: &mut Lines<'a>, needle: &[u8]) -> Option<Line<'a>>
    ensures { GivesMatch needle.now left.old result left.new }
{
    'lines: while let Some(line) = left.next() {
        if contains(line.text(), needle) {
            return Some(line);
        }
    }
    None
}

// Returns the same, by one search through the lines left.
pub(crate) fn next_by_search<'a>(
    left: &mut Lines<'a>,
    finder: &memmem::Finder<'_>,
) -> Option<Line<'a>>
    requires some { 0 < length finder.now }
    requires in_one_line { (j : ℕ) → j < length finder.now → slice_index finder.now j ≢ 10 }
    ensures { GivesMatch finder.now left.old result left.new }
{
    match finder.find(left.text()) {
        Some(place) => Some(left.line_at(place)),
        None => None,
    }
}
