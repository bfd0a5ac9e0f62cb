ghost use Rattle.std.specs.Prelude.{◌≡◌, None, Some, IfSome, MatchOption};
ghost use Rattle.input_lines.specs.Part.{buffer_of, range_of, span_of, IsLineOf};
ghost use Rattle.input_lines.specs.Kernels.{needed_in};

use crate::matching::{fits_in_line, next_by_line, next_by_search};
use crate::{Line, Part};
use memchr::memmem;

// Returns the first line that contains a string, or `None` if there is none.
pub(crate) fn find_needed_line<'a>(part: Part<'a>, needle: &[u8]) -> Option<Line<'a>>
    ensures place { MatchOption result (needed_in (buffer_of part.entry) needle.now (range_of part.entry) ≡ None)
        (λ line. needed_in (buffer_of part.entry) needle.now (range_of part.entry) ≡ Some (span_of line)) }
    ensures text { IfSome result (IsLineOf (buffer_of part.entry)) }
{
    let mut left = part.lines();
    if fits_in_line(needle) {
        let finder = memmem::Finder::new(needle);
        return next_by_search(&mut left, &finder);
    }
    next_by_line(&mut left, needle)
}
