ghost use Rattle.std.specs.Prelude.{◌≡◌, [], ◌∷◌, IfSome, MatchOption};
ghost use Rattle.input_lines.specs.Part.{buffer_of, range_of, span_of, IsLineOf};
ghost use Rattle.input_lines.specs.Kernels.{longest_in};

use crate::{Line, Part};

// Returns the first of the longest lines, or `None` if the part has no line.
pub(crate) fn longest_line<'a>(part: Part<'a>) -> Option<Line<'a>>
    ensures place { MatchOption result (longest_in (buffer_of part.entry) (range_of part.entry) ≡ [])
        (λ line. longest_in (buffer_of part.entry) (range_of part.entry) ≡ span_of line ∷ []) }
    ensures text { IfSome result (IsLineOf (buffer_of part.entry)) }
{
    let mut left = part.lines();
    let mut longest = left.next()?;
    'longer: while let Some(line) = left.next_longer_than(longest.text().len()) {
        longest = line;
    }
    Some(longest)
}
