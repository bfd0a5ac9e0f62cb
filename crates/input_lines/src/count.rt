ghost use Rattle.std.specs.Prelude.{◌≡◌};
ghost use Rattle.input_lines.specs.Part.{buffer_of, range_of};
ghost use Rattle.input_lines.specs.Kernels.{count_in};

use crate::Part;
use crate::newlines::newline_count;

// Returns how many lines a part has: one for each newline, and one more if there are bytes after the last newline.
pub(crate) fn line_count(part: Part<'_>) -> u64
    ensures { result ≡ count_in (buffer_of part.entry) (range_of part.entry) }
{
    let text = part.text();
    if text.is_empty() {
        return 0;
    }
    let newlines = newline_count(text);
    if text[text.len() - 1] == b'\n' {
        return newlines;
    }
    newlines + 1
}
