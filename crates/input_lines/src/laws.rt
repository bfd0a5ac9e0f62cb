//! Laws about the cuts of a part, which follow from the definitions. Their functions do nothing at run time.

ghost use Rattle.std.specs.Prelude.{◌≡◌, ℕ, ◌+◌, ◌<◌, ◌≤◌};
ghost use Rattle.input_lines.specs.Lines.{bytes_of, lines_of};
ghost use Rattle.input_lines.specs.Cuts.{cut_point, bytes_of_cuts, lines_of_cuts};
ghost use Rattle.input_lines.specs.Part.{buffer_of, range_of};

use crate::part::Part;

/// The cuts of a part meet: the first starts where the part starts, each starts where the one before it ends, and the
/// last ends where the part ends.
pub fn cuts_meet(part: Part<'_>, k: usize)
    requires { 1 ≤ k }
    ensures first { cut_point (buffer_of part.entry) (range_of part.entry) k 0 ≡ (range_of part.entry).from }
    ensures last { cut_point (buffer_of part.entry) (range_of part.entry) k k ≡ (range_of part.entry).to }
    ensures rising { (i : ℕ) → i < k → cut_point (buffer_of part.entry) (range_of part.entry) k i
        ≤ cut_point (buffer_of part.entry) (range_of part.entry) k (i + 1) }
{}

/// The bytes of a part's cuts, in order, are the part's bytes.
pub fn cuts_keep_bytes(part: Part<'_>, k: usize)
    requires { 1 ≤ k }
    ensures { bytes_of_cuts (buffer_of part.entry) (range_of part.entry) k k
        ≡ bytes_of (buffer_of part.entry) (range_of part.entry) }
{}

/// The lines of a part's cuts, in order, are the part's lines.
pub fn cuts_keep_lines(part: Part<'_>, k: usize)
    requires { 1 ≤ k }
    ensures { lines_of_cuts (buffer_of part.entry) (range_of part.entry) k k
        ≡ lines_of (buffer_of part.entry) (range_of part.entry) }
{}
