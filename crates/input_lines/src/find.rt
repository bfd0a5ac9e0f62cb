ghost use Rattle.std.specs.Prelude.{◌≡◌, ◌≢◌, ◌<◌, ℕ, length, slice_index, IfOk};
ghost use Rattle.input_lines.specs.Part.{buffer_of, range_of};
ghost use Rattle.input_lines.specs.Kernels.{found_in};
ghost use Rattle.input_lines.specs.Answers.{AreLinesAt};

use crate::Part;
use crate::lines::FoundLines;
use crate::matching::{fits_in_line, next_by_line, next_by_search};
use memchr::memmem;
use std::alloc::{AllocError, Global};

// Returns the lines that contain a string, in order.
pub(crate) fn find_lines<'a>(
    alloc: Global,
    part: Part<'a>,
    needle: &[u8],
) -> Result<FoundLines<'a>, AllocError>
    ensures { IfOk result (AreLinesAt (buffer_of part.entry)
        (found_in (buffer_of part.entry) needle.now (range_of part.entry))) }
{
    if fits_in_line(needle) {
        return find_by_search(alloc, part, needle);
    }
    find_by_line(alloc, part, needle)
}

// Returns the lines that contain a string, by a search in each line.
fn find_by_line<'a>(
    alloc: Global,
    part: Part<'a>,
    needle: &[u8],
) -> Result<FoundLines<'a>, AllocError>
    ensures { IfOk result (AreLinesAt (buffer_of part.entry)
        (found_in (buffer_of part.entry) needle.now (range_of part.entry))) }
{
    let mut left = part.lines();
    let mut lines = Vec::new(alloc);
    'lines: while let Some(line) = next_by_line(&mut left, needle) {
        lines.push(line)?;
    }
    Ok(FoundLines::from_vec(lines))
}

// Returns the lines that contain a string, by one search through the part.
fn find_by_search<'a>(
    alloc: Global,
    part: Part<'a>,
    needle: &[u8],
) -> Result<FoundLines<'a>, AllocError>
    requires some { 0 < length needle.now }
    requires in_one_line { (j : ℕ) → j < length needle.now → slice_index needle.now j ≢ 10 }
    ensures { IfOk result (AreLinesAt (buffer_of part.entry)
        (found_in (buffer_of part.entry) needle.now (range_of part.entry))) }
{
    let finder = memmem::Finder::new(needle);
    let mut left = part.lines();
    let mut lines = Vec::new(alloc);
    'lines: while let Some(line) = next_by_search(&mut left, &finder) {
        lines.push(line)?;
    }
    Ok(FoundLines::from_vec(lines))
}
