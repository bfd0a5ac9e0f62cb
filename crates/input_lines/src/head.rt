ghost use Rattle.std.specs.Prelude.{IfOk};
ghost use Rattle.input_lines.specs.Part.{buffer_of, range_of};
ghost use Rattle.input_lines.specs.Kernels.{head_of};
ghost use Rattle.input_lines.specs.Answers.{AreLinesAt};

use crate::Part;
use crate::lines::FoundLines;
use std::alloc::{AllocError, Global};

// Returns the first `count` lines, or all if there are fewer.
pub(crate) fn first_lines<'a>(
    alloc: Global,
    part: Part<'a>,
    count: u64,
) -> Result<FoundLines<'a>, AllocError>
    ensures { IfOk result (AreLinesAt (buffer_of part.entry)
        (head_of (buffer_of part.entry) count (range_of part.entry))) }
{
    let mut lines = Vec::new(alloc);
    for line in part.lines() {
        if lines.len() as u64 >= count {
            return Ok(FoundLines::from_vec(lines));
        }
        lines.push(line)?;
    }
    Ok(FoundLines::from_vec(lines))
}
