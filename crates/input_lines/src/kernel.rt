ghost use Rattle.std.specs.Prelude.{◌≡◌, IfOk, IsOk};
ghost use Rattle.input_lines.specs.Answers.{IsAnswer};

use crate::Part;
use crate::answers::Answer;
use crate::count::line_count;
use crate::find::find_lines;
use crate::head::first_lines;
use crate::lines::FoundLines;
use crate::longest::longest_line;
use crate::need::find_needed_line;
use std::alloc::{AllocError, Global};

/// A question that a task asks of the lines of a part.
#[derive(Clone, Copy)]
pub enum Kernel<'a> {
    /// All lines that contain the string, in order. The empty string is in every line.
    Find(&'a [u8]),
    /// The first lines, of the given number, or all lines if there are fewer.
    Head(u64),
    /// The first of the longest lines, or no line if the part has none.
    Longest,
    /// The first line that contains the string, or `Answer::Missing` if there is none.
    Need(&'a [u8]),
    /// The number of lines.
    Count,
}

/// Returns the kernel's answer on a part, or `AllocError` if memory runs out. `Count` does not allocate and cannot
/// fail.
pub fn answer<'a>(
    alloc: Global,
    kernel: &Kernel<'a>,
    part: Part<'a>,
) -> Result<Answer<'a>, AllocError>
    ensures answer { IfOk result (IsAnswer kernel.now part.entry) }
    ensures count_takes_no_memory { kernel.now ≡ Kernel.Count → IsOk result }
{
    match *kernel {
        Kernel::Find(needle) => Ok(Answer::Lines(find_lines(alloc, part, needle)?)),
        Kernel::Head(count) => Ok(Answer::Lines(first_lines(alloc, part, count)?)),
        Kernel::Longest => Ok(Answer::Lines(FoundLines::from_option(alloc, longest_line(part))?)),
        Kernel::Need(needle) => match find_needed_line(part, needle) {
            Some(line) => Ok(Answer::Lines(FoundLines::from_option(alloc, Some(line))?)),
            None => Ok(Answer::Missing),
        },
        Kernel::Count => Ok(Answer::Count(line_count(part))),
    }
}
