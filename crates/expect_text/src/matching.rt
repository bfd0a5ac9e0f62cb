ghost use Rattle.std.specs.Prelude.{◌≡◌, ◌<◌, ◌∷◌, IfOk, length};
ghost use Rattle.expect_text.specs.Lines.{ended_lines};
ghost use Rattle.expect_text.specs.Patterns.{first_from, first_match, matches, squeezed_text};

use crate::parts::split_once;
use crate::pieces::matches;
use crate::squeezing::squeezed_text;
use std::alloc::{AllocError, Global};

/// Returns the number, from 1, of the first line of a text that matches a pattern, or `None` if no line does. `*` in the pattern
/// matches any bytes. Blanks at the start and the end of a line and of the pattern do not count, and each other run of blanks
/// counts as one space. A newline at the end of the text begins no line. This takes time in the length of the text, and for each
/// line in that of the pattern. Returns `AllocError` if memory runs out.
pub fn first_match(alloc: Global, pattern: &[u8], text: &[u8]) -> Result<Option<usize>, AllocError>
    ensures { IfOk result (λ found. found ≡ first_match pattern.now text.now) }
{
    let wanted = squeezed_text(alloc, pattern)?;
    first_line_of(alloc, wanted.as_slice(), text)
}

// Returns the number of the first line that matches a squeezed pattern.
fn first_line_of(alloc: Global, wanted: &[u8], text: &[u8]) -> Result<Option<usize>, AllocError>
    ensures { IfOk result (λ found. found ≡ first_from (λ line. matches wanted.now (squeezed_text line)) 1 (ended_lines text.now)) }
{
    let mut number = 1;
    let mut left = text;
    'lines: while !left.is_empty() {
        let (line, rest) = ended_line(left);
        if matches_line(alloc, wanted, line)? {
            return Ok(Some(number));
        }
        number += 1;
        left = rest;
    }
    Ok(None)
}

// Returns the first line of a text that is not empty, and what follows its newline, which is empty if there is no newline.
fn ended_line(text: &[u8]) -> (&[u8], &[u8])
    requires { 0 < length text.now }
    ensures lines { ended_lines text.now ≡ result.0.now ∷ ended_lines result.1.now }
    ensures shorter { length result.1.now < length text.now }
{
    match split_once(text, b'\n') {
        Some((line, rest)) => (line, rest),
        None => text.split_at(text.len()),
    }
}

// Returns whether a line matches a squeezed pattern.
fn matches_line(alloc: Global, wanted: &[u8], line: &[u8]) -> Result<bool, AllocError>
    ensures { IfOk result (λ met. met ≡ matches wanted.now (squeezed_text line.now)) }
{
    let bytes = squeezed_text(alloc, line)?;
    Ok(matches(wanted, bytes.as_slice()))
}
