ghost use Rattle.std.specs.Prelude.{◌≡◌, IfOk};
ghost use Rattle.expect_text.specs.Patterns.{first_match};
ghost use Rattle.commands.specs.Mets.{absent_answer, answer_of, present_answer};

use crate::met::Met;
use expect_text::first_match;
use std::alloc::{AllocError, Global};

// Returns whether at least one line of the report or the story matches a pattern.
pub(crate) fn some_line(
    alloc: Global,
    pattern: &[u8],
    report: &[u8],
    story: &[u8],
) -> Result<Met, AllocError>
    ensures { IfOk result (λ met. answer_of met
        ≡ present_answer (first_match pattern.now report.now) (first_match pattern.now story.now)) }
{
    if first_match(alloc, pattern, report)?.is_some() {
        return Ok(Met::Yes);
    }
    match first_match(alloc, pattern, story)? {
        Some(_) => Ok(Met::Yes),
        None => Ok(Met::Missing),
    }
}

// Returns whether no line of the report or the story matches a pattern.
pub(crate) fn no_line(
    alloc: Global,
    pattern: &[u8],
    report: &[u8],
    story: &[u8],
) -> Result<Met, AllocError>
    ensures { IfOk result (λ met. answer_of met
        ≡ absent_answer (first_match pattern.now report.now) (first_match pattern.now story.now)) }
{
    if let Some(line) = first_match(alloc, pattern, report)? {
        return Ok(Met::Found { story: false, line });
    }
    match first_match(alloc, pattern, story)? {
        Some(line) => Ok(Met::Found { story: true, line }),
        None => Ok(Met::Yes),
    }
}
