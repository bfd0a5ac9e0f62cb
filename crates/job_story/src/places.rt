ghost use Rattle.std.specs.Prelude.{◌≡◌, map, IfOk};
ghost use Rattle.input_lines.specs.Part.{range_of, span_of};
ghost use Rattle.job_story.specs.Held.{range_in, span_in};

use crate::{Range, Span};
use input_lines::{Line, Part};
use std::alloc::{AllocError, Global};

// Returns a part of the input as a range of places.
pub(crate) fn range(part: Part<'_>) -> Range
    ensures { range_in result ≡ range_of part.entry }
{
    let from = part.at();
    Range {
        from,
        to: from + part.text().len(),
    }
}

// Returns lines of the input by their places, in the same order.
pub(crate) fn spans(alloc: Global, lines: &[Line<'_>]) -> Result<Vec<Span>, AllocError>
    ensures { IfOk result (λ spans. map span_in spans.items ≡ map span_of lines.now) }
{
    let mut spans = Vec::with_capacity(alloc, lines.len())?;
    'lines: for line in lines {
        spans.push(span(*line))?;
    }
    Ok(spans)
}

// A line, by its place and length.
fn span(line: Line<'_>) -> Span
    ensures { span_in result ≡ span_of line.entry }
{
    Span {
        at: line.at(),
        len: line.text().len(),
    }
}
