ghost use Rattle.std.specs.Prelude.{◌≡◌, ◌++◌, ◌==◌, true, false, length, IfOk, OnOk};
ghost use Rattle.job_tokens.specs.Comments.{comments_in, comments_along};
ghost use Rattle.job_layout.specs.Commented.{lead, comments_text, lines_of};
ghost use Rattle.job_layout.specs.Columns.{line_level};
ghost use Rattle.job_layout.specs.Layout.{bare_of};

use crate::spaced::push_line;
use job_tokens::{ends_line, skip_token, split_line, split_separator};
use std::alloc::{AllocError, Global};

// Returns for each of the first tokens of the bytes, as many as given, and for the end, whether there is no comment before it.
pub(crate) fn bare_of(alloc: Global, count: usize, body: &[u8]) -> Result<Vec<bool>, AllocError>
    ensures { IfOk result (λ bare. bare.items ≡ bare_of (comments_along true count body.now)) }
{
    let mut bare = Vec::new(alloc);
    let mut left = count;
    let mut bytes = body;
    'tokens: while left > 0 {
        let (separator, after) = split_separator(bytes);
        bare.push(is_bare(separator))?;
        bytes = skip_token(after);
        left -= 1;
    }
    let (separator, _) = split_separator(bytes);
    bare.push(is_bare(separator))?;
    Ok(bare)
}

// Returns whether there is no comment among the blanks and comments between two tokens.
pub(crate) fn is_bare(separator: &[u8]) -> bool
    ensures { result ≡ (length (comments_in false false separator.now) == 0) }
{
    let mut rest = separator;
    'bytes: while let Some((first, others)) = rest.split_first() {
        if *first == b'#' {
            return false;
        }
        rest = others;
    }
    true
}

// Appends the comments between two tokens. Each that is alone on its line is on a line of its own, at the given level, or at
// the next one if `deeper` is true.
pub(crate) fn push_comments(
    out: &mut Vec<u8>,
    level: u64,
    deeper: bool,
    separator: &[u8],
) -> Result<(), AllocError>
    ensures { OnOk result (out.new.items
        ≡ out.old.items ++ comments_text (line_level level deeper) (comments_in false false separator.now)) }
{
    let mut alone = false;
    let mut rest = separator;
    'bytes: while let Some((first, others)) = rest.split_first() {
        if *first != b'#' {
            alone = alone || ends_line(*first);
            rest = others;
            continue;
        }
        let (line, after) = split_line(rest);
        push_lead(out, level, deeper, alone)?;
        out.extend_from_slice(line)?;
        alone = true;
        rest = after;
    }
    Ok(())
}

// Appends what comes before a comment: a new line, or a space after a token.
fn push_lead(out: &mut Vec<u8>, level: u64, deeper: bool, alone: bool) -> Result<(), AllocError>
    ensures { OnOk result (out.new.items ≡ out.old.items ++ lead (line_level level deeper) alone) }
{
    if alone {
        push_line(out, level, deeper)?;
        return Ok(());
    }
    out.push(b' ')?;
    Ok(())
}

// Appends the comments before the first token, each on a line of its own.
pub(crate) fn push_lines(out: &mut Vec<u8>, separator: &[u8]) -> Result<(), AllocError>
    ensures { OnOk result (out.new.items ≡ out.old.items ++ lines_of (comments_in true false separator.now)) }
{
    let mut rest = separator;
    'bytes: while let Some((first, others)) = rest.split_first() {
        if *first != b'#' {
            rest = others;
            continue;
        }
        let (line, after) = split_line(rest);
        out.extend_from_slice(line)?;
        out.push(b'\n')?;
        rest = after;
    }
    Ok(())
}
