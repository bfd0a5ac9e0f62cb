ghost use Rattle.std.specs.Prelude.{◌≡◌, ◌++◌, ◌∷◌, ℕ, false, length, IfOk, OnOk};
ghost use Rattle.job_tokens.specs.Canon.{token};
ghost use Rattle.job_tokens.specs.Comments.{comments_in, comments_along};
ghost use Rattle.job_layout.specs.Spaced.{gap_text, indent};
ghost use Rattle.job_layout.specs.Commented.{comment_level, gap_after, level_after, commented_token, commented_text};
ghost use Rattle.job_layout.specs.Columns.{line_level};

use crate::comments::{is_bare, push_comments};
use job_tokens::{Mark, Shape, push_canon, skip_token, split_separator};
use std::alloc::{AllocError, Global};

// What comes between a token and the one before it.
#[derive(Clone, Copy, Debug, PartialEq, Eq)]
pub(crate) enum Gap {
    // Nothing.
    Joined,
    // A space.
    Space,
    // A newline, and two spaces for each of the given number of levels.
    Line(u64),
}

// A token and what comes before it.
#[derive(Clone, Copy)]
pub(crate) struct SpacedToken {
    pub(crate) gap: Gap,
    pub(crate) shape: Shape,
}

// Returns the number of bytes of the token in a text.
pub(crate) fn width(alloc: Global, shape: Shape) -> Result<usize, AllocError>
    ensures { IfOk result (λ width. width ≡ length (token shape)) }
{
    let mut text = Vec::new(alloc);
    push_canon(&mut text, &[shape])?;
    Ok(text.len())
}

// Appends the tokens, with the comments of `body` between them: `body` begins after the token before them. `level` is that of
// the step in whose line the first token would be.
pub(crate) fn push_tokens(
    out: &mut Vec<u8>,
    level: u64,
    tokens: &[SpacedToken],
    body: &[u8],
) -> Result<(), AllocError>
    ensures { OnOk result (out.new.items
        ≡ out.old.items ++ commented_text level tokens.now (comments_along false (length tokens.now) body.now)) }
{
    let mut level = level;
    let mut rest = tokens;
    let mut bytes = body;
    'tokens: while let Some((next, others)) = rest.split_first() {
        let (separator, after) = split_separator(bytes);
        push_commented(out, level, separator, *next)?;
        level = level_after(level, next.gap);
        rest = others;
        bytes = skip_token(after);
    }
    let (separator, _) = split_separator(bytes);
    push_comments(out, 0, false, separator)?;
    Ok(())
}

// Appends a token, with the comments before it.
fn push_commented(
    out: &mut Vec<u8>,
    level: u64,
    separator: &[u8],
    next: SpacedToken,
) -> Result<(), AllocError>
    ensures { OnOk result (out.new.items
        ≡ out.old.items ++ commented_token level (comments_in false false separator.now) next) }
{
    let deeper = is_deeper(next.gap, next.shape);
    push_comments(out, level_after(level, next.gap), deeper, separator)?;
    push_gap_after(out, level, separator, next.gap)?;
    push_canon(out, &[next.shape])?;
    Ok(())
}

// Appends a token without comments.
pub(crate) fn push_token(out: &mut Vec<u8>, next: SpacedToken) -> Result<(), AllocError>
    ensures { OnOk result (out.new.items ≡ out.old.items ++ (gap_text next.gap ++ token next.shape)) }
{
    push_gap(out, next.gap)?;
    push_canon(out, &[next.shape])?;
    Ok(())
}

// Returns the level of the step in whose line the token after this gap is.
pub(crate) fn level_after(level: u64, gap: Gap) -> u64
    ensures { result ≡ level_after level gap }
{
    match gap {
        Gap::Line(next) => next,
        _ => level,
    }
}

// Returns whether comments before a token are one level deeper than the step in whose line the token is: inside the step, and
// before the mark that ends its block.
fn is_deeper(gap: Gap, shape: Shape) -> bool
    ensures { (level : ℕ) → comment_level level gap shape ≡ line_level (level_after level gap) result }
{
    let Gap::Line(_) = gap else {
        return true;
    };
    let Shape::Mark(mark) = shape else {
        return false;
    };
    match mark {
        Mark::Close => true,
        _ => false,
    }
}

// Appends the gap before a token, which is on a line of its own after comments.
fn push_gap_after(
    out: &mut Vec<u8>,
    level: u64,
    separator: &[u8],
    gap: Gap,
) -> Result<(), AllocError>
    ensures { OnOk result (out.new.items
        ≡ out.old.items ++ gap_text (gap_after level (comments_in false false separator.now) gap)) }
{
    if is_bare(separator) {
        push_gap(out, gap)?;
        return Ok(());
    }
    match gap {
        Gap::Line(next) => push_line(out, next, false),
        _ => push_line(out, level, true),
    }
}

fn push_gap(out: &mut Vec<u8>, gap: Gap) -> Result<(), AllocError>
    ensures { OnOk result (out.new.items ≡ out.old.items ++ gap_text gap) }
{
    match gap {
        Gap::Joined => Ok(()),
        Gap::Space => Ok(out.push(b' ')?),
        Gap::Line(level) => push_line(out, level, false),
    }
}

// Appends a newline, and two spaces for each level, and for one more if `deeper` is true.
pub(crate) fn push_line(out: &mut Vec<u8>, level: u64, deeper: bool) -> Result<(), AllocError>
    ensures { OnOk result (out.new.items ≡ out.old.items ++ 10 ∷ indent (line_level level deeper)) }
{
    out.push(b'\n')?;
    push_indent(out, level)?;
    if deeper {
        push_indent(out, 1)?;
    }
    Ok(())
}

fn push_indent(out: &mut Vec<u8>, level: u64) -> Result<(), AllocError>
    ensures { OnOk result (out.new.items ≡ out.old.items ++ indent level) }
{
    let mut left = level;
    'levels: while left > 0 {
        out.extend_from_slice(b"  ")?;
        left -= 1;
    }
    Ok(())
}
