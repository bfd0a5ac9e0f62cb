ghost use Rattle.std.specs.Prelude.{◌≡◌, ◌≤◌, false, length};
ghost use Rattle.job_tokens.specs.Lexing.{is_blank, ends_line, has_comments, separates, after_blanks};

use job_tree::Format;

/// Returns whether texts of a format have comments, which begin with `#` and end with their line.
pub fn has_comments(format: Format) -> bool
    ensures { result ≡ has_comments format }
{
    match format {
        Format::One => false,
        Format::Two => false,
        Format::Three => true,
    }
}

/// Returns whether the byte is a blank, which separates tokens: space, tab, newline or carriage return.
pub fn is_blank(b: u8) -> bool
    ensures { result ≡ is_blank b }
{
    (b == b' ' || b == b'\t') || (b == b'\n' || b == b'\r')
}

/// Returns whether the byte ends a line, and with it a comment: newline or carriage return.
pub fn ends_line(b: u8) -> bool
    ensures { result ≡ ends_line b }
{
    b == b'\n' || b == b'\r'
}

// Returns `None` if the byte separates no tokens, and otherwise whether a comment continues after it. `inside` says whether
// it is in a comment.
fn separates(format: Format, inside: bool, b: u8) -> Option<bool>
    ensures { result ≡ separates (has_comments format) inside b }
{
    if inside {
        return Some(!ends_line(b));
    }
    if is_blank(b) {
        return Some(false);
    }
    if has_comments(format) && b == b'#' {
        return Some(true);
    }
    None
}

// Returns the bytes after the blanks that they begin with, and after the comments in a format that has them.
pub(crate) fn skip_blanks(format: Format, bytes: &[u8]) -> &[u8]
    ensures value { result.now ≡ after_blanks (has_comments format) bytes.now }
    ensures shorter { length result.now ≤ length bytes.now }
{
    let mut inside = false;
    let mut rest = bytes;
    'bytes: while let Some((first, others)) = rest.split_first() {
        let Some(further) = separates(format, inside, *first) else {
            return rest;
        };
        inside = further;
        rest = others;
    }
    rest
}
