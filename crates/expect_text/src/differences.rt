ghost use Rattle.std.specs.Prelude.{◌≡◌, ◌<◌, [], ◌∷◌, MatchOption, length};
ghost use Rattle.std.specs.Option.{option_map};
ghost use Rattle.expect_text.specs.Differences.{difference_from, first_difference};
ghost use Rattle.expect_text.specs.Lines.{lines_left, lines_of};
ghost use Rattle.expect_text.specs.Views.{bytes_of, difference_of};

use crate::parts::split_once;

/// The first line at which a text differs from the one that was kept.
#[derive(Clone, Copy, Debug, PartialEq, Eq)]
pub struct Difference<'a> {
    /// The number of the line, from 1.
    pub line: usize,
    /// That line of the kept text, without its newline, or `None` if the kept text has fewer lines.
    pub kept: Option<&'a [u8]>,
    /// That line of the text that was written now, without its newline, or `None` if that text has fewer lines.
    pub written: Option<&'a [u8]>,
}

/// Returns the first line at which a text differs from the one that was kept, or `None` if the two are the same. Lines are the
/// parts between newlines, so a text that ends with a newline has an empty last line.
pub fn first_difference<'a>(kept: &'a [u8], written: &'a [u8]) -> Option<Difference<'a>>
    ensures { option_map difference_of result ≡ first_difference kept.now written.now }
{
    let mut line = 1;
    let mut kept_left = kept;
    let mut written_left = written;
    'lines: loop {
        let (one, kept_after) = first_line(kept_left);
        let (other, written_after) = first_line(written_left);
        if one != other {
            return Some(Difference {
                line,
                kept: Some(one),
                written: Some(other),
            });
        }
        line += 1;
        let Some(kept_rest) = kept_after else {
            return written_difference(line, written_after);
        };
        let Some(written_rest) = written_after else {
            return Some(kept_difference(line, kept_rest));
        };
        kept_left = kept_rest;
        written_left = written_rest;
    }
}

// Returns the first line of a text, and what follows its newline, if it has one.
fn first_line(text: &[u8]) -> (&[u8], Option<&[u8]>)
    ensures lines { lines_of text.now ≡ result.0.now ∷ lines_left (bytes_of result.1) }
    ensures shorter { MatchOption result.1 (Unit {0}) (λ rest. length rest.now < length text.now) }
{
    match split_once(text, b'\n') {
        Some((line, rest)) => (line, Some(rest)),
        None => (text, None),
    }
}

// Returns the difference that only the kept text has a line of this number, which is the first line of `kept`.
fn kept_difference(line: usize, kept: &[u8]) -> Difference<'_>
    ensures { Some (difference_of result) ≡ difference_from line (lines_of kept.now) [] }
{
    Difference {
        line,
        kept: Some(first_line(kept).0),
        written: None,
    }
}

// Returns the difference that only the text written now has a line of this number, which is the first line of `written`, if there
// is one.
fn written_difference(line: usize, written: Option<&[u8]>) -> Option<Difference<'_>>
    ensures { option_map difference_of result ≡ difference_from line [] (lines_left (bytes_of written.entry)) }
{
    let Some(text) = written else {
        return None;
    };
    Some(Difference {
        line,
        kept: None,
        written: Some(first_line(text).0),
    })
}
