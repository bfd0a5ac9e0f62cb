ghost use Rattle.std.specs.Prelude.{◌≡◌, ◌≤◌, ◌+◌, length, take};
ghost use Rattle.basics.specs.Places.{line_of, column_of, IsPlaceOf};

/// Returns the line of a place in a text, counted from 1. The place is a number of bytes from the start of the text.
pub fn line_of(text: &[u8], at: usize) -> usize
    ensures value { result ≡ line_of text.now at }
    ensures from_one { 1 ≤ result }
{
    let (front, _) = text.split_at(at.min(text.len()));
    let mut line = 1;
    'bytes: for b in front {
        if *b == b'\n' {
            line += 1;
        }
    }
    line
}

/// Returns the column of a place in a text, in bytes, counted from 1.
pub fn column_of(text: &[u8], at: usize) -> usize
    ensures value { result ≡ column_of text.now at }
    ensures from_one { 1 ≤ result }
    ensures inside { result ≤ length (take at text.now) + 1 }
{
    let (front, _) = text.split_at(at.min(text.len()));
    let mut column = 1;
    'bytes: for b in front {
        column = if *b == b'\n' { 1 } else { column + 1 };
    }
    column
}

/// Returns the place of a line and a column of a text, both counted from 1: the number of bytes before it. It may be the place of
/// a newline, or the text's end. Returns `None` if the text has fewer lines, or the line fewer columns.
#[tactic(auto, using(crate::proofs::Placed::line_next, crate::proofs::Placed::column_next))]
pub fn place_at(text: &[u8], line: usize, column: usize) -> Option<usize>
    ensures { IsPlaceOf text.now line column result }
{
    let mut at_line = 1;
    let mut at_column = 1;
    'bytes: for (at, b) in text.iter().enumerate() {
        if at_line == line && at_column == column {
            return Some(at);
        }
        if *b == b'\n' {
            at_line += 1;
            at_column = 1;
        } else {
            at_column += 1;
        }
    }
    if at_line == line && at_column == column {
        return Some(text.len());
    }
    None
}
