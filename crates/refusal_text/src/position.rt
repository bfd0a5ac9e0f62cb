ghost use Rattle.std.specs.Prelude.{◌≡◌, ◌≤◌};
ghost use Rattle.basics.specs.Places.{line_from, column_from};
ghost use Rattle.refusal_text.specs.Positions.{IsPosition};

use basics::{column_of, line_of};

/// A place in a job text, with its line and its column. The line and the column of a later place are counted on from here, so
/// that the places of many messages, in the order of the text, are found in one pass over the text.
#[derive(Clone, Copy)]
pub struct Position {
    pub(crate) at: usize,
    pub(crate) line: usize,
    pub(crate) column: usize,
}

impl Position {
    /// Returns the position of a place of a text: a number of bytes from its start. Bytes are counted from the start of the text.
    pub fn of(text: &[u8], at: usize) -> Position
        ensures position { IsPosition text.now result }
        ensures place { result.at ≡ at }
    {
        Position {
            at,
            line: line_of(text, at),
            column: column_of(text, at),
        }
    }

    /// Returns the position of another place of the text. Bytes are counted on from this position, or from the start of the text
    /// if the place is before it. Requires that this is a position of the text.
    #[tactic(auto, using(crate::proofs::Counted::line_most, crate::proofs::Counted::column_most))]
    pub fn moved_to(self, text: &[u8], at: usize) -> Position
        requires { IsPosition text.now self }
        ensures position { IsPosition text.now result }
        ensures place { result.at ≡ at }
    {
        if at < self.at {
            return Position::of(text, at);
        }
        let (_, rest) = text.split_at(self.at.min(text.len()));
        let (passed, _) = rest.split_at((at - self.at).min(rest.len()));
        let (line, column) = counted_on(self.line, self.column, passed);
        Position { at, line, column }
    }
}

// Returns the line and the column after some more bytes. Requires that neither is above 2^63, so that they do not overflow.
fn counted_on(first_line: usize, first_column: usize, passed: &[u8]) -> (usize, usize)
    requires line { first_line ≤ 9223372036854775808 }
    requires column { first_column ≤ 9223372036854775808 }
    ensures line { result.0 ≡ line_from first_line passed.now }
    ensures column { result.1 ≡ column_from first_column passed.now }
{
    let (mut line, mut column) = (first_line, first_column);
    'bytes: for b in passed {
        if *b == b'\n' {
            line += 1;
            column = 1;
        } else {
            column += 1;
        }
    }
    (line, column)
}
