ghost use Rattle.std.specs.Prelude.{◌≡◌};

use job_tree::{Name, Text};

/// A mark of a job text.
#[derive(Clone, Copy, Debug, PartialEq, Eq)]
pub enum Mark {
    /// `{`
    Open,
    /// `}`
    Close,
    /// `;`
    Semicolon,
}

/// What a token is, without its place.
#[derive(Clone, Copy)]
pub enum Shape {
    /// A letter, then letters, digits and `_`: a keyword or a name.
    Word(Name),
    /// The value of a run of digits. `None` if it has a leading zero or is above 1,000,000,000.
    Number(Option<u64>),
    /// A string between quotes.
    Text(Text),
    /// A mark.
    Mark(Mark),
}

/// A token of a job text.
#[derive(Clone, Copy)]
pub struct Token {
    /// The place of its first byte, in bytes from the start of the text.
    pub at: usize,
    /// What the token is.
    pub shape: Shape,
}

impl Shape {
    ghost use Rattle.job_tokens.specs.Shapes.{word_in, number_in, text_in, mark_in};

    /// Returns the word, or `None` if the token is not a word.
    pub fn word(self) -> Option<Name>
        ensures { result ≡ word_in self }
    {
        match self {
            Shape::Word(word) => Some(word),
            Shape::Number(_) => None,
            Shape::Text(_) => None,
            Shape::Mark(_) => None,
        }
    }

    /// Returns the value of the number. Returns `None` if the token is not a number, and for a number without a
    /// value (see `Shape::Number`).
    pub fn number(self) -> Option<u64>
        ensures { result ≡ number_in self }
    {
        match self {
            Shape::Word(_) => None,
            Shape::Number(number) => number,
            Shape::Text(_) => None,
            Shape::Mark(_) => None,
        }
    }

    /// Returns the string, or `None` if the token is not a string.
    pub fn text(self) -> Option<Text>
        ensures { result ≡ text_in self }
    {
        match self {
            Shape::Word(_) => None,
            Shape::Number(_) => None,
            Shape::Text(text) => Some(text),
            Shape::Mark(_) => None,
        }
    }

    /// Returns the mark, or `None` if the token is not a mark.
    pub fn mark(self) -> Option<Mark>
        ensures { result ≡ mark_in self }
    {
        match self {
            Shape::Word(_) => None,
            Shape::Number(_) => None,
            Shape::Text(_) => None,
            Shape::Mark(mark) => Some(mark),
        }
    }
}
