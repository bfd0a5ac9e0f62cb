ghost use Rattle.job_tokens.specs.Lexing.{word_at, Gives};

use crate::run;
use crate::token::Shape;
use job_tree::Name;

/// Returns the word at the start of the bytes, and the bytes after it. Returns `None` if the word has more than 32
/// bytes. The bytes must begin with a letter.
pub fn word_at(bytes: &[u8]) -> Option<(Shape, &[u8])>
    ensures { Gives (λ x. (x.0, x.1.now)) result (word_at bytes.now) }
{
    let (front, rest) = bytes.split_at(run::count_word_bytes(bytes));
    let name = Name::new(front)?;
    Some((Shape::Word(name), rest))
}
