ghost use Rattle.std.specs.Prelude.{◌≡◌, IfOk, IsTrue};
ghost use Rattle.job_tree.specs.Words.{is_word};
ghost use Rattle.job_edits.specs.Fresh.{occurs, numbered_word, fresh_word};

use basics::push_number;
use job_tokens::Token;
use job_tree::Name;
use std::alloc::{AllocError, Global};

// Returns the first of the word, and the word with numbers after it, that is not a token. Requires that `word` is a word.
pub(crate) fn fresh_word(alloc: Global, word: &[u8], tokens: &[Token]) -> Result<Name, AllocError>
    requires { IsTrue (is_word word.now) }
    ensures { IfOk result (λ name. name ≡ fresh_word word.now tokens.now) }
{
    let Some(name) = Name::new(word) else {
        unreachable!()
    };
    fresh_name(alloc, name, tokens)
}

// Returns the first of `word`, `word_1`, `word_2` and so on that is not a token of the text. As many numbers are
// tried as the text has tokens, so one of the names is new if `word` is short; this is tested, not proved. The only
// error is that memory runs out.
fn fresh_name(alloc: Global, word: Name, tokens: &[Token]) -> Result<Name, AllocError>
    ensures { IfOk result (λ name. name ≡ fresh_word word tokens.now) }
{
    if !occurs(word, tokens) {
        return Ok(word);
    }
    let mut n = 1;
    let mut tries = tokens.len();
    'tries: while tries > 0 {
        let name = numbered_word(alloc, word, n)?;
        if !occurs(name, tokens) {
            return Ok(name);
        }
        n += 1;
        tries -= 1;
    }
    numbered_word(alloc, word, n)
}

// Returns whether some token is this word.
fn occurs(word: Name, tokens: &[Token]) -> bool
    ensures { result ≡ occurs word tokens.now }
{
    'tokens: for token in tokens {
        if token.shape.word() == Some(word) {
            return true;
        }
    }
    false
}

// Returns the word with `_` and a number after it, or the word alone if that would be too long for a word.
fn numbered_word(alloc: Global, word: Name, n: usize) -> Result<Name, AllocError>
    ensures { IfOk result (λ name. name ≡ numbered_word word n) }
{
    let mut bytes = Vec::new(alloc);
    bytes.extend_from_slice(word.bytes())?;
    bytes.extend_from_slice(b"_")?;
    push_number(&mut bytes, n as u64)?;
    Ok(Name::new(bytes.as_slice()).unwrap_or(word))
}
