ghost use Rattle.std.specs.Prelude.{◌≡◌};
ghost use Rattle.expect_text.specs.Expectations.{rest_after, from_word, is_word};
ghost use Rattle.expect_text.specs.Patterns.{is_blank};
ghost use Rattle.expect_text.specs.Views.{bytes_of};

use crate::squeezing::is_blank;

// Returns a text from its first byte on that is not a blank.
pub(crate) fn from_word(text: &[u8]) -> &[u8]
    ensures { result.now ≡ from_word text.now }
{
    let mut left = text;
    'blanks: while let Some((first, rest)) = left.split_first() {
        if !is_blank(*first) {
            return left;
        }
        left = rest;
    }
    left
}

// Returns what follows a word with which a text begins, or `None` if the text does not begin with it.
pub(crate) fn rest_after<'a>(word: &[u8], text: &'a [u8]) -> Option<&'a [u8]>
    ensures { bytes_of result ≡ rest_after word.now text.now }
{
    text.strip_prefix(word)
}

// Returns whether a text is this word, possibly with blanks before and after it.
pub(crate) fn is_word(word: &[u8], text: &[u8]) -> bool
    ensures { result ≡ is_word word.now text.now }
{
    match rest_after(word, from_word(text)) {
        Some(rest) => from_word(rest).is_empty(),
        None => false,
    }
}
