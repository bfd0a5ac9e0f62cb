//! Which bytes a word of a job text is made of.
ghost use Rattle.std.specs.Prelude.{◌≡◌};
ghost use Rattle.job_tree.specs.Words.{is_letter, is_digit, is_word_byte};

/// Returns whether the byte is a letter, `A` to `Z` or `a` to `z`. A word begins with a letter.
pub fn is_letter(b: u8) -> bool
    ensures { result ≡ is_letter b }
{
    (b'A' <= b && b <= b'Z') || (b'a' <= b && b <= b'z')
}

/// Returns whether the byte is a digit, `0` to `9`.
pub fn is_digit(b: u8) -> bool
    ensures { result ≡ is_digit b }
{
    b'0' <= b && b <= b'9'
}

/// Returns whether the byte may follow the first byte of a word: whether it is a letter, a digit or `_`.
pub fn is_word_byte(b: u8) -> bool
    ensures { result ≡ is_word_byte b }
{
    is_letter(b) || is_digit(b) || b == b'_'
}
