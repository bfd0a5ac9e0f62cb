ghost use Rattle.std.specs.Prelude.{◌≡◌, false, ℕ, Bool, List, MatchOption};
ghost use Rattle.expect_text.specs.Patterns.{any_suffix, matches};
ghost use Rattle.expect_text.specs.Pieces.{starts_and};

use crate::parts::split_once;
use memchr::memmem;

// Returns whether a text matches a pattern, in which `*` matches any bytes. Takes time in the sum of both lengths: the first
// piece of the pattern is at the start of the text, the last one at its end, and each other one is taken at its first place.
pub(crate) fn matches(pattern: &[u8], text: &[u8]) -> bool
    ensures { result ≡ matches pattern.now text.now }
{
    match split_once(pattern, b'*') {
        None => text == pattern,
        Some((first, rest)) => match text.strip_prefix(first) {
            Some(left) => suffix_matches(rest, left),
            None => false,
        },
    }
}

// Returns whether at least one suffix of a text matches a pattern.
fn suffix_matches(pattern: &[u8], text: &[u8]) -> bool
    ensures { result ≡ any_suffix (matches pattern.now) text.now }
{
    let mut pieces = pattern;
    let mut left = text;
    'pieces: while let Some((piece, rest)) = split_once(pieces, b'*') {
        let Some(later) = after_piece(piece, left) else {
            return false;
        };
        left = later;
        pieces = rest;
    }
    left.ends_with(pieces)
}

// Returns what follows the first place of a piece in a text, or `None` if the text does not contain the piece. A later place
// would leave a suffix of this text, which can match nothing else.
fn after_piece<'a>(piece: &[u8], text: &'a [u8]) -> Option<&'a [u8]>
    ensures { MatchOption result
        ((test : List ℕ → Bool) → any_suffix (starts_and piece.now (any_suffix test)) text.now ≡ false)
        (λ rest. (test : List ℕ → Bool) → any_suffix (starts_and piece.now (any_suffix test)) text.now ≡ any_suffix test rest.now) }
{
    match memmem::find(text, piece) {
        Some(at) => Some(text.split_at(at + piece.len()).1),
        None => None,
    }
}
