ghost use Rattle.std.specs.Prelude.{◌≡◌, ◌<◌, ◌∷◌, ◌++◌, [], ℕ, List, MatchOption, length};
ghost use Rattle.expect_text.specs.Lines.{Lacks, parts_from, parts_of};

use memchr::memchr;

// Returns what is before and after the first separator in a text, or `None` if there is no separator.
pub(crate) fn split_once(text: &[u8], separator: u8) -> Option<(&[u8], &[u8])>
    ensures bytes { MatchOption result (Lacks separator text.now)
        (λ found. (text.now ≡ found.0.now ++ separator ∷ found.1.now) × Lacks separator found.0.now) }
    ensures parts { MatchOption result
        ((parts_of separator text.now ≡ text.now ∷ []) × ((0 < length text.now) → parts_from [] separator text.now ≡ text.now ∷ []))
        (λ found. ((last : List (List ℕ)) → parts_from last separator text.now ≡ found.0.now ∷ parts_from last separator found.1.now)
        × (length found.1.now < length text.now)) }
{
    match memchr(separator, text) {
        Some(at) => Some((text.split_at(at).0, text.split_at(at + 1).1)),
        None => None,
    }
}
