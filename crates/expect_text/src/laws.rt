//! The laws about differences and about patterns. The functions do nothing: their contracts are the laws.

ghost use Rattle.std.specs.Prelude.{◌≡◌, ◌↔◌, ℕ, List, true};
ghost use Rattle.expect_text.specs.Beginnings.{IsLine, can_match};
ghost use Rattle.expect_text.specs.Differences.{first_difference};
ghost use Rattle.expect_text.specs.Patterns.{meets, squeezed_text};

/// A law, which does nothing at run time. A text has no difference from a kept one exactly if the two are the same, byte for
/// byte.
pub fn law_no_difference()
    ensures { (kept written : List ℕ) → (first_difference kept written ≡ None) ↔ (kept ≡ written) }
{}

/// A law, which does nothing at run time. A pattern that matches a line which begins as a line of a report or a story can, of a
/// job that gives these names, is one that can match a line. So `read_expectation` never refuses a pattern that matches such a
/// line.
pub fn law_possible_patterns()
    ensures { (names : List (List ℕ)) → (pattern line : List ℕ) → IsLine names (squeezed_text line) → meets pattern line ≡ true
        → can_match names pattern ≡ true }
{}
