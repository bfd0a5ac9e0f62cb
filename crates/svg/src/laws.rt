//! The law about escaped text. The function does nothing: its contract is the law.

ghost use Rattle.std.specs.Prelude.{◌≡◌, ℕ, List, true};
ghost use Rattle.svg.specs.Escaping.{escaped_text, is_char_data};

/// A law, which does nothing at run time. Escaped text is character data, whatever the bytes are.
pub fn law_escaped()
    ensures { (bytes : List ℕ) → is_char_data (escaped_text bytes) ≡ true }
{}
