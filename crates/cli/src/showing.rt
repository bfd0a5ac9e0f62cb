//! How a message shows the words of a command line.

use std::alloc::{AllocError, Global};

// Returns whether at least one of the words has a control character, with which it could write lines of its own on a terminal.
pub(crate) fn have_control(words: &[String]) -> bool {
    words.iter().any(|word| has_control(word.as_str()))
}

// Returns whether a word has a control character.
fn has_control(word: &str) -> bool {
    word.chars().any(|c| c.is_control())
}

// Returns the words as a message shows them.
pub(crate) fn shown_words(alloc: Global, words: &[String]) -> Result<Vec<String>, AllocError> {
    let mut shown = Vec::new(alloc);
    for word in words {
        shown.push(shown_word(alloc, word.as_str())?)?;
    }
    Ok(shown)
}

// Returns a word as a message shows it: one with a control character is escaped, as in a Rust string.
fn shown_word(alloc: Global, word: &str) -> Result<String, AllocError> {
    if has_control(word) {
        return format!(in alloc; "{}", word.escape_debug());
    }
    String::from_str(alloc, word)
}
