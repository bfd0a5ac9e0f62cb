ghost use Rattle.std.specs.Prelude.{◌≡◌, IfOk, map};
ghost use Rattle.std.specs.List.{list_all, list_any};
ghost use Rattle.std.specs.Str.{bytes_eq};
ghost use Rattle.cli.specs.Denied.{denied_among, is_kind, kinds_in, spelled_deny};
ghost use Rattle.cli.specs.Reads.{Reads};

use crate::command::CommandFault;
use outcomes::Deny;
use std::alloc::{AllocError, Global};

// Returns the outcomes that are denied, given their names with commas between them. An empty text denies nothing.
pub(crate) fn denied_kinds(alloc: Global, names: &str) -> Result<Deny, CommandFault>
    ensures { Reads (λ deny. deny) (spelled_deny names.now) result }
{
    if names.is_empty() {
        return Ok(Deny {
            stuck: false,
            cut: false,
            lost: false,
        });
    }
    let words = kinds_in(alloc, names)?;
    if !are_kinds(words.as_slice()) {
        return Err(refused_kind(alloc, unknown_kind(words.as_slice())));
    }
    Ok(denied_among(words.as_slice()))
}

// Returns the words between the commas of a text.
pub(crate) fn kinds_in(alloc: Global, names: &str) -> Result<Vec<&str>, AllocError>
    ensures { IfOk result (λ words. map (λ word. word.now) words.items ≡ kinds_in names.now) }
{
    names.split(',').collect(alloc)
}

// Returns whether each word names an outcome that can be denied.
fn are_kinds(words: &[&str]) -> bool
    ensures { result ≡ list_all (λ word. is_kind word.now) words.now }
{
    words.iter().all(|word| is_kind(word))
}

// Returns whether a word names an outcome that can be denied.
fn is_kind(word: &str) -> bool
    ensures { result ≡ is_kind word.now }
{
    word == "stuck" || word == "cut" || word == "lost"
}

// Returns the first word that names no outcome that can be denied, or no bytes if there is none.
fn unknown_kind<'a>(words: &[&'a str]) -> &'a str {
    'words: for word in words {
        if !is_kind(word) {
            return word;
        }
    }
    ""
}

// Returns the outcomes that these words name.
fn denied_among(words: &[&str]) -> Deny
    ensures { result ≡ denied_among (map (λ word. word.now) words.now) }
{
    Deny {
        stuck: is_among("stuck", words),
        cut: is_among("cut", words),
        lost: is_among("lost", words),
    }
}

// Returns whether a word is among others.
fn is_among(word: &str, words: &[&str]) -> bool
    ensures { result ≡ list_any (λ other. bytes_eq other.now word.now) words.now }
{
    words.iter().any(|other| *other == word)
}

// Returns the refusal of a word that names no outcome that can be denied.
fn refused_kind(alloc: Global, name: &str) -> CommandFault {
    let text = format!(in alloc;
        "error: `{name}` cannot be denied: --deny takes `stuck`, `cut` and `lost`, with commas between them\n"
    );
    match text {
        Ok(text) => CommandFault::Refused { text },
        Err(_) => CommandFault::NoMemory,
    }
}
