ghost use Rattle.std.specs.Prelude.{◌≡◌, ◌++◌, ◌∷◌, [], IfOk, OnOk, IsTrue, map};
ghost use Rattle.std.specs.List.{list_all};
ghost use Rattle.cli.specs.Denied.{kinds_in};
ghost use Rattle.cli.specs.Words.{may_be_raised};

use crate::command::CommandFault;
use crate::denying::kinds_in;
use job_syntax::Keyword;
use job_tree::Name;
use std::alloc::{AllocError, Global};

// Returns the names of exceptions, given a text that has them with commas between them, if a step may raise each of them.
pub(crate) fn raised_names(alloc: Global, text: &str) -> Result<Vec<Name>, CommandFault>
    ensures { IfOk result (λ names. (names.items ≡ kinds_in text.now) × IsTrue (list_all may_be_raised names.items)) }
{
    let words = kinds_in(alloc, text)?;
    names_of(alloc, words.as_slice())
}

// Returns the names of exceptions that these words are, if a step may raise each of them.
#[tactic(auto, using(crate::proofs::AllNamed::all_more))]
fn names_of(alloc: Global, words: &[&str]) -> Result<Vec<Name>, CommandFault>
    ensures { IfOk result (λ names. (names.items ≡ map (λ word. word.now) words.now) × IsTrue (list_all may_be_raised names.items)) }
{
    let mut names = Vec::new(alloc);
    'words: for word in words {
        let name = raised_name(alloc, word)?;
        push_name(&mut names, name)?;
    }
    Ok(names)
}

// Appends a name.
fn push_name(names: &mut Vec<Name>, name: Name) -> Result<(), AllocError>
    ensures { OnOk result (names.new.items ≡ names.old.items ++ name ∷ []) }
{
    names.push(name)?;
    Ok(())
}

// Returns the name of the exception, if a step may raise it.
fn raised_name(alloc: Global, word: &str) -> Result<Name, CommandFault>
    ensures { IfOk result (λ name. (name ≡ word.now) × IsTrue (may_be_raised name)) }
{
    match Name::new(word.as_bytes()) {
        Some(name) if may_be_raised(name) => Ok(name),
        _ => Err(refused_name(alloc, word)),
    }
}

// Returns whether a step may raise an exception with this name.
fn may_be_raised(name: Name) -> bool
    ensures { result ≡ may_be_raised name }
{
    Keyword::of(name).is_none()
        && name.bytes() != b"Cancelled".as_slice()
        && name.bytes() != b"TooSlow".as_slice()
}

// Returns the refusal of a name that no step may raise.
fn refused_name(alloc: Global, word: &str) -> CommandFault {
    let text = format!(in alloc;
        "error: no step can raise `{word}`: --name takes names with commas between them, each a letter, then letters, digits and `_`, at most 32 in all, and no keyword, `Cancelled` or `TooSlow`\n"
    );
    match text {
        Ok(text) => CommandFault::Refused { text },
        Err(_) => CommandFault::NoMemory,
    }
}
