// The names of a job as names of the program. The only names of the program that end with `_` are names of the job to which `_`
// was added, and the only ones that begin with `_` are those of exceptions.
ghost use Rattle.std.specs.Prelude.{◌≡◌, ◌++◌, OnOk};
ghost use Rattle.std.specs.List.{list_any};
ghost use Rattle.std.specs.Str.{bytes_eq};
ghost use Rattle.trio_text.specs.Names.{class_text, is_free, is_taken, name_text};
ghost use Rattle.trio_text.specs.Statements.{class_of, raised_class, trio_class};
ghost use Rattle.trio_text.specs.Uses.{is_closed_resource, is_end_of_channel, is_in_trio, is_too_slow, known_in};

use crate::taken::TAKEN;
use crate::words::Words;
use job_tree::Name;
use std::alloc::AllocError;

// Appends the name of a task, or of what a step opens: the name in the job, followed by `_` if the program uses that word for
// something else.
#[tactic(auto, unfolding(crate::specs::Names::name_text))]
pub(crate) fn push_name(out: &mut Vec<u8>, name: Name) -> Result<(), AllocError>
    ensures { OnOk result (out.new.items ≡ out.old.items ++ name_text name) }
{
    out.extend_from_slice(name.bytes())?;
    if !is_free(name.bytes()) {
        out.extend_from_slice(b"_")?;
    }
    Ok(())
}

// Appends the class that the program has for exceptions of a name: that name, with `_` before it if that is another name of
// the program.
#[tactic(auto, unfolding(crate::specs::Statements::class_of))]
pub(crate) fn push_class(out: &mut Vec<u8>, words: &Words, name: Name) -> Result<(), AllocError>
    ensures { OnOk result (out.new.items ≡ out.old.items ++ class_of (known_in words.now) name) }
{
    push_class_text(out, words.gives(name), name)
}

// Appends the class of an exception; `is_given` says whether a task has its name, or what a step opens.
#[tactic(auto, unfolding(crate::specs::Names::class_text))]
fn push_class_text(out: &mut Vec<u8>, is_given: bool, name: Name) -> Result<(), AllocError>
    ensures { OnOk result (out.new.items ≡ out.old.items ++ class_text is_given name) }
{
    if !is_free(name.bytes()) || is_given {
        out.extend_from_slice(b"_")?;
    }
    out.extend_from_slice(name.bytes())
}

// Appends the class of the exceptions of a name, which a step raises or a handler handles. If Trio raises them, it is Trio's.
#[tactic(auto, unfolding(crate::specs::Statements::raised_class))]
pub(crate) fn push_raised(out: &mut Vec<u8>, words: &Words, name: Name) -> Result<(), AllocError>
    ensures { OnOk result (out.new.items ≡ out.old.items ++ raised_class (known_in words.now) name) }
{
    if is_in_trio(name) {
        return out.extend_from_slice(trio_class(name));
    }
    push_class(out, words, name)
}

// Returns Trio's class for an exception that Trio raises.
fn trio_class(name: Name) -> &'static [u8]
    ensures { result.now ≡ trio_class name }
{
    if is_too_slow(name) {
        b"trio.TooSlowError"
    } else if is_end_of_channel(name) {
        b"trio.EndOfChannel"
    } else {
        b"trio.ClosedResourceError"
    }
}

// Returns whether it is the name of an exception that Trio raises.
pub(crate) fn is_in_trio(name: Name) -> bool
    ensures { result ≡ is_in_trio name }
{
    is_too_slow(name) || is_end_of_channel(name) || is_closed_resource(name)
}

// Returns whether it is the name of the exception that a scope with `fail` raises.
#[tactic(auto, unfolding(crate::specs::Uses::is_too_slow))]
fn is_too_slow(name: Name) -> bool
    ensures { result ≡ is_too_slow name }
{
    name.bytes() == b"TooSlow".as_slice()
}

// Returns whether it is the name of the exception that a `receive` raises where the channel is closed.
#[tactic(auto, unfolding(crate::specs::Uses::is_end_of_channel))]
fn is_end_of_channel(name: Name) -> bool
    ensures { result ≡ is_end_of_channel name }
{
    name.bytes() == b"EndOfChannel".as_slice()
}

// Returns whether it is the name of the exception that a `send` raises there.
#[tactic(auto, unfolding(crate::specs::Uses::is_closed_resource))]
fn is_closed_resource(name: Name) -> bool
    ensures { result ≡ is_closed_resource name }
{
    name.bytes() == b"ClosedResource".as_slice()
}

// Returns whether a word of a job can be used in the program unchanged.
#[tactic(auto, unfolding(crate::specs::Names::is_free))]
fn is_free(word: &[u8]) -> bool
    ensures { result ≡ is_free word.now }
{
    !word.ends_with(b"_") && !is_taken(word)
}

// Returns whether the program uses a word for something else.
#[tactic(auto, unfolding(crate::specs::Names::is_taken))]
fn is_taken(word: &[u8]) -> bool
    ensures { result ≡ is_taken word.now }
{
    is_among(TAKEN, word)
}

// Returns whether a word is one of these.
fn is_among(words: &[&'static [u8]], word: &[u8]) -> bool
    ensures { result ≡ list_any (λ other. bytes_eq other.now word.now) words.now }
{
    words.iter().any(|other| *other == word)
}
