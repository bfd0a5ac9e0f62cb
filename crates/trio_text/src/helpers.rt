ghost use Rattle.std.specs.Prelude.{◌≡◌, ◌++◌, IfOk, OnOk};
ghost use Rattle.trio_text.specs.Uses.{known_in};
ghost use Rattle.trio_text.specs.Program.{class_lines, classes, helpers, imports};

use crate::names::push_class;
use crate::pieces::push_if;
use crate::texts::{
    CHANNEL, FIND, FIRST_IMPORTS, HANDLING, HEAD, IMPORT_CONTEXTLIB, LAST_IMPORTS, LINES_OF,
    LONGEST, NEED, OVER, PACE, SHOW_LINES, TOKEN_OF,
};
use crate::uses::Uses;
use crate::words::Words;
use job_tree::Name;
use std::alloc::{AllocError, Global};

// Returns the imports of the program.
#[tactic(auto, unfolding(crate::specs::Program::imports))]
pub(crate) fn imports_of(alloc: Global, uses: Uses) -> Result<Vec<u8>, AllocError>
    ensures { IfOk result (λ text. text.items ≡ imports uses) }
{
    let mut text = Vec::new(alloc);
    text.extend_from_slice(FIRST_IMPORTS)?;
    push_if(&mut text, uses.handling || uses.acquire, IMPORT_CONTEXTLIB)?;
    text.extend_from_slice(LAST_IMPORTS)?;
    Ok(text)
}

// Appends a class for each exception.
pub(crate) fn push_classes(out: &mut Vec<u8>, words: &Words) -> Result<(), AllocError>
    ensures { OnOk result (out.new.items ≡ out.old.items ++ classes (known_in words.now) words.now.raised.keys) }
{
    'names: for name in words.raised_names() {
        push_class_lines(out, words, *name)?;
    }
    Ok(())
}

// Appends the class of an exception.
#[tactic(auto, unfolding(crate::specs::Program::class_lines))]
fn push_class_lines(out: &mut Vec<u8>, words: &Words, name: Name) -> Result<(), AllocError>
    ensures { OnOk result (out.new.items ≡ out.old.items ++ class_lines (known_in words.now) name) }
{
    out.extend_from_slice(b"\n\nclass ")?;
    push_class(out, words, name)?;
    out.extend_from_slice(b"(Exception):\n    pass\n")?;
    Ok(())
}

// Returns the helpers that the steps use: for what the job language has and Trio does not have.
#[tactic(auto, unfolding(crate::specs::Program::helpers))]
pub(crate) fn helpers_of(alloc: Global, uses: Uses) -> Result<Vec<u8>, AllocError>
    ensures { IfOk result (λ text. text.items ≡ helpers uses) }
{
    let mut text = Vec::new(alloc);
    push_if(&mut text, uses.handling, HANDLING)?;
    push_if(&mut text, uses.acquire, TOKEN_OF)?;
    push_if(&mut text, uses.channel, CHANNEL)?;
    push_if(&mut text, uses.pace, PACE)?;
    push_if(&mut text, uses.find, FIND)?;
    push_if(&mut text, uses.head, HEAD)?;
    push_if(&mut text, uses.longest, LONGEST)?;
    push_if(&mut text, uses.need, NEED)?;
    push_if(&mut text, uses.over, OVER)?;
    push_if(&mut text, uses.pace || uses.shows(), LINES_OF)?;
    push_if(&mut text, uses.shows(), SHOW_LINES)?;
    Ok(text)
}
