ghost use Rattle.std.specs.Prelude.{◌≡◌, ◌++◌, [], IfOk, OnOk, codes};
ghost use Rattle.job_tree.specs.Blocks.{steps_of};
ghost use Rattle.trio_text.specs.Needs.{uses_of};
ghost use Rattle.trio_text.specs.Program.{IsProgram, WritesRoot, classes, footer, header, helpers, imports, with_root, with_start_time};
ghost use Rattle.trio_text.specs.Uses.{known_in};

use crate::helpers::{helpers_of, imports_of, push_classes};
use crate::names::push_name;
use crate::pieces::push_line;
use crate::place::Place;
use crate::steps::push_steps;
use crate::texts::{HARNESS, HEADER};
use crate::uses::{Uses, uses_of};
use crate::words::Words;
use job_reader::Job;
use job_tree::Name;
use std::alloc::{AllocError, Global};

/// Returns the job as a Python program on plain Trio (Python 3.8 or newer, Trio 0.22 or newer; with Trio 0.22 the end of a
/// nursery may raise a `Cancelled` of its own). Its first lines name the job and say how to run the program. Then come a class
/// for each exception, a function for the root task with those of the other tasks inside it, where they are started, helpers
/// for what the job language has and Trio does not have, and the lines that run the job and report how each task ended, with
/// `--ticks` also when. Returns `AllocError` if out of memory.
pub fn program(alloc: Global, job: &Job) -> Result<Vec<u8>, AllocError>
    ensures { IfOk result (λ text. IsProgram job.now text.items) }
{
    let words = Words::of(alloc, job)?;
    let uses = job_uses(job);
    let functions = functions_of(alloc, &words, uses.start, job)?;
    let text = text_around(alloc, &words, uses, functions.as_slice(), job)?;
    Ok(text)
}

// Returns the program around its functions: what comes before them, the functions, and what comes after them.
fn text_around(
    alloc: Global,
    words: &Words,
    uses: Uses,
    functions: &[u8],
    job: &Job,
) -> Result<Vec<u8>, AllocError>
    ensures { IfOk result (λ text. text.items
        ≡ header job.now.name ++ imports uses ++ classes (known_in words.now) words.now.raised.keys ++ functions.now
        ++ helpers uses ++ footer job.now.name) }
{
    let mut text = top_of(alloc, words, uses, job)?;
    text.extend_from_slice(functions)?;
    push_end(alloc, &mut text, uses, job)?;
    Ok(text)
}

// Returns what comes before the functions: the first lines, the imports, and a class for each exception.
fn top_of(alloc: Global, words: &Words, uses: Uses, job: &Job) -> Result<Vec<u8>, AllocError>
    ensures { IfOk result (λ text. text.items
        ≡ header job.now.name ++ imports uses ++ classes (known_in words.now) words.now.raised.keys) }
{
    let imports = imports_of(alloc, uses)?;
    let mut text = header_of(alloc, job)?;
    text.extend_from_slice(imports.as_slice())?;
    push_classes(&mut text, words)?;
    Ok(text)
}

// Appends what comes after the functions: the helpers and the last lines.
fn push_end(alloc: Global, out: &mut Vec<u8>, uses: Uses, job: &Job) -> Result<(), AllocError>
    ensures { OnOk result (out.new.items ≡ out.old.items ++ helpers uses ++ footer job.now.name) }
{
    let helpers = helpers_of(alloc, uses)?;
    let footer = footer_of(alloc, job)?;
    out.extend_from_slice(helpers.as_slice())?;
    out.extend_from_slice(footer.as_slice())?;
    Ok(())
}

// Returns the helpers that the steps of a job need.
fn job_uses(job: &Job) -> Uses
    ensures { result ≡ uses_of job.now.steps }
{
    uses_of(job.steps())
}

// Returns the first lines, which name the job and say how to run the program.
fn header_of(alloc: Global, job: &Job) -> Result<Vec<u8>, AllocError>
    ensures { IfOk result (λ text. text.items ≡ header job.now.name) }
{
    let mut text = Vec::new(alloc);
    text.extend_from_slice(b"# The job ")?;
    let name = job.name();
    text.extend_from_slice(name.bytes())?;
    text.extend_from_slice(HEADER)?;
    Ok(text)
}

// Returns the last lines, which run the function of the root task and print how each task ended.
fn footer_of(alloc: Global, job: &Job) -> Result<Vec<u8>, AllocError>
    ensures { IfOk result (λ text. text.items ≡ footer job.now.name) }
{
    let mut text = Vec::new(alloc);
    text.extend_from_slice(HARNESS)?;
    push_name(&mut text, job.name())?;
    text.extend_from_slice(b")\n")?;
    Ok(text)
}

// Returns the function of the root task, with those of the other tasks inside it.
fn functions_of(
    alloc: Global,
    words: &Words,
    is_timed: bool,
    job: &Job,
) -> Result<Vec<u8>, AllocError>
    ensures { IfOk result (λ text. WritesRoot (known_in words.now) is_timed job.now [] text.items) }
{
    let mut text = Vec::new(alloc);
    push_root(&mut text, job.name())?;
    push_start_time(&mut text, is_timed)?;
    push_steps(&mut text, words, &Place::root(job.name()), job.steps())?;
    Ok(text)
}

// Appends the lines that begin the function of the root task.
#[tactic(auto, unfolding(crate::specs::Program::with_root))]
fn push_root(out: &mut Vec<u8>, name: Name) -> Result<(), AllocError>
    ensures { OnOk result (out.new.items ≡ with_root name out.old.items) }
{
    out.extend_from_slice(b"\n\nasync def ")?;
    push_name(out, name)?;
    out.extend_from_slice(b"(part):\n")
}

// Appends the line that notes when the job starts, if a deadline needs it.
fn push_start_time(out: &mut Vec<u8>, is_used: bool) -> Result<(), AllocError>
    ensures { OnOk result (out.new.items ≡ with_start_time is_used out.old.items) }
{
    if is_used {
        push_line(out, 1, b"start = trio.current_time()")?;
    }
    Ok(())
}
