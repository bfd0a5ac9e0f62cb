//! What several tests need: names, labels, jobs and exceptions, and texts of the results of calls.

use exceptions::{Exc, Label, Whose};
use input_lines::Part;
use job_meaning::MAX_INPUT;
use job_reader::{Job, read_job};
use job_tree::Name;
use std::alloc::{AllocError, Global};
use std::test::Fail;
use task_machine::Task;

// The name of these bytes.
pub(crate) fn word(text: &[u8]) -> Result<Name, Fail> {
    match Name::new(text) {
        Some(name) => Ok(name),
        None => Err("no word")?,
    }
}

// The label of that name, with no index.
pub(crate) fn label(alloc: Global, text: &[u8]) -> Result<Label, Fail> {
    Ok(Label::new(alloc, word(text)?))
}

// The job of a text.
pub(crate) fn job(alloc: Global, text: &[u8]) -> Result<Job, Fail> {
    match read_job(alloc, text) {
        Ok(job) => Ok(job),
        Err(fault) => Err(fault)?,
    }
}

// The root of a job on two lines, about which nothing else is known here.
pub(crate) fn root<'a>(alloc: Global, job: &'a Job) -> Result<Task<'a>, Fail> {
    let part = Part::whole(b"one\ntwo\n");
    if part.text().len() > MAX_INPUT {
        return Err("the part is too long")?;
    }
    Ok(Task::root(alloc, job, part)?)
}

// What the task of that name raised at tick 0.
pub(crate) fn raised_exc(alloc: Global, exc: &[u8], task: &[u8]) -> Result<Exc, Fail> {
    let name = word(exc)?;
    let task = label(alloc, task)?;
    Ok(Exc::Raised {
        name,
        task,
        tick: 0,
    })
}

// The failure of a row of a table, with its number from 0 on.
pub(crate) fn wrong(row: usize) -> Fail {
    Fail::from(("row", row))
}

// Fails if a text is not as expected, and prints it.
pub(crate) fn same(found: &[u8], expected: &[u8]) -> Result<(), Fail> {
    if found == expected {
        return Ok(());
    }
    match str::from_utf8(found) {
        Ok(text) => Err(("found", text))?,
        Err(_) => Err("found no text")?,
    }
}

// Appends bytes. Its contract says nothing of the text then, so that a proof carries no facts about it.
pub(crate) fn push_bytes(text: &mut Vec<u8>, bytes: &[u8]) -> Result<(), AllocError> {
    text.extend_from_slice(bytes)
}

// Appends a digit, and a question mark for a number that has more than one.
pub(crate) fn push_digit(text: &mut Vec<u8>, number: u64) -> Result<(), AllocError> {
    match b"0123456789".get(number as usize) {
        Some(digit) => push_bytes(text, &[*digit]),
        None => push_bytes(text, b"?"),
    }
}

// Appends a number below 100.
pub(crate) fn push_number(text: &mut Vec<u8>, number: u64) -> Result<(), AllocError> {
    if number >= 10 {
        push_digit(text, number / 10)?;
    }
    push_digit(text, number % 10)
}

// Appends a label, as `p.1`.
pub(crate) fn push_label(text: &mut Vec<u8>, label: &Label) -> Result<(), AllocError> {
    let name = label.name();
    push_bytes(text, name.bytes())?;
    for index in label.indices() {
        push_bytes(text, b".")?;
        push_number(text, *index)?;
    }
    Ok(())
}

// Appends a label and a tick, as `@a@0`.
fn push_place(text: &mut Vec<u8>, label: &Label, tick: u64) -> Result<(), AllocError> {
    push_bytes(text, b"@")?;
    push_label(text, label)?;
    push_bytes(text, b"@")?;
    push_number(text, tick)
}

// Appends what was raised, as `A@task@0`.
fn push_raised(text: &mut Vec<u8>, name: &Name, task: &Label, tick: u64) -> Result<(), AllocError> {
    push_bytes(text, name.bytes())?;
    push_place(text, task, tick)
}

// Appends the origin of a group.
fn push_whose(text: &mut Vec<u8>, whose: &Whose) -> Result<(), AllocError> {
    match whose {
        Whose::Nursery(label) => push_label(text, label),
        Whose::Handler => push_bytes(text, b"*"),
    }
}

// Appends an exception; of a group only its origin.
fn push_head(text: &mut Vec<u8>, exc: &Exc) -> Result<(), AllocError> {
    match exc {
        Exc::Cancelled => push_bytes(text, b"!"),
        Exc::Raised { name, task, tick } => push_raised(text, name, task, *tick),
        Exc::TooSlow { scope, tick } => push_place(text, scope, *tick),
        Exc::Group { whose, .. } => push_whose(text, whose),
    }
}

// Appends an exception, and for a group its parts, as `n[A@a@0;!;]`.
pub(crate) fn push_exc(text: &mut Vec<u8>, exc: &Exc) -> Result<(), AllocError> {
    push_head(text, exc)?;
    let Exc::Group { parts, .. } = exc else {
        return Ok(());
    };
    push_bytes(text, b"[")?;
    for part in parts.as_slice() {
        push_head(text, part)?;
        push_bytes(text, b";")?;
    }
    push_bytes(text, b"]")
}
