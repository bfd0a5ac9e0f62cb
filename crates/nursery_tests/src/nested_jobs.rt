//! Texts of 31 nested blocks, the maximum depth that the job `main` may have, and a report of theirs.

use crate::fixtures::{FORMAT_1, job_text};
use std::alloc::{AllocError, Global};

// The number of blocks.
const DEEPEST: u8 = 31;

// Appends a number of two digits between two texts.
fn push_numbered(
    out: &mut Vec<u8>,
    front: &[u8],
    number: u8,
    after: &[u8],
) -> Result<(), AllocError> {
    out.extend_from_slice(front)?;
    out.push(b'0'.wrapping_add(number / 10))?;
    out.push(b'0'.wrapping_add(number % 10))?;
    out.extend_from_slice(after)
}

// Appends the numbers from 01 to 31, each between two texts.
pub(crate) fn push_up(out: &mut Vec<u8>, front: &[u8], after: &[u8]) -> Result<(), AllocError> {
    for i in 0..DEEPEST {
        push_numbered(out, front, i.wrapping_add(1), after)?;
    }
    Ok(())
}

// Appends the numbers from 31 down to 01, each between two texts.
pub(crate) fn push_down(out: &mut Vec<u8>, front: &[u8], after: &[u8]) -> Result<(), AllocError> {
    for i in 0..DEEPEST {
        push_numbered(out, front, DEEPEST.wrapping_sub(i), after)?;
    }
    Ok(())
}

// Appends a text 31 times.
pub(crate) fn push_each(out: &mut Vec<u8>, text: &[u8]) -> Result<(), AllocError> {
    for _ in 0..DEEPEST {
        out.extend_from_slice(text)?;
    }
    Ok(())
}

// Returns the steps inside 31 blocks that begin so, each with a number after its name.
pub(crate) fn nested_steps(
    alloc: Global,
    block: &[u8],
    steps: &[u8],
) -> Result<Vec<u8>, AllocError> {
    let mut text = Vec::new(alloc);
    push_up(&mut text, block, b" { ")?;
    text.extend_from_slice(steps)?;
    push_each(&mut text, b" }")?;
    Ok(text)
}

// Returns the text of a job of format 1 with these steps.
pub(crate) fn nested_job(alloc: Global, block: &[u8], steps: &[u8]) -> Result<Vec<u8>, AllocError> {
    let steps = nested_steps(alloc, block, steps)?;
    job_text(alloc, FORMAT_1, steps.as_slice())
}

// Returns the report of the job of 31 nested scopes around `sleep 1`.
pub(crate) fn scopes_report(alloc: Global) -> Result<Vec<u8>, AllocError> {
    let mut report = Vec::from_slice(alloc, b"job main 1\ntask main 0 1 done\n")?;
    push_down(&mut report, b"  scope s", b" 1 passed\n")?;
    Ok(report)
}
