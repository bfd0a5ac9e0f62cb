use crate::kept::shown_line;
use crate::stop::TestStop;
use job_answers::{WriteOut, send};
use std::alloc::{AllocError, Global};
use std::io;

// Writes bytes to standard output.
pub(crate) fn show<R: Print>(rt: &R, bytes: &[u8]) -> Result<(), TestStop> {
    let mut out = WriteOut::new(io::writer(rt));
    if send(bytes, &mut out).is_err() {
        return Err(TestStop::Write);
    }
    Ok(())
}

// Appends each line of some bytes that is not empty, after two blanks.
pub(crate) fn push_indented_lines(
    alloc: Global,
    text: &mut String,
    lines: &[u8],
) -> Result<(), AllocError> {
    'lines: for line in lines.split(|b| *b == b'\n') {
        push_indented(alloc, text, line)?;
    }
    Ok(())
}

// Appends a line after two blanks, if it has bytes.
fn push_indented(alloc: Global, text: &mut String, line: &[u8]) -> Result<(), AllocError> {
    if line.is_empty() {
        return Ok(());
    }
    text.push_str("  ")?;
    text.push_str(shown_line(alloc, line)?.as_str())?;
    text.push_str("\n")?;
    Ok(())
}
