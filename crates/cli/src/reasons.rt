use crate::shown_names::shown_name;
use std::alloc::{AllocError, Global};
use std::fs;
use std::io::ErrorKind;
use std::rt::Files;

/// Returns a line that names a file and says what was wrong with it, for standard error. It is empty if memory runs out.
pub fn reason_line(alloc: Global, name: &str, kind: ErrorKind) -> String {
    match reason_text(alloc, name, kind) {
        Ok(line) => line,
        Err(_) => String::new(alloc),
    }
}

/// Returns the same for a file that could be opened and not read, such as a folder; if the name is `-`, for standard input.
pub fn read_reason<R: Files + AllocGlobal>(rt: &R, name: &str) -> String {
    reason_line(rt.alloc(), name, read_kind(rt, name))
}

// Returns why a file could be opened and not read.
fn read_kind<R: Files>(rt: &R, name: &str) -> ErrorKind {
    if name == "-" {
        return ErrorKind::Other;
    }
    match fs::metadata(rt, name) {
        Ok(metadata) if metadata.is_dir() => ErrorKind::IsADirectory,
        _ => ErrorKind::Other,
    }
}

// Returns the line.
fn reason_text(alloc: Global, name: &str, kind: ErrorKind) -> Result<String, AllocError> {
    let shown = if name == "-" {
        String::from_str(alloc, "standard input")?
    } else {
        shown_name(alloc, name)?
    };
    match kind {
        ErrorKind::NotFound => format!(in alloc; "{shown}: no such file\n"),
        ErrorKind::Other => format!(in alloc; "{shown}: a read failed\n"),
        _ => format!(in alloc; "{shown}: {kind}\n"),
    }
}
