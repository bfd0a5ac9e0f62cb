use cli::{read_reason, reason_line, shown_name};
use job_answers::{ReadFault, read_whole};
use std::alloc::{AllocError, Global};
use std::fs;
use std::io::ErrorKind;
use std::rt::Files;

/// The maximum number of bytes of a feed, and of a file that is kept beside one.
const MAX_KEPT: usize = 268_435_456;

/// Why a file was not read.
#[derive(Drop)]
pub(crate) enum Unread {
    /// There is no such file.
    Missing,
    /// It cannot be opened or read, or is too long. The line names it and says why.
    Fault(String),
    /// Memory ran out.
    NoMemory,
}

impl From<AllocError> for Unread {
    fn from(_error: AllocError) -> Unread {
        Unread::NoMemory
    }
}

// Returns the bytes of a file.
pub(crate) fn read_kept<R: Files + AllocGlobal>(rt: &R, name: &str) -> Result<Vec<u8>, Unread> {
    let alloc = rt.alloc();
    let mut file = match fs::open(rt, name) {
        Ok(file) => file,
        Err(error) if error.kind() == ErrorKind::NotFound => return Err(Unread::Missing),
        Err(error) => return Err(Unread::Fault(reason_line(alloc, name, error.kind()))),
    };
    match read_whole(alloc, &mut file, MAX_KEPT) {
        Ok(bytes) => Ok(bytes),
        Err(ReadFault::Device) => Err(Unread::Fault(read_reason(rt, name))),
        Err(ReadFault::TooLong) => Err(Unread::Fault(too_long_line(alloc, name)?)),
        Err(ReadFault::NoMemory) => Err(Unread::NoMemory),
    }
}

// Returns the line for a file with too many bytes.
fn too_long_line(alloc: Global, name: &str) -> Result<String, AllocError> {
    let shown = shown_name(alloc, name)?;
    format!(in alloc; "{shown}: more than {MAX_KEPT} bytes\n")
}

// Returns the name of the file with this extension beside a feed, given the feed's name without its own
// extension.
pub(crate) fn name_beside(
    alloc: Global,
    stem: &str,
    extension: &str,
) -> Result<String, AllocError> {
    format!(in alloc; "{stem}.{extension}")
}

// Returns a line of a file as it is shown: at most 200 bytes of it, and `?` for each byte that is no printable ASCII.
pub(crate) fn shown_line(alloc: Global, line: &[u8]) -> Result<String, AllocError> {
    let mut shown = String::new(alloc);
    let (front, rest) = line.split_at(line.len().min(MAX_SHOWN));
    'bytes: for byte in front {
        shown.push(shown_byte(*byte))?;
    }
    if !rest.is_empty() {
        shown.push_str("..")?;
    }
    Ok(shown)
}

/// The maximum number of bytes of a line that are shown.
const MAX_SHOWN: usize = 200;

// Returns the character that is shown for a byte.
fn shown_byte(byte: u8) -> char {
    match byte {
        b' '..=b'~' => byte as char,
        b'\t' | b'\r' => ' ',
        _ => '?',
    }
}
