use crate::reasons::reason_line;
use crate::shown_names::shown_name;
use std::alloc::{AllocError, Global};
use std::fs::{self, Metadata, OpenFile, OpenOptions};
use std::io::{self, ErrorKind, Write};
use std::os::unix::fs::{MetadataExt, chown};
use std::rt::Files;

/// What is appended to a file's name for the new file that is written beside it.
const BESIDE: &str = ".nursery-new";

/// How many names are tried for the new file.
const MAX_TRIES: u32 = 100;

/// Why a file was not replaced. The file is as it was, and no new file is left beside it.
#[derive(Debug, Drop)]
pub enum ReplaceFault {
    /// What has this name is not a regular file, but a folder, a FIFO or a device.
    NotRegular {
        /// A line that names it and says so.
        reason: String,
    },
    /// The system refused a call, or the file may not be replaced for another reason.
    System {
        /// A line that names the file of the call and says why it failed, or empty if memory ran out for it.
        reason: String,
    },
    /// Memory ran out.
    NoMemory,
}

impl From<AllocError> for ReplaceFault {
    fn from(_error: AllocError) -> ReplaceFault {
        ReplaceFault::NoMemory
    }
}

/// A file that may be replaced, as it was when it was looked at: a regular file that may be written, or a name that no file has.
#[derive(Drop)]
pub struct Target {
    path: String,
    was: Option<Seen>,
}

// What tells a file from another one that has its name later, or from itself with other bytes.
#[derive(Clone, Copy, PartialEq, Eq)]
struct Seen {
    device: u64,
    number: u64,
    size: u64,
    seconds: i64,
    nanoseconds: i64,
}

impl Target {
    /// Looks at the file with this name, or at the file that a link with this name leads to. To be called before the file is
    /// read, so that what is replaced later is what was read. Returns `ReplaceFault::NotRegular` if there is something that is
    /// not a regular file, which is not opened, so that a FIFO is not waited for; and `ReplaceFault::System` if the file may not
    /// be written.
    pub fn of<R: Files + AllocGlobal>(rt: &R, name: &str) -> Result<Target, ReplaceFault> {
        let alloc = rt.alloc();
        match fs::canonicalize(rt, name) {
            Ok(path) => {
                let path = String::from_str(alloc, path.as_str())?;
                let was = Some(seen_at(rt, path.as_str())?);
                Ok(Target { path, was })
            }
            Err(error) if error.kind() == ErrorKind::NotFound => {
                refuse_if_there(rt, name)?;
                let path = String::from_str(alloc, name)?;
                Ok(Target { path, was: None })
            }
            Err(error) => Err(fault_of(alloc, name, error.kind())),
        }
    }

    /// Replaces the bytes of the file, or writes a new file if there was none. The bytes are written to a new file in the same
    /// folder, under a name that no file has, with the owner and the permissions of the old one; it then takes the file's name.
    /// So whatever fails, the file holds either its old bytes or the new ones. Returns a `ReplaceFault` if the file is no longer
    /// the one that was looked at, or has other bytes; if its owner or its permissions cannot be kept; if no name is free after
    /// 100 tries; or if the system refuses a call.
    pub fn replace<R: Files + AllocGlobal>(
        &self,
        rt: &R,
        bytes: &[u8],
    ) -> Result<(), ReplaceFault> {
        let (beside, file) = create_beside(rt, self.path.as_str())?;
        let written = self.fill(rt, file, beside.as_str(), bytes);
        let replaced = match written {
            Ok(()) => self.take_name(rt, beside.as_str()),
            Err(error) => Err(fault_of(rt.alloc(), beside.as_str(), error.kind())),
        };
        if replaced.is_err() {
            let _ = fs::remove_file(rt, beside.as_str());
        }
        replaced
    }

    // Writes the new file, and gives it the owner and the permissions of the old one.
    fn fill<R: Files>(&self, rt: &R, file: R::File, beside: &str, bytes: &[u8]) -> io::Result<()> {
        let mut file = file;
        file.write_all(bytes)?;
        if self.was.is_some() {
            let old = fs::metadata(rt, self.path.as_str())?;
            keep_owner(rt, &file, beside, &old)?;
            file.set_permissions(old.permissions())?;
        }
        file.sync_all()
    }

    // Gives the file's name to the new file, if the file is still the one that was looked at.
    fn take_name<R: Files + AllocGlobal>(&self, rt: &R, beside: &str) -> Result<(), ReplaceFault> {
        let path = self.path.as_str();
        match self.was {
            None => refuse_if_there(rt, path)?,
            Some(was) => {
                if seen_at(rt, path)? != was {
                    return Err(refused(rt.alloc(), path, "changed after it was read"));
                }
            }
        }
        match fs::rename(rt, beside, path) {
            Ok(()) => Ok(()),
            Err(error) => Err(fault_of(rt.alloc(), path, error.kind())),
        }
    }
}

// Returns what tells this file from others, if it is a regular file that may be written.
fn seen_at<R: Files + AllocGlobal>(rt: &R, path: &str) -> Result<Seen, ReplaceFault> {
    let metadata = match fs::symlink_metadata(rt, path) {
        Ok(metadata) => metadata,
        Err(error) => return Err(fault_of(rt.alloc(), path, error.kind())),
    };
    if !metadata.is_file() {
        let reason = refused_line(rt.alloc(), path, "not a regular file")?;
        return Err(ReplaceFault::NotRegular { reason });
    }
    let opened = OpenOptions::new().write(true).open(rt, path);
    if let Err(error) = opened {
        return Err(fault_of(rt.alloc(), path, error.kind()));
    }
    if metadata.permissions().readonly() {
        return Err(fault_of(rt.alloc(), path, ErrorKind::PermissionDenied));
    }
    Ok(Seen {
        device: metadata.dev(),
        number: metadata.ino(),
        size: metadata.size(),
        seconds: metadata.mtime(),
        nanoseconds: metadata.mtime_nsec(),
    })
}

// Refuses a name that should be free and is not, such as that of a link that leads nowhere.
fn refuse_if_there<R: Files + AllocGlobal>(rt: &R, path: &str) -> Result<(), ReplaceFault> {
    match fs::symlink_metadata(rt, path) {
        Ok(metadata) if metadata.is_symlink() => {
            Err(refused(rt.alloc(), path, "a link that leads to no file"))
        }
        Ok(_) => Err(refused(rt.alloc(), path, "changed after it was read")),
        Err(error) if error.kind() == ErrorKind::NotFound => Ok(()),
        Err(error) => Err(fault_of(rt.alloc(), path, error.kind())),
    }
}

// Creates a new file beside this one, under the first free name, and returns its name and the file.
fn create_beside<R: Files + AllocGlobal>(
    rt: &R,
    path: &str,
) -> Result<(String, R::File), ReplaceFault> {
    let alloc = rt.alloc();
    'names: for number in 0..MAX_TRIES {
        let beside = name_beside(alloc, path, number)?;
        let how = OpenOptions::new()
            .write(true)
            .create_new(true)
            .open(rt, beside.as_str());
        match how {
            Ok(file) => return Ok((beside, file)),
            Err(error) if error.kind() == ErrorKind::AlreadyExists => {}
            Err(error) => return Err(fault_of(alloc, beside.as_str(), error.kind())),
        }
    }
    let last = name_beside(alloc, path, MAX_TRIES - 1)?;
    Err(refused(
        alloc,
        last.as_str(),
        "already there, as 99 files with lower numbers are",
    ))
}

// Returns a name for the new file: with a number, if it is not the first try.
fn name_beside(alloc: Global, path: &str, number: u32) -> Result<String, AllocError> {
    if number == 0 {
        return format!(in alloc; "{path}{BESIDE}");
    }
    format!(in alloc; "{path}{BESIDE}-{number}")
}

// Gives the new file the owner and the group of the old one.
fn keep_owner<R: Files>(rt: &R, file: &R::File, beside: &str, old: &Metadata) -> io::Result<()> {
    let new = file.metadata()?;
    if new.uid() == old.uid() && new.gid() == old.gid() {
        return Ok(());
    }
    chown(rt, beside, Some(old.uid()), Some(old.gid()))
}

// Returns why a call about a file was refused.
fn fault_of(alloc: Global, name: &str, kind: ErrorKind) -> ReplaceFault {
    if kind == ErrorKind::OutOfMemory {
        return ReplaceFault::NoMemory;
    }
    ReplaceFault::System {
        reason: reason_line(alloc, name, kind),
    }
}

// Returns that a file may not be replaced, with the reason.
fn refused(alloc: Global, name: &str, why: &str) -> ReplaceFault {
    match refused_line(alloc, name, why) {
        Ok(reason) => ReplaceFault::System { reason },
        Err(_) => ReplaceFault::NoMemory,
    }
}

// Returns a line that names a file and says what is wrong with it.
fn refused_line(alloc: Global, name: &str, why: &str) -> Result<String, AllocError> {
    let shown = shown_name(alloc, name)?;
    format!(in alloc; "{shown}: {why}\n")
}
