use cli::{reason_line, shown_name};
use std::alloc::{AllocError, Global};
use std::rt::Files;
use std::{fs, io};

/// The maximum number of folders that are searched.
const MAX_FOLDERS: usize = 100_000;

/// The feeds of a path of the command line.
#[derive(Drop)]
pub(crate) struct Found {
    /// The names of the feeds, sorted.
    pub feeds: Vec<String>,
    /// A line for each path that is no feed, cannot be read, or is a folder without a feed.
    pub faults: Vec<String>,
}

// Returns the feeds of a path: a feed itself, or those of a folder and its folders. In a folder, names that begin with a `.` are
// skipped.
pub(crate) fn find_feeds<R: Files + AllocGlobal + Clone + Drop>(
    rt: &R,
    path: &str,
) -> Result<Found, AllocError> {
    let alloc = rt.alloc();
    let mut found = Found {
        feeds: Vec::new(alloc),
        faults: Vec::new(alloc),
    };
    match fs::metadata(rt, path) {
        Ok(data) if data.is_dir() => search_folder(rt, &mut found, path)?,
        Ok(_) if path.ends_with(".feed") => push(&mut found.feeds, String::from_str(alloc, path)?)?,
        Ok(_) => push(&mut found.faults, not_a_feed_line(alloc, path)?)?,
        Err(error) => push(&mut found.faults, reason_line(alloc, path, error.kind()))?,
    }
    Ok(found)
}

// Returns the line for a file that is no feed.
fn not_a_feed_line(alloc: Global, path: &str) -> Result<String, AllocError> {
    let shown = shown_name(alloc, path)?;
    format!(in alloc; "{shown}: not a feed: its name does not end with `.feed`\n")
}

// Finds the feeds of a folder and of its folders.
fn search_folder<R: Files + AllocGlobal + Clone + Drop>(
    rt: &R,
    found: &mut Found,
    folder: &str,
) -> Result<(), AllocError> {
    let alloc = rt.alloc();
    let mut folders = Vec::new(alloc);
    push(&mut folders, String::from_str(alloc, folder)?)?;
    'folders: for _turn in 0..MAX_FOLDERS {
        let Some(next) = folders.pop() else {
            break;
        };
        if let Err(error) = list_folder(rt, found, &mut folders, next.as_str()) {
            push(
                &mut found.faults,
                reason_line(alloc, next.as_str(), error.kind()),
            )?;
        }
    }
    if found.feeds.is_empty() && found.faults.is_empty() {
        let shown = shown_name(alloc, folder)?;
        let line = format!(in alloc; "{shown}: no feed in this folder\n")?;
        push(&mut found.faults, line)?;
    }
    found.feeds.sort_unstable();
    Ok(())
}

// Finds the feeds right in a folder, and its folders. A link to a folder is not followed.
fn list_folder<R: Files + AllocGlobal + Clone + Drop>(
    rt: &R,
    found: &mut Found,
    folders: &mut Vec<String>,
    folder: &str,
) -> io::Result<()> {
    'entries: for entry in fs::read_dir(rt, folder)? {
        let entry = entry?;
        let is_folder = entry.file_type()?.is_dir();
        let list = if is_folder {
            &mut *folders
        } else {
            &mut found.feeds
        };
        add_entry(
            rt.alloc(),
            list,
            entry.path().as_str(),
            entry.file_name(),
            is_folder,
        )?;
    }
    Ok(())
}

// Adds a path of a folder to a list, if it is a folder or a feed.
fn add_entry(
    alloc: Global,
    list: &mut Vec<String>,
    path: &str,
    name: &str,
    is_folder: bool,
) -> Result<(), AllocError> {
    if name.starts_with('.') || !(is_folder || name.ends_with(".feed")) {
        return Ok(());
    }
    push(list, String::from_str(alloc, path)?)
}

// Appends a string.
fn push(list: &mut Vec<String>, text: String) -> Result<(), AllocError> {
    match list.push(text) {
        Ok(()) => Ok(()),
        Err(_full) => Err(AllocError),
    }
}
