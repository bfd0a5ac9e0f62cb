use crate::answers::show_help;
use crate::stop::Stop;
use cli::{Shell, completions, man_page};

// Writes the script that completes the program's words in a shell, and returns the status.
pub(crate) fn show_completions<R: Print + AllocGlobal>(rt: &R, shell: Shell) -> Result<u8, Stop> {
    match completions(rt.alloc(), shell) {
        Ok(text) => show_help(rt, text.as_str()),
        Err(_) => Err(Stop::NoMemory),
    }
}

// Writes the man page, and returns the status.
pub(crate) fn show_man_page<R: Print + AllocGlobal>(rt: &R) -> Result<u8, Stop> {
    match man_page(rt.alloc()) {
        Ok(text) => show_help(rt, text.as_str()),
        Err(_) => Err(Stop::NoMemory),
    }
}
