use crate::{Shell, bash, command_line, fish, zsh};
use std::alloc::{AllocError, Global};

/// Returns the script that completes the words of `nursery` in a shell. The only error is that memory runs out.
pub fn completions(alloc: Global, shell: Shell) -> Result<String, AllocError> {
    let command = command_line(alloc)?;
    match shell {
        Shell::Bash => bash::script(alloc, &command),
        Shell::Zsh => zsh::script(alloc, &command),
        Shell::Fish => fish::script(alloc, &command),
    }
}
