use crate::option_texts::{
    about_of, help_of, push_choices, push_command_words, push_escaped, takes_words,
};
use clap::{Arg, Command};
use std::alloc::{AllocError, Global};

const FRONT: &str = "#compdef nursery
# Completes the words of nursery in zsh: install it as _nursery in a folder of $fpath.
_nursery() {
    local -a commands
    commands=(
        'help:Print the help of a command'
";

const MIDDLE: &str = "    )
    if (( CURRENT == 2 )); then
        _describe command commands
        return
    fi
    case $words[2] in
        help) _describe command commands ;;
";

const BACK: &str = "    esac
}
if [ \"$funcstack[1]\" = _nursery ]; then
    _nursery \"$@\"
else
    compdef _nursery nursery
fi
";

// Returns the script for zsh.
pub(crate) fn script(alloc: Global, command: &Command<'_>) -> Result<String, AllocError> {
    let mut out = String::from_str(alloc, FRONT)?;
    for inner in command.get_subcommands() {
        push_name(&mut out, inner)?;
    }
    out.push_str(MIDDLE)?;
    for inner in command.get_subcommands() {
        push_command(&mut out, inner)?;
    }
    out.push_str(BACK)?;
    Ok(out)
}

// Appends a command with its description.
fn push_name(out: &mut String, command: &Command<'_>) -> Result<(), AllocError> {
    out.push_str("        '")?;
    out.push_str(command.get_name())?;
    out.push_str(":")?;
    push_quoted(out, about_of(command))?;
    out.push_str("'\n")
}

// Appends the case of a command: its options, and files.
fn push_command(out: &mut String, command: &Command<'_>) -> Result<(), AllocError> {
    out.push_str("        ")?;
    out.push_str(command.get_name())?;
    out.push_str(")\n            _arguments '--help[Print help]' \\\n")?;
    for arg in command.get_arguments() {
        if let Some(long) = arg.get_long() {
            push_option(out, arg, long)?;
        }
    }
    if !takes_words(command) {
        return out.push_str("                '*:file:_files'\n            ;;\n");
    }
    out.push_str("                '*:word:(")?;
    push_command_words(out, command)?;
    out.push_str(")'\n            ;;\n")
}

// Appends an option with its description, and the words that it takes.
fn push_option(out: &mut String, arg: &Arg<'_>, long: &str) -> Result<(), AllocError> {
    let takes_values = arg.get_action().takes_values();
    out.push_str("                '--")?;
    out.push_str(long)?;
    if takes_values {
        out.push_str("=")?;
    }
    out.push_str("[")?;
    push_quoted(out, help_of(arg))?;
    out.push_str("]")?;
    if takes_values {
        out.push_str(":value:(")?;
        push_choices(out, arg)?;
        out.push_str(")")?;
    }
    out.push_str("' \\\n")
}

// Appends a text that comes between single quotes. Brackets and colons in it are escaped, since they have a meaning there.
fn push_quoted(out: &mut String, text: &str) -> Result<(), AllocError> {
    let mut is_first = true;
    for part in text.split('\'') {
        if !is_first {
            out.push_str("'\\''")?;
        }
        push_escaped(out, part, "[]:")?;
        is_first = false;
    }
    Ok(())
}
