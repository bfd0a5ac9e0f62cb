use clap::builder::ValueParser;
use clap::{Arg, Command};
use std::alloc::AllocError;

// Appends the names of the commands, with a space before each.
pub(crate) fn push_commands(out: &mut String, command: &Command<'_>) -> Result<(), AllocError> {
    for inner in command.get_subcommands() {
        out.push_str(" ")?;
        out.push_str(inner.get_name())?;
    }
    Ok(())
}

// Returns the description of a command, as the help prints it.
pub(crate) fn about_of<'a>(command: &Command<'a>) -> &'a str {
    command.get_about().unwrap_or("")
}

// Returns the description of an option, as the help prints it.
pub(crate) fn help_of<'a>(arg: &Arg<'a>) -> &'a str {
    arg.get_help().unwrap_or("")
}

// Appends the words that an argument may be, with a space between two, or nothing if it may be any word.
pub(crate) fn push_choices(out: &mut String, arg: &Arg<'_>) -> Result<(), AllocError> {
    match arg.get_value_parser() {
        ValueParser::Names(names) => push_words(out, names),
        _ => Ok(()),
    }
}

// Returns whether an argument must be one of a fixed list of words.
fn has_choices(arg: &Arg<'_>) -> bool {
    matches!(arg.get_value_parser(), ValueParser::Names(_))
}

// Returns whether what follows a command is one of a fixed list of words, and not a file.
pub(crate) fn takes_words(command: &Command<'_>) -> bool {
    for arg in command.get_arguments() {
        if arg.is_positional() && has_choices(arg) {
            return true;
        }
    }
    false
}

// Appends the words that may follow the command, if they are a fixed list.
pub(crate) fn push_command_words(
    out: &mut String,
    command: &Command<'_>,
) -> Result<(), AllocError> {
    for arg in command.get_arguments() {
        if arg.is_positional() {
            push_choices(out, arg)?;
        }
    }
    Ok(())
}

// Returns whether an option of the command takes a word.
pub(crate) fn has_values(command: &Command<'_>) -> bool {
    for arg in command.get_arguments() {
        if arg.get_long().is_some() && arg.get_action().takes_values() {
            return true;
        }
    }
    false
}

// Appends words, with a space between two.
fn push_words(out: &mut String, words: &[&str]) -> Result<(), AllocError> {
    let mut is_first = true;
    for word in words {
        if !is_first {
            out.push_str(" ")?;
        }
        out.push_str(word)?;
        is_first = false;
    }
    Ok(())
}

// Appends a text, with a backslash before each of the given characters.
pub(crate) fn push_escaped(out: &mut String, text: &str, special: &str) -> Result<(), AllocError> {
    for c in text.chars() {
        if special.contains(c) {
            out.push('\\')?;
        }
        out.push(c)?;
    }
    Ok(())
}
