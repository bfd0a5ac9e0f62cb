use crate::option_texts::{
    about_of, help_of, push_choices, push_command_words, push_escaped, takes_words,
};
use clap::{Arg, Command};
use std::alloc::{AllocError, Global};

const FRONT: &str =
    "# Completes the words of nursery in fish: install it as ~/.config/fish/completions/nursery.fish.
complete -c nursery -n __fish_use_subcommand -f -a help -d 'Print the help of a command'
";

// Returns the script for fish.
pub(crate) fn script(alloc: Global, command: &Command<'_>) -> Result<String, AllocError> {
    let mut out = String::from_str(alloc, FRONT)?;
    for inner in command.get_subcommands() {
        push_name(&mut out, inner)?;
    }
    for inner in command.get_subcommands() {
        push_command(&mut out, inner)?;
    }
    Ok(out)
}

// Appends a command with its description.
fn push_name(out: &mut String, command: &Command<'_>) -> Result<(), AllocError> {
    out.push_str("complete -c nursery -n __fish_use_subcommand -f -a ")?;
    out.push_str(command.get_name())?;
    out.push_str(" -d '")?;
    push_escaped(out, about_of(command), "'\\")?;
    out.push_str("'\n")
}

// Appends the words and the options of a command.
fn push_command(out: &mut String, command: &Command<'_>) -> Result<(), AllocError> {
    if takes_words(command) {
        push_front(out, command.get_name())?;
        out.push_str("-f -a '")?;
        push_command_words(out, command)?;
        out.push_str("'\n")?;
    }
    for arg in command.get_arguments() {
        if let Some(long) = arg.get_long() {
            push_option(out, command.get_name(), arg, long)?;
        }
    }
    Ok(())
}

// Appends an option with its description, and the words that it takes.
fn push_option(out: &mut String, name: &str, arg: &Arg<'_>, long: &str) -> Result<(), AllocError> {
    push_front(out, name)?;
    out.push_str("-l ")?;
    out.push_str(long)?;
    if arg.get_action().takes_values() {
        out.push_str(" -x -a '")?;
        push_choices(out, arg)?;
        out.push_str("'")?;
    }
    out.push_str(" -d '")?;
    push_escaped(out, help_of(arg), "'\\")?;
    out.push_str("'\n")
}

// Appends what comes before the words that are offered after a command.
fn push_front(out: &mut String, name: &str) -> Result<(), AllocError> {
    out.push_str("complete -c nursery -n '__fish_seen_subcommand_from ")?;
    out.push_str(name)?;
    out.push_str("' ")
}
