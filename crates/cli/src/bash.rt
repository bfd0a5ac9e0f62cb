use crate::option_texts::{has_values, push_choices, push_command_words, push_commands};
use clap::{Arg, Command};
use std::alloc::{AllocError, Global};

const FRONT: &str = "# Completes the words of nursery in bash: source this file, or install it as
# ~/.local/share/bash-completion/completions/nursery.
_nursery() {
    local commands=\"help";

const MIDDLE: &str = "\"
    local options=\"--help\"
    local words=\"\"
    COMPREPLY=()
    if [ \"$COMP_CWORD\" -eq 1 ]; then
        COMPREPLY=($(compgen -W \"$commands --help --version\" -- \"$2\"))
        return
    fi
    case \"${COMP_WORDS[1]}\" in
        help)
            COMPREPLY=($(compgen -W \"$commands\" -- \"$2\"))
            return
            ;;
";

const BACK: &str = "    esac
    case \"$2\" in
        -*) COMPREPLY=($(compgen -W \"$options\" -- \"$2\")) ;;
        *) COMPREPLY=($(if [ \"$words\" ]; then compgen -W \"$words\" -- \"$2\"; else compgen -f -- \"$2\"; fi)) ;;
    esac
}
complete -o filenames -F _nursery nursery
";

// Returns the script for bash.
pub(crate) fn script(alloc: Global, command: &Command<'_>) -> Result<String, AllocError> {
    let mut out = String::from_str(alloc, FRONT)?;
    push_commands(&mut out, command)?;
    out.push_str(MIDDLE)?;
    for inner in command.get_subcommands() {
        push_command(&mut out, inner)?;
    }
    out.push_str(BACK)?;
    Ok(out)
}

// Appends the case of a command: the words that an option takes, and the options of the command.
fn push_command(out: &mut String, command: &Command<'_>) -> Result<(), AllocError> {
    out.push_str("        ")?;
    out.push_str(command.get_name())?;
    out.push_str(")\n")?;
    if has_values(command) {
        out.push_str("            case \"$3\" in\n")?;
        push_values(out, command)?;
        out.push_str("            esac\n")?;
    }
    out.push_str("            options=\"--help")?;
    push_options(out, command)?;
    out.push_str("\"\n            words=\"")?;
    push_command_words(out, command)?;
    out.push_str("\"\n            ;;\n")
}

// Appends a case for each option that takes a word.
fn push_values(out: &mut String, command: &Command<'_>) -> Result<(), AllocError> {
    for arg in command.get_arguments() {
        if let Some(long) = arg.get_long()
            && arg.get_action().takes_values()
        {
            push_value(out, long, arg)?;
        }
    }
    Ok(())
}

// Appends the case of an option: the words that it takes, if they are a fixed list.
fn push_value(out: &mut String, long: &str, arg: &Arg<'_>) -> Result<(), AllocError> {
    out.push_str("                --")?;
    out.push_str(long)?;
    out.push_str(") COMPREPLY=($(compgen -W \"")?;
    push_choices(out, arg)?;
    out.push_str("\" -- \"$2\")); return ;;\n")
}

// Appends the options of a command, with a space before each.
fn push_options(out: &mut String, command: &Command<'_>) -> Result<(), AllocError> {
    for arg in command.get_arguments() {
        if let Some(long) = arg.get_long() {
            out.push_str(" --")?;
            out.push_str(long)?;
        }
    }
    Ok(())
}
