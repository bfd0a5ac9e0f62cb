use crate::{VERSION, command_line, help_text};
use clap::Command;
use std::alloc::{AllocError, Global};

const HEAD: &str = ".\\\" Made by `nursery man`.
.TH NURSERY 1 \"\" \"nursery ";

const FRONT: &str = "\"
.SH NAME
nursery \\- says what each task of a design does when a sibling fails or a deadline passes
.SH SYNOPSIS
.B nursery
.I COMMAND
.RI [ OPTIONS ]
";

const BACK: &str = ".SH SEE ALSO
The folder docs/ of the repository: the job language, its formats and its meaning.
";

/// Returns the man page as text for troff: the program's version, and a section for each command, with its help. The only error
/// is that memory runs out.
pub fn man_page(alloc: Global) -> Result<String, AllocError> {
    let command = command_line(alloc)?;
    let mut out = String::from_str(alloc, HEAD)?;
    out.push_str(VERSION)?;
    out.push_str(FRONT)?;
    push_section(alloc, &mut out, "")?;
    for inner in command.get_subcommands() {
        push_section(alloc, &mut out, inner.get_name())?;
    }
    out.push_str(BACK)?;
    Ok(out)
}

// Appends the help of a command, or of the program if the name is empty.
fn push_section(alloc: Global, out: &mut String, name: &str) -> Result<(), AllocError> {
    out.push_str(".SH ")?;
    if name.is_empty() {
        out.push_str("DESCRIPTION")?;
    }
    for c in name.chars() {
        out.push(c.to_ascii_uppercase())?;
    }
    out.push_str("\n.nf\n")?;
    let help = help_text(alloc, name)?;
    for line in help.lines() {
        push_line(out, line)?;
    }
    out.push_str(".fi\n")
}

// Appends a line of plain text, so that troff reads nothing in it as a request or an escape.
fn push_line(out: &mut String, line: &str) -> Result<(), AllocError> {
    out.push_str("\\&")?;
    for c in line.chars() {
        match c {
            '\\' => out.push_str("\\e")?,
            '-' => out.push_str("\\-")?,
            '\'' => out.push_str("\\(aq")?,
            '`' => out.push_str("\\(ga")?,
            _ => out.push(c)?,
        }
    }
    out.push_str("\n")
}
