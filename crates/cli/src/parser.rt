use crate::examples::{EXAMPLE, example_of};
use crate::options::{ArgRow, Takes};
use crate::table::{CommandRow, GroupRow, runs, tables, texts};
use clap::builder::ValueParser;
use clap::{Arg, ArgAction, ArgGroup, Command};
use std::alloc::{AllocError, Global};

/// The limit if none is given, in ticks.
pub const DEFAULT_LIMIT: u64 = 1_000_000;

// The default limit, as the help prints it.
pub(crate) const SHOWN_LIMIT: &str = "1000000";

/// The minimum width of a chart, in columns of text.
pub const LEAST_WIDTH: usize = 20;

/// The maximum width of a chart, in columns of text.
pub const MAX_WIDTH: usize = 1_000;

/// The maximum length in bytes of the label in `--task`. No label is longer: it is a name of at most 32 bytes and, for each of at
/// most 32 blocks around the task, a dot and a number of at most 10 digits.
pub const MAX_LABEL: usize = 384;

/// The greatest number by which ticks are multiplied.
pub(crate) const MAX_FACTOR: u64 = 1_000_000_000;

/// The name of the exception that a faulty step raises if none is given.
pub(crate) const DEFAULT_FAULT: &str = "Fault";

const ABOUT: &str =
    "Runs a job of nurseries and cancel scopes over an input, and reports what each task did";

/// The program's version, as `--version` prints it.
pub const VERSION: &str = "0.1.0";

/// Returns the parser of the words after the program's name: each command with its description, its options and its help. The
/// only error is that memory runs out.
pub fn command_line<'a>(alloc: Global) -> Result<Command<'a>, AllocError> {
    let program = bare_program(alloc)?;
    let program = with_commands(alloc, program, runs())?;
    let program = with_commands(alloc, program, tables())?;
    with_commands(alloc, program, texts())
}

// Returns the parser without any command.
fn bare_program<'a>(alloc: Global) -> Result<Command<'a>, AllocError> {
    let program = Command::new(alloc, "nursery")
        .no_binary_name(true)
        .version(VERSION)
        .about(ABOUT)
        .after_help(EXAMPLE)
        .subcommand_required(true);
    program.bin_name("nursery")
}

// Adds the commands of these rows.
fn with_commands<'a>(
    alloc: Global,
    program: Command<'a>,
    rows: &[CommandRow],
) -> Result<Command<'a>, AllocError> {
    let mut program = program;
    'rows: for row in rows {
        program = program.subcommand(parser_of(alloc, row)?)?;
    }
    Ok(program)
}

// Returns the parser of the words after the name of a command.
fn parser_of<'a>(alloc: Global, row: &CommandRow) -> Result<Command<'a>, AllocError> {
    let command = Command::new(alloc, row.name)
        .about(row.about)
        .after_help(example_of(row.name));
    let command = with_args(alloc, command, row.args)?;
    match row.group {
        Some(group) => command.group(group_of(alloc, &group)?),
        None => Ok(command),
    }
}

// Adds the arguments and options of these rows.
fn with_args<'a>(
    alloc: Global,
    command: Command<'a>,
    rows: &[ArgRow],
) -> Result<Command<'a>, AllocError> {
    let mut command = command;
    'rows: for row in rows {
        command = command.arg(arg_of(alloc, row))?;
    }
    Ok(command)
}

// Returns the group of some options.
fn group_of<'a>(alloc: Global, row: &GroupRow) -> Result<ArgGroup<'a>, AllocError> {
    let group = ArgGroup::new(alloc, row.name).required(row.required);
    group.args(row.options)
}

// Returns the parser of an argument or option.
fn arg_of<'a>(alloc: Global, row: &ArgRow) -> Arg<'a> {
    let arg = Arg::new(alloc, row.name)
        .help(row.help)
        .required(row.required);
    let arg = if row.is_option {
        arg.long(row.name)
    } else {
        arg
    };
    let arg = match row.default {
        Some(word) => arg.default_value(word),
        None => arg,
    };
    taking(arg, row.takes, row.value_name)
}

// Returns the parser of an argument or option that takes these words.
fn taking<'a>(arg: Arg<'a>, takes: Takes, value_name: &'a str) -> Arg<'a> {
    match takes {
        Takes::Nothing => arg.action(ArgAction::SetTrue),
        Takes::Word => arg.value_name(value_name),
        Takes::Words => arg.value_name(value_name).num_args(1..),
        Takes::Number(least, most) => arg
            .value_name(value_name)
            .value_parser(ValueParser::Unsigned(least, most)),
        Takes::OneOf(words) => arg.value_name(value_name).value_parser(words),
    }
}
