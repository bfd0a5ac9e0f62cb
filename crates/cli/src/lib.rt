//! The command line: what its words ask for, help, completions and the man page; names of files as they are shown, and how a
//! file is replaced.
//!
//! The command line of the program `nursery`: what the words after its name ask for, and the text of its help.
//!
//! Only an empty list of words asks for a feed on standard input, and it always does. The exceptions of `faults` are such as a
//! step may raise; a sweep has values, from a first one on by a step. Settings are in their ranges by their type. Which words
//! are refused, and with which message, is tested.
//!
//! The completions of `nursery` for bash, zsh and fish, and its man page.
//!
//! They are made from the table with which the command line is read (`crate::command_line`), so they cannot name a command or
//! an option that the program does not have. What they contain is tested; no contract says anything about it.
//!
//! What the program needs of files: how a name is shown, a line that says why a file cannot be read, and how a file is replaced
//! by another.
//!
//! The layer promises nothing that is proved, since the system's files are outside of every contract. It is tested on real
//! files (`tests/command`): whatever fails, a file that is replaced holds either its old bytes or the new ones.
#![tactic(auto)]

mod arguments;
mod bash;
mod command;
mod common;
mod completing;
mod cutting;
mod denying;
mod examples;
mod fish;
mod manual;
mod naming;
mod option_texts;
mod options;
mod parser;
mod reading;
mod reasons;
mod replacing;
mod showing;
mod shown_names;
mod sweeping;
mod table;
mod zsh;

pub use arguments::{ChartArgs, ExplainArgs, FaultsArgs, PageArgs, RacesArgs, RunArgs, SweepArgs};
pub use command::{Command, CommandFault, FormatMode, Shell};
pub use completing::completions;
pub use manual::man_page;
pub use parser::{DEFAULT_LIMIT, LEAST_WIDTH, MAX_LABEL, MAX_WIDTH, VERSION, command_line};
pub use reading::{help_text, read_command};
pub use reasons::{read_reason, reason_line};
pub use replacing::{ReplaceFault, Target};
pub use shown_names::shown_name;
