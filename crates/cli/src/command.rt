ghost use Rattle.std.specs.Prelude.{◌≡◌};
ghost use Rattle.cli.specs.declared.command.CommandFault.TheVariants.{NoMemory};

use crate::arguments::{
    ChartArgs, ExplainArgs, FaultsArgs, PageArgs, RacesArgs, RunArgs, SweepArgs,
};
use job_runner::Settings;
use job_tree::Format;
use std::alloc::AllocError;
use thiserror::Error;

/// What is done with the formatted text of a job.
#[derive(Clone, Copy, Debug, PartialEq, Eq)]
pub enum FormatMode {
    /// It is written to standard output.
    Print,
    /// It replaces the contents of the job file.
    Write,
    /// The job file is compared with it.
    Check,
}

/// A shell for which there are completions.
#[derive(Clone, Copy, Debug, PartialEq, Eq)]
pub enum Shell {
    /// Bash.
    Bash,
    /// Zsh.
    Zsh,
    /// Fish.
    Fish,
}

/// What the words after the program's name ask for.
#[derive(Drop)]
pub enum Command {
    /// No words: a feed on standard input.
    Feed,
    /// Runs a job over an input. Each is named by its file, or `-` for standard input; at most one of them is standard
    /// input. A job file may hold its input.
    Run(RunArgs),
    /// Prints the story of a job over an input: why each task ended as it did.
    Explain(ExplainArgs),
    /// Draws a picture of the run of a job over an input.
    Chart(ChartArgs),
    /// Writes a page about a job over an input, as one HTML file.
    Page(PageArgs),
    /// Prints the outcome of a job over an input with each fault of its waiting steps.
    Faults(FaultsArgs),
    /// Prints the places of a job on which its outcome over an input depends by a hair.
    Races(RacesArgs),
    /// Prints the outcome of a job over an input for each value of one of its numbers.
    Sweep(SweepArgs),
    /// Formats a job: two spaces for each level, and one step on each line.
    Fmt {
        /// The job file, or `-` for standard input, which `FormatMode::Write` excludes.
        job: String,
        /// What is done with the text.
        mode: FormatMode,
    },
    /// Prints what is probably a mistake in a job.
    Lint {
        /// The job file, or `-` for standard input.
        job: String,
        /// Whether the output is one JSON document.
        json: bool,
    },
    /// Runs the feeds of some files and folders, and compares the outputs with those that are kept beside them.
    Test {
        /// The files and folders, at least one.
        paths: Vec<String>,
        /// Whether outputs that differ replace those that are kept.
        accept: bool,
        /// The number of threads, and the last tick at which a job may end.
        settings: Settings,
    },
    /// Prints a job as a Python program on Trio.
    Trio {
        /// The job file, or `-` for standard input.
        job: String,
    },
    /// Prints the formatted or the canonical text of a job.
    Check {
        /// The job file, or `-` for standard input.
        job: String,
        /// Whether it is the canonical text.
        canonical: bool,
    },
    /// Prints the formatted or the canonical text of the same job in a newer format.
    Upgrade {
        /// The job file, or `-` for standard input.
        job: String,
        /// The format, 2 or 3.
        format: Format,
        /// Whether it is the canonical text.
        canonical: bool,
    },
    /// Prints a job with its ticks multiplied.
    Scale {
        /// The number by which each number of ticks is multiplied, 1 to 1,000,000,000.
        factor: u64,
        /// The job file, or `-` for standard input.
        job: String,
    },
    /// Prints the script that completes the program's words in a shell.
    Completions {
        /// The shell.
        shell: Shell,
    },
    /// Prints the man page.
    Man,
    /// Prints a text that was asked for: help, or the version.
    Help {
        /// The text, which ends with a newline.
        text: String,
    },
}

/// Why words are not a command.
#[derive(Debug, PartialEq, Eq, Drop, Error)]
pub enum CommandFault {
    /// The words do not ask for anything that the program does.
    #[error("{text}")]
    Refused {
        /// What is wrong, as a text for the user that ends with a newline.
        text: String,
    },
    /// Memory ran out.
    #[error("no memory")]
    NoMemory,
}

impl From<AllocError> for CommandFault {
    ghost from_gives = { λ _ e. e ≡ NoMemory };

    fn from(_error: AllocError) -> CommandFault {
        CommandFault::NoMemory
    }
}
