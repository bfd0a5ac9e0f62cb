use crate::parser::{DEFAULT_FAULT, LEAST_WIDTH, MAX_FACTOR, MAX_WIDTH, SHOWN_LIMIT};
use job_runner::{MAX_LIMIT, MAX_WORKERS};

// The words that an argument or option takes.
#[derive(Clone, Copy)]
pub(crate) enum Takes {
    // None. It is a flag, and given or not.
    Nothing,
    // Any word.
    Word,
    // At least one word.
    Words,
    // A number from the first to the second.
    Number(u64, u64),
    // One of these words.
    OneOf(&'static [&'static str]),
}

// An argument or option of a command. An option is written with two hyphens before its name.
#[derive(Clone, Copy)]
pub(crate) struct ArgRow {
    pub(crate) name: &'static str,
    pub(crate) is_option: bool,
    pub(crate) takes: Takes,
    // How the help writes a word that it takes.
    pub(crate) value_name: &'static str,
    pub(crate) default: Option<&'static str>,
    pub(crate) required: bool,
    pub(crate) help: &'static str,
}

// What most arguments have in common: a word that must be given.
const ARGUMENT: ArgRow = ArgRow {
    name: "",
    is_option: false,
    takes: Takes::Word,
    value_name: "",
    default: None,
    required: true,
    help: "",
};

// What most options have in common: a word, and no default.
const OPTION: ArgRow = ArgRow {
    is_option: true,
    required: false,
    ..ARGUMENT
};

// What flags have in common.
const FLAG: ArgRow = ArgRow {
    takes: Takes::Nothing,
    ..OPTION
};

pub(crate) const JOB: ArgRow = ArgRow {
    name: "job",
    value_name: "JOB",
    help: "The job file, or `-` for standard input; what follows a line `%input` in it is its input",
    ..ARGUMENT
};

pub(crate) const INPUT: ArgRow = ArgRow {
    name: "input",
    value_name: "INPUT",
    required: false,
    help: "The input file, or `-` for standard input; without one the input is the one in the job file, or else empty",
    ..ARGUMENT
};

pub(crate) const WORKERS: ArgRow = ArgRow {
    name: "workers",
    takes: Takes::Number(1, MAX_WORKERS as u64),
    value_name: "N",
    default: Some("1"),
    help: "The number of workers, 1 to 64; the output is the same for all",
    ..OPTION
};

pub(crate) const JSON: ArgRow = ArgRow {
    name: "json",
    help: "Writes one JSON document",
    ..FLAG
};

pub(crate) const LIMIT: ArgRow = ArgRow {
    name: "limit",
    takes: Takes::Number(0, MAX_LIMIT),
    value_name: "T",
    default: Some(SHOWN_LIMIT),
    help: "The last tick at which the job may end, at most 4294967295",
    ..OPTION
};

pub(crate) const TASK: ArgRow = ArgRow {
    name: "task",
    value_name: "LABEL",
    help: "Only what concerns the task of this label: its events, and those of each task that caused one of its cancellations",
    ..OPTION
};

pub(crate) const WIDTH: ArgRow = ArgRow {
    name: "width",
    takes: Takes::Number(LEAST_WIDTH as u64, MAX_WIDTH as u64),
    value_name: "N",
    help: "The maximum width of the chart, 20 to 1000 columns; without it the value of COLUMNS or else 80, and 400 for an SVG document",
    ..OPTION
};

pub(crate) const FACTOR: ArgRow = ArgRow {
    name: "factor",
    takes: Takes::Number(1, MAX_FACTOR),
    value_name: "N",
    help: "The number by which each number of ticks is multiplied, 1 to 1000000000",
    ..ARGUMENT
};

pub(crate) const CANONICAL: ArgRow = ArgRow {
    name: "canonical",
    help: "Writes the canonical text: the job on one line, without comments",
    ..FLAG
};

pub(crate) const SVG: ArgRow = ArgRow {
    name: "svg",
    help: "Writes an SVG document, which a browser shows",
    ..FLAG
};

pub(crate) const FAULT_NAME: ArgRow = ArgRow {
    name: "name",
    value_name: "NAMES",
    default: Some(DEFAULT_FAULT),
    help: "The name of the exception that a faulty step raises, or several, with commas between them, one at a time",
    ..OPTION
};

pub(crate) const EACH_PART: ArgRow = ArgRow {
    name: "each",
    help: "Adds lines for faults in single copies of a `start .. over` and in single passes of a `repeat`, at most 1000",
    ..FLAG
};

pub(crate) const BRIEF: ArgRow = ArgRow {
    name: "brief",
    help: "Writes only the lines whose outcome differs from that of the job as it is",
    ..FLAG
};

pub(crate) const DENIED_KINDS: ArgRow = ArgRow {
    name: "deny",
    value_name: "KINDS",
    help: "`stuck`, `cut` and `lost`, with commas between them: if a line is of one of these kinds beyond the job as it is, the status is 1, and standard error repeats the line",
    ..OPTION
};

pub(crate) const DENY_RACES: ArgRow = ArgRow {
    name: "deny",
    help: "If there is a race, the status is 1, and standard error repeats the lines",
    ..FLAG
};

pub(crate) const TARGET_NAME: ArgRow = ArgRow {
    name: "of",
    value_name: "NAME",
    help: "Vary the deadline of the scope or nursery of this name",
    ..OPTION
};

pub(crate) const TARGET_PLACE: ArgRow = ArgRow {
    name: "at",
    value_name: "LINE:COL",
    help: "Vary the number that begins at this place of the job file",
    ..OPTION
};

pub(crate) const VALUES: ArgRow = ArgRow {
    name: "values",
    value_name: "A..B[:STEP]",
    required: true,
    help: "The values: A, A + STEP and so on, up to B; at most 100000 of them",
    ..OPTION
};

pub(crate) const WRITE: ArgRow = ArgRow {
    name: "write",
    help: "Replaces the job file by its formatted text, or leaves it unchanged if that fails",
    ..FLAG
};

pub(crate) const CHECK: ArgRow = ArgRow {
    name: "check",
    help: "Writes nothing; the status is 1 if the job file differs from its formatted text",
    ..FLAG
};

pub(crate) const FORMAT: ArgRow = ArgRow {
    name: "to",
    takes: Takes::OneOf(&["2", "3"]),
    value_name: "N",
    default: Some("3"),
    help: "The format of the text, 2 or 3",
    ..OPTION
};

pub(crate) const PATHS: ArgRow = ArgRow {
    name: "paths",
    takes: Takes::Words,
    value_name: "PATH",
    help: "A feed, or a folder: all feeds in it and in its subfolders are tested",
    ..ARGUMENT
};

pub(crate) const ACCEPT: ArgRow = ArgRow {
    name: "accept",
    help: "Keeps the new outputs in place of those that differ",
    ..FLAG
};

pub(crate) const SHELL: ArgRow = ArgRow {
    name: "shell",
    takes: Takes::OneOf(&["bash", "zsh", "fish"]),
    value_name: "SHELL",
    help: "The shell",
    ..ARGUMENT
};
