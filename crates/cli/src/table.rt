use crate::options::{
    ACCEPT, ArgRow, BRIEF, CANONICAL, CHECK, DENIED_KINDS, DENY_RACES, EACH_PART, FACTOR,
    FAULT_NAME, FORMAT, INPUT, JOB, JSON, LIMIT, PATHS, SHELL, SVG, TARGET_NAME, TARGET_PLACE,
    TASK, VALUES, WIDTH, WORKERS, WRITE,
};

// Options of a command of which at most one may be given. If the group is required, one of them has to be given.
#[derive(Clone, Copy)]
pub(crate) struct GroupRow {
    pub(crate) name: &'static str,
    pub(crate) options: &'static [&'static str],
    pub(crate) required: bool,
}

// A command: its name, what it does, and its arguments and options in the order in which the help shows them.
#[derive(Clone, Copy)]
pub(crate) struct CommandRow {
    pub(crate) name: &'static str,
    pub(crate) about: &'static str,
    pub(crate) args: &'static [ArgRow],
    pub(crate) group: Option<GroupRow>,
}

// The commands stand in three tables, and each table is named by one function alone: the proof of a function that names a table
// has all of it, and takes a time that grows with the square of its rows. One after the other the tables have the commands in the
// order in which the help shows them.

// The commands that show one run of a job.
const RUNS: &[CommandRow] = &[
    CommandRow {
        name: "run",
        about: "Runs a job over an input and writes the report",
        args: &[JOB, INPUT, WORKERS, LIMIT, JSON],
        group: None,
    },
    CommandRow {
        name: "explain",
        about: "Runs a job over an input and reports what happened to each task, when and why",
        args: &[JOB, INPUT, TASK, WORKERS, LIMIT, JSON],
        group: None,
    },
    CommandRow {
        name: "chart",
        about: "Runs a job over an input and draws who ran when, and what was cancelled",
        args: &[JOB, INPUT, WIDTH, SVG, WORKERS, LIMIT],
        group: None,
    },
    CommandRow {
        name: "page",
        about: "Writes one HTML file about a job: its text, chart, story, faults and races",
        args: &[JOB, INPUT, WORKERS, LIMIT],
        group: None,
    },
];

// The commands that compare many runs of a job.
const TABLES: &[CommandRow] = &[
    CommandRow {
        name: "faults",
        about: "Shows the outcome of a job if any one of its waiting steps fails, hangs or is cancelled",
        args: &[
            JOB,
            INPUT,
            FAULT_NAME,
            EACH_PART,
            BRIEF,
            DENIED_KINDS,
            WORKERS,
            LIMIT,
            JSON,
        ],
        group: None,
    },
    CommandRow {
        name: "races",
        about: "Shows where the outcome of a job changes if one step takes a hair more or less time",
        args: &[JOB, INPUT, DENY_RACES, WORKERS, LIMIT, JSON],
        group: None,
    },
    CommandRow {
        name: "sweep",
        about: "Shows the outcome of a job for each value of one of its numbers",
        args: &[
            JOB,
            INPUT,
            TARGET_NAME,
            TARGET_PLACE,
            VALUES,
            WORKERS,
            LIMIT,
            JSON,
        ],
        group: Some(GroupRow {
            name: "target",
            options: &["of", "at"],
            required: true,
        }),
    },
];

// The other commands.
const TEXTS: &[CommandRow] = &[
    CommandRow {
        name: "fmt",
        about: "Formats a job: two spaces for each level, and one step on each line",
        args: &[JOB, WRITE, CHECK],
        group: Some(GroupRow {
            name: "mode",
            options: &["write", "check"],
            required: false,
        }),
    },
    CommandRow {
        name: "lint",
        about: "Reports what is probably a mistake in a job, with its place",
        args: &[JOB, JSON],
        group: None,
    },
    CommandRow {
        name: "test",
        about: "Runs feeds and compares their outputs with those that are kept beside them",
        args: &[PATHS, ACCEPT, WORKERS, LIMIT],
        group: None,
    },
    CommandRow {
        name: "trio",
        about: "Writes a job as a Python program on Trio",
        args: &[JOB],
        group: None,
    },
    CommandRow {
        name: "check",
        about: "Writes the formatted text of a job, or says where it is refused and why",
        args: &[JOB, CANONICAL],
        group: None,
    },
    CommandRow {
        name: "upgrade",
        about: "Writes the formatted text of the same job in a newer format, and says whether its report changes",
        args: &[JOB, FORMAT, CANONICAL],
        group: None,
    },
    CommandRow {
        name: "scale",
        about: "Writes a job with each number of ticks multiplied by N",
        args: &[FACTOR, JOB],
        group: None,
    },
    CommandRow {
        name: "completions",
        about: "Writes a script that completes the words of nursery in a shell",
        args: &[SHELL],
        group: None,
    },
    CommandRow {
        name: "man",
        about: "Writes the man page",
        args: &[],
        group: None,
    },
];

// Returns the commands that show one run of a job.
pub(crate) fn runs() -> &'static [CommandRow] {
    RUNS
}

// Returns the commands that compare many runs of a job.
pub(crate) fn tables() -> &'static [CommandRow] {
    TABLES
}

// Returns the other commands.
pub(crate) fn texts() -> &'static [CommandRow] {
    TEXTS
}
