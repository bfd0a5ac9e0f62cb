//! The command line: what a line requests, what help shows, and how lines are refused.

use cli::{Command, CommandFault, read_command};
use std::alloc::{AllocError, Global};
use std::test::Fail;

// Returns the words of a line, split at its spaces.
fn words_of(alloc: Global, line: &str) -> Result<Vec<String>, AllocError> {
    let mut words = Vec::new(alloc);
    for word in line.split_whitespace() {
        push_word(&mut words, String::from_str(alloc, word)?)?;
    }
    Ok(words)
}

// Appends a word.
fn push_word(words: &mut Vec<String>, word: String) -> Result<(), AllocError> {
    match words.push(word) {
        Ok(()) => Ok(()),
        Err(_full) => Err(AllocError),
    }
}

// Returns what the words of a line request.
fn command_of(alloc: Global, line: &str) -> Result<Command, CommandFault> {
    let words = words_of(alloc, line)?;
    read_command(alloc, words.as_slice())
}

// Returns the text that refuses a line; empty if it is a command. It is an error if memory runs out.
fn refusal_of(alloc: Global, line: &str) -> Result<String, AllocError> {
    match command_of(alloc, line) {
        Ok(_command) => Ok(String::new(alloc)),
        Err(CommandFault::NoMemory) => Err(AllocError),
        Err(fault) => fault.to_string(alloc),
    }
}

// Returns the help that a line requests; empty if it requests something else.
fn help_of(alloc: Global, line: &str) -> Result<String, CommandFault> {
    match command_of(alloc, line)? {
        Command::Help { text } => Ok(text),
        _other => Ok(String::new(alloc)),
    }
}

// Returns the word of a command.
fn word_of(command: &Command) -> &'static str {
    match command {
        Command::Feed => "feed",
        Command::Run(_) => "run",
        Command::Explain(_) => "explain",
        Command::Chart(_) => "chart",
        Command::Faults(_) => "faults",
        Command::Races(_) => "races",
        Command::Page(_) => "page",
        Command::Sweep(_) => "sweep",
        Command::Fmt { .. } => "fmt",
        Command::Lint { .. } => "lint",
        Command::Test { .. } => "test",
        Command::Trio { .. } => "trio",
        Command::Completions { .. } => "completions",
        Command::Man => "man",
        Command::Check { .. } => "check",
        Command::Upgrade { .. } => "upgrade",
        Command::Scale { .. } => "scale",
        Command::Help { .. } => "help",
    }
}

// Returns the job that a command names, or the text that it writes.
fn text_of(command: &Command) -> &str {
    match command {
        Command::Feed => "",
        Command::Run(args) => args.job.as_str(),
        Command::Explain(args) => args.job.as_str(),
        Command::Chart(args) => args.job.as_str(),
        Command::Faults(args) => args.job.as_str(),
        Command::Races(args) => args.job.as_str(),
        Command::Page(args) => args.job.as_str(),
        Command::Sweep(args) => args.job.as_str(),
        Command::Fmt { job, .. } => job.as_str(),
        Command::Lint { job, .. } => job.as_str(),
        Command::Test { paths, .. } => first_of(paths.as_slice()),
        Command::Trio { job } => job.as_str(),
        Command::Completions { .. } => "",
        Command::Man => "",
        Command::Check { job, .. } => job.as_str(),
        Command::Upgrade { job, .. } => job.as_str(),
        Command::Scale { job, .. } => job.as_str(),
        Command::Help { text } => text.as_str(),
    }
}

// Returns the first of some words.
fn first_of(words: &[String]) -> &str {
    match words.first() {
        Some(word) => word.as_str(),
        None => "",
    }
}

// A line, the word of its command, and the job that it names or the text that it writes.
const NAMED: &[(&str, &str, &str)] = &[
    ("", "feed", ""),
    ("check j", "check", "j"),
    ("check -", "check", "-"),
    ("check j --canonical", "check", "j"),
    ("upgrade j --canonical --to 2", "upgrade", "j"),
    ("scale 10 j", "scale", "j"),
    ("scale 1000000000 -", "scale", "-"),
    ("run j", "run", "j"),
    ("upgrade j", "upgrade", "j"),
    ("lint j", "lint", "j"),
    ("lint j --json", "lint", "j"),
    ("test a.feed b", "test", "a.feed"),
    ("test b --accept --workers 3 --limit 9", "test", "b"),
    ("faults j i --json", "faults", "j"),
    ("races j --json --deny", "races", "j"),
    ("sweep j --of s --values 1..2 --json", "sweep", "j"),
    ("trio -", "trio", "-"),
    ("completions zsh", "completions", ""),
    ("man", "man", ""),
    ("run j i --json", "run", "j"),
    ("explain j --json --task t", "explain", "j"),
    ("fmt j", "fmt", "j"),
    ("fmt -", "fmt", "-"),
    ("fmt --check -", "fmt", "-"),
    ("fmt j --write", "fmt", "j"),
    ("run j i", "run", "j"),
    ("explain j", "explain", "j"),
    ("explain j i --task t.1 --limit 7", "explain", "j"),
    ("chart j", "chart", "j"),
    ("chart j i --width 20 --svg --limit 7", "chart", "j"),
    ("chart j --width 1000", "chart", "j"),
    ("faults j", "faults", "j"),
    (
        "faults j i --name Late --deny stuck,cut --workers 3",
        "faults",
        "j",
    ),
    ("races j", "races", "j"),
    ("page j", "page", "j"),
    ("page j i --limit 7 --workers 3", "page", "j"),
    ("races j i --deny --limit 7 --workers 3", "races", "j"),
    ("sweep j --of s --values 1..9", "sweep", "j"),
    (
        "sweep j i --at 2:9 --values 0..9:3 --workers 64",
        "sweep",
        "j",
    ),
    ("--version", "help", "nursery 0.1.0\n"),
];

#[test]
fn words_are_read_as_a_command_and_its_job(rt: HostRuntime) -> Result<(), Fail> {
    for i in 0..NAMED.len() {
        let (line, word, text) = NAMED[i];
        let command = command_of(rt.alloc(), line)?;
        if word_of(&command) != word || text_of(&command) != text {
            Err(line)?;
        }
    }
    Ok(())
}

// Returns whether the input `i` is named.
fn is_input(input: &Option<String>) -> bool {
    match input {
        Some(name) => name.as_str() == "i",
        None => false,
    }
}

// Returns whether a command runs the job `j` over the input `i` with these settings.
fn is_run(command: &Command, wanted: (usize, u64)) -> bool {
    match command {
        Command::Run(args) => {
            let found = (args.settings.workers(), args.settings.limit());
            args.job.as_str() == "j" && is_input(&args.input) && found == wanted
        }
        _other => false,
    }
}

// A line, and the settings of its run.
const RUNS: &[(&str, (usize, u64))] = &[
    ("run j i", (1, 1_000_000)),
    ("run j i --limit 7 --workers 64", (64, 7)),
    ("run --limit=4294967295 j i", (1, 4_294_967_295)),
    ("run j i --limit 0", (1, 0)),
];

#[test]
fn runs_have_their_settings(rt: HostRuntime) -> Result<(), Fail> {
    for i in 0..RUNS.len() {
        let (line, settings) = RUNS[i];
        let command = command_of(rt.alloc(), line)?;
        if !is_run(&command, settings) {
            Err(line)?;
        }
    }
    Ok(())
}

// Returns whether a command varies a number of the job `j` by these values.
fn is_sweep(command: &Command, wanted: &[u64]) -> bool {
    match command {
        Command::Sweep(args) => args.job.as_str() == "j" && args.values.as_slice() == wanted,
        _other => false,
    }
}

const SWEEPS: &[(&str, &[u64])] = &[
    ("sweep j --of s --values 3..3", &[3]),
    ("sweep j --at 2:9 --values 0..3", &[0, 1, 2, 3]),
    ("sweep j --of s --values 4..13:4", &[4, 8, 12]),
    (
        "sweep j --of s --values 4294967294..4294967295",
        &[4_294_967_294, 4_294_967_295],
    ),
    ("sweep j --of s --values 1..2:4294967295", &[1]),
];

#[test]
fn sweeps_have_their_values(rt: HostRuntime) -> Result<(), Fail> {
    for i in 0..SWEEPS.len() {
        let (line, wanted) = SWEEPS[i];
        let command = command_of(rt.alloc(), line)?;
        if !is_sweep(&command, wanted) {
            Err(line)?;
        }
    }
    Ok(())
}

// A line, and a part of the text that is written.
type Row = (&'static str, &'static str);

const REFUSED: &[Row] = &[
    ("run j i --workers 0", "0 is not in 1..=64"),
    ("run j i --workers 65", "65 is not in 1..=64"),
    ("run j i --order turn", "'--order'"),
    ("run j i --limit 4294967296", "'--limit <T>'"),
    (
        "run j i --limit 1 --limit 2",
        "cannot be used multiple times",
    ),
    ("scale j", "invalid value 'j' for '<N>'"),
    ("scale 3", "<JOB>"),
    ("scale 0 j", "0 is not in 1..=1000000000"),
    ("scale 1000000001 j", "1000000001 is not in 1..=1000000000"),
    ("run", "<JOB>"),
    ("run j i k", "'k'"),
    ("explain", "<JOB>"),
    ("explain - -", "JOB and INPUT cannot both be `-`"),
    ("explain j --workers 0", "0 is not in 1..=64"),
    ("fmt", "<JOB>"),
    ("lint", "<JOB>"),
    ("completions", "<SHELL>"),
    ("completions tcsh", "bash, zsh, fish"),
    ("man j", "'j'"),
    ("fmt j --write --check", "cannot be used with"),
    ("fmt - --write", "`--write` needs a file"),
    ("chart", "<JOB>"),
    ("chart j --width 19", "19 is not in 20..=1000"),
    ("chart j --width 1001", "1001 is not in 20..=1000"),
    ("faults j --name try", "no step can raise `try`"),
    ("faults j --deny all", "`all` cannot be denied"),
    ("sweep j --of s", "--values <A..B[:STEP]>"),
    ("sweep j --values 1..2", "--of <NAME>"),
    ("sweep j --at 2 --values 1..2", "`2` is no place"),
    ("sweep j --of 2 --values 1..2", "`2` is no name"),
    ("sweep j --of s --values 2..1", "`2..1` gives no values"),
    (
        "sweep j --of s --values 1..100001",
        "`1..100001` has more than 100000 values",
    ),
    ("check", "Usage: nursery check <JOB>"),
    ("check j i", "'i'"),
    ("run - -", "one standard input"),
    ("go", "unrecognized subcommand 'go'"),
    ("--workers 3", "'--workers'"),
];

const HELP: &[Row] = &[
    ("--help", " Runs a job over an input and writes the report"),
    ("--help", " Writes the formatted text of a job, or says"),
    (
        "--help",
        " Writes the formatted text of the same job in a newer format",
    ),
    ("-h", "$ nursery run first.job log.txt\n    job main 0\n"),
    ("help", "  line 0+5 error\n"),
    ("--help", " Shows the outcome of a job for each value"),
    ("sweep --help", "3:21 --values 7..8"),
    ("run --help", "Usage: nursery run [OPTIONS] <JOB> [INPUT]"),
    ("run --help", "--workers <N>"),
    ("run --help", "--limit <T>"),
    ("run --help", "--limit <T>"),
    ("run --help", "  line 6+10 ERROR disk\n"),
    ("help run", "--workers <N>"),
    ("help lint", "  late.job:3:20: nothing in this `try`"),
    ("fmt --help", "hedge.job:2:12: not formatted from here on\n"),
    ("trio --help", "$ nursery trio hedge.job > hedge.py\n"),
    ("check --help", "wait.job:2:18: expected a number\n"),
    ("upgrade --help", "job main { find \"er\"; }"),
    ("scale --help", "scope attempt after 2000 { sleep 5000; }"),
];

// Fails if a text does not have that part, and prints the line that it answers and itself.
fn has_part(line: &str, text: &str, part: &str) -> Result<(), Fail> {
    if text.contains(part) {
        return Ok(());
    }
    Err((line, text))?
}

#[test]
fn a_refusal_says_what_is_wrong(rt: HostRuntime) -> Result<(), Fail> {
    for i in 0..REFUSED.len() {
        let (line, expected) = REFUSED[i];
        let text = refusal_of(rt.alloc(), line)?;
        has_part(line, text.as_str(), expected)?;
        if !text.as_str().ends_with("\n") {
            Err(line)?;
        }
    }
    Ok(())
}

#[test]
fn help_shows_a_whole_example(rt: HostRuntime) -> Result<(), Fail> {
    for i in 0..HELP.len() {
        let (line, expected) = HELP[i];
        let text = help_of(rt.alloc(), line)?;
        has_part(line, text.as_str(), expected)?;
    }
    Ok(())
}
