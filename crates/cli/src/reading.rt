ghost use Rattle.std.specs.Prelude.{◌≡◌, [], Ok, IfOk, IsTrue, codes};
ghost use Rattle.std.specs.List.{list_all};
ghost use Rattle.std.specs.Option.{option_map};
ghost use Rattle.std.specs.Str.{bytes_eq};
ghost use Rattle.std.specs.String.{string_bytes};
ghost use Rattle.cli.specs.declared.command.Command.TheVariants.{Feed};
ghost use Rattle.cli.specs.Named.{format_named, shell_named};
ghost use Rattle.cli.specs.Reads.{Reads};
ghost use Rattle.cli.specs.Words.{IsFit, IsAsked, IsLabel, IsWidth, is_label, spelled_label, may_be_raised};

use crate::arguments::{
    ChartArgs, ExplainArgs, FaultsArgs, PageArgs, RacesArgs, RunArgs, SweepArgs,
};
use crate::command::{Command, CommandFault, FormatMode, Shell};
use crate::common::{OUT_OF_RANGE, owned_copy, refusal, settings_of};
use crate::denying::denied_kinds;
use crate::naming::raised_names;
use crate::parser::{DEFAULT_FAULT, LEAST_WIDTH, MAX_FACTOR, MAX_LABEL, MAX_WIDTH, command_line};
use crate::showing::{have_control, shown_words};
use crate::sweeping::{target_of, values_of};
use clap::ArgMatches;
use clap::error::ErrorKind;
use job_runner::Settings;
use job_tree::Format;
use outcomes::Options;
use std::alloc::{AllocError, Global};

// The error if standard input is to be written.
const NOT_WRITTEN: &str = "error: `--write` needs a file: JOB is standard input\n";

// The error for a label of more than `MAX_LABEL` bytes.
const LONG_LABEL: &str =
    "error: no task has the label of `--task`: a label has at most 384 bytes\n";

/// Reads the words after the program's name. No words are a feed on standard input. The error has a text for the user if the
/// words do not ask for anything that the program does, or is that memory runs out. The text shows a control character of a
/// word escaped, as in a Rust string.
pub fn read_command(alloc: Global, words: &[String]) -> Result<Command, CommandFault>
    ensures feed { words.now ≡ [] → result ≡ Ok Feed }
    ensures only { result ≡ Ok Feed → words.now ≡ [] }
    ensures fit { IfOk result IsFit }
{
    match asked_command(alloc, words) {
        Err(CommandFault::Refused { .. }) if have_control(words) => Err(shown_refusal(
            alloc, words,
        )),
        answer => answer,
    }
}

// Returns the refusal of words that are refused, with their control characters escaped.
fn shown_refusal(alloc: Global, words: &[String]) -> CommandFault {
    let Ok(shown) = shown_words(alloc, words) else {
        return CommandFault::NoMemory;
    };
    match asked_command(alloc, shown.as_slice()) {
        Ok(_) => refusal(alloc, "error: a word has a control character\n"),
        Err(fault) => fault,
    }
}

// Returns the command that the words ask for. The text of a refusal shows them as they are.
fn asked_command(alloc: Global, words: &[String]) -> Result<Command, CommandFault>
    ensures feed { words.now ≡ [] → result ≡ Ok Feed }
    ensures only { result ≡ Ok Feed → words.now ≡ [] }
    ensures fit { IfOk result IsFit }
{
    if words.is_empty() {
        return Ok(Command::Feed);
    }
    if let Some(word) = words.first() {
        if is_path(word.as_str()) {
            return Err(path_refusal(alloc, word.as_str()));
        }
    }
    command_of(alloc, words)
}

// Returns whether a word is the name of a file, and not a command or an option.
fn is_path(word: &str) -> bool {
    !word.starts_with('-') && (word.contains('.') || word.contains('/'))
}

// Returns the refusal of a file name in place of a command. It says which command runs the file.
fn path_refusal(alloc: Global, path: &str) -> CommandFault {
    let text = format!(in alloc;
        "error: `{path}` is no command: to run a job file, write `nursery run {path}`\n"
    );
    match text {
        Ok(text) => CommandFault::Refused { text },
        Err(_) => CommandFault::NoMemory,
    }
}

/// Returns the text that `--help` prints after the name of a command or, if the name is empty, that of the program. The text is
/// empty if no command has the name. The only error is that memory runs out.
pub fn help_text(alloc: Global, name: &str) -> Result<String, AllocError> {
    let words = help_words(alloc, name)?;
    match read_command(alloc, words.as_slice()) {
        Ok(Command::Help { text }) => Ok(text),
        Err(CommandFault::NoMemory) => Err(AllocError),
        _other => Ok(String::new(alloc)),
    }
}

// Returns the words that ask for this help.
fn help_words(alloc: Global, name: &str) -> Result<Vec<String>, AllocError> {
    let mut words = Vec::new(alloc);
    if !name.is_empty() {
        push_word(alloc, &mut words, name)?;
    }
    push_word(alloc, &mut words, "--help")?;
    Ok(words)
}

// Appends a word.
fn push_word(alloc: Global, words: &mut Vec<String>, word: &str) -> Result<(), AllocError> {
    match words.push(String::from_str(alloc, word)?) {
        Ok(()) => Ok(()),
        Err(_full) => Err(AllocError),
    }
}

// Returns the command of some words.
fn command_of(alloc: Global, words: &[String]) -> Result<Command, CommandFault>
    ensures { IfOk result IsAsked }
{
    match command_line(alloc)?.try_get_matches_from(words) {
        Ok(matches) => matched_command(alloc, &matches),
        Err(error) => help_or_refusal(alloc, &error),
    }
}

// Returns the text that was asked for, or the refusal that says what is wrong.
fn help_or_refusal(alloc: Global, error: &clap::Error) -> Result<Command, CommandFault>
    ensures { IfOk result IsAsked }
{
    match error.kind() {
        ErrorKind::OutOfMemory => Err(CommandFault::NoMemory),
        ErrorKind::DisplayHelp | ErrorKind::DisplayVersion => Ok(Command::Help {
            text: error.to_string(alloc)?,
        }),
        _ => Err(CommandFault::Refused {
            text: error.to_string(alloc)?,
        }),
    }
}

// Returns the command of words that the parser accepted.
fn matched_command(alloc: Global, matches: &ArgMatches<'_>) -> Result<Command, CommandFault>
    ensures { IfOk result IsAsked }
{
    let Some((name, inner)) = matches.subcommand() else {
        return Err(refusal(alloc, "error: name a command\n"));
    };
    match name {
        "completions" => Ok(Command::Completions {
            shell: shell_named(inner.get_str("shell")),
        }),
        "man" => Ok(Command::Man),
        "test" => test_command(alloc, inner),
        _ => job_command(alloc, name, inner),
    }
}

// Returns the command with this name for a job file.
fn job_command(alloc: Global, name: &str, inner: &ArgMatches<'_>) -> Result<Command, CommandFault>
    ensures { IfOk result IsAsked }
{
    let Some(job) = inner.get_str("job") else {
        return Err(refusal(alloc, "error: name the job file\n"));
    };
    match name {
        "run" => run_command(alloc, job, inner),
        "explain" => explain_command(alloc, job, inner),
        "chart" => chart_command(alloc, job, inner),
        "page" => page_command(alloc, job, inner),
        "faults" => faults_command(alloc, job, inner),
        "races" => races_command(alloc, job, inner),
        "sweep" => sweep_command(alloc, job, inner),
        "fmt" => fmt_command(alloc, job, inner),
        "scale" => scale_command(alloc, job, inner),
        "lint" => Ok(Command::Lint {
            job: String::from_str(alloc, job)?,
            json: inner.get_flag("json"),
        }),
        "trio" => Ok(Command::Trio {
            job: String::from_str(alloc, job)?,
        }),
        "upgrade" => Ok(Command::Upgrade {
            job: String::from_str(alloc, job)?,
            format: format_named(inner.get_str("to")),
            canonical: inner.get_flag("canonical"),
        }),
        _ => Ok(Command::Check {
            job: String::from_str(alloc, job)?,
            canonical: inner.get_flag("canonical"),
        }),
    }
}

// What the commands that run a job have in common.
#[derive(Drop)]
struct JobRun {
    job: String,
    input: Option<String>,
    settings: Settings,
}

// Returns the job, the input and the settings.
fn job_run(alloc: Global, job: &str, matches: &ArgMatches<'_>) -> Result<JobRun, CommandFault> {
    let input = matches.get_str("input");
    let settings = settings_of(alloc, job, input, matches)?;
    Ok(JobRun {
        job: String::from_str(alloc, job)?,
        input: owned_copy(alloc, input)?,
        settings,
    })
}

// Returns the command `run` with its settings.
fn run_command(alloc: Global, job: &str, matches: &ArgMatches<'_>) -> Result<Command, CommandFault>
    ensures { IfOk result IsAsked }
{
    let run = job_run(alloc, job, matches)?;
    Ok(Command::Run(RunArgs {
        job: run.job,
        input: run.input,
        settings: run.settings,
        json: matches.get_flag("json"),
    }))
}

// Returns the command `explain` with its settings.
fn explain_command(
    alloc: Global,
    job: &str,
    matches: &ArgMatches<'_>,
) -> Result<Command, CommandFault>
    ensures { IfOk result IsAsked }
{
    let run = job_run(alloc, job, matches)?;
    Ok(Command::Explain(ExplainArgs {
        job: run.job,
        input: run.input,
        task: task_of(alloc, matches.get_str("task"))?,
        settings: run.settings,
        json: matches.get_flag("json"),
    }))
}

// Returns an owned copy of a label, if there is one. A label that is too long for any task is refused.
fn task_of(alloc: Global, label: Option<&str>) -> Result<Option<String>, CommandFault>
    ensures value { Reads (λ task. option_map string_bytes task) (spelled_label (option_map (λ given. given.now) label.entry)) result }
    ensures short { IfOk result (λ task. IsLabel (option_map string_bytes task)) }
{
    if !is_label(label) {
        return Err(refusal(alloc, LONG_LABEL));
    }
    Ok(owned_copy(alloc, label)?)
}

// Returns whether a label is short enough. `None` is allowed.
fn is_label(label: Option<&str>) -> bool
    ensures value { result ≡ is_label (option_map (λ given. given.now) label.entry) }
    ensures short { IsTrue result → IsLabel (option_map (λ given. given.now) label.entry) }
{
    match label {
        Some(label) => label.len() <= MAX_LABEL,
        None => true,
    }
}

// Returns the command `chart` with its settings.
fn chart_command(
    alloc: Global,
    job: &str,
    matches: &ArgMatches<'_>,
) -> Result<Command, CommandFault>
    ensures { IfOk result IsAsked }
{
    let run = job_run(alloc, job, matches)?;
    let width = matches.get_one::<usize>("width");
    if !is_width(width) {
        return Err(refusal(alloc, OUT_OF_RANGE));
    }
    Ok(Command::Chart(ChartArgs {
        job: run.job,
        input: run.input,
        width,
        svg: matches.get_flag("svg"),
        settings: run.settings,
    }))
}

// Returns the command `page` with its settings.
fn page_command(alloc: Global, job: &str, matches: &ArgMatches<'_>) -> Result<Command, CommandFault>
    ensures { IfOk result IsAsked }
{
    let run = job_run(alloc, job, matches)?;
    Ok(Command::Page(PageArgs {
        job: run.job,
        input: run.input,
        settings: run.settings,
    }))
}

// Returns whether a chart may have this width. `None` is allowed.
fn is_width(width: Option<usize>) -> bool
    ensures { IsTrue result → IsWidth width }
{
    match width {
        Some(width) => LEAST_WIDTH <= width && width <= MAX_WIDTH,
        None => true,
    }
}

// Returns the command `faults` with its settings.
fn faults_command(
    alloc: Global,
    job: &str,
    matches: &ArgMatches<'_>,
) -> Result<Command, CommandFault>
    ensures { IfOk result IsAsked }
{
    let run = job_run(alloc, job, matches)?;
    let options = fault_options(alloc, matches)?;
    Ok(Command::Faults(FaultsArgs {
        job: run.job,
        input: run.input,
        options,
        settings: run.settings,
        json: matches.get_flag("json"),
    }))
}

// Returns which faults are tried, which lines are printed, and which outcomes are denied.
fn fault_options(alloc: Global, matches: &ArgMatches<'_>) -> Result<Options, CommandFault>
    ensures { IfOk result (λ options. IsTrue (list_all may_be_raised options.names.items)) }
{
    let deny = denied_kinds(alloc, matches.get_str("deny").unwrap_or(""))?;
    let names = raised_names(alloc, matches.get_str("name").unwrap_or(DEFAULT_FAULT))?;
    Ok(Options {
        names,
        each: matches.get_flag("each"),
        brief: matches.get_flag("brief"),
        deny,
    })
}

// Returns the command `races` with its settings.
fn races_command(
    alloc: Global,
    job: &str,
    matches: &ArgMatches<'_>,
) -> Result<Command, CommandFault>
    ensures { IfOk result IsAsked }
{
    let run = job_run(alloc, job, matches)?;
    Ok(Command::Races(RacesArgs {
        job: run.job,
        input: run.input,
        deny: matches.get_flag("deny"),
        settings: run.settings,
        json: matches.get_flag("json"),
    }))
}

// Returns the command `sweep` with its settings.
fn sweep_command(
    alloc: Global,
    job: &str,
    matches: &ArgMatches<'_>,
) -> Result<Command, CommandFault>
    ensures { IfOk result IsAsked }
{
    let run = job_run(alloc, job, matches)?;
    let target = target_of(alloc, matches.get_str("of"), matches.get_str("at"))?;
    let values = values_of(alloc, matches.get_str("values").unwrap_or(""))?;
    Ok(Command::Sweep(SweepArgs {
        job: run.job,
        input: run.input,
        target,
        values,
        settings: run.settings,
        json: matches.get_flag("json"),
    }))
}

// Returns the command `test` with its settings.
fn test_command(alloc: Global, matches: &ArgMatches<'_>) -> Result<Command, CommandFault>
    ensures { IfOk result IsAsked }
{
    let settings = settings_of(alloc, "", None, matches)?;
    let mut paths = Vec::new(alloc);
    'paths: for path in matches.get_strs("paths").unwrap_or(&[]) {
        push_word(alloc, &mut paths, path)?;
    }
    if paths.is_empty() {
        return Err(refusal(alloc, "error: name a feed or a folder\n"));
    }
    Ok(Command::Test {
        paths,
        accept: matches.get_flag("accept"),
        settings,
    })
}

// Returns the command `fmt` with its mode.
fn fmt_command(alloc: Global, job: &str, matches: &ArgMatches<'_>) -> Result<Command, CommandFault>
    ensures { IfOk result IsAsked }
{
    let mode = format_mode(matches);
    if is_standard(job) && mode == FormatMode::Write {
        return Err(refusal(alloc, NOT_WRITTEN));
    }
    Ok(Command::Fmt {
        job: String::from_str(alloc, job)?,
        mode,
    })
}

// Returns the command `scale` with its factor.
fn scale_command(
    alloc: Global,
    job: &str,
    matches: &ArgMatches<'_>,
) -> Result<Command, CommandFault>
    ensures { IfOk result IsAsked }
{
    let factor = matches.get_one::<usize>("factor").unwrap_or(1) as u64;
    if factor < 1 || MAX_FACTOR < factor {
        return Err(refusal(alloc, OUT_OF_RANGE));
    }
    Ok(Command::Scale {
        factor,
        job: String::from_str(alloc, job)?,
    })
}

// Returns the shell with a name that the parser accepted, and Bash if there is no name.
fn shell_named(name: Option<&str>) -> Shell
    ensures { result ≡ shell_named (option_map (λ word. word.now) name.entry) }
{
    match name {
        Some("zsh") => Shell::Zsh,
        Some("fish") => Shell::Fish,
        _ => Shell::Bash,
    }
}

// Returns the format with a number that the parser accepted, and format 3 if there is none.
fn format_named(number: Option<&str>) -> Format
    ensures { result ≡ format_named (option_map (λ word. word.now) number.entry) }
{
    match number {
        Some("2") => Format::Two,
        _ => Format::Three,
    }
}

// Returns what is done with a formatted text.
fn format_mode(matches: &ArgMatches<'_>) -> FormatMode {
    if matches.get_flag("write") {
        return FormatMode::Write;
    }
    if matches.get_flag("check") {
        return FormatMode::Check;
    }
    FormatMode::Print
}

// Returns whether a file is standard input.
fn is_standard(name: &str) -> bool
    ensures { result ≡ bytes_eq name.now (codes "-") }
{
    name == "-"
}
