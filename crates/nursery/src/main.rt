//! The program `nursery`: `run` runs a job file over an input file, `explain` writes the story of such a run, `chart` draws it,
//! `faults` writes the outcome of the job if any one of its waiting steps fails or hangs, `races` the places where a hair changes
//! its outcome, `sweep` the outcome for each value of one of its numbers, `fmt` formats a job text, `check` writes a job's
//! canonical text, `upgrade` that of the same job in a newer format. Without arguments it serves standard input: a job text, a
//! line that is exactly `%input`, and the input. Its output goes to standard output, and what went wrong to standard error. The
//! work is in `job_answers`, `commands`.
#![tactic(auto)]

mod answers;
mod charts;
mod checks;
mod documents;
mod exports;
mod faults;
mod formats;
mod lints;
mod pages;
mod progress;
mod races;
mod scales;
mod sending;
mod sources;
mod stop;
mod sweep;
mod texts;
mod upgrades;
mod warnings;

use crate::answers::{explain_job, run_feed, run_job, show_help};
use crate::charts::chart_job;
use crate::checks::check_job;
use crate::exports::trio_job;
use crate::faults::faults_job;
use crate::formats::format_job_file;
use crate::lints::lint_job;
use crate::pages::page_job;
use crate::races::races_job;
use crate::scales::scale_job;
use crate::stop::Stop;
use crate::sweep::sweep_job;
use crate::texts::{show_completions, show_man_page};
use crate::upgrades::upgrade_job;
use cli::{Command, CommandFault, read_command};
use feed_tests::test_paths;
use std::env;
use std::io::{self, IsTerminal};
use std::process::ExitCode;
use std::rt::{Env, Files};
use std::thread::Threads;
use std::time::Clock;

// Returns the words after the program's name.
fn words<R: Env + AllocGlobal>(rt: &R) -> Result<Vec<String>, Stop> {
    let mut words = match env::args(rt) {
        Ok(words) => words,
        Err(fault) if fault.kind() == io::ErrorKind::InvalidData => return Err(Stop::NoText),
        Err(_) => return Err(Stop::NoMemory),
    };
    let _name = words.next();
    match words.collect(rt.alloc()) {
        Ok(words) => Ok(words),
        Err(_) => Err(Stop::NoMemory),
    }
}

// Executes the command line, and returns the status. Commands that may take long show their progress if standard error is a
// terminal.
fn obey<
    R: Files + Env + Input + Print + Eprint + Clock + Threads + Sync + AllocGlobal + Clone + Drop,
>(rt: &R, at_terminal: bool) -> Result<u8, Stop>
where
    R::Reader: IsTerminal,
{
    let words = words(rt)?;
    match read_command(rt.alloc(), words.as_slice()) {
        Ok(Command::Feed) => run_feed(rt),
        Ok(Command::Run(args)) => run_job(rt, &args),
        Ok(Command::Explain(args)) => explain_job(rt, &args),
        Ok(Command::Chart(args)) => chart_job(rt, &args),
        Ok(Command::Page(args)) => page_job(rt, &args, at_terminal),
        Ok(Command::Faults(args)) => faults_job(rt, &args, at_terminal),
        Ok(Command::Races(args)) => races_job(rt, &args, at_terminal),
        Ok(Command::Sweep(args)) => sweep_job(rt, &args, at_terminal),
        Ok(Command::Fmt { job, mode }) => format_job_file(rt, job.as_str(), mode),
        Ok(Command::Lint { job, json }) => lint_job(rt, job.as_str(), json),
        Ok(
            Command::Test {
                paths,
                accept,
                settings,
            },
        ) => Ok(test_paths(rt, paths.as_slice(), accept, settings)?),
        Ok(Command::Trio { job }) => trio_job(rt, job.as_str()),
        Ok(Command::Check { job, canonical }) => check_job(rt, job.as_str(), canonical),
        Ok(
            Command::Upgrade {
                job,
                format,
                canonical,
            },
        ) => upgrade_job(rt, job.as_str(), format, canonical),
        Ok(Command::Scale { factor, job }) => scale_job(rt, job.as_str(), factor),
        Ok(Command::Completions { shell }) => show_completions(rt, shell),
        Ok(Command::Man) => show_man_page(rt),
        Ok(Command::Help { text }) => show_help(rt, text.as_str()),
        Err(CommandFault::Refused { text }) => Err(Stop::Words { text }),
        Err(CommandFault::NoMemory) => Err(Stop::NoMemory),
    }
}

fn main(rt: HostRuntime) -> ExitCode {
    match obey(&rt, rt.stderr().is_terminal()) {
        Ok(status) => ExitCode::from(status),
        Err(stop) => {
            let _ = rt.eprint(&stop);
            ExitCode::from(stop.status())
        }
    }
}
