ghost use Rattle.std.specs.Prelude.{◌≡◌, IfOk, codes};
ghost use Rattle.std.specs.Option.{option_map};
ghost use Rattle.std.specs.String.{string_bytes};
ghost use Rattle.clap.specs.Words.{first_value, found_of};
ghost use Rattle.cli.specs.Named.{are_both_standard, chosen, number_or, spelled_settings};
ghost use Rattle.cli.specs.Reads.{Reads};

use crate::command::CommandFault;
use crate::cutting::long_number;
use crate::parser::DEFAULT_LIMIT;
use clap::ArgMatches;
use job_runner::Settings;
use std::alloc::{AllocError, Global};

// The error if both files are standard input.
const BOTH_STANDARD: &str =
    "error: JOB and INPUT cannot both be `-`: there is one standard input\n";

// The error for a setting that the parser accepted and that is out of its range.
pub(crate) const OUT_OF_RANGE: &str = "error: a setting is out of its range\n";

// Returns the number of workers and the limit. A job and an input that are both standard input are refused, and so are settings
// out of their ranges.
pub(crate) fn settings_of(
    alloc: Global,
    job: &str,
    input: Option<&str>,
    matches: &ArgMatches<'_>,
) -> Result<Settings, CommandFault>
    ensures { Reads (λ settings. settings) (spelled_settings job.now (option_map (λ word. word.now) input.entry)
        (first_value (found_of matches.now) (codes "workers")) (first_value (found_of matches.now) (codes "limit"))) result }
{
    if are_both_standard(job, input) {
        return Err(refusal(alloc, BOTH_STANDARD));
    }
    let workers = number_or(matches.get_str("workers"), 1);
    let limit = number_or(matches.get_str("limit"), DEFAULT_LIMIT as usize);
    match chosen(workers, limit as u64) {
        Some(settings) => Ok(settings),
        None => Err(refusal(alloc, OUT_OF_RANGE)),
    }
}

// Returns whether the job and the input are both standard input.
fn are_both_standard(job: &str, input: Option<&str>) -> bool
    ensures { result ≡ are_both_standard job.now (option_map (λ word. word.now) input.entry) }
{
    match input {
        Some(input) => job == "-" && input == "-",
        None => false,
    }
}

// Returns the number that a word spells, or another one if there is no word or it spells none.
fn number_or(word: Option<&str>, other: usize) -> usize
    ensures { result ≡ number_or other (option_map (λ given. given.now) word.entry) }
{
    match word {
        Some(word) => long_number(word).unwrap_or(other),
        None => other,
    }
}

// Returns the settings of these numbers, if both are in their ranges.
fn chosen(workers: usize, limit: u64) -> Option<Settings>
    ensures { result ≡ chosen workers limit }
{
    Settings::new(workers, limit)
}

// Returns an owned copy of a word, if there is one.
pub(crate) fn owned_copy(alloc: Global, word: Option<&str>) -> Result<Option<String>, AllocError>
    ensures { IfOk result (λ copy. option_map string_bytes copy ≡ option_map (λ given. given.now) word.entry) }
{
    match word {
        Some(word) => Ok(Some(String::from_str(alloc, word)?)),
        None => Ok(None),
    }
}

// Returns the refusal with this text.
pub(crate) fn refusal(alloc: Global, text: &str) -> CommandFault {
    match String::from_str(alloc, text) {
        Ok(text) => CommandFault::Refused { text },
        Err(_) => CommandFault::NoMemory,
    }
}
