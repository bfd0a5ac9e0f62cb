ghost use Rattle.std.specs.Prelude.{◌≡◌, ◌∷◌, ◌++◌, ◌≤◌, Option, List, ℕ, length, IfOk};
ghost use Rattle.std.specs.Option.{option_map};
ghost use Rattle.job_meaning.specs.declared.limits.TheConstants.{MAX_INPUT};
ghost use Rattle.feed_tests.specs.Comparing.{ComparesSweep, form_of};
ghost use Rattle.feed_tests.specs.declared.tally.Outcome.TheVariants.{Failed};
ghost use Rattle.commands.specs.Outputs.{IsSwept};

use crate::comparing::{Beside, KeptFile, compare, open_kept};
use crate::kept::shown_line;
use crate::showing::{push_indented_lines, show};
use crate::stop::TestStop;
use crate::tally::Outcome;
use crate::testing::Feed;
use cli::{Command, CommandFault, ReplaceFault, SweepArgs, Target, read_command, shown_name};
use commands::{Form, sweep_of};
use job_answers::Question;
use job_runner::Settings;
use std::alloc::{AllocError, Global};
use std::rt::Files;
use std::thread::Threads;

// A file that is kept of the sweep of a feed.
#[derive(Clone, Copy)]
struct KeptSweep<'k> {
    // Its name.
    name: &'k str,
    // The words of the sweep, which are its first line.
    words: &'k [u8],
    // Its bytes.
    bytes: &'k [u8],
}

// Compares the sweep of a feed with the file that is kept of it, whose first line has the words of the sweep, and returns what
// that came to, or `None` if there is no such file.
pub(crate) fn test_sweep<R: Files + Print + Eprint + Threads + Sync + AllocGlobal>(
    rt: &R,
    feed: &Feed<'_, '_>,
) -> Result<Option<Outcome>, TestStop>
    requires { length feed.now.question.input.now ≤ MAX_INPUT }
{
    let file = match open_kept(rt, feed, "sweep")? {
        Beside::Kept(file) => file,
        Beside::Untested => return Ok(Some(Outcome::Fault)),
        Beside::Missing => return Ok(None),
    };
    let KeptFile {
        name,
        target,
        bytes,
    } = file;
    let words = first_line(bytes.as_slice());
    let kept = KeptSweep {
        name: name.as_str(),
        words,
        bytes: bytes.as_slice(),
    };
    let outcome = match asked_sweep(rt.alloc(), words, feed.question.settings) {
        Ok(args) => test_asked(rt, feed, &args, &kept, target)?,
        Err(CommandFault::Refused { text }) => {
            tell_refused(rt, name.as_str(), words, text.as_str())?
        }
        Err(CommandFault::NoMemory) => return Err(TestStop::NoMemory),
    };
    Ok(Some(outcome))
}

// Returns the first line of a text, without its newline.
fn first_line(text: &[u8]) -> &[u8] {
    match text.split(|b| *b == b'\n').next() {
        Some(line) => line,
        None => text,
    }
}

// Compares the sweep that the words of a file ask for with the file, and returns what that came to. The target is the file as it
// was before it was read.
fn test_asked<R: Files + Print + Eprint + Threads + Sync + AllocGlobal>(
    rt: &R,
    feed: &Feed<'_, '_>,
    args: &SweepArgs,
    kept: &KeptSweep<'_>,
    target: Result<Target, ReplaceFault>,
) -> Result<Outcome, TestStop>
    requires { length feed.now.question.input.now ≤ MAX_INPUT }
    ensures { IfOk result (λ outcome. (bytes : Option (List ℕ))
        × IsSwept (form_of args.now.json) feed.now.question.text.now feed.now.question.input.now args.now.settings.limit args.now.target args.now.values.items bytes
        × ComparesSweep feed.now.accept kept.now.words.now kept.now.bytes.now bytes outcome) }
{
    let (alloc, form) = (rt.alloc(), form_of(args.json));
    let values = args.values.as_slice();
    let question = Question {
        text: feed.question.text,
        input: feed.question.input,
        settings: args.settings,
    };
    let swept = sweep_of(rt, alloc, &question, args.target, values, form)?;
    let outcome = test_swept(rt, feed.accept, kept, target, swept)?;
    Ok(outcome)
}

// Compares the bytes that a sweep writes with the file that is kept of it, and returns what that came to. The target is the file
// as it was before it was read.
fn test_swept<R: Files + Print + Eprint + AllocGlobal>(
    rt: &R,
    accept: bool,
    kept: &KeptSweep<'_>,
    target: Result<Target, ReplaceFault>,
    swept: Option<Vec<u8>>,
) -> Result<Outcome, TestStop>
    ensures { IfOk result (ComparesSweep accept kept.now.words.now kept.now.bytes.now (option_map (λ bytes. bytes.items) swept)) }
{
    match swept {
        Some(bytes) => {
            let now = below_words(rt.alloc(), kept.words, bytes.as_slice())?;
            let outcome = compare(rt, accept, kept.name, target, kept.bytes, now.as_slice())?;
            Ok(outcome)
        }
        None => {
            let outcome = tell_no_number(rt, kept.name, kept.words)?;
            Ok(outcome)
        }
    }
}

// Returns the form in which a sweep is written.
fn form_of(json: bool) -> Form
    ensures { result ≡ form_of json }
{
    if json { Form::Json } else { Form::Text }
}

// Returns the whole file of a sweep: its words, a newline, and the bytes that it writes.
fn below_words(alloc: Global, words: &[u8], bytes: &[u8]) -> Result<Vec<u8>, AllocError>
    ensures { IfOk result (λ file. file.items ≡ words.now ++ 10 ∷ bytes.now) }
{
    let mut file = Vec::new(alloc);
    file.extend_from_slice(words)?;
    file.push(b'\n')?;
    file.extend_from_slice(bytes)?;
    Ok(file)
}

// Prints that the job text does not have the number that the words of a sweep mean.
fn tell_no_number<R: Print + AllocGlobal>(
    rt: &R,
    name: &str,
    words: &[u8],
) -> Result<Outcome, TestStop>
    ensures { IfOk result (λ outcome. outcome ≡ Failed) }
{
    let alloc = rt.alloc();
    let (shown, words) = (shown_name(alloc, name)?, shown_line(alloc, words)?);
    let line = format!(in alloc;
        "{shown}:1: failed: `{words}`: the job text has no such number\n"
    )?;
    show(rt, line.as_bytes())?;
    Ok(Outcome::Failed)
}

// Prints that the first line of a file does not have the words of a sweep, and why.
fn tell_refused<R: Print + AllocGlobal>(
    rt: &R,
    name: &str,
    words: &[u8],
    reason: &str,
) -> Result<Outcome, TestStop>
    ensures { IfOk result (λ outcome. outcome ≡ Failed) }
{
    let alloc = rt.alloc();
    let (shown, words) = (shown_name(alloc, name)?, shown_line(alloc, words)?);
    let mut lines = format!(in alloc;
        "{shown}:1: failed: `{words}` is not what follows `nursery sweep JOB`\n"
    )?;
    push_indented_lines(alloc, &mut lines, reason.as_bytes())?;
    show(rt, lines.as_bytes())?;
    Ok(Outcome::Failed)
}

// Returns what the words of a sweep ask for. Its number of workers and its limit are those of these settings, unless the words
// have others. The error refuses the words, or is that memory runs out.
fn asked_sweep(alloc: Global, line: &[u8], settings: Settings) -> Result<SweepArgs, CommandFault> {
    let Ok(line) = str::from_utf8(line) else {
        return Err(refusal(alloc, "error: these bytes are not UTF-8\n"));
    };
    let words = sweep_words(alloc, line, settings)?;
    match read_command(alloc, words.as_slice()) {
        Ok(Command::Sweep(args)) => {
            if args.input.is_some() {
                return Err(refusal(alloc, "error: the feed has the input: give only options\n"));
            }
            Ok(args)
        }
        Ok(_) => Err(refusal(
            alloc,
            "error: these words ask for help, and not for a sweep\n",
        )),
        Err(fault) => Err(fault),
    }
}

// Returns the words of the command line that asks for a sweep.
fn sweep_words(alloc: Global, line: &str, settings: Settings) -> Result<Vec<String>, AllocError> {
    let mut words = Vec::new(alloc);
    push_word(alloc, &mut words, "sweep")?;
    push_word(alloc, &mut words, "-")?;
    if !has_option(line, "--limit") {
        let limit = settings.limit();
        push_word(
            alloc,
            &mut words,
            format!(in alloc; "--limit={limit}")?.as_str(),
        )?;
    }
    if !has_option(line, "--workers") {
        let workers = settings.workers();
        push_word(
            alloc,
            &mut words,
            format!(in alloc; "--workers={workers}")?.as_str(),
        )?;
    }
    'words: for word in line.split_whitespace() {
        push_word(alloc, &mut words, word)?;
    }
    Ok(words)
}

// Returns whether a word of a line begins with an option.
fn has_option(line: &str, option: &str) -> bool {
    'words: for word in line.split_whitespace() {
        if word.starts_with(option) {
            return true;
        }
    }
    false
}

// Appends a word.
fn push_word(alloc: Global, words: &mut Vec<String>, word: &str) -> Result<(), AllocError> {
    match words.push(String::from_str(alloc, word)?) {
        Ok(()) => Ok(()),
        Err(_full) => Err(AllocError),
    }
}

// Returns the refusal of words with this text.
fn refusal(alloc: Global, text: &str) -> CommandFault {
    match String::from_str(alloc, text) {
        Ok(text) => CommandFault::Refused { text },
        Err(_) => CommandFault::NoMemory,
    }
}
