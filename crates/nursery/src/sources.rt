ghost use Rattle.std.specs.Prelude.{◌≡◌, ◌≤◌, IfOk, vec_len};
ghost use Rattle.job_meaning.specs.declared.limits.TheConstants.{MAX_INPUT};
ghost use Rattle.nursery.specs.Reading.{HoldsInput};

use crate::stop::Stop;
use basics::split_feed;
use cli::{read_reason, reason_line, shown_name};
use job_answers::{MAX_INPUT, Question, ReadFault, Settings, WriteOut, read_whole, send};
use std::alloc::{AllocError, Global};
use std::fs;
use std::io::{self, Read};
use std::rt::Files;

/// The maximum number of bytes of a feed: a job text, the line between, and an input.
const MAX_FEED: usize = 16_842_759;

/// The maximum number of bytes that are read of a job file: one more than a feed may have, so that a longer one is refused.
const MAX_JOB_FILE: usize = 16_842_760;

// Returns the input of that name, or standard input if the name is `-`.
pub(crate) fn read_input<R: Files + Input + AllocGlobal>(
    rt: &R,
    name: &str,
) -> Result<Vec<u8>, Stop>
    ensures { IfOk result (λ bytes. vec_len bytes ≤ MAX_INPUT) }
{
    let read = if name == "-" {
        read_whole(rt.alloc(), &mut rt.reader(), MAX_INPUT)
    } else {
        match fs::open(rt, name) {
            Ok(mut file) => read_whole(rt.alloc(), &mut file, MAX_INPUT),
            Err(error) => {
                let reason = reason_line(rt.alloc(), name, error.kind());
                return Err(Stop::InputFile { reason });
            }
        }
    };
    match read {
        Ok(bytes) => Ok(bytes),
        Err(fault) => Err(input_stop(rt, name, fault)),
    }
}

// Returns the feed on standard input.
pub(crate) fn read_feed<R: Files + Input + AllocGlobal>(rt: &R) -> Result<Vec<u8>, Stop>
    ensures { IfOk result (λ bytes. vec_len bytes ≤ 16842759) }
{
    match read_whole(rt.alloc(), &mut rt.reader(), MAX_FEED) {
        Ok(bytes) => Ok(bytes),
        Err(fault) => Err(input_stop(rt, "-", fault)),
    }
}

// Returns why the input of that name could not be read.
fn input_stop<R: Files + AllocGlobal>(rt: &R, name: &str, fault: ReadFault) -> Stop {
    match fault {
        ReadFault::TooLong => Stop::TooLong,
        ReadFault::Device => Stop::InputFile {
            reason: read_reason(rt, name),
        },
        ReadFault::NoMemory => Stop::NoMemory,
    }
}

/// A job file that was read.
#[derive(Drop)]
pub(crate) struct JobFile {
    // The job text: what is before the line `%input`, or all bytes if there is no such line. A text that is
    // longer than a job text may be is refused when it is read as a job.
    pub text: Vec<u8>,
    // What is after the line `%input`, if there is such a line.
    pub held: Option<Vec<u8>>,
}

// Returns the job file of that name, or that on standard input if the name is `-`. An input that it holds has at most `MAX_INPUT`
// bytes; a longer one is refused. More bytes than a feed may have are cut off after the first of them.
pub(crate) fn read_job_file<R: Files + Input + AllocGlobal>(
    rt: &R,
    name: &str,
) -> Result<JobFile, Stop>
    ensures { IfOk result (λ file. HoldsInput file.held) }
{
    let read = if name == "-" {
        read_front(rt.alloc(), rt.reader())
    } else {
        match fs::open(rt, name) {
            Ok(file) => read_front(rt.alloc(), file),
            Err(error) => {
                let reason = reason_line(rt.alloc(), name, error.kind());
                return Err(Stop::JobFile { reason });
            }
        }
    };
    match read {
        Ok(bytes) => split_job_file(bytes),
        Err(ReadFault::NoMemory) => Err(Stop::NoMemory),
        Err(ReadFault::TooLong | ReadFault::Device) => Err(Stop::JobFile {
            reason: read_reason(rt, name),
        }),
    }
}

// Returns the first bytes of a reader, as many as a feed may have and one more.
fn read_front<R: Read + Drop>(alloc: Global, reader: R) -> Result<Vec<u8>, ReadFault> {
    read_whole(alloc, &mut reader.take(MAX_JOB_FILE as u64), MAX_JOB_FILE)
}

// Takes the bytes of a job file apart at the line `%input`, if there is one.
fn split_job_file(bytes: Vec<u8>) -> Result<JobFile, Stop>
    ensures { IfOk result (λ file. HoldsInput file.held) }
{
    let mut text = bytes;
    let (front, rest) = split_feed(text.as_slice());
    let (end, length) = (front.len(), rest.len());
    if end == text.len() {
        return Ok(JobFile { text, held: None });
    }
    let begin = text.len().saturating_sub(length);
    let Ok(held) = text.split_off(begin) else {
        return Err(Stop::NoMemory);
    };
    if held.len() > MAX_INPUT {
        return Err(Stop::TooLong);
    }
    text.truncate(end);
    Ok(JobFile {
        text,
        held: Some(held),
    })
}

// Returns the job text of that name, or of standard input if the name is `-`. The input that a feed holds is left out.
pub(crate) fn read_job_text<R: Files + Input + AllocGlobal>(
    rt: &R,
    name: &str,
) -> Result<Vec<u8>, Stop> {
    Ok(read_job_file(rt, name)?.text)
}

// Appends the line `%input` and the input that a job file holds, if it holds one.
pub(crate) fn with_held(text: Vec<u8>, file: &JobFile) -> Result<Vec<u8>, AllocError> {
    let mut bytes = text;
    if let Some(held) = &file.held {
        bytes.extend_from_slice(b"%input\n")?;
        bytes.extend_from_slice(held.as_slice())?;
    }
    Ok(bytes)
}

// Writes the line `%input` and the input that a job file holds, after a text of its job was written. Nothing is written if the
// status is not 0, or if the file holds no input. Returns the status.
pub(crate) fn print_held<R: Print>(rt: &R, status: u8, file: &JobFile) -> Result<u8, Stop> {
    if status != 0 {
        return Ok(status);
    }
    let Some(held) = &file.held else {
        return Ok(status);
    };
    let mut out = WriteOut::new(io::writer(rt));
    if send(b"%input\n", &mut out).is_err() || send(held.as_slice(), &mut out).is_err() {
        return Err(Stop::Write);
    }
    Ok(status)
}

/// A job text and its input.
#[derive(Drop)]
pub(crate) struct Given {
    pub text: Vec<u8>,
    pub input: Vec<u8>,
}

impl Given {
    // Returns the question that a command is asked, with these settings.
    pub(crate) fn question(&self, settings: Settings) -> Question<'_>
        ensures text { result.text.now ≡ self.now.text.items }
        ensures input { result.input.now ≡ self.now.input.items }
        ensures settings { result.settings ≡ settings }
    {
        Question {
            text: self.text.as_slice(),
            input: self.input.as_slice(),
            settings,
        }
    }
}

// Reads a job file and its input: the file that is named, or what the job file holds, or no bytes. That a file is named for a job
// file which holds its input is refused. Both are read before anything is reported: first a too long input, then a job file that
// cannot be read, then such an input.
pub(crate) fn read_both<R: Files + Input + AllocGlobal>(
    rt: &R,
    job: &str,
    input: Option<&str>,
) -> Result<Given, Stop>
    ensures { IfOk result (λ given. vec_len given.input ≤ MAX_INPUT) }
{
    let file = read_job_file(rt, job);
    let Some(name) = input else {
        return Ok(given_of(rt.alloc(), file?));
    };
    let named = read_input(rt, name);
    if matches!(named, Err(Stop::TooLong)) {
        return Err(Stop::TooLong);
    }
    let JobFile { text, held } = file?;
    let input = named?;
    if held.is_some() {
        return Err(two_inputs(rt.alloc(), job, name));
    }
    Ok(Given { text, input })
}

// Returns the job text of a job file with the input that the file holds, or with an empty one.
fn given_of(alloc: Global, file: JobFile) -> Given
    requires { HoldsInput file.held }
    ensures { vec_len result.input ≤ MAX_INPUT }
{
    let JobFile { text, held } = file;
    let input = match held {
        Some(bytes) => bytes,
        None => Vec::new(alloc),
    };
    Given { text, input }
}

// Returns the refusal of an input file for a job file that holds its input.
fn two_inputs(alloc: Global, job: &str, input: &str) -> Stop {
    match two_inputs_message(alloc, job, input) {
        Ok(text) => Stop::Words { text },
        Err(_) => Stop::NoMemory,
    }
}

// Returns the text of that refusal.
fn two_inputs_message(alloc: Global, job: &str, input: &str) -> Result<String, AllocError> {
    let job = shown_name(alloc, job)?;
    let input = shown_name(alloc, input)?;
    format!(in alloc;
        "error: `{job}` has its input after the line `%input`: leave out INPUT, which is `{input}`\n"
    )
}
