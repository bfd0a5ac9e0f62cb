use crate::answers::tell_refusal;
use crate::sources::read_job_text;
use crate::stop::Stop;
use job_answers::{WriteOut, refusal, send};
use job_reader::{JobKind, read_job};
use std::alloc::{AllocError, Global};
use std::io;
use std::rt::Files;
use trio_text::program;

// Writes a job file as a Python program on Trio, or the line of its refusal, and returns the status.
pub(crate) fn trio_job<R: Files + Input + Print + Eprint + AllocGlobal>(
    rt: &R,
    job: &str,
) -> Result<u8, Stop> {
    let text = read_job_text(rt, job)?;
    let (status, bytes) = match trio_answer(rt.alloc(), text.as_slice()) {
        Ok(answer) => answer,
        Err(_) => return Err(Stop::NoMemory),
    };
    let mut out = WriteOut::new(io::writer(rt));
    if send(bytes.as_slice(), &mut out).is_err() {
        return Err(Stop::Write);
    }
    if let Err(fault) = read_job(rt.alloc(), text.as_slice())
        && fault.kind != JobKind::NoMemory
    {
        tell_refusal(rt, job, text.as_slice(), fault);
    }
    Ok(status)
}

// Returns the status and what is written.
fn trio_answer(alloc: Global, text: &[u8]) -> Result<(u8, Vec<u8>), AllocError> {
    match read_job(alloc, text) {
        Ok(job) => Ok((0, program(alloc, &job)?)),
        Err(fault) if fault.kind == JobKind::NoMemory => Err(AllocError),
        Err(fault) => Ok((2, refusal(alloc, fault)?)),
    }
}
