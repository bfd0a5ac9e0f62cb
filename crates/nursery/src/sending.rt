ghost use Rattle.std.specs.Prelude.{◌≡◌, IfOk};

use crate::stop::Stop;
use job_answers::{Answer, WriteOut, send_answer};
use std::io;

// Writes an answer to standard output, and returns its verdict.
pub(crate) fn put_answer<V: Drop, R: Print>(rt: &R, answer: Answer<V>) -> Result<V, Stop>
    ensures { IfOk result (λ verdict. verdict ≡ answer.verdict) }
{
    let mut out = WriteOut::new(io::writer(rt));
    let verdict = send_answer(answer, &mut out)?;
    Ok(verdict)
}
