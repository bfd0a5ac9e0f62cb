ghost use Rattle.std.specs.Prelude.{◌≡◌, ◌<◌, ◌+◌, length, take, IfOk, IfErr, OnOk, OnErr};
ghost use Rattle.std.specs.Io.KnownBytes.{Appends};
ghost use Rattle.job_report.specs.declared.limits.TheConstants.{MAX_FAILURES};

use crate::out::{Out, SendFault, send};

/// What a command answers: which of its answers it is, and all bytes that it writes.
#[derive(Drop)]
pub struct Answer<V> {
    /// Which answer it is.
    pub verdict: V,
    /// All bytes that the command writes.
    pub bytes: Vec<u8>,
}

/// Sends all bytes of an answer to a writer, and returns its verdict. It stops only if the writer fails, and takes no memory. The
/// error says how many of the bytes were taken before.
pub fn send_answer<V: Drop, W: Out>(answer: Answer<V>, out: &mut W) -> Result<V, SendFault>
    requires { W.failed out.old < MAX_FAILURES }
    ensures verdict { IfOk result (λ verdict. verdict ≡ answer.verdict) }
    ensures all { OnOk result (Appends (W.contents out.old) (W.contents out.new) answer.bytes.items) }
    ensures well { OnOk result (W.failed out.new ≡ W.failed out.old) }
    ensures within { IfErr result (λ fault. fault.sent < length answer.bytes.items) }
    ensures front { IfErr result (λ fault. Appends (W.contents out.old) (W.contents out.new) (take fault.sent answer.bytes.items)) }
    ensures fault { OnErr result (W.failed out.new ≡ W.failed out.old + 1) }
{
    send(answer.bytes.as_slice(), out)?;
    Ok(answer.verdict)
}
