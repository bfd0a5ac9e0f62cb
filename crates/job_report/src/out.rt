ghost use Rattle.std.specs.Prelude.{◌≡◌, ℕ, ◌+◌, ◌-◌, ◌<◌, ◌≤◌, Option, List, length, take, IfOk, OnOk, OnErr, IfErr};
ghost use Rattle.std.specs.Io.KnownBytes.{Appends, Keeps};
ghost use Rattle.job_report.specs.declared.limits.TheConstants.{MAX_FAILURES};

use thiserror::Error;

/// A writer failed, and took none of the bytes that it was given.
#[derive(Clone, Copy, Debug, PartialEq, Eq, Error)]
#[error("the writer failed")]
pub struct PutFault;

/// A writer of bytes that counts its failures.
pub trait Out {
    /// The number of failures so far.
    ghost failed: { Self → ℕ };

    /// The bytes that the writer holds, if they are known.
    ghost contents: { Self → Option (List ℕ) };

    /// Takes at least one byte from the front of `bytes` and returns how many it took; or takes none, counts the
    /// failure, and returns `PutFault`. The caller must ensure that `bytes` is not empty.
    fn put(&mut self, bytes: &[u8]) -> Result<usize, PutFault>
        requires some { 0 < length bytes.now }
        requires countable { failed self.old < MAX_FAILURES }
        ensures part { IfOk result (λ n. (0 < n) × (n ≤ length bytes.now)) }
        ensures taken { IfOk result (λ n. Appends (contents self.old) (contents self.new) (take n bytes.now)) }
        ensures well { OnOk result (failed self.new ≡ failed self.old) }
        ensures fault { OnErr result (failed self.new ≡ failed self.old + 1) }
        ensures none_taken { OnErr result (Keeps (contents self.old) (contents self.new)) };

    /// Returns how many times the writer failed.
    fn failures(&self) -> u64
        ensures { result ≡ failed self.now };
}

/// A writer failed while bytes were sent, after it took `sent` of them.
#[derive(Clone, Copy, Debug, PartialEq, Eq, Error)]
#[error("the writer failed after {sent} bytes")]
pub struct SendFault {
    /// How many bytes from the front were taken.
    pub sent: usize,
}

/// Sends all bytes to a writer. It stops only if the writer fails, and takes no memory. The error says how many bytes
/// were taken before.
pub fn send<W: Out>(bytes: &[u8], out: &mut W) -> Result<(), SendFault>
    requires { W.failed out.old < MAX_FAILURES }
    ensures all { OnOk result (Appends (W.contents out.old) (W.contents out.new) bytes.now) }
    ensures well { OnOk result (W.failed out.new ≡ W.failed out.old) }
    ensures within { IfErr result (λ fault. fault.sent < length bytes.now) }
    ensures front { IfErr result (λ fault. Appends (W.contents out.old) (W.contents out.new) (take fault.sent bytes.now)) }
    ensures fault { OnErr result (W.failed out.new ≡ W.failed out.old + 1) }
{
    let mut sent = 0;
    'puts: while sent < bytes.len() {
        let (_, rest) = bytes.split_at(sent);
        match out.put(rest) {
            Ok(n) => sent += n,
            Err(PutFault) => return Err(SendFault { sent }),
        }
    }
    Ok(())
}
