ghost use Rattle.std.specs.Prelude.{◌≡◌, ℕ, ◌+◌, ◌<◌, ◌≤◌, Option, None, List, length, take, IfOk, OnOk, OnErr};

use crate::out::{Out, PutFault};
use std::io::Write;

/// A writer of the system, such as standard output. If it takes zero bytes, that is a failure, and so is an error of
/// any kind.
#[derive(Drop)]
pub struct WriteOut<W> {
    writer: W,
    failed: u64,
}

impl<W> WriteOut<W> {
    ghost use Rattle.job_report.specs.WriteOuts.{faults_of, writer_of};

    /// Wraps a writer.
    pub fn new(writer: W) -> WriteOut<W>
        ensures well { faults_of result ≡ 0 }
        ensures writer { writer_of result ≡ writer }
    {
        WriteOut { writer, failed: 0 }
    }
}

impl<W: Write> Out for WriteOut<W> {
    ghost use Rattle.job_report.specs.WriteOuts.{faults_of, writer_of};

    ghost failed = { faults_of };

    ghost contents = { λ out. W.contents (writer_of out) };

    fn put(&mut self, bytes: &[u8]) -> Result<usize, PutFault> {
        match self.writer.write(bytes) {
            Ok(n) if n > 0 => Ok(n),
            _ => {
                self.failed += 1;
                Err(PutFault)
            }
        }
    }

    fn failures(&self) -> u64 {
        self.failed
    }
}
