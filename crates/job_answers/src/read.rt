ghost use Rattle.std.specs.Prelude.{◌≡◌, ◌<◌, ◌≤◌, ◌≢◌, IfOk, IfErr, OnOk, IfSome, length, vec_len};
ghost use Rattle.job_answers.specs.Reads.{IsAllOf, IsTooLong};

use std::alloc::{AllocError, Global};
use std::io::Read;
use thiserror::Error;

/// Why not all bytes of a reader were read. The bytes that were read are lost.
#[derive(Clone, Copy, Debug, PartialEq, Eq, Error)]
pub enum ReadFault {
    /// The reader has more bytes than are allowed.
    #[error("input too long")]
    TooLong,
    /// A read returned an error, of any kind.
    #[error("a read failed")]
    Device,
    /// Memory ran out.
    #[error("no memory")]
    NoMemory,
}

/// Returns all bytes of a reader, which may be at most `most`. It makes at most `most + 2` reads. The errors are `TooLong` if
/// there are more bytes, `Device` if a read failed, and `NoMemory`.
pub fn read_whole<R: Read>(alloc: Global, reader: &mut R, most: usize) -> Result<Vec<u8>, ReadFault>
    ensures whole { IfOk result (λ bytes. IsAllOf (R.remaining reader.old) bytes.items) }
    ensures within { IfOk result (λ bytes. vec_len bytes ≤ most) }
    ensures too_long { result ≡ Err ReadFault.TooLong → IsTooLong (R.remaining reader.old) most }
{
    let mut bytes = Vec::new(alloc);
    let mut chunk = [0u8; 65_536];
    'reads: for _turn in 0..=most {
        let Ok(n) = reader.read(&mut chunk) else {
            return Err(ReadFault::Device);
        };
        if n == 0 {
            return Ok(bytes);
        }
        if n > most - bytes.len() {
            return Err(ReadFault::TooLong);
        }
        let (front, _) = chunk.split_at(n);
        if bytes.extend_from_slice(front).is_err() {
            return Err(ReadFault::NoMemory);
        }
    }
    unreachable!()
}
