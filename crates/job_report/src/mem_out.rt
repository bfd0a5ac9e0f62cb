ghost use Rattle.std.specs.Prelude.{◌≡◌, ◌≢◌, ℕ, ◌+◌, ◌-◌, ◌<◌, ◌≤◌, Option, Some, None, List, [], ◌++◌, length, take, min, IfOk, IfSome, IsOk, OnOk, OnErr, IfErr, IsErr, vec_capacity, vec_len, ◌↔◌, IsTrue, ◌||◌, nat_le};
ghost use Rattle.job_report.specs.declared.limits.TheConstants.{MAX_FAILURES};

use crate::out::{Out, PutFault};
use std::alloc::{AllocError, Global};

/// A writer into memory, for tests and for callers that keep the bytes. It can be made to fail.
#[derive(Drop)]
pub struct MemOut {
    bytes: Vec<u8>,
    room: usize,
    piece: usize,
    puts_left: Option<u64>,
    failed: u64,
    ghost takes_some: { 0 < piece },
    ghost fits: { vec_len bytes ≤ room },
    ghost reserved: { room ≤ vec_capacity bytes },
}

impl MemOut {
    ghost use Rattle.job_report.specs.MemOuts.{bytes_of, room_of, piece_of, puts_before_fault, puts_after, is_due, faults_of};

    /// Returns a writer with space for `room` bytes, which takes at most `piece` bytes for each put. It fails at the
    /// put with the number `fail_at`, counted from 0, and at each put when no space is left. The caller must ensure
    /// that `piece` is not 0. The only error is that memory runs out.
    pub fn new(
        alloc: Global,
        room: usize,
        piece: usize,
        fail_at: Option<u64>,
    ) -> Result<MemOut, AllocError>
        requires { 0 < piece }
        ensures empty { IfOk result (λ out. bytes_of out ≡ []) }
        ensures room { IfOk result (λ out. room_of out ≡ room) }
        ensures piece { IfOk result (λ out. piece_of out ≡ piece) }
        ensures fault { IfOk result (λ out. puts_before_fault out ≡ fail_at) }
        ensures well { IfOk result (λ out. faults_of out ≡ 0) }
    {
        let bytes = Vec::with_capacity(alloc, room)?;
        Ok(MemOut {
            bytes,
            room,
            piece,
            puts_left: fail_at,
            failed: 0,
        })
    }

    /// Returns the bytes that were taken.
    pub fn taken(&self) -> &[u8]
        ensures { result.now ≡ bytes_of self.now }
    {
        self.bytes.as_slice()
    }

    // Counts a put, and returns whether it is the one that must fail.
    fn count_put(&mut self) -> bool
        ensures due { result ≡ is_due (puts_before_fault self.old) }
        ensures left { self.new ≡ record self.old { puts_left = puts_after (puts_before_fault self.old) } }
    {
        match self.puts_left {
            None => false,
            Some(0) => {
                self.puts_left = None;
                true
            }
            Some(left) => {
                self.puts_left = Some(left - 1);
                false
            }
        }
    }
}

impl Out for MemOut {
    ghost use Rattle.std.specs.Io.KnownBytes.{Appends, Keeps};
    ghost use Rattle.job_report.specs.MemOuts.{bytes_of, room_of, piece_of, puts_before_fault, puts_after, is_due, faults_of};

    ghost failed = { faults_of };

    ghost contents = { λ out. Some (bytes_of out) };

    fn put(&mut self, bytes: &[u8]) -> Result<usize, PutFault>
        requires some { 0 < length bytes.now }
        requires countable { faults_of self.old < MAX_FAILURES }
        ensures part { IfOk result (λ n. (0 < n) × (n ≤ length bytes.now)) }
        ensures taken { IfOk result (λ n. Appends (Some (bytes_of self.old)) (Some (bytes_of self.new)) (take n bytes.now)) }
        ensures well { OnOk result (faults_of self.new ≡ faults_of self.old) }
        ensures fault { OnErr result (faults_of self.new ≡ faults_of self.old + 1) }
        ensures none_taken { OnErr result (Keeps (Some (bytes_of self.old)) (Some (bytes_of self.new))) }
        ensures most { IfOk result (λ n. n
            ≡ min (min (length bytes.now) (piece_of self.old)) (room_of self.old - length (bytes_of self.old))) }
        ensures fails { IsErr result ↔ IsTrue (is_due (puts_before_fault self.old)
            || nat_le (room_of self.old) (length (bytes_of self.old))) }
        ensures same_room { room_of self.new ≡ room_of self.old }
        ensures same_piece { piece_of self.new ≡ piece_of self.old }
        ensures counted { puts_before_fault self.new ≡ puts_after (puts_before_fault self.old) }
    {
        let room = self.room - self.bytes.len();
        if self.count_put() || room == 0 {
            self.failed += 1;
            return Err(PutFault);
        }
        let n = bytes.len().min(self.piece).min(room);
        let (front, _) = bytes.split_at(n);
        self.bytes.extend_from_slice(front).unwrap();
        Ok(n)
    }

    fn failures(&self) -> u64 {
        self.failed
    }
}
