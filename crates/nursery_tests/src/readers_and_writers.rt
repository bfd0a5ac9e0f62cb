//! Readers and writers: sending stops only if a writer fails, a reader is read whole or not at all, and a feed is split at
//! its mark.

use crate::fixtures::{FORMAT_1, LIMIT, TWO_LINES, job_text, same, serve_again, wrong};
use basics::split_feed;
use job_answers::{ReadFault, ServeFault, read_whole};
use job_report::{MemOut, Out, PutFault, SendFault, WriteOut, send};
use job_runner::{Forward, MAX_INPUT, Settings};
use std::alloc::{AllocError, Global};
use std::io::{self, ErrorKind, Read, Write};
use std::process::Abort;
use std::test::Fail;

/// The report of a job that finds one line.
const TEXT: &[u8] = b"job main 0\ntask main 0 0 done\n  line 0+5 error\n";

// Sends bytes. Checks where the writer stopped it, if it did, and how often it failed.
fn assert_sends<W: Out>(
    rt: &impl Abort,
    bytes: &[u8],
    out: &mut W,
    stop: Option<usize>,
    failures: u64,
) {
    assert!(rt; out.failures() == 0);
    let stopped = match send(bytes, out) {
        Ok(()) => None,
        Err(SendFault { sent }) => Some(sent),
    };
    assert!(rt; stopped == stop);
    assert!(rt; out.failures() == failures);
}

// The space of a writer into memory, how many bytes it takes for each put, the put at which it fails, where it stops a
// sending, how often it failed, and the bytes taken.
const INTO_MEMORY: &[(usize, usize, Option<u64>, Option<usize>, u64, &[u8])] = &[
    (10, 4, None, Some(10), 1, b"job main 0"),
    (100, 4, Some(2), Some(8), 1, b"job main"),
    (47, 100, None, None, 0, TEXT),
    (47, 5, Some(10), None, 0, TEXT),
];

#[test]
fn sending_into_memory_stops_where_it_fails(rt: HostRuntime) -> Result<(), Fail> {
    for i in 0..INTO_MEMORY.len() {
        let (room, piece, fail_at, stop, failures, taken) = INTO_MEMORY[i];
        assert!(rt; piece > 0);
        let mut out = MemOut::new(rt.alloc(), room, piece, fail_at)?;
        assert_sends(&rt, TEXT, &mut out, stop, failures);
        if out.taken() != taken {
            return Err(wrong(i));
        }
    }
    Ok(())
}

#[test]
fn sending_may_stop_at_each_put(rt: HostRuntime) -> Result<(), Fail> {
    let mut stop = 0;
    for put in 0..10u64 {
        let mut out = MemOut::new(rt.alloc(), 47, 5, Some(put))?;
        assert_sends(&rt, TEXT, &mut out, Some(stop), 1);
        stop = stop.wrapping_add(5);
    }
    Ok(())
}

#[test]
fn nothing_is_sent_if_no_room_is_left(rt: HostRuntime) -> Result<(), Fail> {
    let mut out = MemOut::new(rt.alloc(), 47, 5, None)?;
    assert_sends(&rt, TEXT, &mut out, None, 0);
    assert_sends(&rt, b"", &mut out, None, 0);
    Ok(())
}

/// A writer that takes at most a given number of bytes for each write, and fails after a given number of writes.
#[derive(Drop)]
struct Fake {
    piece: usize,
    writes: u64,
}

impl Write for Fake {
    fn write(&mut self, buf: &[u8]) -> io::Result<usize> {
        if self.writes == 0 {
            return Err(io::Error::from(ErrorKind::BrokenPipe));
        }
        self.writes -= 1;
        Ok(buf.len().min(self.piece))
    }

    fn flush(&mut self) -> io::Result<()> {
        Ok(())
    }
}

// How many bytes a writer takes for each write, after how many writes it fails, where it stops a sending, and how often it
// failed.
const INTO_WRITER: &[(usize, u64, Option<usize>, u64)] = &[
    (0, 100, Some(0), 1),
    (4, 1, Some(4), 1),
    (100, 1, None, 0),
];

#[test]
fn sending_into_a_writer_stops_where_it_fails(rt: HostRuntime) {
    for i in 0..INTO_WRITER.len() {
        let (piece, writes, stop, failures) = INTO_WRITER[i];
        let mut out = WriteOut::new(Fake { piece, writes });
        assert_sends(&rt, TEXT, &mut out, stop, failures);
    }
}

#[test]
fn faults_of_writers_have_their_texts(rt: HostRuntime) -> Result<(), Fail> {
    let put = PutFault.to_string(rt.alloc())?;
    same("a put", put.as_bytes(), b"the writer failed")?;
    let send = SendFault { sent: 10 }.to_string(rt.alloc())?;
    same(
        "a sending",
        send.as_bytes(),
        b"the writer failed after 10 bytes",
    )
}

#[test]
fn a_writer_that_fails_took_the_beginning(rt: HostRuntime) -> Result<(), Fail> {
    let settings = Settings::new(1, LIMIT).ok_or("settings")?;
    let mut out = MemOut::new(rt.alloc(), 10, 4, None)?;
    let text = job_text(rt.alloc(), FORMAT_1, b"find \"er\";")?;
    let answer = serve_again(
        &rt,
        text.as_slice(),
        TWO_LINES,
        settings,
        &mut Forward,
        &mut out,
    );
    assert!(rt; matches!(answer, Err(ServeFault::Send { sent: 10 })));
    assert!(rt; out.failures() == 1);
    same("the report", out.taken(), b"job main 0")
}

// A feed, the job text in it, and the input.
const FEEDS: &[(&str, &[u8], &[u8])] = &[
    ("x\n%input\ny", b"x\n", b"y"),
    ("x", b"x", b""),
    ("%input", b"", b""),
    ("x%input\n%input\n", b"x%input\n", b""),
];

#[test]
fn a_feed_is_cut_at_its_mark() -> Result<(), Fail> {
    for i in 0..FEEDS.len() {
        let (feed, job, input) = FEEDS[i];
        let (front, after) = split_feed(feed.as_bytes());
        if front != job || after != input {
            Err(feed)?;
        }
    }
    Ok(())
}

// A reader that returns `each` bytes for each read, for `left` reads, and then fails or ends.
#[derive(Drop)]
struct Piecewise {
    left: u64,
    each: usize,
    fails: bool,
}

impl Read for Piecewise {
    fn read(&mut self, buf: &mut [u8]) -> io::Result<usize> {
        if self.left == 0 {
            if self.fails {
                return Err(io::Error::from(ErrorKind::Other));
            }
            return Ok(0);
        }
        self.left -= 1;
        Ok(self.each.min(buf.len()))
    }
}

// Returns how many bytes were read from a reader, which may have at most `most`. It is an error of its own if memory runs out.
fn length_of<R: Read>(
    alloc: Global,
    reader: &mut R,
    most: usize,
) -> Result<Result<usize, ReadFault>, AllocError> {
    match read_whole(alloc, reader, most) {
        Ok(bytes) => Ok(Ok(bytes.len())),
        Err(ReadFault::NoMemory) => Err(AllocError),
        Err(fault) => Ok(Err(fault)),
    }
}

// How many reads there are, how many bytes each returns, whether the reader fails then, how many bytes it may have, and how many
// are read.
const READERS: &[(u64, usize, bool, usize, Result<usize, ReadFault>)] = &[
    (1, 5, false, 5, Ok(5)),
    (1, 5, false, 4, Err(ReadFault::TooLong)),
    (1, 2, true, 9, Err(ReadFault::Device)),
    (0, 2, true, 9, Err(ReadFault::Device)),
    (1_000_000, 1, false, 4, Err(ReadFault::TooLong)),
    (0, 1, false, 0, Ok(0)),
    // The reader may fail at each read.
    (1, 1, true, 9, Err(ReadFault::Device)),
    (2, 1, true, 9, Err(ReadFault::Device)),
    (3, 1, true, 9, Err(ReadFault::Device)),
    (4, 1, true, 9, Err(ReadFault::Device)),
    (5, 1, true, 9, Err(ReadFault::Device)),
    (0, 1, true, 9, Err(ReadFault::Device)),
];

#[test]
fn a_reader_is_read_whole_or_not_at_all(rt: HostRuntime) -> Result<(), Fail> {
    for i in 0..READERS.len() {
        let (left, each, fails, most, expected) = READERS[i];
        let mut reader = Piecewise { left, each, fails };
        let found = length_of(rt.alloc(), &mut reader, most)?;
        let reads = left.saturating_sub(reader.left);
        if found != expected || reads > (most as u64).saturating_add(2) {
            return Err(wrong(i));
        }
    }
    Ok(())
}

#[test]
fn a_slice_is_read_whole(rt: HostRuntime) -> Result<(), Fail> {
    let mut five = b"error".as_slice();
    let bytes = read_whole(rt.alloc(), &mut five, 5)?;
    same("the slice", bytes.as_slice(), b"error")
}

#[test]
fn a_slice_that_is_too_long_is_refused(rt: HostRuntime) -> Result<(), Fail> {
    let one_too_many = vec![in rt.alloc(); b'x'; 16_777_217]?;
    let mut all = one_too_many.as_slice();
    let found = length_of(rt.alloc(), &mut all, MAX_INPUT)?;
    assert!(rt; found == Err(ReadFault::TooLong));
    Ok(())
}
