//! `input_lines`: the lines, the count or the missing line that each kernel answers on a whole buffer.

use crate::fixtures::{push_bytes, push_number, wrong};
use input_lines::{Answer, Kernel, Part, answer};
use std::alloc::{AllocError, Global};
use std::test::Fail;

// Three lines of two, one and four bytes.
const BUFFER: &[u8] = b"aa\nb\ncccc\n";

// Four lines of 32 bytes with their newlines, and 3 bytes more.
const LONG: &[u8] =
    b"-------------------------------\n-------------------------------\n-------------------------------\n-------------------------------\nend";

// Appends a line by its place and its length.
fn push_line(text: &mut Vec<u8>, at: u64, length: u64) -> Result<(), AllocError> {
    push_bytes(text, b"[")?;
    push_number(text, at)?;
    push_bytes(text, b"+")?;
    push_number(text, length)?;
    push_bytes(text, b"]")
}

// The lines that a kernel answers on a whole buffer, each as `[3+6]` by its place and its length.
fn text_of_lines(alloc: Global, kernel: Kernel<'_>, buffer: &[u8]) -> Result<Vec<u8>, Fail> {
    let answer = answer(alloc, &kernel, Part::whole(buffer))?;
    let Answer::Lines(lines) = &answer else {
        return Err("no lines")?;
    };
    let mut text = Vec::new(alloc);
    for line in lines.as_slice() {
        push_line(&mut text, line.at() as u64, line.text().len() as u64)?;
    }
    Ok(text)
}

// Whether a kernel answers those lines on a whole buffer.
fn shows(alloc: Global, kernel: Kernel<'_>, buffer: &[u8], expected: &[u8]) -> Result<bool, Fail> {
    let found = text_of_lines(alloc, kernel, buffer)?;
    Ok(found.as_slice() == expected)
}

// The count that `Count` answers on a whole buffer.
fn count_of(alloc: Global, buffer: &[u8]) -> Result<u64, Fail> {
    match answer(alloc, &Kernel::Count, Part::whole(buffer))? {
        Answer::Count(lines) => Ok(lines),
        _ => Err("no count")?,
    }
}

// Whether no line of a whole buffer has the string.
fn is_missing(alloc: Global, needle: &[u8], buffer: &[u8]) -> Result<bool, Fail> {
    let answer = answer(alloc, &Kernel::Need(needle), Part::whole(buffer))?;
    Ok(matches!(answer, Answer::Missing))
}

// A string, a buffer, and the lines of the buffer that have the string.
const FINDS: &[(&'static [u8], &'static [u8], &'static [u8])] = &[
    (b"c", BUFFER, b"[5+4]"),
    (b"ab", b"ab\nxab ab\nb\nab", b"[0+2][3+6][12+2]"),
    (b"", b"a\n\n", b"[0+1][2+0]"),
    (b"a\nb", b"a\nb\n", b""),
];

// Fails at the first row for which `Find` answers other lines.
fn finds_are_shown(alloc: Global) -> Result<(), Fail> {
    for i in 0..FINDS.len() {
        let (needle, buffer, expected) = FINDS[i];
        if !shows(alloc, Kernel::Find(needle), buffer, expected)? {
            return Err(wrong(i));
        }
    }
    Ok(())
}

#[test]
fn find_and_need_answer_lines_with_a_string(rt: HostRuntime) -> Result<(), Fail> {
    finds_are_shown(rt.alloc())?;
    assert!(rt; shows(rt.alloc(), Kernel::Need(b"b"), b"a\nab\nb\n", b"[2+2]")?);
    Ok(())
}

// The number of lines requested, a buffer, and the lines answered.
const HEADS: &[(u64, &'static [u8], &'static [u8])] = &[
    (0, BUFFER, b""),
    (2, BUFFER, b"[0+2][3+1]"),
    (5, b"\n", b"[0+0]"),
];

// Fails at the first row for which `Head` answers other lines.
fn heads_are_shown(alloc: Global) -> Result<(), Fail> {
    for i in 0..HEADS.len() {
        let (count, buffer, expected) = HEADS[i];
        if !shows(alloc, Kernel::Head(count), buffer, expected)? {
            return Err(wrong(i));
        }
    }
    Ok(())
}

#[test]
fn head_answers_the_first_lines(rt: HostRuntime) -> Result<(), Fail> {
    heads_are_shown(rt.alloc())
}

// A buffer, and the first of its longest lines.
const LONGEST: &[(&'static [u8], &'static [u8])] = &[
    (BUFFER, b"[5+4]"),
    (b"aa\nb\ncc\n", b"[0+2]"),
    (b"", b""),
    (b"\n\n", b"[0+0]"),
    (b"a\nb\n\nccc\ndd\neee\nffff", b"[16+4]"),
];

// Fails at the first row for which `Longest` answers another line.
fn longest_are_shown(alloc: Global) -> Result<(), Fail> {
    for i in 0..LONGEST.len() {
        let (buffer, expected) = LONGEST[i];
        if !shows(alloc, Kernel::Longest, buffer, expected)? {
            return Err(wrong(i));
        }
    }
    Ok(())
}

#[test]
fn longest_answers_the_first_of_the_longest_lines(rt: HostRuntime) -> Result<(), Fail> {
    longest_are_shown(rt.alloc())
}

// A buffer, and its number of lines.
const COUNTS: &[(&'static [u8], u64)] = &[(BUFFER, 3), (b"", 0), (b"\n\nlast", 3), (LONG, 5)];

// Fails at the first row with another count.
fn counts_are_right(alloc: Global) -> Result<(), Fail> {
    for i in 0..COUNTS.len() {
        let (buffer, expected) = COUNTS[i];
        if count_of(alloc, buffer)? != expected {
            return Err(wrong(i));
        }
    }
    Ok(())
}

// The count of the lines of the given number of newlines.
fn count_of_newlines(alloc: Global, count: usize) -> Result<u64, Fail> {
    let newlines = Vec::from_elem(alloc, b'\n', count)?;
    count_of(alloc, newlines.as_slice())
}

#[test]
fn lines_are_counted(rt: HostRuntime) -> Result<(), Fail> {
    counts_are_right(rt.alloc())?;
    // There are more newlines than the lanes of a count can hold.
    assert!(rt; count_of_newlines(rt.alloc(), 20000)? == 20000);
    Ok(())
}

#[test]
fn a_needed_line_may_be_missing(rt: HostRuntime) -> Result<(), Fail> {
    assert!(rt; is_missing(rt.alloc(), b"zz", BUFFER)?);
    assert!(rt; is_missing(rt.alloc(), b"", b"")?);
    Ok(())
}
