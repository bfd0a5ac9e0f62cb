ghost use Rattle.std.specs.Prelude.{◌≡◌, ◌≤◌, ◌++◌, drop, length, OnOk};
ghost use Rattle.basics.specs.Places.{line_from};
ghost use Rattle.page.specs.Cuts.{first_length, shown_lines, hidden_text};

use crate::markup::push_classed;
use basics::push_number;
use std::alloc::{AllocError, Global};
use svg::Tag;

/// The number of lines of a story, a report or a table that a page shows.
pub(crate) const MAX_LINES: usize = 2000;

// Returns how many bytes the first lines of a text have.
fn first_length(count: usize, bytes: &[u8]) -> usize
    ensures value { result ≡ first_length count bytes.now }
    ensures bound { result ≤ length bytes.now }
{
    let mut rest = bytes;
    let mut left = count;
    'bytes: while let Some((byte, others)) = rest.split_first() {
        if left == 0 {
            break;
        }
        if *byte == b'\n' {
            left -= 1;
        }
        rest = others;
    }
    bytes.len() - rest.len()
}

// Returns the lines of a text that a page shows, and the bytes after them.
pub(crate) fn split_shown(bytes: &[u8]) -> (&[u8], &[u8])
    ensures shown { result.0.now ≡ shown_lines bytes.now }
    ensures hidden { result.1.now ≡ drop (first_length MAX_LINES bytes.now) bytes.now }
{
    bytes.split_at(first_length(MAX_LINES, bytes))
}

// Returns how many newlines there are.
fn line_count(bytes: &[u8]) -> usize
    ensures { result ≡ line_from 0 bytes.now }
{
    let mut count = 0;
    'bytes: for byte in bytes {
        if *byte == b'\n' {
            count += 1;
        }
    }
    count
}

// Appends a paragraph that says how many lines of a text are not shown, if there are any.
pub(crate) fn push_hidden(alloc: Global, out: &mut Vec<u8>, bytes: &[u8]) -> Result<(), AllocError>
    ensures { OnOk result (out.new.items ≡ out.old.items ++ hidden_text bytes.now) }
{
    let (_, hidden) = split_shown(bytes);
    let count = line_count(hidden);
    if count == 0 {
        return Ok(());
    }
    let mut said = Vec::new(alloc);
    said.extend_from_slice(b"Lines that are not shown: ")?;
    push_number(&mut said, count as u64)?;
    push_classed(out, Tag::P, b"hidden", said.as_slice())
}
