ghost use Rattle.std.specs.Prelude.{◌≡◌, ℕ, ◌+◌, ◌-◌, ◌<◌, ◌≤◌, List, length, slice_range};
ghost use Rattle.std.specs.Iterator.{item_count};

use memchr::{memchr, memrchr};

/// A line of a buffer: the place where it starts, and its bytes without the newline.
#[derive(Clone, Copy)]
pub struct Line<'a> {
    start: usize,
    bytes: &'a [u8],
}

impl<'a> Line<'a> {
    ghost use Rattle.input_lines.specs.Part.{span_of, line_text};

    /// Returns the place in the buffer, in bytes, of the line's first byte, or of its newline if the line is empty.
    pub fn at(self) -> usize
        ensures { result ≡ (span_of self.entry).at }
    {
        self.start
    }

    /// Returns the line's bytes, without the newline.
    pub fn text(self) -> &'a [u8]
        ensures { result.now ≡ line_text self.entry }
    {
        self.bytes
    }
}

/// An iterator over the lines of a part that are still to come, in order.
#[derive(Drop)]
pub struct Lines<'a> {
    buffer: &'a [u8],
    next: usize,
    end: usize,
    ghost ordered: { next ≤ end },
    ghost within: { end ≤ length buffer.now },
}

impl<'a> Lines<'a> {
    ghost use Rattle.input_lines.specs.Lines.{lines_of, bytes_of};
    ghost use Rattle.input_lines.specs.Part.{source_of, lines_left, range_left, SkipsTo, GoesToLine, GivesLonger};

    // Creates the iterator over the lines of a range of a buffer. `start` is the first place, and `end` is left out.
    pub(crate) fn over(buffer: &'a [u8], start: usize, end: usize) -> Lines<'a>
        requires ordered { start ≤ end }
        requires within { end ≤ length buffer.now }
        ensures source { source_of result ≡ buffer.now }
        ensures range { range_left result ≡ record { from = start; to = end } }
        ensures lines { lines_left result ≡ lines_of buffer.now (record { from = start; to = end }) }
        ensures count { length (lines_left result) + start ≤ end }
    {
        Lines {
            buffer,
            next: start,
            end,
        }
    }

    /// Returns the bytes of the lines that are still to come, with their newlines.
    pub fn text(&self) -> &'a [u8]
        ensures { result.now ≡ bytes_of (source_of self.now) (range_left self.now) }
    {
        &self.buffer[self.next..self.end]
    }

    /// Skips to the line that contains the byte at `place`, or whose newline that byte is, and returns it. `place` is
    /// counted from the start of `text`, in bytes. The caller must ensure that `place` is less than the length of `text`.
    pub fn line_at(&mut self, place: usize) -> Line<'a>
        requires { (range_left self.old).from + place < (range_left self.old).to }
        ensures { GoesToLine self.old place result self.new }
    {
        self.skip_to(place);
        self.next().unwrap()
    }

    /// Skips to the first line that has more than `length` bytes, and returns it. If there is no such line, returns `None`,
    /// and no line is left.
    ///
    /// A line that long would cover the next `length + 1` bytes, so the lines up to the last newline among those bytes are
    /// skipped at once.
    pub fn next_longer_than(&mut self, length: usize) -> Option<Line<'a>>
        ensures { GivesLonger self.old length result self.new }
    {
        'lines: while length < self.end - self.next {
            match memrchr(b'\n', &self.buffer[self.next..=self.next + length]) {
                Some(place) => self.next += place + 1,
                None => return self.next(),
            }
        }
        self.next = self.end; // no line of the rest is longer than `length`
        None
    }

    // Skips the lines before the one that contains the byte at a place of `text`, or whose newline that byte is.
    fn skip_to(&mut self, place: usize)
        requires { (range_left self.old).from + place < (range_left self.old).to }
        ensures { SkipsTo self.old place self.new }
    {
        if let Some(length) = memrchr(b'\n', &self.buffer[self.next..self.next + place]) {
            self.next += length + 1;
        }
    }
}

impl<'a> Iterator for Lines<'a> {
    ghost use Rattle.input_lines.specs.Part.{GivesLine, lines_left};

    type Item = Line<'a>;

    ghost next_gives = { GivesLine };

    ghost remaining = { item_count lines_left };

    fn next(&mut self) -> Option<Line<'a>> {
        if self.next == self.end {
            return None;
        }
        let start = self.next;
        let rest = &self.buffer[start..self.end];
        match memchr(b'\n', rest) {
            Some(length) => {
                self.next = start + length + 1;
                Some(Line {
                    start,
                    bytes: &rest[..length],
                })
            }
            None => {
                self.next = self.end;
                Some(Line { start, bytes: rest })
            }
        }
    }
}
