ghost use Rattle.std.specs.Prelude.{◌≡◌, ℕ, ◌+◌, ◌-◌, ◌*◌, ◌/◌, ◌<◌, ◌≤◌, ◌==◌, ◌||◌, ◌↔◌, IsTrue, IsSome, IfSome, List, length, slice_range};
ghost use Rattle.input_lines.specs.Cuts.{starts_line};

use crate::cuts::Cuts;
use crate::line::Lines;
use memchr::memchr;

/// A range of a borrowed buffer that starts where a line starts, or is empty. Places and lengths are in bytes, and
/// places are counted from the start of the buffer.
#[derive(Clone, Copy)]
pub struct Part<'a> {
    pub(crate) buffer: &'a [u8],
    pub(crate) start: usize,
    pub(crate) end: usize,
    ghost ordered: { start ≤ end },
    ghost within: { end ≤ length buffer.now },
    ghost aligned: { IsTrue (starts_line buffer.now start || start == end) },
}

impl<'a> Part<'a> {
    ghost use Rattle.input_lines.specs.Lines.{Range, bytes_of, lines_of};
    ghost use Rattle.input_lines.specs.Cuts.{next_start, cut_point, cut_of};
    ghost use Rattle.input_lines.specs.Part.{buffer_of, range_of, source_of, range_left, lines_left};
    ghost use Rattle.input_lines.specs.Giving.{part_cut, cut_count, cuts_given};

    /// Returns the whole buffer as a part.
    pub fn whole(buffer: &'a [u8]) -> Part<'a>
        ensures buffer { buffer_of result ≡ buffer.now }
        ensures range { range_of result ≡ record { from = 0; to = length buffer.now } }
    {
        Part {
            buffer,
            start: 0,
            end: buffer.len(),
        }
    }

    /// Returns the place in the buffer at which the part starts.
    pub fn at(self) -> usize
        ensures { result ≡ (range_of self.entry).from }
    {
        self.start
    }

    /// Returns the part's bytes.
    pub fn text(self) -> &'a [u8]
        ensures { result.now ≡ bytes_of (buffer_of self.entry) (range_of self.entry) }
    {
        &self.buffer[self.start..self.end]
    }

    /// Returns the bytes of the whole buffer that the part is a range of.
    pub fn buffer(self) -> &'a [u8]
        ensures { result.now ≡ buffer_of self.entry }
    {
        self.buffer
    }

    /// Returns cut `i` of `k`. It begins at the first line start of the part at or after `i` of `k` equal steps, and ends
    /// at the first one at or after the next step. The first cut begins where the part begins, and the last ends where the
    /// part ends. A cut may be empty, and the cuts joined in order are the part. The caller must ensure that `k` is from
    /// 1 to 64 and that `i` is less than `k`.
    pub fn cut(self, k: usize, i: usize) -> Part<'a>
        requires some { 1 ≤ k }
        requires few { k ≤ 64 }
        requires below { i < k }
        ensures buffer { buffer_of result ≡ buffer_of self.entry }
        ensures range { range_of result ≡ cut_of (buffer_of self.entry) (range_of self.entry) k i }
    {
        Part {
            buffer: self.buffer,
            start: self.cut_point(k, i),
            end: self.cut_point(k, i + 1),
        }
    }

    /// Returns the first of `k` cuts, and the rest of the part after it. The caller must ensure that `k` is from 1 to 64.
    pub fn first_of(self, k: usize) -> (Part<'a>, Part<'a>)
        requires some { 1 ≤ k }
        requires few { k ≤ 64 }
        ensures first_buffer { buffer_of result.0 ≡ buffer_of self.entry }
        ensures first_range { range_of result.0 ≡ cut_of (buffer_of self.entry) (range_of self.entry) k 0 }
        ensures rest_buffer { buffer_of result.1 ≡ buffer_of self.entry }
        ensures rest_range { range_of result.1
            ≡ record { from = (range_of result.0).to; to = (range_of self.entry).to } }
    {
        let first = self.cut(k, 0);
        (
            first,
            Part {
                buffer: self.buffer,
                start: first.end,
                end: self.end,
            },
        )
    }

    /// Returns an iterator over the `k` cuts of the part, in order, which are found in one pass over it. The caller must
    /// ensure that `k` is from 1 to 64.
    pub fn cuts(self, k: usize) -> Cuts<'a>
        requires some { 1 ≤ k }
        requires few { k ≤ 64 }
        ensures part { part_cut result ≡ self.entry }
        ensures count { cut_count result ≡ k }
        ensures given { cuts_given result ≡ 0 }
    {
        Cuts::of(self, k)
    }

    /// Returns this part and `next` as one part, or `None` if `next` does not begin where this part ends. The caller must
    /// ensure that both are parts of the same buffer.
    pub fn join(self, next: Part<'a>) -> Option<Part<'a>>
        requires { buffer_of self ≡ buffer_of next }
        ensures meet { IsSome result ↔ ((range_of self.entry).to ≡ (range_of next.entry).from) }
        ensures buffer { IfSome result (λ both. buffer_of both ≡ buffer_of self.entry) }
        ensures range { IfSome result (λ both. range_of both
            ≡ record { from = (range_of self.entry).from; to = (range_of next.entry).to }) }
    {
        if self.end != next.start {
            return None;
        }
        Some(Part {
            buffer: self.buffer,
            start: self.start,
            end: next.end,
        })
    }

    /// Returns an iterator over the part's lines, in order.
    pub fn lines(self) -> Lines<'a>
        ensures source { source_of result ≡ buffer_of self.entry }
        ensures range { range_left result ≡ range_of self.entry }
        ensures lines { lines_left result ≡ lines_of (buffer_of self.entry) (range_of self.entry) }
        ensures count { length (lines_left result) + (range_of self.entry).from ≤ (range_of self.entry).to }
    {
        Lines::over(self.buffer, self.start, self.end)
    }

    // Returns the place where cut `i` of `k` starts and the cut before it ends.
    fn cut_point(self, k: usize, i: usize) -> usize
        requires some { 1 ≤ k }
        requires few { k ≤ 64 }
        requires within { i ≤ k }
        ensures { result ≡ cut_point (buffer_of self.entry) (range_of self.entry) k i }
    {
        if i == 0 {
            return self.start;
        }
        if i == k {
            return self.end;
        }
        self.next_start(self.start + steps(self.end - self.start, k, i))
    }

    // Returns the first line start of the part from a place on, or the part's end if there is none.
    pub(crate) fn next_start(self, place: usize) -> usize
        requires { place ≤ self.end }
        ensures { result ≡ next_start (buffer_of self.entry) place ((range_of self.entry).to - place) }
    {
        if place == 0 {
            return 0;
        }
        match memchr(b'\n', &self.buffer[place - 1..self.end]) {
            Some(length) => place + length,
            None => self.end,
        }
    }
}

// Returns the length of the first `i` of `k` equal steps through `length`, rounded down.
pub(crate) fn steps(length: usize, k: usize, i: usize) -> usize
    requires some { 1 ≤ k }
    requires few { k ≤ 64 }
    requires within { i ≤ k }
    ensures { result ≡ i * length / k }
{
    (i as u128 * length as u128 / k as u128) as usize
}
