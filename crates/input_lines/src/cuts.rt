ghost use Rattle.std.specs.Prelude.{◌≡◌, ◌+◌, ◌<◌, ◌≤◌};
ghost use Rattle.input_lines.specs.Cuts.{cut_point};
ghost use Rattle.input_lines.specs.Part.{buffer_of, range_of};

use crate::part::{Part, steps};

/// The cuts of a part, in order. The search for the end of a cut begins where the cut before it ended.
#[derive(Drop)]
pub struct Cuts<'a> {
    part: Part<'a>,
    count: usize,
    given: usize,
    start: usize,
    ghost some: { 1 ≤ count },
    ghost few: { count ≤ 64 },
    ghost within: { given ≤ count },
    ghost here: { start ≡ cut_point (buffer_of part) (range_of part) count given },
}

impl<'a> Cuts<'a> {
    ghost use Rattle.input_lines.specs.Giving.{part_cut, cut_count, cuts_given, GivesCut};

    // Creates the iterator over `count` cuts of a part, of which none has been returned yet.
    pub(crate) fn of(part: Part<'a>, count: usize) -> Cuts<'a>
        requires some { 1 ≤ count }
        requires few { count ≤ 64 }
        ensures part { part_cut result ≡ part.entry }
        ensures count { cut_count result ≡ count }
        ensures given { cuts_given result ≡ 0 }
    {
        Cuts {
            part,
            count,
            given: 0,
            start: part.start,
        }
    }

    /// Returns the next cut. The caller must ensure that one is left. A part has as many cuts as were asked of `Part::cuts`.
    pub fn next_cut(&mut self) -> Part<'a>
        requires { cuts_given self.old < cut_count self.old }
        ensures { GivesCut self.old result self.new }
    {
        let end = self.next_end();
        let cut = Part {
            buffer: self.part.buffer,
            start: self.start,
            end,
        };
        self.given += 1;
        self.start = end;
        cut
    }

    // Returns the place where the next cut ends. If the last cut ended at or after the next step, the next cut ends there
    // too, and is empty.
    fn next_end(&self) -> usize
        requires { self.now.given < self.now.count }
        ensures { result ≡ cut_point (buffer_of self.now.part) (range_of self.now.part) self.now.count (self.now.given + 1) }
    {
        let part = self.part;
        if self.given + 1 == self.count {
            return part.end;
        }
        let place = part.start + steps(part.end - part.start, self.count, self.given + 1);
        if place <= self.start {
            return self.start;
        }
        part.next_start(place)
    }
}
