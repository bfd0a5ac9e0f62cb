//! `input_lines`: where cuts start, which parts join, and which lines a part has.

use crate::fixtures::wrong;
use input_lines::{Line, Part};
use std::alloc::{AllocError, Global};
use std::test::Fail;

// Three lines of two, one and four bytes.
const BUFFER: &[u8] = b"aa\nb\ncccc\n";

// Where a part starts, and how many bytes it has.
type Place = (usize, usize);

// Where a part starts, and how many bytes it has.
fn place(part: Part<'_>) -> Place {
    (part.at(), part.text().len())
}

// Where a part starts, how many bytes it has, and how many its buffer has.
fn place_and_buffer(part: Part<'_>) -> (usize, usize, usize) {
    (part.at(), part.text().len(), part.buffer().len())
}

// Cut `i` of `k` of a part.
fn cut_of(part: Part<'_>, at: (usize, usize)) -> Part<'_> {
    let (k, i) = at;
    if k > 64 || i >= k {
        return part;
    }
    part.cut(k, i)
}

// The one cut of one, which is the part itself.
const ALL: (usize, usize) = (1, 0);

// How many cuts and which one, the same for that cut, and the result for the cut of the cut.
const CUTS: &[((usize, usize), (usize, usize), (usize, usize, usize))] = &[
    ((3, 0), ALL, (0, 3, 10)),
    ((3, 1), ALL, (3, 7, 10)),
    ((3, 2), ALL, (10, 0, 10)),
    ((2, 0), ALL, (0, 5, 10)),
    ((2, 1), ALL, (5, 5, 10)),
    ((2, 0), (2, 0), (0, 3, 10)),
    ((2, 0), (2, 1), (3, 2, 10)),
    ((2, 1), (2, 0), (5, 5, 10)),
    ((2, 1), (2, 1), (10, 0, 10)),
];

// The number of cuts, and the result for the first of them and the rest.
const FIRSTS: &[(usize, (usize, usize, usize), (usize, usize, usize))] = &[
    (3, (0, 3, 10), (3, 7, 10)),
    (1, (0, 10, 10), (10, 0, 10)),
];

// The result for the first of the given number of cuts and the rest.
fn first_and_rest(k: usize) -> ((usize, usize, usize), (usize, usize, usize)) {
    if k == 0 || k > 64 {
        return ((0, 0, 0), (0, 0, 0));
    }
    let (first, rest) = Part::whole(BUFFER).first_of(k);
    (place_and_buffer(first), place_and_buffer(rest))
}

// Fails at the first row of cuts with another result.
fn cuts_are_shown() -> Result<(), Fail> {
    for i in 0..CUTS.len() {
        let (first, second, expected) = CUTS[i];
        if place_and_buffer(cut_of(cut_of(Part::whole(BUFFER), first), second)) != expected {
            return Err(wrong(i));
        }
    }
    Ok(())
}

#[test]
fn cuts_start_where_lines_start() -> Result<(), Fail> {
    cuts_are_shown()?;
    for i in 0..FIRSTS.len() {
        let (k, first, rest) = FIRSTS[i];
        if first_and_rest(k) != (first, rest) {
            return Err(wrong(i));
        }
    }
    Ok(())
}

// A buffer, and its three cuts. The second row is one line: all of it is in its first cut.
const THREE: &[(&'static [u8], Place, Place, Place)] = &[
    (BUFFER, (0, 3), (3, 7), (10, 0)),
    (b"aaaaaaaa", (0, 8), (8, 0), (8, 0)),
    (b"", (0, 0), (0, 0), (0, 0)),
];

// The three cuts of a buffer, one after another.
fn three_cuts(buffer: &[u8]) -> (Place, Place, Place) {
    let mut cuts = Part::whole(buffer).cuts(3);
    let first = place(cuts.next_cut());
    let second = place(cuts.next_cut());
    (first, second, place(cuts.next_cut()))
}

#[test]
fn cuts_come_in_order() -> Result<(), Fail> {
    for i in 0..THREE.len() {
        let (buffer, first, second, third) = THREE[i];
        if three_cuts(buffer) != (first, second, third) {
            return Err(wrong(i));
        }
    }
    Ok(())
}

// The place where two parts that are cuts of the buffer meet.
fn join_place(first: usize, next: usize) -> Option<Place> {
    if first >= 3 || next >= 3 {
        return None;
    }
    let whole = Part::whole(BUFFER);
    let both = whole.cut(3, first).join(whole.cut(3, next))?;
    Some(place(both))
}

#[test]
fn parts_join_where_they_meet(rt: HostRuntime) {
    assert!(rt; join_place(0, 1) == Some((0, 10)));
    assert!(rt; join_place(1, 0) == None);
    assert!(rt; join_place(0, 2) == None);
}

// A buffer, and its lines, each by its place and its length.
const LINES: &[(&'static [u8], &'static [Place])] = &[
    (BUFFER, &[(0, 2), (3, 1), (5, 4)]),
    (b"", &[]),
    (b"\n", &[(0, 0)]),
    (b"a\n\n\r\nlast", &[(0, 1), (2, 0), (3, 1), (5, 4)]),
];

// The lines of a buffer, each by its place and its length.
fn lines(alloc: Global, buffer: &[u8]) -> Result<Vec<Place>, AllocError> {
    let mut places = Vec::new(alloc);
    for line in Part::whole(buffer).lines() {
        places.push((line.at(), line.text().len()))?;
    }
    Ok(places)
}

// Whether a buffer has those lines.
fn has_lines(alloc: Global, buffer: &[u8], expected: &[Place]) -> Result<bool, AllocError> {
    let found = lines(alloc, buffer)?;
    Ok(found.as_slice() == expected)
}

// Fails at the first row with other lines.
fn lines_are_found(alloc: Global) -> Result<(), Fail> {
    for i in 0..LINES.len() {
        let (buffer, expected) = LINES[i];
        if !has_lines(alloc, buffer, expected)? {
            return Err(wrong(i));
        }
    }
    Ok(())
}

#[test]
fn lines_come_in_order(rt: HostRuntime) -> Result<(), Fail> {
    lines_are_found(rt.alloc())
}

// A buffer, a length, and the first two lines that are longer.
const LONGER: &[(&'static [u8], usize, Option<Place>, Option<Place>)] = &[
    (BUFFER, 0, Some((0, 2)), Some((3, 1))),
    (BUFFER, 1, Some((0, 2)), Some((5, 4))),
    (BUFFER, 2, Some((5, 4)), None),
    (BUFFER, 4, None, None),
    (b"a\n\nbb\nlast", 3, Some((6, 4)), None),
    (b"a\n\nbb\nlast", 1, Some((3, 2)), Some((6, 4))),
    (b"\n\n\n", 0, None, None),
    (b"", 0, None, None),
];

// Where a line starts, and how many bytes it has.
fn line_place(line: Option<Line<'_>>) -> Option<Place> {
    let line = line?;
    Some((line.at(), line.text().len()))
}

// The first two lines of a buffer that are longer.
fn two_longer(buffer: &[u8], length: usize) -> (Option<Place>, Option<Place>) {
    let mut lines = Part::whole(buffer).lines();
    let first = line_place(lines.next_longer_than(length));
    (first, line_place(lines.next_longer_than(length)))
}

#[test]
fn longer_lines_come_one_by_one() -> Result<(), Fail> {
    for i in 0..LONGER.len() {
        let (buffer, length, first, second) = LONGER[i];
        if two_longer(buffer, length) != (first, second) {
            return Err(wrong(i));
        }
    }
    Ok(())
}
