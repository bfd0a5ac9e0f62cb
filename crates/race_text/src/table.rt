ghost use Rattle.std.specs.Prelude.{◌≡◌, ◌++◌, IfOk, OnOk, length, map};
ghost use Rattle.race_text.specs.Lines.{is_shown, is_race, is_not_tried, is_hair_not_tried};
ghost use Rattle.race_text.specs.Table.{lines_that, widths_of, line_text, lines_text, races_text, counts_text, table_text, denied_text};
ghost use Rattle.race_text.specs.LineViews.{line_held};

use crate::columns::{Widths, hair_of, place_of, step_of};
use crate::finding::push_finding;
use crate::line::Line;
use outcomes::{push_count, push_left, push_more, push_right};
use std::alloc::{AllocError, Global};

/// Returns the text of the table: each line that is shown, in their order, how many hairs there are, how many lines are races,
/// and with how many hairs nothing was compared. The only error is that memory runs out.
pub fn race_table(alloc: Global, hairs: usize, lines: &[Line]) -> Result<Vec<u8>, AllocError>
    ensures { IfOk result (λ text. text.items ≡ table_text hairs (map line_held lines.now)) }
{
    let widths = widths_of(alloc, lines)?;
    let mut out = Vec::new(alloc);
    'lines: for line in lines {
        if line.is_shown() {
            push_line(alloc, &mut out, widths, line)?;
        }
    }
    push_counts(&mut out, hairs, lines)?;
    Ok(out)
}

/// Returns the lines of the table as they are in the text of `race_table`, without the counts: each is a race, or says that
/// nothing was compared, so that there may be one. The text is empty if there are none. The only error is that memory runs out.
pub fn race_denied(alloc: Global, lines: &[Line]) -> Result<Vec<u8>, AllocError>
    ensures { IfOk result (λ text. text.items ≡ denied_text (map line_held lines.now)) }
{
    let widths = widths_of(alloc, lines)?;
    let mut out = Vec::new(alloc);
    'lines: for line in lines {
        if line.is_shown() {
            push_line(alloc, &mut out, widths, line)?;
        }
    }
    Ok(out)
}

// Returns the widths of the columns: of the lines that are shown.
fn widths_of(alloc: Global, lines: &[Line]) -> Result<Widths, AllocError>
    ensures { IfOk result (λ widths. widths ≡ widths_of (lines_that is_shown (map line_held lines.now))) }
{
    let mut widths = Widths {
        place: 0,
        step: 0,
        hair: 0,
    };
    'lines: for line in lines {
        if line.is_shown() {
            widths = Widths {
                place: widths.place.max(place_of(alloc, line)?.len()),
                step: widths.step.max(step_of(alloc, line)?.len()),
                hair: widths.hair.max(hair_of(line).len()),
            };
        }
    }
    Ok(widths)
}

// Appends a line in columns.
fn push_line(
    alloc: Global,
    out: &mut Vec<u8>,
    widths: Widths,
    line: &Line,
) -> Result<(), AllocError>
    ensures { OnOk result (out.new.items ≡ out.old.items ++ line_text widths (line_held line.now)) }
{
    push_right(out, widths.place, place_of(alloc, line)?.as_slice())?;
    out.extend_from_slice(b"  ")?;
    push_left(out, widths.step, step_of(alloc, line)?.as_slice())?;
    out.extend_from_slice(b"  ")?;
    push_left(out, widths.hair, hair_of(line))?;
    out.extend_from_slice(b"  ")?;
    push_finding(out, line)?;
    out.extend_from_slice(b"\n")
}

// Appends how many hairs there are, how many lines are races, and with how many hairs nothing was compared, if there are any.
fn push_counts(out: &mut Vec<u8>, hairs: usize, lines: &[Line]) -> Result<(), AllocError>
    ensures { OnOk result (out.new.items ≡ out.old.items ++ counts_text hairs (map line_held lines.now)) }
{
    push_count(out, hairs, b" hairs: ")?;
    push_races(out, races_in(lines), not_tried_in(lines))?;
    push_more(out, hairs_not_tried_in(lines), b" hairs not tried")?;
    out.extend_from_slice(b"\n")
}

/// Returns how many lines are races.
pub fn races_in(lines: &[Line]) -> usize
    ensures { result ≡ length (lines_that is_race (map line_held lines.now)) }
{
    lines.iter().filter(|line| line.is_race()).count()
}

// Returns in how many lines nothing was compared.
fn not_tried_in(lines: &[Line]) -> usize
    ensures { result ≡ length (lines_that is_not_tried (map line_held lines.now)) }
{
    lines.iter().filter(|line| line.is_not_tried()).count()
}

/// Returns with how many hairs nothing was compared.
pub fn hairs_not_tried_in(lines: &[Line]) -> usize
    ensures { result ≡ length (lines_that is_hair_not_tried (map line_held lines.now)) }
{
    lines.iter().filter(|line| line.is_hair_not_tried()).count()
}

// Appends how many lines are races, given in how many nothing was compared.
fn push_races(out: &mut Vec<u8>, races: usize, untried: usize) -> Result<(), AllocError>
    ensures { OnOk result (out.new.items ≡ out.old.items ++ races_text races untried) }
{
    if races == 0 && untried == 0 {
        out.extend_from_slice(b"no race")
    } else {
        push_count(out, races, b" races")
    }
}
