ghost use Rattle.std.specs.Prelude.{◌≡◌, ◌++◌, [], map, codes, IfOk, OnOk};
ghost use Rattle.svg.specs.Escaping.{escaped_text};
ghost use Rattle.svg.specs.declared.names.Tag.TheVariants as tags;
ghost use Rattle.page.specs.Fronts.{front, after_front};
ghost use Rattle.page.specs.Markup.{link};
ghost use Rattle.page.specs.Lines.{line_id, row_id, is_place, placed_line, label_text, sentence_at, story_line, story_rest, story_after, table_row, shown_line, line_text, lines_from};
ghost use Rattle.page.specs.declared.front.ByteKind.TheVariants.{Dark};
ghost use Rattle.page.specs.Views.{row_held};

use crate::front::{ByteKind, split_front};
use crate::kind::LineKind;
use crate::markup::{begin_plain, push_link};
use crate::places::{Place, line_of_sentence};
use crate::rows::{Row, has_row};
use basics::push_number;
use std::alloc::{AllocError, Global};
use svg::{Tag, end, text};

// What the lines of a page link to.
#[derive(Clone, Copy)]
pub(crate) struct Links<'a> {
    // The names that the job gives.
    pub places: &'a [Place],
    // The rows of the chart.
    pub rows: &'a [Row],
}

// Appends the lines of a text, with their links.
pub(crate) fn push_lines(
    alloc: Global,
    out: &mut Vec<u8>,
    kind: LineKind,
    links: Links<'_>,
    bytes: &[u8],
) -> Result<(), AllocError>
    ensures { OnOk result (out.new.items ≡ out.old.items ++ lines_from kind links.entry.places.now (map row_held links.entry.rows.now) [] bytes.now) }
{
    let mut line = Vec::new(alloc);
    'bytes: for byte in bytes {
        if *byte == b'\n' {
            push_line(alloc, out, kind, links, line.as_slice())?;
            line.clear();
        } else {
            line.push(*byte)?;
        }
    }
    if line.is_empty() {
        return Ok(());
    }
    push_line(alloc, out, kind, links, line.as_slice())
}

// Appends a line.
fn push_line(
    alloc: Global,
    out: &mut Vec<u8>,
    kind: LineKind,
    links: Links<'_>,
    line: &[u8],
) -> Result<(), AllocError>
    ensures { OnOk result (out.new.items ≡ out.old.items ++ line_text kind links.entry.places.now (map row_held links.entry.rows.now) line.now) }
{
    push_shown(alloc, out, kind, links, line)?;
    out.extend_from_slice(b"\n")
}

// Appends what is shown of a line.
fn push_shown(
    alloc: Global,
    out: &mut Vec<u8>,
    kind: LineKind,
    links: Links<'_>,
    line: &[u8],
) -> Result<(), AllocError>
    ensures { OnOk result (out.new.items ≡ out.old.items ++ shown_line kind links.entry.places.now (map row_held links.entry.rows.now) line.now) }
{
    match kind {
        LineKind::Plain => text(out, line),
        LineKind::Placed => push_placed_row(alloc, out, line),
        LineKind::Story => push_story(alloc, out, links, line),
    }
}

// Appends a row of a table.
fn push_placed_row(alloc: Global, out: &mut Vec<u8>, line: &[u8]) -> Result<(), AllocError>
    ensures { OnOk result (out.new.items ≡ out.old.items ++ table_row tags.Td [] (placed_line line.now)) }
{
    begin_plain(out, Tag::Tr)?;
    begin_plain(out, Tag::Td)?;
    push_placed(alloc, out, line)?;
    end(out, Tag::Td)?;
    end(out, Tag::Tr)
}

// Appends a line of a table, whose place is a link to the line of the job.
fn push_placed(alloc: Global, out: &mut Vec<u8>, line: &[u8]) -> Result<(), AllocError>
    ensures { OnOk result (out.new.items ≡ out.old.items ++ placed_line line.now) }
{
    let (blanks, line) = split_front(ByteKind::Blank, line);
    let (number, after) = split_front(ByteKind::Digit, line);
    text(out, blanks)?;
    if !is_place(number, after) {
        return text(out, line);
    }
    push_place(alloc, out, number, line)
}

// Returns whether a number and what follows it begin with a place.
fn is_place(number: &[u8], after: &[u8]) -> bool
    ensures { result ≡ is_place number.now after.now }
{
    !number.is_empty() && after.first() == Some(&b':')
}

// Appends a line that begins with a place, whose line in the job has this number.
fn push_place(
    alloc: Global,
    out: &mut Vec<u8>,
    number: &[u8],
    line: &[u8],
) -> Result<(), AllocError>
    ensures { OnOk result (out.new.items ≡ out.old.items ++ link (codes "line-" ++ number.now) (front Dark line.now) ++ escaped_text (after_front Dark line.now)) }
{
    let (place, after) = split_front(ByteKind::Dark, line);
    let mut id = Vec::new(alloc);
    id.extend_from_slice(b"line-")?;
    id.extend_from_slice(number)?;
    push_link(alloc, out, id.as_slice(), place)?;
    text(out, after)
}

// Appends a line of a story: a task, with a link to its row, and a sentence, with a link to a line of the job.
fn push_story(
    alloc: Global,
    out: &mut Vec<u8>,
    links: Links<'_>,
    line: &[u8],
) -> Result<(), AllocError>
    ensures { OnOk result (out.new.items ≡ out.old.items ++ story_line links.entry.places.now (map row_held links.entry.rows.now) line.now) }
{
    let (blanks, rest) = split_front(ByteKind::Blank, line);
    text(out, blanks)?;
    push_story_rest(alloc, out, links, blanks, rest)
}

// Appends the rest of a line of a story, which speaks of a task if the line begins with blanks.
fn push_story_rest(
    alloc: Global,
    out: &mut Vec<u8>,
    links: Links<'_>,
    blanks: &[u8],
    rest: &[u8],
) -> Result<(), AllocError>
    ensures { OnOk result (out.new.items ≡ out.old.items ++ story_rest links.entry.places.now (map row_held links.entry.rows.now) blanks.now rest.now) }
{
    match blanks.first() {
        Some(_) => {
            let (label, after) = split_front(ByteKind::Dark, rest);
            push_story_of(alloc, out, links, label, after)
        }
        None => text(out, rest),
    }
}

// Appends what a story says of a task.
fn push_story_of(
    alloc: Global,
    out: &mut Vec<u8>,
    links: Links<'_>,
    label: &[u8],
    rest: &[u8],
) -> Result<(), AllocError>
    ensures { OnOk result (out.new.items ≡ out.old.items ++ story_after links.entry.places.now (map row_held links.entry.rows.now) label.now rest.now) }
{
    let (blanks, sentence) = split_front(ByteKind::Blank, rest);
    push_label(alloc, out, links.rows, label)?;
    text(out, blanks)?;
    push_sentence(
        alloc,
        out,
        line_of_sentence(links.places, label, sentence),
        sentence,
    )
}

// Appends the label of a task, with a link to its row if it has one.
fn push_label(
    alloc: Global,
    out: &mut Vec<u8>,
    rows: &[Row],
    label: &[u8],
) -> Result<(), AllocError>
    ensures { OnOk result (out.new.items ≡ out.old.items ++ label_text (map row_held rows.now) label.now) }
{
    if !has_row(rows, label) {
        return text(out, label);
    }
    let id = row_id(alloc, label)?;
    push_link(alloc, out, id.as_slice(), label)
}

// Returns the name of a row in the page.
pub(crate) fn row_id(alloc: Global, label: &[u8]) -> Result<Vec<u8>, AllocError>
    ensures { IfOk result (λ id. id.items ≡ row_id label.now) }
{
    let mut id = Vec::new(alloc);
    id.extend_from_slice(b"row-")?;
    id.extend_from_slice(label)?;
    Ok(id)
}

// Returns the name of a line of the job in the page.
pub(crate) fn line_id(alloc: Global, line: usize) -> Result<Vec<u8>, AllocError>
    ensures { IfOk result (λ id. id.items ≡ line_id line) }
{
    let mut id = Vec::new(alloc);
    id.extend_from_slice(b"line-")?;
    push_number(&mut id, line as u64)?;
    Ok(id)
}

// Appends a sentence, with a link to a line of the job if there is one.
fn push_sentence(
    alloc: Global,
    out: &mut Vec<u8>,
    line: Option<usize>,
    sentence: &[u8],
) -> Result<(), AllocError>
    ensures { OnOk result (out.new.items ≡ out.old.items ++ sentence_at line sentence.now) }
{
    let Some(line) = line else {
        return text(out, sentence);
    };
    let id = line_id(alloc, line)?;
    push_link(alloc, out, id.as_slice(), sentence)
}
