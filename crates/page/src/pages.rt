ghost use Rattle.std.specs.Prelude.{◌≡◌, ◌++◌, map, codes, IfOk, OnOk};
ghost use Rattle.svg.specs.Content.{end_tag};
ghost use Rattle.svg.specs.declared.names.Tag.TheVariants as tags;
ghost use Rattle.page.specs.Pages.{head, headed, lines, pre, table_head, table_body, table_element, table, row_anchor, row_anchors, chart_part, job_section, chart_section, contents, front_part, story_section, report_section, story_part, fault_table, changing_section, faults_section, race_table, races_section, tried_part, main_element, body, page_element, page_text};
ghost use Rattle.page.specs.Markup.{link};
ghost use Rattle.page.specs.Views.{row_held, shown_held};

use crate::cut::{push_hidden, split_shown};
use crate::job::{Warned, push_job};
use crate::kind::LineKind;
use crate::lines::{Links, push_lines, row_id};
use crate::markup::{begin_plain, begin_with, push_classed, push_link, push_plain};
use crate::places::Place;
use crate::rows::Row;
use crate::style::STYLE;
use basics::push_number;
use std::alloc::{AllocError, Global};
use svg::{Attr, Tag, attribute, begin, end, inside, text, y_of};

/// What a page shows of a job.
#[derive(Clone, Copy)]
pub struct Shown<'a> {
    /// The name of the job.
    pub name: &'a [u8],
    /// How it ends, in one sentence.
    pub outcome: &'a [u8],
    /// The job text.
    pub job: &'a [u8],
    /// The warnings about it.
    pub warned: &'a [Warned],
    /// The names that it gives.
    pub places: &'a [Place],
    /// The chart, which is an SVG document.
    pub chart: &'a [u8],
    /// The rows of the tasks in the chart.
    pub rows: &'a [Row],
    /// The story.
    pub story: &'a [u8],
    /// The table of the faults that change how the job ends.
    pub changing: &'a [u8],
    /// The table of all faults.
    pub faults: &'a [u8],
    /// The table of races.
    pub races: &'a [u8],
    /// The report.
    pub report: &'a [u8],
    /// How the page was made.
    pub made: &'a [u8],
}

/// Returns the page, which is always well formed. The only error is that memory runs out.
pub fn page_text(alloc: Global, shown: &Shown<'_>) -> Result<Vec<u8>, AllocError>
    ensures { IfOk result (λ page. page.items ≡ page_text (shown_held shown.now)) }
{
    let mut out = Vec::new(alloc);
    out.extend_from_slice(b"<!DOCTYPE html>\n")?;
    push_page_element(alloc, &mut out, shown)?;
    out.extend_from_slice(b"\n")?;
    Ok(out)
}

// Appends the one element of the page.
fn push_page_element(alloc: Global, out: &mut Vec<u8>, shown: &Shown<'_>) -> Result<(), AllocError>
    ensures { OnOk result (out.new.items ≡ out.old.items ++ page_element (shown_held shown.now)) }
{
    begin_with(out, Tag::Html, Attr::Lang, b"en")?;
    push_head(out, shown)?;
    push_body(alloc, out, shown)?;
    end(out, Tag::Html)
}

// Appends the head of the page.
fn push_head(out: &mut Vec<u8>, shown: &Shown<'_>) -> Result<(), AllocError>
    ensures { OnOk result (out.new.items ≡ out.old.items ++ head (shown_held shown.now)) }
{
    begin_plain(out, Tag::Head)?;
    push_plain(out, Tag::Title, shown.name)?;
    push_plain(out, Tag::Style, STYLE)?;
    end(out, Tag::Head)
}

// Appends the body of the page.
fn push_body(alloc: Global, out: &mut Vec<u8>, shown: &Shown<'_>) -> Result<(), AllocError>
    ensures { OnOk result (out.new.items ≡ out.old.items ++ body (shown_held shown.now)) }
{
    begin_plain(out, Tag::Body)?;
    push_main(alloc, out, shown)?;
    push_plain(out, Tag::Footer, shown.made)?;
    end(out, Tag::Body)
}

// Appends everything but the last line.
fn push_main(alloc: Global, out: &mut Vec<u8>, shown: &Shown<'_>) -> Result<(), AllocError>
    ensures { OnOk result (out.new.items ≡ out.old.items ++ main_element (shown_held shown.now)) }
{
    begin_plain(out, Tag::Main)?;
    push_front(alloc, out, shown)?;
    push_story(alloc, out, shown)?;
    push_tried(alloc, out, shown)?;
    end(out, Tag::Main)
}

// Appends the name, how the job ends, its text and its chart.
fn push_front(alloc: Global, out: &mut Vec<u8>, shown: &Shown<'_>) -> Result<(), AllocError>
    ensures { OnOk result (out.new.items ≡ out.old.items ++ front_part (shown_held shown.now)) }
{
    push_plain(out, Tag::H1, shown.name)?;
    out.extend_from_slice(b"\n")?;
    push_classed(out, Tag::P, b"outcome", shown.outcome)?;
    out.extend_from_slice(b"\n")?;
    push_contents(alloc, out)?;
    out.extend_from_slice(b"\n")?;
    push_job_section(alloc, out, shown)?;
    push_chart_section(alloc, out, shown)
}

// Appends links to the sections.
fn push_contents(alloc: Global, out: &mut Vec<u8>) -> Result<(), AllocError>
    ensures { OnOk result (out.new.items ≡ out.old.items ++ contents) }
{
    begin_plain(out, Tag::Nav)?;
    push_link_line(alloc, out, b"job", b"Job")?;
    push_link_line(alloc, out, b"chart", b"Chart")?;
    push_link_line(alloc, out, b"story", b"Story")?;
    push_link_line(alloc, out, b"report", b"Report")?;
    push_link_line(alloc, out, b"changing", b"Faults")?;
    push_link(alloc, out, b"races", b"Races")?;
    end(out, Tag::Nav)
}

// Appends a link on a line of its own.
fn push_link_line(
    alloc: Global,
    out: &mut Vec<u8>,
    id: &[u8],
    shown: &[u8],
) -> Result<(), AllocError>
    ensures { OnOk result (out.new.items ≡ out.old.items ++ (link id.now shown.now ++ codes "\n")) }
{
    push_link(alloc, out, id, shown)?;
    out.extend_from_slice(b"\n")
}

// Appends the section of the job.
fn push_job_section(alloc: Global, out: &mut Vec<u8>, shown: &Shown<'_>) -> Result<(), AllocError>
    ensures { OnOk result (out.new.items ≡ out.old.items ++ job_section (shown_held shown.now)) }
{
    begin_section(out, b"job", b"Job")?;
    begin_plain(out, Tag::Pre)?;
    push_job(alloc, out, shown.warned, shown.job)?;
    end(out, Tag::Pre)?;
    end_section(out)
}

// Appends the section of the chart.
fn push_chart_section(alloc: Global, out: &mut Vec<u8>, shown: &Shown<'_>) -> Result<(), AllocError>
    ensures { OnOk result (out.new.items ≡ out.old.items ++ chart_section (shown_held shown.now)) }
{
    begin_section(out, b"chart", b"Chart")?;
    push_chart(alloc, out, shown)?;
    end_section(out)
}

// Appends the chart, over which there is an element where each row of a task begins.
fn push_chart(alloc: Global, out: &mut Vec<u8>, shown: &Shown<'_>) -> Result<(), AllocError>
    ensures { OnOk result (out.new.items ≡ out.old.items ++ chart_part (shown_held shown.now)) }
{
    begin_with(out, Tag::Div, Attr::Class, b"chart")?;
    push_row_anchors(alloc, out, shown.rows)?;
    out.extend_from_slice(shown.chart)?;
    end(out, Tag::Div)
}

// Appends an element for each row of a task, where the row begins.
fn push_row_anchors(alloc: Global, out: &mut Vec<u8>, rows: &[Row]) -> Result<(), AllocError>
    ensures { OnOk result (out.new.items ≡ out.old.items ++ row_anchors (map row_held rows.now)) }
{
    let mut rest = rows;
    'rows: while let Some((row, others)) = rest.split_first() {
        push_row_anchor(alloc, out, row)?;
        rest = others;
    }
    Ok(())
}

// Appends an element where a row begins.
fn push_row_anchor(alloc: Global, out: &mut Vec<u8>, row: &Row) -> Result<(), AllocError>
    ensures { OnOk result (out.new.items ≡ out.old.items ++ row_anchor (row_held row.now)) }
{
    let id = row_id(alloc, row.label.as_slice())?;
    let mut top = Vec::new(alloc);
    top.extend_from_slice(b"top:")?;
    push_number(&mut top, y_of(row.row))?;
    top.extend_from_slice(b"px")?;
    begin(out, Tag::Span)?;
    attribute(out, Attr::Id, id.as_slice())?;
    attribute(out, Attr::Style, top.as_slice())?;
    inside(out)?;
    end(out, Tag::Span)
}

// Appends what happens in the job: the story and the report.
fn push_story(alloc: Global, out: &mut Vec<u8>, shown: &Shown<'_>) -> Result<(), AllocError>
    ensures { OnOk result (out.new.items ≡ out.old.items ++ story_part (shown_held shown.now)) }
{
    push_story_section(alloc, out, shown)?;
    push_report_section(alloc, out, shown)
}

// Appends the section of the story.
fn push_story_section(alloc: Global, out: &mut Vec<u8>, shown: &Shown<'_>) -> Result<(), AllocError>
    ensures { OnOk result (out.new.items ≡ out.old.items ++ story_section (shown_held shown.now)) }
{
    begin_folded(out, b"story", b"Story")?;
    push_pre(alloc, out, LineKind::Story, shown, shown.story)?;
    end_folded(out)
}

// Appends the section of the report.
fn push_report_section(
    alloc: Global,
    out: &mut Vec<u8>,
    shown: &Shown<'_>,
) -> Result<(), AllocError>
    ensures { OnOk result (out.new.items ≡ out.old.items ++ report_section (shown_held shown.now)) }
{
    begin_folded(out, b"report", b"Report")?;
    push_pre(alloc, out, LineKind::Plain, shown, shown.report)?;
    end_folded(out)
}

// Appends what changes with a fault or a hair.
fn push_tried(alloc: Global, out: &mut Vec<u8>, shown: &Shown<'_>) -> Result<(), AllocError>
    ensures { OnOk result (out.new.items ≡ out.old.items ++ tried_part (shown_held shown.now)) }
{
    push_changing_section(alloc, out, shown)?;
    push_faults_section(alloc, out, shown)?;
    push_races_section(alloc, out, shown)
}

// Appends the section of the faults that change how the job ends.
fn push_changing_section(
    alloc: Global,
    out: &mut Vec<u8>,
    shown: &Shown<'_>,
) -> Result<(), AllocError>
    ensures { OnOk result (out.new.items ≡ out.old.items ++ changing_section (shown_held shown.now)) }
{
    begin_section(out, b"changing", b"Faults that change the outcome")?;
    push_fault_table(alloc, out, shown, shown.changing)?;
    end_section(out)
}

// Appends the section of all faults.
fn push_faults_section(
    alloc: Global,
    out: &mut Vec<u8>,
    shown: &Shown<'_>,
) -> Result<(), AllocError>
    ensures { OnOk result (out.new.items ≡ out.old.items ++ faults_section (shown_held shown.now)) }
{
    begin_folded(out, b"faults", b"All faults")?;
    push_fault_table(alloc, out, shown, shown.faults)?;
    end_folded(out)
}

// Appends the section of the races.
fn push_races_section(alloc: Global, out: &mut Vec<u8>, shown: &Shown<'_>) -> Result<(), AllocError>
    ensures { OnOk result (out.new.items ≡ out.old.items ++ races_section (shown_held shown.now)) }
{
    begin_section(out, b"races", b"Races")?;
    push_race_table(alloc, out, shown)?;
    end_section(out)
}

// Appends the table of the races.
fn push_race_table(alloc: Global, out: &mut Vec<u8>, shown: &Shown<'_>) -> Result<(), AllocError>
    ensures { OnOk result (out.new.items ≡ out.old.items ++ race_table (shown_held shown.now)) }
{
    let columns = b"Place, step, change and what differs";
    push_table(alloc, out, columns, shown, shown.races)
}

// Appends a table of faults.
fn push_fault_table(
    alloc: Global,
    out: &mut Vec<u8>,
    shown: &Shown<'_>,
    bytes: &[u8],
) -> Result<(), AllocError>
    ensures { OnOk result (out.new.items ≡ out.old.items ++ fault_table (shown_held shown.now) bytes.now) }
{
    push_table(alloc, out, b"Place, step, fault and outcome", shown, bytes)
}

// Appends a table, of which each row is a line, and how many lines are not shown.
fn push_table(
    alloc: Global,
    out: &mut Vec<u8>,
    columns: &[u8],
    shown: &Shown<'_>,
    bytes: &[u8],
) -> Result<(), AllocError>
    ensures { OnOk result (out.new.items ≡ out.old.items ++ table columns.now (shown_held shown.now) bytes.now) }
{
    push_table_element(alloc, out, columns, shown, bytes)?;
    push_hidden(alloc, out, bytes)
}

// Appends a table, of which each row is a line.
fn push_table_element(
    alloc: Global,
    out: &mut Vec<u8>,
    columns: &[u8],
    shown: &Shown<'_>,
    bytes: &[u8],
) -> Result<(), AllocError>
    ensures { OnOk result (out.new.items ≡ out.old.items ++ table_element columns.now (shown_held shown.now) bytes.now) }
{
    begin_plain(out, Tag::Table)?;
    push_table_head(out, columns)?;
    push_table_body(alloc, out, shown, bytes)?;
    end(out, Tag::Table)
}

// Appends the rows of a table.
fn push_table_body(
    alloc: Global,
    out: &mut Vec<u8>,
    shown: &Shown<'_>,
    bytes: &[u8],
) -> Result<(), AllocError>
    ensures { OnOk result (out.new.items ≡ out.old.items ++ table_body (shown_held shown.now) bytes.now) }
{
    begin_plain(out, Tag::Tbody)?;
    push_first_lines(alloc, out, LineKind::Placed, shown, bytes)?;
    end(out, Tag::Tbody)
}

// Appends the head of a table, which says what the lines consist of.
fn push_table_head(out: &mut Vec<u8>, columns: &[u8]) -> Result<(), AllocError>
    ensures { OnOk result (out.new.items ≡ out.old.items ++ table_head columns.now) }
{
    begin_plain(out, Tag::Thead)?;
    begin_plain(out, Tag::Tr)?;
    begin_with(out, Tag::Th, Attr::Scope, b"col")?;
    text(out, columns)?;
    end(out, Tag::Th)?;
    end(out, Tag::Tr)?;
    end(out, Tag::Thead)
}

// Appends the first lines of a text as they are.
fn push_pre(
    alloc: Global,
    out: &mut Vec<u8>,
    kind: LineKind,
    shown: &Shown<'_>,
    bytes: &[u8],
) -> Result<(), AllocError>
    ensures { OnOk result (out.new.items ≡ out.old.items ++ pre kind (shown_held shown.now) bytes.now) }
{
    begin_plain(out, Tag::Pre)?;
    push_first_lines(alloc, out, kind, shown, bytes)?;
    end(out, Tag::Pre)?;
    push_hidden(alloc, out, bytes)
}

// Appends the first lines of a text.
fn push_first_lines(
    alloc: Global,
    out: &mut Vec<u8>,
    kind: LineKind,
    shown: &Shown<'_>,
    bytes: &[u8],
) -> Result<(), AllocError>
    ensures { OnOk result (out.new.items ≡ out.old.items ++ lines kind (shown_held shown.now) bytes.now) }
{
    let links = Links {
        places: shown.places,
        rows: shown.rows,
    };
    let (first, _) = split_shown(bytes);
    push_lines(alloc, out, kind, links, first)
}

// Begins a section, with its heading.
fn begin_section(out: &mut Vec<u8>, id: &[u8], heading: &[u8]) -> Result<(), AllocError>
    ensures { OnOk result (out.new.items ≡ out.old.items ++ headed tags.Section tags.H2 id.now heading.now) }
{
    begin_with(out, Tag::Section, Attr::Id, id)?;
    push_plain(out, Tag::H2, heading)
}

// Ends a section.
fn end_section(out: &mut Vec<u8>) -> Result<(), AllocError>
    ensures { OnOk result (out.new.items ≡ out.old.items ++ (end_tag tags.Section ++ codes "\n")) }
{
    end(out, Tag::Section)?;
    out.extend_from_slice(b"\n")
}

// Begins a section that can be folded, with its heading.
fn begin_folded(out: &mut Vec<u8>, id: &[u8], heading: &[u8]) -> Result<(), AllocError>
    ensures { OnOk result (out.new.items ≡ out.old.items ++ headed tags.Details tags.Summary id.now heading.now) }
{
    begin_with(out, Tag::Details, Attr::Id, id)?;
    push_plain(out, Tag::Summary, heading)
}

// Ends a section that can be folded.
fn end_folded(out: &mut Vec<u8>) -> Result<(), AllocError>
    ensures { OnOk result (out.new.items ≡ out.old.items ++ (end_tag tags.Details ++ codes "\n")) }
{
    end(out, Tag::Details)?;
    out.extend_from_slice(b"\n")
}
