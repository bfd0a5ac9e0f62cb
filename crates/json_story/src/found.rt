//! The lines that a kernel answered, which may be millions: no value is made of them.

ghost use Rattle.std.specs.Prelude.{◌≡◌, ◌++◌, OnOk, map, codes, true};
ghost use Rattle.serde_json.specs.Data.{Members, member};
ghost use Rattle.serde_json.specs.Written.{compact_text, members_text};
ghost use Rattle.job_story.specs.Held.{span_in};
ghost use Rattle.json_story.specs.Values.{list_of};
ghost use Rattle.json_story.specs.Events.{found_json, span_json};

use crate::{label_value, push_comma, push_first_member, push_key, push_member};
use basics::push_number;
use exceptions::Label;
use job_story::Span;
use serde_json::Value;
use std::alloc::{AllocError, Global};

// Appends the event that a kernel of a task answered some lines in a tick.
pub(crate) fn push_found(
    alloc: Global,
    out: &mut Vec<u8>,
    task: &Label,
    tick: u64,
    lines: &[Span],
) -> Result<(), AllocError>
    ensures { OnOk result (out.new.items ≡ out.old.items ++ compact_text (found_json task.now tick (map span_in lines.now))) }
{
    push_first_member(alloc, out, "event", &Value::try_from_str(alloc, "finds")?)?;
    push_lines(out, lines)?;
    push_member(alloc, out, "task", &label_value(alloc, task)?)?;
    push_member(alloc, out, "tick", &Value::from(tick))?;
    out.push(b'}')?;
    Ok(())
}

// Appends the member `lines`.
fn push_lines(out: &mut Vec<u8>, lines: &[Span]) -> Result<(), AllocError>
    ensures { OnOk result ((later : Members) → out.new.items ++ members_text true later
        ≡ out.old.items ++ members_text true (member (codes "lines") (list_of (map span_json (map span_in lines.now))) later)) }
{
    out.push(b',')?;
    push_key(out, "lines")?;
    push_spans(out, lines)?;
    Ok(())
}

// Appends the places of lines as a JSON array.
fn push_spans(out: &mut Vec<u8>, lines: &[Span]) -> Result<(), AllocError>
    ensures { OnOk result (out.new.items ≡ out.old.items ++ compact_text (list_of (map span_json (map span_in lines.now)))) }
{
    out.push(b'[')?;
    'lines: for (i, line) in lines.iter().enumerate() {
        push_comma(out, i)?;
        push_span(out, *line)?;
    }
    out.push(b']')?;
    Ok(())
}

// Appends the place of a line as a JSON object.
fn push_span(out: &mut Vec<u8>, line: Span) -> Result<(), AllocError>
    ensures { OnOk result (out.new.items ≡ out.old.items ++ compact_text (span_json (span_in line))) }
{
    out.extend_from_slice(b"{\"at\":")?;
    push_number(out, line.at as u64)?;
    out.extend_from_slice(b",\"length\":")?;
    push_number(out, line.len as u64)?;
    out.extend_from_slice(b"}")?;
    Ok(())
}
