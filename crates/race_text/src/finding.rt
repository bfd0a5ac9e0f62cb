ghost use Rattle.std.specs.Prelude.{◌≡◌, ◌++◌, OnOk, map};
ghost use Rattle.race_text.specs.RowViews.{difference_held};
ghost use Rattle.race_text.specs.Lines.{difference_text, more_differences, differences_text, found_text};
ghost use Rattle.race_text.specs.Table.{finding_text};
ghost use Rattle.race_text.specs.LineViews.{found_held, line_held};

use crate::Difference;
use crate::line::{Found, Line};
use basics::push_number;
use exceptions::push_label;
use outcomes::{push_count, push_not_tried};
use std::alloc::AllocError;

// How many differences are shown after the first one.
const MORE: usize = 2;

// Appends what a line says of its place.
pub(crate) fn push_finding(out: &mut Vec<u8>, line: &Line) -> Result<(), AllocError>
    ensures { OnOk result (out.new.items ≡ out.old.items ++ finding_text (line_held line.now)) }
{
    match line {
        Line::InFinerTicks(found) | Line::Moved { found, .. } => push_found(out, found),
        Line::Copies {
            one,
            other,
            tick,
            ..
        } => {
            push_label(out, one)?;
            out.extend_from_slice(b" and ")?;
            push_label(out, other)?;
            out.extend_from_slice(b" meet at ")?;
            push_number(out, *tick)
        }
    }
}

// Appends the result of running a changed text.
fn push_found(out: &mut Vec<u8>, found: &Found) -> Result<(), AllocError>
    ensures { OnOk result (out.new.items ≡ out.old.items ++ found_text (found_held found.now)) }
{
    match found {
        Found::NotTried(fault) => push_not_tried(out, fault),
        Found::Differs(tasks) => push_differences(out, tasks.as_slice()),
    }
}

// Appends at most three differences, and how many more there are.
fn push_differences(out: &mut Vec<u8>, tasks: &[Difference]) -> Result<(), AllocError>
    ensures { OnOk result (out.new.items ≡ out.old.items ++ differences_text (map difference_held tasks.now)) }
{
    let Some((first, others)) = tasks.split_first() else {
        return Ok(());
    };
    push_difference(out, first)?;
    push_more(out, others)
}

// Appends each difference after a semicolon, up to the maximum number, and how many are left.
fn push_more(out: &mut Vec<u8>, tasks: &[Difference]) -> Result<(), AllocError>
    ensures { OnOk result (out.new.items ≡ out.old.items ++ more_differences 2 (map difference_held tasks.now)) }
{
    let mut room = MORE;
    let mut rest = tasks;
    'tasks: while let Some((task, others)) = rest.split_first() {
        if room == 0 {
            out.extend_from_slice(b"; and ")?;
            return push_count(out, rest.len(), b" more");
        }
        out.extend_from_slice(b"; ")?;
        push_difference(out, task)?;
        room -= 1;
        rest = others;
    }
    Ok(())
}

// Appends a task that differs.
fn push_difference(out: &mut Vec<u8>, difference: &Difference) -> Result<(), AllocError>
    ensures { OnOk result (out.new.items ≡ out.old.items ++ difference_text (difference_held difference.now)) }
{
    match difference {
        Difference::Otherwise {
            task,
            before,
            after,
        } => {
            push_label(out, task)?;
            out.extend_from_slice(b": ")?;
            out.extend_from_slice(before.as_slice())?;
            out.extend_from_slice(b" -> ")?;
            out.extend_from_slice(after.as_slice())
        }
        Difference::Inside { task } => {
            push_label(out, task)?;
            out.extend_from_slice(b": other lines or scopes")
        }
    }
}
