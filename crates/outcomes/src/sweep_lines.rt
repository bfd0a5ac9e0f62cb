ghost use Rattle.std.specs.Prelude.{◌≡◌, ◌++◌, IfOk, OnOk, codes, map};
ghost use Rattle.std.specs.Option.{option_map};
ghost use Rattle.outcomes.specs.Table.{left_text};
ghost use Rattle.outcomes.specs.Views.{job_outcome_held};
ghost use Rattle.outcomes.specs.Groups.{group_of_one};
ghost use Rattle.outcomes.specs.Sweeps.{span_text, range_text, ends_text, ending_text, width_of, group_text, groups_text, sweep_text};
ghost use Rattle.outcomes.specs.SweepViews.{ends_held, group_held, value_held};

use crate::group::{Ends, Group};
use crate::groups::groups_of;
use crate::sweep_counts::push_counts;
use crate::value::Value;
use crate::{JobOutcome, push_left};
use basics::push_number;
use std::alloc::{AllocError, Global};

/// Returns the text of a sweep: the outcome of the job with its own value (`first`), the outcome for each group of neighbouring
/// values with the same outcome apart from ticks, and how many values there are of each kind. `limit` is the last tick at which
/// the job may end. The only error is that memory runs out.
pub fn sweep_table(
    alloc: Global,
    limit: u64,
    first: &JobOutcome,
    values: &[Value],
) -> Result<Vec<u8>, AllocError>
    ensures { IfOk result (λ text. text.items ≡ sweep_text limit (job_outcome_held first.now) (map value_held values.now)) }
{
    let groups = groups_of(alloc, limit, values)?;
    let width = width_of(alloc, groups.as_slice())?;
    let mut out = Vec::new(alloc);
    push_first(&mut out, width, &Group::of_one(alloc, limit, 0, first)?)?;
    push_groups(alloc, &mut out, width, groups.as_slice())?;
    push_counts(&mut out, values)?;
    Ok(out)
}

// Returns the length of the longest range, or that of `as it is` if that is more.
fn width_of(alloc: Global, groups: &[Group]) -> Result<usize, AllocError>
    ensures { IfOk result (λ width. width ≡ width_of (map group_held groups.now)) }
{
    let mut width = b"as it is".len();
    'groups: for group in groups {
        width = width.max(range_of(alloc, group)?.len());
    }
    Ok(width)
}

// Returns the values of a group, as `FIRST..LAST`, or as one number if there is only one.
fn range_of(alloc: Global, group: &Group) -> Result<Vec<u8>, AllocError>
    ensures { IfOk result (λ text. text.items ≡ range_text (group_held group.now)) }
{
    let mut text = Vec::new(alloc);
    push_span(&mut text, group.first, group.last)?;
    Ok(text)
}

// Appends the outcome of the job with its own value.
fn push_first(out: &mut Vec<u8>, width: usize, first: &Group) -> Result<(), AllocError>
    ensures { OnOk result (out.new.items
        ≡ out.old.items ++ (left_text width (codes "as it is") ++ codes "  " ++ ending_text (group_held first.now))) }
{
    push_left(out, width, b"as it is")?;
    out.extend_from_slice(b"  ")?;
    push_ending(out, first)
}

// Appends a line for each group.
fn push_groups(
    alloc: Global,
    out: &mut Vec<u8>,
    width: usize,
    groups: &[Group],
) -> Result<(), AllocError>
    ensures { OnOk result (out.new.items ≡ out.old.items ++ groups_text width (map group_held groups.now)) }
{
    'groups: for group in groups {
        push_group(alloc, out, width, group)?;
    }
    Ok(())
}

// Appends the line of a group.
fn push_group(
    alloc: Global,
    out: &mut Vec<u8>,
    width: usize,
    group: &Group,
) -> Result<(), AllocError>
    ensures { OnOk result (out.new.items ≡ out.old.items ++ group_text width (group_held group.now)) }
{
    push_left(out, width, range_of(alloc, group)?.as_slice())?;
    out.extend_from_slice(b"  ")?;
    push_ending(out, group)
}

// Appends the text of a group.
fn push_ending(out: &mut Vec<u8>, group: &Group) -> Result<(), AllocError>
    ensures { OnOk result (out.new.items ≡ out.old.items ++ ending_text (group_held group.now)) }
{
    out.extend_from_slice(group.head.as_slice())?;
    push_ends(out, group.ends)?;
    out.extend_from_slice(group.notes.as_slice())?;
    out.extend_from_slice(b"\n")
}

// Appends the earliest and the latest end, if there are any.
fn push_ends(out: &mut Vec<u8>, ends: Option<Ends>) -> Result<(), AllocError>
    ensures { OnOk result (out.new.items ≡ out.old.items ++ ends_text (option_map ends_held ends)) }
{
    let Some(ends) = ends else {
        return Ok(());
    };
    out.extend_from_slice(b", ends ")?;
    push_span(out, ends.least, ends.greatest)
}

// Appends two numbers with two dots between them, or a single number if they are equal.
fn push_span(out: &mut Vec<u8>, first: u64, last: u64) -> Result<(), AllocError>
    ensures { OnOk result (out.new.items ≡ out.old.items ++ span_text first last) }
{
    push_number(out, first)?;
    if first == last {
        return Ok(());
    }
    out.extend_from_slice(b"..")?;
    push_number(out, last)
}
