ghost use Rattle.std.specs.Prelude.{◌≡◌, ◌++◌, OnOk, map};
ghost use Rattle.outcomes.specs.JobOutcomes.{is_stuck, has_cut, is_refused};
ghost use Rattle.outcomes.specs.Sweeps.{count, values_text, counts_text};
ghost use Rattle.outcomes.specs.SweepViews.{value_held};

use crate::value::Value;
use crate::{push_count, push_more};
use std::alloc::AllocError;

// Appends how many values there are of each kind.
pub(crate) fn push_counts(out: &mut Vec<u8>, values: &[Value]) -> Result<(), AllocError>
    ensures { OnOk result (out.new.items ≡ out.old.items ++ counts_text (map value_held values.now)) }
{
    push_values(out, values.len())?;
    push_count(out, stuck_in(values), b" stuck, ")?;
    push_count(out, cut_in(values), b" cut a cleanup")?;
    push_more(out, refused_in(values), b" refused")?;
    out.extend_from_slice(b"\n")
}

// Returns for how many values the job does not end by the limit.
fn stuck_in(values: &[Value]) -> usize
    ensures { result ≡ count is_stuck (map value_held values.now) }
{
    values
        .iter()
        .filter(|value| value.job_outcome.is_stuck())
        .count()
}

// Returns for how many values the job cuts a cleanup.
fn cut_in(values: &[Value]) -> usize
    ensures { result ≡ count has_cut (map value_held values.now) }
{
    values
        .iter()
        .filter(|value| value.job_outcome.has_cut())
        .count()
}

// Returns for how many values the text is refused.
fn refused_in(values: &[Value]) -> usize
    ensures { result ≡ count is_refused (map value_held values.now) }
{
    values
        .iter()
        .filter(|value| value.job_outcome.is_refused())
        .count()
}

// Appends how many values there are.
fn push_values(out: &mut Vec<u8>, n: usize) -> Result<(), AllocError>
    ensures { OnOk result (out.new.items ≡ out.old.items ++ values_text n) }
{
    if n == 1 {
        push_count(out, n, b" value: ")
    } else {
        push_count(out, n, b" values: ")
    }
}
