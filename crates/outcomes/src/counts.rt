ghost use Rattle.std.specs.Prelude.{◌≡◌, ◌++◌, OnOk, decimal, map};
ghost use Rattle.outcomes.specs.JobOutcomes.{is_stuck, has_lost, is_refused};
ghost use Rattle.outcomes.specs.Table.{count, is_unreached, counts_of, faults_text, more_text, counts_text};
ghost use Rattle.outcomes.specs.Views.{line_held};

use crate::line::Line;
use basics::push_number;
use std::alloc::AllocError;

/// How many faults there are in all, and of each kind.
#[derive(Clone, Copy, Debug, PartialEq, Eq)]
pub struct Counts {
    /// All faults.
    pub faults: usize,
    /// Those with which the job does not end by the limit.
    pub stuck: usize,
    /// Those with which a cleanup is cut that is not cut without the fault.
    pub cut: usize,
    /// Those whose exception is lost.
    pub lost: usize,
    /// Those that are not reached.
    pub unreached: usize,
    /// Those that were not tried, since their text is refused.
    pub not_tried: usize,
}

impl Counts {
    /// Returns how many of these lines are of each kind.
    pub fn of(lines: &[Line]) -> Counts
        ensures { result ≡ counts_of (map line_held lines.now) }
    {
        Counts {
            faults: lines.len(),
            stuck: stuck_in(lines),
            cut: cut_in(lines),
            lost: lost_in(lines),
            unreached: unreached_in(lines),
            not_tried: refused_in(lines),
        }
    }
}

// Appends how many lines there are of each kind.
pub(crate) fn push_counts(out: &mut Vec<u8>, counts: Counts) -> Result<(), AllocError>
    ensures { OnOk result (out.new.items ≡ out.old.items ++ counts_text counts) }
{
    push_faults(out, counts.faults)?;
    push_count(out, counts.stuck, b" stuck, ")?;
    push_count(out, counts.cut, b" cut a cleanup, ")?;
    push_count(out, counts.lost, b" lost, ")?;
    push_count(out, counts.unreached, b" not reached")?;
    push_more(out, counts.not_tried, b" not tried")?;
    out.extend_from_slice(b"\n")
}

// Returns how many jobs do not end by the limit.
fn stuck_in(lines: &[Line]) -> usize
    ensures { result ≡ count (λ l. is_stuck l.job_outcome) (map line_held lines.now) }
{
    lines
        .iter()
        .filter(|line| line.job_outcome.is_stuck())
        .count()
}

// Returns how many faults cut a cleanup.
fn cut_in(lines: &[Line]) -> usize
    ensures { result ≡ count (λ l. l.cuts) (map line_held lines.now) }
{
    lines.iter().filter(|line| line.cuts).count()
}

// Returns how many jobs lose the exception of the fault.
fn lost_in(lines: &[Line]) -> usize
    ensures { result ≡ count (λ l. has_lost l.job_outcome) (map line_held lines.now) }
{
    lines
        .iter()
        .filter(|line| line.job_outcome.has_lost())
        .count()
}

// Returns how many faults are not reached.
fn unreached_in(lines: &[Line]) -> usize
    ensures { result ≡ count is_unreached (map line_held lines.now) }
{
    lines.iter().filter(|line| line.is_unreached()).count()
}

// Returns how many texts are refused.
fn refused_in(lines: &[Line]) -> usize
    ensures { result ≡ count (λ l. is_refused l.job_outcome) (map line_held lines.now) }
{
    lines
        .iter()
        .filter(|line| line.job_outcome.is_refused())
        .count()
}

/// Appends a number and what it counts. The only error is that memory runs out.
pub fn push_count(out: &mut Vec<u8>, n: usize, what: &[u8]) -> Result<(), AllocError>
    ensures { OnOk result (out.new.items ≡ out.old.items ++ (decimal n ++ what.now)) }
{
    push_number(out, n as u64)?;
    out.extend_from_slice(what)
}

// Appends how many faults there are.
fn push_faults(out: &mut Vec<u8>, n: usize) -> Result<(), AllocError>
    ensures { OnOk result (out.new.items ≡ out.old.items ++ faults_text n) }
{
    if n == 1 {
        push_count(out, n, b" fault: ")
    } else {
        push_count(out, n, b" faults: ")
    }
}

/// Appends a comma, a number and what it counts, or nothing if the number is 0. The only error is that memory runs out.
pub fn push_more(out: &mut Vec<u8>, n: usize, what: &[u8]) -> Result<(), AllocError>
    ensures { OnOk result (out.new.items ≡ out.old.items ++ more_text n what.now) }
{
    if n == 0 {
        return Ok(());
    }
    out.extend_from_slice(b", ")?;
    push_count(out, n, what)
}
