ghost use Rattle.std.specs.Prelude.{◌≡◌, OnOk};
ghost use Rattle.trio_text.specs.Statements.{parameters, with_cuts, with_each_cut, with_each_part, with_start, with_starts, with_task};

use crate::names::push_name;
use crate::pieces::{begin, push_gap, push_line};
use crate::place::deeper;
use crate::statements::push_call;
use job_tree::Name;
use std::alloc::AllocError;

// Appends the line that begins the function of a started task. One of several copies gets its own part of the input.
#[tactic(auto, unfolding(crate::specs::Statements::with_task))]
pub(crate) fn push_task(
    out: &mut Vec<u8>,
    level: usize,
    name: Name,
    over: Option<u64>,
) -> Result<(), AllocError>
    ensures { OnOk result (out.new.items ≡ with_task level name over out.old.items) }
{
    push_gap(out)?;
    push_line(out, level, b"@reported")?;
    begin(out, level)?;
    out.extend_from_slice(b"async def ")?;
    push_name(out, name)?;
    out.extend_from_slice(parameters(over))
}

// Returns the parameters of the function of a started task.
fn parameters(over: Option<u64>) -> &'static [u8]
    ensures { result.now ≡ parameters over }
{
    match over {
        None => b"():\n",
        Some(_) => b"(part):\n",
    }
}

// Appends the lines that start a task, or one task for each part of the input.
#[tactic(auto, unfolding(crate::specs::Statements::with_starts))]
pub(crate) fn push_starts(
    out: &mut Vec<u8>,
    level: usize,
    around: Name,
    name: Name,
    over: Option<u64>,
) -> Result<(), AllocError>
    ensures { OnOk result (out.new.items ≡ with_starts level around name over out.old.items) }
{
    match over {
        None => {
            out.extend_from_slice(b"\n")?;
            push_start(out, level, around, name, b")\n")
        }
        Some(copies) => {
            push_cuts(out, level, copies)?;
            push_start(out, deeper(level), around, name, b", cut)\n")
        }
    }
}

// Appends an empty line, and the line that begins a loop over the parts of the input.
#[tactic(auto, unfolding(crate::specs::Statements::with_cuts))]
fn push_cuts(out: &mut Vec<u8>, level: usize, count: u64) -> Result<(), AllocError>
    ensures { OnOk result (out.new.items ≡ with_cuts level count out.old.items) }
{
    out.extend_from_slice(b"\n")?;
    begin(out, level)?;
    push_call(out, b"for cut in over(part, ", count)?;
    out.extend_from_slice(b":\n")
}

// Appends the line that begins the function of a pass of a `repeat over`.
#[tactic(auto, unfolding(crate::specs::Statements::with_each_part))]
pub(crate) fn push_each_part(out: &mut Vec<u8>, level: usize) -> Result<(), AllocError>
    ensures { OnOk result (out.new.items ≡ with_each_part level out.old.items) }
{
    push_gap(out)?;
    push_line(out, level, b"async def each_part(part):")
}

// Appends the lines that call that function for each part of the input.
#[tactic(auto, unfolding(crate::specs::Statements::with_each_cut))]
pub(crate) fn push_each_cut(out: &mut Vec<u8>, level: usize, count: u64) -> Result<(), AllocError>
    ensures { OnOk result (out.new.items ≡ with_each_cut level count out.old.items) }
{
    push_cuts(out, level, count)?;
    push_line(out, deeper(level), b"await each_part(cut)")
}

// Appends the line that starts a task in the nursery around it.
#[tactic(auto, unfolding(crate::specs::Statements::with_start))]
fn push_start(
    out: &mut Vec<u8>,
    level: usize,
    around: Name,
    name: Name,
    end: &[u8],
) -> Result<(), AllocError>
    ensures { OnOk result (out.new.items ≡ with_start level around name end.now out.old.items) }
{
    begin(out, level)?;
    push_name(out, around)?;
    out.extend_from_slice(b".start_soon(")?;
    push_name(out, name)?;
    out.extend_from_slice(end)?;
    Ok(())
}
