ghost use Rattle.std.specs.Prelude.{◌≡◌, OnOk};
ghost use Rattle.trio_text.specs.Blocks.{with_nested_calls, with_nested_try};
ghost use Rattle.trio_text.specs.Lines.{with_nested_block, with_nested_call};

use crate::pieces::{push_gap, push_line};
use crate::place::deeper;
use std::alloc::AllocError;

// Begins the function of a block for which Python has no room in the function around it.
#[tactic(auto, unfolding(crate::specs::Lines::with_nested_block))]
pub(crate) fn push_nested_block(out: &mut Vec<u8>, level: usize) -> Result<(), AllocError>
    ensures { OnOk result (out.new.items ≡ with_nested_block level out.old.items) }
{
    push_gap(out)?;
    push_line(out, level, b"async def nested_block():")
}

// Appends the call of that function.
#[tactic(auto, unfolding(crate::specs::Lines::with_nested_call))]
pub(crate) fn push_nested_call(out: &mut Vec<u8>, level: usize) -> Result<(), AllocError>
    ensures { OnOk result (out.new.items ≡ with_nested_call level out.old.items) }
{
    out.extend_from_slice(b"\n")?;
    push_line(out, level, b"await nested_block()")
}

// Begins the functions of a `try` and of its cleanup.
#[tactic(auto, unfolding(crate::specs::Blocks::with_nested_try))]
pub(crate) fn push_nested_try(out: &mut Vec<u8>, level: usize) -> Result<(), AllocError>
    ensures { OnOk result (out.new.items ≡ with_nested_try level out.old.items) }
{
    push_nested_block(out, level)?;
    push_line(out, deeper(level), b"async def nested_cleanup():")
}

// Appends the calls of these functions.
#[tactic(auto, unfolding(crate::specs::Blocks::with_nested_calls))]
pub(crate) fn push_nested_calls(out: &mut Vec<u8>, level: usize) -> Result<(), AllocError>
    ensures { OnOk result (out.new.items ≡ with_nested_calls level out.old.items) }
{
    push_line(out, deeper(level), b"finally:")?;
    push_line(out, deeper(deeper(level)), b"await nested_cleanup()")?;
    push_nested_call(out, level)
}
