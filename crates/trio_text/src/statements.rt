ghost use Rattle.std.specs.Prelude.{◌≡◌, OnOk};
ghost use Rattle.job_tree.specs.Blocks.{step_of};
ghost use Rattle.trio_text.specs.Statements.{with_call, with_cancel, with_close, with_find, with_handling, with_need, with_plain, with_repeat, with_set, with_statement, with_wait};
ghost use Rattle.trio_text.specs.Uses.{known_in};

use crate::names::{push_name, push_raised};
use crate::pieces::{begin, push_if, push_line, push_text};
use crate::place::deeper;
use crate::words::Words;
use basics::push_number;
use job_tree::{Name, Step, Text};
use std::alloc::AllocError;

// Appends the line for a step without a block.
#[tactic(auto, unfolding(crate::specs::Statements::with_plain))]
pub(crate) fn push_plain(
    out: &mut Vec<u8>,
    words: &Words,
    level: usize,
    step: &Step,
) -> Result<(), AllocError>
    ensures { OnOk result (out.new.items ≡ with_plain (known_in words.now) level (step_of step.now) out.old.items) }
{
    begin(out, level)?;
    push_statement(out, words, step)?;
    out.extend_from_slice(b"\n")
}

// Appends the statement of that line.
fn push_statement(out: &mut Vec<u8>, words: &Words, step: &Step) -> Result<(), AllocError>
    ensures { OnOk result (out.new.items ≡ with_statement (known_in words.now) (step_of step.now) out.old.items) }
{
    match step {
        Step::Sleep(ticks) => push_call(out, b"await trio.sleep(", *ticks),
        Step::Checkpoint => out.extend_from_slice(b"await trio.lowlevel.checkpoint()"),
        Step::Forever => out.extend_from_slice(b"await trio.sleep_forever()"),
        Step::Pace(lines) => push_call(out, b"await pace(part, ", *lines),
        Step::Find(text) => push_find(out, *text),
        Step::Head(count) => push_call(out, b"head(part, ", *count),
        Step::Longest => out.extend_from_slice(b"longest(part)"),
        Step::Need { text, name } => push_need(out, words, *text, *name),
        Step::Raise(name) => {
            out.extend_from_slice(b"raise ")?;
            push_raised(out, words, *name)
        }
        Step::Cancel(name) => push_cancel(out, words.is_nursery(*name), *name),
        Step::Set(name) => push_set(out, *name),
        Step::Wait(name) => push_wait(out, *name),
        Step::Close(name) => push_close(out, *name),
        _ => Ok(()),
    }
}

// Appends a call whose last argument is a number.
#[tactic(auto, unfolding(crate::specs::Statements::with_call))]
pub(crate) fn push_call(out: &mut Vec<u8>, call: &[u8], n: u64) -> Result<(), AllocError>
    ensures { OnOk result (out.new.items ≡ with_call call.now n out.old.items) }
{
    out.extend_from_slice(call)?;
    push_number(out, n)?;
    out.extend_from_slice(b")")
}

#[tactic(auto, unfolding(crate::specs::Statements::with_find))]
fn push_find(out: &mut Vec<u8>, text: Text) -> Result<(), AllocError>
    ensures { OnOk result (out.new.items ≡ with_find text out.old.items) }
{
    out.extend_from_slice(b"find(part, ")?;
    push_text(out, text)?;
    out.extend_from_slice(b")")
}

#[tactic(auto, unfolding(crate::specs::Statements::with_need))]
fn push_need(out: &mut Vec<u8>, words: &Words, text: Text, name: Name) -> Result<(), AllocError>
    ensures { OnOk result (out.new.items ≡ with_need (known_in words.now) text name out.old.items) }
{
    out.extend_from_slice(b"need(part, ")?;
    push_text(out, text)?;
    out.extend_from_slice(b", ")?;
    push_raised(out, words, name)?;
    out.extend_from_slice(b")")
}

#[tactic(auto, unfolding(crate::specs::Statements::with_cancel))]
fn push_cancel(out: &mut Vec<u8>, is_nursery: bool, name: Name) -> Result<(), AllocError>
    ensures { OnOk result (out.new.items ≡ with_cancel is_nursery name out.old.items) }
{
    push_name(out, name)?;
    push_if(out, is_nursery, b".cancel_scope")?;
    out.extend_from_slice(b".cancel()")
}

#[tactic(auto, unfolding(crate::specs::Statements::with_set))]
fn push_set(out: &mut Vec<u8>, name: Name) -> Result<(), AllocError>
    ensures { OnOk result (out.new.items ≡ with_set name out.old.items) }
{
    push_name(out, name)?;
    out.extend_from_slice(b".set()")
}

#[tactic(auto, unfolding(crate::specs::Statements::with_wait))]
fn push_wait(out: &mut Vec<u8>, name: Name) -> Result<(), AllocError>
    ensures { OnOk result (out.new.items ≡ with_wait name out.old.items) }
{
    out.extend_from_slice(b"await ")?;
    push_name(out, name)?;
    out.extend_from_slice(b".wait()")
}

#[tactic(auto, unfolding(crate::specs::Statements::with_close))]
fn push_close(out: &mut Vec<u8>, name: Name) -> Result<(), AllocError>
    ensures { OnOk result (out.new.items ≡ with_close name out.old.items) }
{
    push_name(out, name)?;
    out.extend_from_slice(b".send_channel.close()")
}

// Appends the line that begins a loop.
#[tactic(auto, unfolding(crate::specs::Statements::with_repeat))]
pub(crate) fn push_repeat(out: &mut Vec<u8>, level: usize, count: u64) -> Result<(), AllocError>
    ensures { OnOk result (out.new.items ≡ with_repeat level count out.old.items) }
{
    begin(out, level)?;
    push_call(out, b"for _ in range(", count)?;
    out.extend_from_slice(b":\n")
}

// Appends the lines that begin a handler.
#[tactic(auto, unfolding(crate::specs::Statements::with_handling))]
pub(crate) fn push_handling(
    out: &mut Vec<u8>,
    words: &Words,
    level: usize,
    name: Name,
) -> Result<(), AllocError>
    ensures { OnOk result (out.new.items ≡ with_handling (known_in words.now) level name out.old.items) }
{
    push_line(out, level, b"except BaseException as error:")?;
    begin(out, deeper(level))?;
    out.extend_from_slice(b"with handling(")?;
    push_raised(out, words, name)?;
    out.extend_from_slice(b", error):\n")
}
