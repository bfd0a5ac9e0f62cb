ghost use Rattle.std.specs.Prelude.{◌≡◌, OnOk};
ghost use Rattle.trio_text.specs.Statements.{
  with_acquire,
  with_object,
  with_object_call,
  with_receive,
  with_received,
  with_send,
};

use crate::names::push_name;
use crate::pieces::{begin, push_gap, push_line};
use crate::statements::push_call;
use job_tree::{Name, ObjectKind};
use std::alloc::AllocError;

// Appends the line that makes a limiter or a channel. Its steps follow at the same level.
#[tactic(auto, unfolding(crate::specs::Statements::with_object))]
pub(crate) fn push_object(
    out: &mut Vec<u8>,
    level: usize,
    name: Name,
    kind: ObjectKind,
) -> Result<(), AllocError>
    ensures { OnOk result (out.new.items ≡ with_object level name kind out.old.items) }
{
    begin(out, level)?;
    push_name(out, name)?;
    push_object_call(out, kind)?;
    out.extend_from_slice(b"\n")
}

// Appends what makes a limiter or a channel. A channel has one name for both of its ends, as it has in the job.
fn push_object_call(out: &mut Vec<u8>, kind: ObjectKind) -> Result<(), AllocError>
    ensures { OnOk result (out.new.items ≡ with_object_call kind out.old.items) }
{
    match kind {
        ObjectKind::Limiter(tokens) => push_call(out, b" = trio.CapacityLimiter(", tokens),
        ObjectKind::Channel(places) => push_call(out, b" = Channel(", places),
    }
}

// Appends the line that takes a token for a block.
#[tactic(auto, unfolding(crate::specs::Statements::with_acquire))]
pub(crate) fn push_acquire(out: &mut Vec<u8>, level: usize, name: Name) -> Result<(), AllocError>
    ensures { OnOk result (out.new.items ≡ with_acquire level name out.old.items) }
{
    begin(out, level)?;
    out.extend_from_slice(b"async with token_of(")?;
    push_name(out, name)?;
    out.extend_from_slice(b"):\n")
}

// Appends the line that sends the task's part.
#[tactic(auto, unfolding(crate::specs::Statements::with_send))]
pub(crate) fn push_send(out: &mut Vec<u8>, level: usize, name: Name) -> Result<(), AllocError>
    ensures { OnOk result (out.new.items ≡ with_send level name out.old.items) }
{
    begin(out, level)?;
    out.extend_from_slice(b"await ")?;
    push_name(out, name)?;
    out.extend_from_slice(b".send_channel.send(part)\n")
}

// Appends the line that begins the function of what is done with a part that is received.
#[tactic(auto, unfolding(crate::specs::Statements::with_received))]
pub(crate) fn push_received(out: &mut Vec<u8>, level: usize) -> Result<(), AllocError>
    ensures { OnOk result (out.new.items ≡ with_received level out.old.items) }
{
    push_gap(out)?;
    push_line(out, level, b"async def received(part):")
}

// Appends the line that receives a part and calls that function.
#[tactic(auto, unfolding(crate::specs::Statements::with_receive))]
pub(crate) fn push_receive(out: &mut Vec<u8>, level: usize, name: Name) -> Result<(), AllocError>
    ensures { OnOk result (out.new.items ≡ with_receive level name out.old.items) }
{
    out.extend_from_slice(b"\n")?;
    begin(out, level)?;
    out.extend_from_slice(b"await received(await ")?;
    push_name(out, name)?;
    out.extend_from_slice(b".receive_channel.receive())\n")
}
