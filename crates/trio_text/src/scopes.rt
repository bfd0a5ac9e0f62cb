ghost use Rattle.std.specs.Prelude.{◌≡◌, OnOk};
ghost use Rattle.trio_text.specs.Statements.{
  is_plain,
  plain_scope,
  scope_kind,
  with_deadline,
  with_deadline_from,
  with_event,
  with_nursery,
  with_opened,
  with_scope,
  with_scope_call,
  with_setting,
  with_timed_scope,
};

use crate::names::push_name;
use crate::pieces::begin;
use crate::place::deeper;
use crate::statements::push_call;
use basics::push_number;
use job_tree::{Deadline, Name};
use std::alloc::AllocError;

// Appends the line that opens a cancel scope. With `fail`, it raises Trio's TooSlowError. If Trio's call has no argument for a
// shield, the next line sets it.
#[tactic(auto, unfolding(crate::specs::Statements::with_scope))]
pub(crate) fn push_scope(
    out: &mut Vec<u8>,
    level: usize,
    name: Name,
    deadline: Deadline,
    shield: bool,
    fail: bool,
) -> Result<(), AllocError>
    ensures { OnOk result (out.new.items ≡ with_scope level name deadline shield fail out.old.items) }
{
    begin(out, level)?;
    out.extend_from_slice(b"with trio.")?;
    let is_plain = is_plain(deadline, fail);
    push_scope_call(out, is_plain, deadline, shield, fail)?;
    out.extend_from_slice(b" as ")?;
    push_name(out, name)?;
    out.extend_from_slice(b":\n")?;
    push_setting(
        out,
        deeper(level),
        shield & !is_plain,
        name,
        b".shield = True\n",
    )
}

// Returns whether a scope has neither a deadline nor `fail`.
fn is_plain(deadline: Deadline, fail: bool) -> bool
    ensures { result ≡ is_plain deadline fail }
{
    match deadline {
        Deadline::Never => !fail,
        Deadline::After(_) => false,
        Deadline::At(_) => false,
    }
}

// Appends Trio's call for a scope.
fn push_scope_call(
    out: &mut Vec<u8>,
    is_plain: bool,
    deadline: Deadline,
    shield: bool,
    fail: bool,
) -> Result<(), AllocError>
    ensures { OnOk result (out.new.items ≡ with_scope_call is_plain deadline shield fail out.old.items) }
{
    if is_plain {
        out.extend_from_slice(plain_scope(shield))?;
        return Ok(());
    }
    push_timed_scope(out, deadline, fail)?;
    Ok(())
}

fn plain_scope(shield: bool) -> &'static [u8]
    ensures { result.now ≡ plain_scope shield }
{
    if shield {
        b"CancelScope(shield=True)"
    } else {
        b"CancelScope()"
    }
}

fn push_timed_scope(out: &mut Vec<u8>, deadline: Deadline, fail: bool) -> Result<(), AllocError>
    ensures { OnOk result (out.new.items ≡ with_timed_scope deadline fail out.old.items) }
{
    out.extend_from_slice(scope_kind(fail))?;
    match deadline {
        Deadline::Never => out.extend_from_slice(b"_after(float(\"inf\"))"),
        Deadline::After(ticks) => push_call(out, b"_after(", ticks),
        Deadline::At(tick) => push_call(out, b"_at(start + ", tick),
    }
}

fn scope_kind(fail: bool) -> &'static [u8]
    ensures { result.now ≡ scope_kind fail }
{
    if fail { b"fail" } else { b"move_on" }
}

// Appends the line that sets something of a scope or nursery, if it is to be set.
fn push_setting(
    out: &mut Vec<u8>,
    level: usize,
    is_set: bool,
    name: Name,
    setting: &[u8],
) -> Result<(), AllocError>
    ensures { OnOk result (out.new.items ≡ with_setting level is_set name setting.now out.old.items) }
{
    if !is_set {
        return Ok(());
    }
    begin(out, level)?;
    push_name(out, name)?;
    out.extend_from_slice(setting)
}

// Appends the lines that open a nursery, and set its deadline and its shield.
#[tactic(auto, unfolding(crate::specs::Statements::with_nursery))]
pub(crate) fn push_nursery(
    out: &mut Vec<u8>,
    level: usize,
    name: Name,
    deadline: Deadline,
    shield: bool,
) -> Result<(), AllocError>
    ensures { OnOk result (out.new.items ≡ with_nursery level name deadline shield out.old.items) }
{
    push_opened(out, level, name)?;
    let inside = deeper(level);
    push_deadline(out, inside, name, deadline)?;
    push_setting(out, inside, shield, name, b".cancel_scope.shield = True\n")
}

// Appends the line that opens a nursery.
#[tactic(auto, unfolding(crate::specs::Statements::with_opened))]
fn push_opened(out: &mut Vec<u8>, level: usize, name: Name) -> Result<(), AllocError>
    ensures { OnOk result (out.new.items ≡ with_opened level name out.old.items) }
{
    begin(out, level)?;
    out.extend_from_slice(b"async with trio.open_nursery() as ")?;
    push_name(out, name)?;
    out.extend_from_slice(b":\n")
}

// Appends the line that sets the deadline of a nursery, if it has one.
fn push_deadline(
    out: &mut Vec<u8>,
    level: usize,
    name: Name,
    deadline: Deadline,
) -> Result<(), AllocError>
    ensures { OnOk result (out.new.items ≡ with_deadline level name deadline out.old.items) }
{
    match deadline {
        Deadline::Never => Ok(()),
        Deadline::After(ticks) => {
            push_deadline_from(out, level, name, b"trio.current_time() + ", ticks)
        }
        Deadline::At(tick) => push_deadline_from(out, level, name, b"start + ", tick),
    }
}

#[tactic(auto, unfolding(crate::specs::Statements::with_deadline_from))]
fn push_deadline_from(
    out: &mut Vec<u8>,
    level: usize,
    name: Name,
    from: &[u8],
    ticks: u64,
) -> Result<(), AllocError>
    ensures { OnOk result (out.new.items ≡ with_deadline_from level name from.now ticks out.old.items) }
{
    begin(out, level)?;
    push_name(out, name)?;
    out.extend_from_slice(b".cancel_scope.deadline = ")?;
    out.extend_from_slice(from)?;
    push_number(out, ticks)?;
    out.extend_from_slice(b"\n")
}

// Appends the line that makes an event. Its steps follow at the same level.
pub(crate) fn push_event(out: &mut Vec<u8>, level: usize, name: Name) -> Result<(), AllocError>
    ensures { OnOk result (out.new.items ≡ with_event level name out.old.items) }
{
    begin(out, level)?;
    push_name(out, name)?;
    out.extend_from_slice(b" = trio.Event()\n")?;
    Ok(())
}
