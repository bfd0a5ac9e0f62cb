//! `block_exits`: the exceptions that leave scopes, nurseries, handlers and cleanups.

use crate::fixtures::{label, push_bytes, push_exc, raised_exc, same};
use block_exits::{Kind, exc_after, handler_exc, left_with, outcome_after};
use exceptions::Exc;
use std::alloc::{AllocError, Global};
use std::test::Fail;

// The text of an exception, or `-` if there is none.
fn text_of(alloc: Global, exc: &Option<Exc>) -> Result<Vec<u8>, AllocError> {
    let mut text = Vec::new(alloc);
    match exc {
        Some(exc) => push_exc(&mut text, exc)?,
        None => push_bytes(&mut text, b"-")?,
    }
    Ok(text)
}

// What leaves the block `s` of this kind in tick 5, if it catches or if it does not, with this exception.
fn after_block(alloc: Global, kind: Kind, catches: bool, exc: Exc) -> Result<Vec<u8>, Fail> {
    let block = label(alloc, b"s")?;
    let left = left_with(alloc, catches, Some(exc))?;
    let exc = exc_after(alloc, kind, &block, 5, left)?;
    Ok(text_of(alloc, &exc)?)
}

#[test]
fn a_fail_scope_that_caught_is_too_slow(rt: HostRuntime) -> Result<(), Fail> {
    let caught = after_block(rt.alloc(), Kind::Scope { fail: true }, true, Exc::Cancelled)?;
    same(caught.as_slice(), b"@s@5")
}

#[test]
fn a_nursery_that_catches_nothing_passes_it_on(rt: HostRuntime) -> Result<(), Fail> {
    let passed = after_block(rt.alloc(), Kind::Nursery, false, Exc::Cancelled)?;
    same(passed.as_slice(), b"!")
}

// What remains after a handler that raised `B` with the rest `A`.
fn after_handler(alloc: Global) -> Result<Vec<u8>, Fail> {
    let raised = raised_exc(alloc, b"B", b"b")?;
    let rest = raised_exc(alloc, b"A", b"a")?;
    let exc = handler_exc(alloc, Some(raised), Some(rest))?;
    Ok(text_of(alloc, &exc)?)
}

#[test]
fn a_handlers_group_begins_with_what_it_raised(rt: HostRuntime) -> Result<(), Fail> {
    let found = after_handler(rt.alloc())?;
    same(found.as_slice(), b"*[B@b@0;A@a@0;]")
}

// What remains after a cleanup that raised `B`, where `A` was raised before.
fn after_cleanup(alloc: Global) -> Result<Vec<u8>, Fail> {
    let earlier = raised_exc(alloc, b"A", b"a")?;
    let exc = outcome_after(Some(earlier), Some(raised_exc(alloc, b"B", b"b")?));
    Ok(text_of(alloc, &exc)?)
}

#[test]
fn a_cleanup_replaces_what_was_raised_before(rt: HostRuntime) -> Result<(), Fail> {
    let found = after_cleanup(rt.alloc())?;
    same(found.as_slice(), b"B@b@0")
}
