ghost use Rattle.std.specs.Prelude.{◌≡◌, ◌++◌, IfOk, OnOk};
ghost use Rattle.job_lint.specs.Sentences.{sentence_of, sentence_for, idle_scope_text, idle_handler_text, idle_reason, is_timeout, is_class, is_group, is_closing, unset_event_text, unawaited_event_text, unused_limiter_text, order_inversion_text, unsent_channel_text, unreceived_channel_text, unclosed_channel_text, late_cancel_text};

use crate::warning::{Lint, Warning};
use std::alloc::{AllocError, Global};

/// Returns what a warning says to the user: one sentence of ASCII without a newline. The only error is that memory
/// runs out.
pub fn sentence(alloc: Global, warning: &Warning) -> Result<Vec<u8>, AllocError>
    ensures { IfOk result (λ text. text.items ≡ sentence_of warning.now) }
{
    let mut text = Vec::new(alloc);
    match &warning.name {
        Some(name) => push_sentence(&mut text, warning.lint, name.bytes())?,
        None => push_sentence(&mut text, warning.lint, b"")?,
    }
    Ok(text)
}

// Appends the sentence of a kind of mistake, with the name that it is about.
fn push_sentence(text: &mut Vec<u8>, lint: Lint, name: &[u8]) -> Result<(), AllocError>
    ensures { OnOk result (text.new.items ≡ text.old.items ++ sentence_for lint name.now) }
{
    match lint {
        Lint::Unreachable => {
            text.extend_from_slice(b"this step never runs: the step before it never ends well")
        }
        Lint::ExposedWait => text.extend_from_slice(
            b"a cleanup that waits here is cut off when its task is cancelled: put the wait into a scope with a deadline and `shield`",
        ),
        Lint::RaiseInCleanup => text.extend_from_slice(
            b"an exception raised in a cleanup replaces the one that the cleanup began with",
        ),
        Lint::ShieldWithoutDeadline => text.extend_from_slice(
            b"nothing outside can cancel a wait in this shield: give it a deadline",
        ),
        Lint::IdleScope => push_idle_scope(text, name),
        Lint::IdleHandler => push_idle_handler(text, name),
        Lint::UnsetEvent => push_unset_event(text, name),
        Lint::UnawaitedEvent => push_unawaited_event(text, name),
        Lint::UnusedLimiter => push_unused_limiter(text, name),
        Lint::OrderInversion => push_order_inversion(text, name),
        Lint::UnsentChannel => push_unsent_channel(text, name),
        Lint::UnreceivedChannel => push_unreceived_channel(text, name),
        Lint::UnclosedChannel => push_unclosed_channel(text, name),
        Lint::LateCancel => push_late_cancel(text, name),
    }
}

fn push_idle_scope(text: &mut Vec<u8>, name: &[u8]) -> Result<(), AllocError>
    ensures { OnOk result (text.new.items ≡ text.old.items ++ idle_scope_text name.now) }
{
    push_twice(
        text,
        b"nothing cancels the scope ",
        name,
        b": it has no deadline, and no `cancel ",
        b"` is in it",
    )
}

fn push_unset_event(text: &mut Vec<u8>, name: &[u8]) -> Result<(), AllocError>
    ensures { OnOk result (text.new.items ≡ text.old.items ++ unset_event_text name.now) }
{
    push_twice(
        text,
        b"nothing sets the event ",
        name,
        b": no `set ",
        b"` is in it",
    )
}

fn push_unawaited_event(text: &mut Vec<u8>, name: &[u8]) -> Result<(), AllocError>
    ensures { OnOk result (text.new.items ≡ text.old.items ++ unawaited_event_text name.now) }
{
    push_twice(
        text,
        b"nothing waits for the event ",
        name,
        b": no `wait ",
        b"` is in it",
    )
}

fn push_unused_limiter(text: &mut Vec<u8>, name: &[u8]) -> Result<(), AllocError>
    ensures { OnOk result (text.new.items ≡ text.old.items ++ unused_limiter_text name.now) }
{
    push_twice(
        text,
        b"nothing asks for a token of the limiter ",
        name,
        b": no `acquire ",
        b"` is in it",
    )
}

fn push_order_inversion(text: &mut Vec<u8>, name: &[u8]) -> Result<(), AllocError>
    ensures { OnOk result (text.new.items ≡ text.old.items ++ order_inversion_text name.now) }
{
    push_around(
        text,
        b"tokens of ",
        name,
        b" and of a limiter in it are asked for in both orders, each while the other is held: this may deadlock",
    )
}

fn push_unsent_channel(text: &mut Vec<u8>, name: &[u8]) -> Result<(), AllocError>
    ensures { OnOk result (text.new.items ≡ text.old.items ++ unsent_channel_text name.now) }
{
    text.extend_from_slice(b"nothing sends to the channel ")?;
    text.extend_from_slice(name)?;
    text.extend_from_slice(b" or closes it: neither `send ")?;
    text.extend_from_slice(name)?;
    text.extend_from_slice(b"` nor `close ")?;
    text.extend_from_slice(name)?;
    text.extend_from_slice(b"` is in it")
}

fn push_unreceived_channel(text: &mut Vec<u8>, name: &[u8]) -> Result<(), AllocError>
    ensures { OnOk result (text.new.items ≡ text.old.items ++ unreceived_channel_text name.now) }
{
    push_twice(
        text,
        b"nothing receives from the channel ",
        name,
        b": no `receive ",
        b"` is in it",
    )
}

fn push_unclosed_channel(text: &mut Vec<u8>, name: &[u8]) -> Result<(), AllocError>
    ensures { OnOk result (text.new.items ≡ text.old.items ++ unclosed_channel_text name.now) }
{
    text.extend_from_slice(b"nothing closes the channel ")?;
    text.extend_from_slice(name)?;
    text.extend_from_slice(b", so a `receive ")?;
    text.extend_from_slice(name)?;
    text.extend_from_slice(b"` in a `repeat` may wait for ever: no `close ")?;
    text.extend_from_slice(name)?;
    text.extend_from_slice(b"` is in it")
}

fn push_idle_handler(text: &mut Vec<u8>, name: &[u8]) -> Result<(), AllocError>
    ensures { OnOk result (text.new.items ≡ text.old.items ++ idle_handler_text name.now) }
{
    if name == b"TooSlow".as_slice() {
        return text.extend_from_slice(
            b"no scope in this `try` has `fail`, so nothing raises TooSlow and its handler never runs",
        );
    }
    text.extend_from_slice(b"nothing in this `try` raises ")?;
    text.extend_from_slice(name)?;
    text.extend_from_slice(idle_reason(name))
}

// Returns what a handler of this name may have been meant for, or that it never runs.
fn idle_reason(name: &[u8]) -> &'static [u8]
    ensures { result.now ≡ idle_reason name.now }
{
    if is_timeout(name) {
        b": a scope with `fail` raises TooSlow, which `except TooSlow` handles"
    } else if is_class(name) {
        b": a handler has the name of one exception, and handles no other"
    } else if is_group(name) {
        b": a handler has the name of an exception, and handles all of that name in a group"
    } else if is_closing(name) {
        b": a `send` to a closed channel raises ClosedResource, which `except ClosedResource` handles"
    } else {
        b", so its handler never runs"
    }
}

// Returns whether Trio or Python gives this name to what a scope with `fail` raises.
fn is_timeout(name: &[u8]) -> bool
    ensures { result ≡ is_timeout name.now }
{
    name == b"TooSlowError".as_slice() || name == b"TimeoutError".as_slice()
}

// Returns whether Python has a class of exceptions with this name.
fn is_class(name: &[u8]) -> bool
    ensures { result ≡ is_class name.now }
{
    name == b"Exception".as_slice() || name == b"BaseException".as_slice()
}

// Returns whether Python has groups of exceptions with this name.
fn is_group(name: &[u8]) -> bool
    ensures { result ≡ is_group name.now }
{
    name == b"ExceptionGroup".as_slice() || name == b"BaseExceptionGroup".as_slice()
}

// Returns whether Trio gives this name to what is raised where a channel is closed.
fn is_closing(name: &[u8]) -> bool
    ensures { result ≡ is_closing name.now }
{
    name == b"ClosedResourceError".as_slice() || name == b"BrokenResourceError".as_slice()
}

fn push_late_cancel(text: &mut Vec<u8>, name: &[u8]) -> Result<(), AllocError>
    ensures { OnOk result (text.new.items ≡ text.old.items ++ late_cancel_text name.now) }
{
    push_around(
        text,
        b"`cancel ",
        name,
        b"` in a cleanup or handler takes effect a tick later than in Trio, which may change the outcome: format 3 has Trio's outcome",
    )
}

// Appends some words, a name, and other words.
fn push_around(
    text: &mut Vec<u8>,
    before: &[u8],
    name: &[u8],
    after: &[u8],
) -> Result<(), AllocError>
    ensures { OnOk result (text.new.items ≡ text.old.items ++ (before.now ++ name.now ++ after.now)) }
{
    text.extend_from_slice(before)?;
    text.extend_from_slice(name)?;
    text.extend_from_slice(after)
}

// Appends some words, a name, other words, the name again, and what ends the sentence.
fn push_twice(
    text: &mut Vec<u8>,
    before: &[u8],
    name: &[u8],
    between: &[u8],
    after: &[u8],
) -> Result<(), AllocError>
    ensures { OnOk result (text.new.items
        ≡ text.old.items ++ (before.now ++ name.now ++ between.now ++ name.now ++ after.now)) }
{
    push_around(text, before, name, between)?;
    text.extend_from_slice(name)?;
    text.extend_from_slice(after)
}
