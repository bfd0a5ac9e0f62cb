ghost use Rattle.std.specs.Prelude.{◌≡◌};
ghost use Rattle.job_lint.specs.Warnings.{channel_warning, limiter_warning, object_warning, open_channel_warning};

use crate::sought::{Sought, has};
use crate::warning::{Lint, Warning, warn_if};
use job_tree::{Ask, Body, Name, ObjectKind};

// Returns the warning at a limiter or channel.
pub(crate) fn object_warning(
    name: Name,
    kind: ObjectKind,
    body: &Body,
    at: usize,
) -> Option<Warning>
    ensures { result ≡ object_warning name kind body.now at }
{
    match kind {
        ObjectKind::Limiter(_) => limiter_warning(name, body, at),
        ObjectKind::Channel(_) => channel_warning(name, body, at),
    }
}

// Returns the warning at a limiter.
fn limiter_warning(name: Name, body: &Body, at: usize) -> Option<Warning>
    ensures { result ≡ limiter_warning name body.now at }
{
    let steps = body.as_slice();
    if has(steps, &Sought::Asking(Ask::Acquire, name)) {
        let is_inverted = has(steps, &Sought::Inverted(name));
        warn_if(is_inverted, at, Lint::OrderInversion, Some(name))
    } else {
        warn_if(true, at, Lint::UnusedLimiter, Some(name))
    }
}

// Returns the warning at a channel.
fn channel_warning(name: Name, body: &Body, at: usize) -> Option<Warning>
    ensures { result ≡ channel_warning name body.now at }
{
    let steps = body.as_slice();
    if !has(steps, &Sought::Asking(Ask::Receive, name)) {
        warn_if(true, at, Lint::UnreceivedChannel, Some(name))
    } else if has(steps, &Sought::Close(name)) {
        None
    } else {
        open_channel_warning(name, body, at)
    }
}

// Returns the warning at a channel that nothing closes and from which something receives.
fn open_channel_warning(name: Name, body: &Body, at: usize) -> Option<Warning>
    ensures { result ≡ open_channel_warning name body.now at }
{
    let steps = body.as_slice();
    if has(steps, &Sought::Asking(Ask::Send, name)) {
        let is_looped = has(steps, &Sought::Looped(name));
        warn_if(is_looped, at, Lint::UnclosedChannel, Some(name))
    } else {
        warn_if(true, at, Lint::UnsentChannel, Some(name))
    }
}
