ghost use Rattle.std.specs.Prelude.{◌≡◌, Some};
ghost use Rattle.task_table.specs.Entries.{HasAnswer, request_in, wake_of};

use clock::TaskId;
use input_lines::{Answer, Request};
use objects::Grant;
use task_machine::Wake;

/// Why a task is ready.
#[derive(Clone, Copy)]
pub enum Call<'a> {
    /// It was started, and has its first turn.
    Begin,
    /// The moment until which it waited has come.
    Due,
    /// It sees a cancellation while it waits.
    Seen,
    /// The nursery that it waited for is settled.
    Settled,
    /// A limiter or channel granted this.
    Granted(Grant<'a>),
    /// It requests a kernel's answer.
    Ask(Request<'a>),
}

// A ready task, and the answer that was placed for it.
#[derive(Drop)]
pub(crate) struct Entry<'a> {
    pub(crate) task: TaskId,
    pub(crate) call: Call<'a>,
    pub(crate) answer: Option<Answer<'a>>,
}

// The request of a call that asks.
pub(crate) fn request_in<'a>(call: Call<'a>) -> Option<Request<'a>>
    ensures { result ≡ request_in call.entry }
{
    match call {
        Call::Begin => None,
        Call::Due => None,
        Call::Seen => None,
        Call::Settled => None,
        Call::Granted(_) => None,
        Call::Ask(request) => Some(request),
    }
}

// Why the task continues.
pub(crate) fn wake_for<'a>(call: Call<'a>, answer: Option<Answer<'a>>) -> Wake<'a>
    requires { HasAnswer (request_in call) answer }
    ensures { wake_of call.entry answer.entry ≡ Some result }
{
    match call {
        Call::Begin => Wake::Begin,
        Call::Due => Wake::Due,
        Call::Seen => Wake::Seen,
        Call::Settled => Wake::Settled,
        Call::Granted(grant) => Wake::Granted(grant),
        Call::Ask(_) => match answer {
            Some(answer) => Wake::Answer(answer),
            None => unreachable!(),
        },
    }
}
