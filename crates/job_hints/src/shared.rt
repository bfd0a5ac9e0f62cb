ghost use Rattle.std.specs.Prelude.{◌≡◌};
ghost use Rattle.job_hints.specs.Advice.{object_sentence};
ghost use Rattle.job_hints.specs.Words.{object_advice, is_lock};
ghost use Rattle.job_hints.specs.ByBytes.{object_method_advice};

use crate::advice::Advice;

/// What other programs call a limiter or a channel, or what is done with one.
#[derive(Clone, Copy)]
pub enum ObjectWord {
    /// Trio's `open_memory_channel`.
    OpenChannel,
    /// Trio's `CapacityLimiter`.
    CapacityLimiter,
    /// Trio's `send`, called as a method.
    Send,
    /// Trio's `receive`, called as a method.
    Receive,
    /// Trio's `acquire`, called as a method.
    Acquire,
    /// Trio's `close` and `aclose`, called as methods.
    Close,
    /// A queue.
    Queue,
    /// A lock or a semaphore.
    Lock,
}

impl ObjectWord {
    /// Returns the sentence, with its newline.
    pub fn text(self) -> &'static str
        ensures { result.now ≡ object_sentence self }
    {
        match self {
            ObjectWord::OpenChannel => {
                "Trio's `open_memory_channel(N)` is `channel NAME N { .. }` here, around the tasks that use it\n"
            }
            ObjectWord::CapacityLimiter => {
                "Trio's `CapacityLimiter(N)` is `limiter NAME N { .. }` here, around the tasks that use it\n"
            }
            ObjectWord::Send => "Trio's `await NAME.send(..)` is `send NAME;` here\n",
            ObjectWord::Receive => "Trio's `await NAME.receive()` is `receive NAME { .. }` here\n",
            ObjectWord::Acquire => {
                "Trio's `await NAME.acquire()` is `acquire NAME { .. }` here: the token comes back at the end of the block\n"
            }
            ObjectWord::Close => "Trio's `NAME.close()` is `close NAME;` here\n",
            ObjectWord::Queue => {
                "a queue is `channel NAME N { .. }` here, in format 3, with `send NAME;` and `receive NAME { .. }`\n"
            }
            ObjectWord::Lock => {
                "a lock is `limiter NAME 1 { .. }` here, a semaphore `limiter NAME N { .. }`, in format 3, with `acquire NAME { .. }`\n"
            }
        }
    }
}

// Returns what a job has in place of a word that other programs call a limiter or a channel.
pub(crate) fn object_advice(word: &[u8]) -> Option<Advice>
    ensures { result ≡ object_advice word.now }
{
    if word == b"open_memory_channel".as_slice() {
        Some(Advice::Object(ObjectWord::OpenChannel))
    } else if word == b"CapacityLimiter".as_slice() {
        Some(Advice::Object(ObjectWord::CapacityLimiter))
    } else if word == b"Queue".as_slice() {
        Some(Advice::Object(ObjectWord::Queue))
    } else if is_lock(word) {
        Some(Advice::Object(ObjectWord::Lock))
    } else {
        None
    }
}

// Returns whether a word names a lock or a semaphore.
fn is_lock(word: &[u8]) -> bool
    ensures { result ≡ is_lock word.now }
{
    word == b"Lock".as_slice() || word == b"Semaphore".as_slice()
}

// Returns what a job has in place of what is called after a dot, with which these bytes begin, of limiters and channels.
pub(crate) fn object_method_advice(rest: &[u8]) -> Option<Advice>
    ensures { result ≡ object_method_advice rest.now }
{
    if rest.starts_with(b".open_memory_channel(") {
        Some(Advice::Object(ObjectWord::OpenChannel))
    } else if rest.starts_with(b".CapacityLimiter(") {
        Some(Advice::Object(ObjectWord::CapacityLimiter))
    } else if rest.starts_with(b".send(") {
        Some(Advice::Object(ObjectWord::Send))
    } else if rest.starts_with(b".receive(") {
        Some(Advice::Object(ObjectWord::Receive))
    } else if rest.starts_with(b".acquire(") {
        Some(Advice::Object(ObjectWord::Acquire))
    } else if rest.starts_with(b".close(") || rest.starts_with(b".aclose(") {
        Some(Advice::Object(ObjectWord::Close))
    } else {
        None
    }
}
